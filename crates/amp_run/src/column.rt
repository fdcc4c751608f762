//! What a statement does to a basis state.

ghost use Rattle.std.specs.Prelude.{◌≡◌, [], ◌∷◌, length, if◌then◌else◌};
ghost use Rattle.gate_core.specs.Circuit.{qubits_of, bits_of};
ghost use Rattle.gate_core.specs.Local.{AllBelow, gate_qubits};
ghost use Rattle.gate_core.specs.Meaning.{bit_at, branches, plain_branches, one_branches};
ghost use Rattle.amp_run.specs.Column.{column_branches, ColumnFits};
ghost use Rattle.amp_run.specs.declared.column.Column.TheVariants.{Turned};

use gate_core::{Gate, OneKind, PlainGate};

// The branches of a statement at one basis state. With w the eighth root of unity:
#[derive(Clone, Copy)]
pub enum Column {
    // No branch.
    Gone,
    // The same bits, times w^eighths.
    Turned { eighths: u8 },
    // The bits with q flipped, times w^eighths.
    Flipped { q: u32, eighths: u8 },
    // The column of the Hadamard matrix on q.
    Halved { q: u32 },
}

// The column of a statement at these bits, by the outcome bits and those measured so far.
pub fn column_of(gate: Gate, outcome: &[bool], known: &[bool], bits: &[bool]) -> Column
    requires qubits { AllBelow (length bits.now) (qubits_of gate) }
    requires outcome_bits { AllBelow (length outcome.now) (bits_of gate) }
    requires known_bits { AllBelow (length known.now) (bits_of gate) }
    ensures branches { column_branches result bits.now ≡ branches outcome.now known.now gate bits.now }
    ensures fits { ColumnFits (length bits.now) result }
{
    match gate {
        Gate::One { kind, q } => one_column(kind, q, bits),
        Gate::Cx { c, t } => plain_column(PlainGate::Cx { c, t }, bits),
        Gate::Cz { c, t } => plain_column(PlainGate::Cz { c, t }, bits),
        Gate::Ccx { a, b, t } => plain_column(PlainGate::Ccx { a, b, t }, bits),
        Gate::Measure { q, bit } => {
            if bits[q as usize] == outcome[bit as usize] {
                Column::Turned { eighths: 0 }
            } else {
                Column::Gone
            }
        }
        Gate::If { bit, value, gate } => {
            if known[bit as usize] as u64 == value {
                plain_column(gate, bits)
            } else {
                Column::Turned { eighths: 0 }
            }
        }
    }
}

// The column of a gate's matrix.
fn plain_column(gate: PlainGate, bits: &[bool]) -> Column
    requires { AllBelow (length bits.now) (gate_qubits gate) }
    ensures branches { column_branches result bits.now ≡ plain_branches gate bits.now }
    ensures fits { ColumnFits (length bits.now) result }
{
    match gate {
        PlainGate::One { kind, q } => one_column(kind, q, bits),
        PlainGate::Cx { c, t } => flipped_if(bits[c as usize], t),
        PlainGate::Cz { c, t } => turned_if(bits[c as usize] && bits[t as usize], 4),
        PlainGate::Ccx { a, b, t } => flipped_if(bits[a as usize] && bits[b as usize], t),
    }
}

// The column of a one-qubit matrix.
fn one_column(kind: OneKind, q: u32, bits: &[bool]) -> Column
    requires { AllBelow (length bits.now) (q ∷ []) }
    ensures branches { column_branches result bits.now ≡ one_branches kind q bits.now }
    ensures fits { ColumnFits (length bits.now) result }
{
    let bit = bits[q as usize];
    match kind {
        OneKind::Id => turned_if(false, 0),
        OneKind::X => flipped_if(true, q),
        OneKind::Y => Column::Flipped {
            q,
            eighths: if bit { 6 } else { 2 },
        },
        OneKind::Z => turned_if(bit, 4),
        OneKind::H => Column::Halved { q },
        OneKind::S => turned_if(bit, 2),
        OneKind::Sdg => turned_if(bit, 6),
        OneKind::T => turned_if(bit, 1),
        OneKind::Tdg => turned_if(bit, 7),
    }
}

// Times w^eighths where the condition holds.
fn turned_if(condition: bool, eighths: u8) -> Column
    ensures { result ≡ Turned (if condition then eighths else 0) }
{
    let eighths = if condition { eighths } else { 0 };
    Column::Turned { eighths }
}

// The bit of q flipped where the condition holds.
fn flipped_if(condition: bool, q: u32) -> Column
    ensures { result ≡ (if condition then Column.Flipped q 0 else Column.Turned 0) }
{
    if condition {
        Column::Flipped { q, eighths: 0 }
    } else {
        Column::Turned { eighths: 0 }
    }
}
