//! The statements of a circuit in turn.

ghost use Rattle.std.specs.Prelude.{◌≡◌, ◌≤◌, ◌^◌, All, false, [], ◌∷◌, length, replicate, IfOk};
ghost use Rattle.amp_core.specs.Amplitude.{one};
ghost use Rattle.sum_laws.specs.Table.{TableOf};
ghost use Rattle.sum_laws.specs.Terms.{apply};
ghost use Rattle.sum_laws.specs.Units.{StandsFor};
ghost use Rattle.gate_core.specs.Circuit.{qubits_of, bits_of};
ghost use Rattle.gate_core.specs.Local.{AllBelow, HasWidth};
ghost use Rattle.gate_core.specs.Meaning.{branches, known_after, run as run_of};
ghost use Rattle.amp_run.specs.Refusal.{h_gates, h_gates_in};
ghost use Rattle.amp_run.specs.Room.{HasRoom};

use crate::parts::parts_of;
use crate::start::zeros;
use amp_core::Amp;
use gate_core::{Circuit, Gate};
use std::alloc::{AllocError, Global};
use sum_laws::{BitList, Table, Terms};

// The table of a circuit's run from one basis state.
pub fn run(
    alloc: Global,
    circuit: &Circuit,
    bits: BitList,
    outcome: &[bool],
) -> Result<Table, AllocError>
    requires width { length bits ≡ circuit.now.qubits }
    requires outcome_bits { length outcome.now ≡ circuit.now.bits }
    requires few { h_gates circuit.now.gates ≤ 50 }
    ensures table { IfOk result (λ t. TableOf (run_of outcome.now (replicate circuit.now.bits false) circuit.now.gates ((bits, one) ∷ [])) t) }
    ensures wide { IfOk result (λ t. HasWidth circuit.now.qubits t) }
    ensures small { IfOk result (λ t. StandsFor (2 ^ 50) 50 t) }
{
    let mut known = zeros(alloc, circuit.bits())?;
    let mut rows = first_row(alloc, bits)?;
    for i in 0..circuit.len() {
        let gate = circuit.gate(i).unwrap();
        rows = next_rows(alloc, rows, gate, outcome, known.as_slice())?;
        note_measured(&mut known, gate, outcome);
    }
    Ok(rows)
}

// The table of one basis state.
fn first_row(alloc: Global, bits: BitList) -> Result<Table, AllocError>
    ensures { IfOk result (λ t. TableOf ((bits, one) ∷ []) t) }
{
    let mut terms = Terms::new(alloc);
    terms.push((bits, Amp::ONE))?;
    terms.merged()
}

// The table after one statement more.
fn next_rows(
    alloc: Global,
    rows: Table,
    gate: Gate,
    outcome: &[bool],
    known: &[bool],
) -> Result<Table, AllocError>
    requires room { HasRoom (h_gates_in gate) rows }
    requires qubits { All (λ t. AllBelow (length t.0) (qubits_of gate)) rows }
    requires outcome_bits { AllBelow (length outcome.now) (bits_of gate) }
    requires known_bits { AllBelow (length known.now) (bits_of gate) }
    ensures { IfOk result (λ t. TableOf (apply (branches outcome.now known.now gate) rows) t) }
{
    parts_of(alloc, rows.into_terms(), gate, outcome, known)?
        .joined()?
        .merged()
}

// Keeps the bit that a statement measures.
fn note_measured(known: &mut BitList, gate: Gate, outcome: &[bool])
    requires outcome_bits { AllBelow (length outcome.now) (bits_of gate) }
    requires known_bits { AllBelow (length known.old) (bits_of gate) }
    ensures { known.new ≡ known_after outcome.now known.old gate }
{
    if let Gate::Measure { q: _, bit } = gate {
        known.set(bit as usize, outcome[bit as usize]);
    }
}
