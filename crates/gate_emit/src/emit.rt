//! From a move on qubits to its gates.

ghost use Rattle.std.specs.Prelude.{◌≡◌, ℕ, ◌<◌, ◌≤◌, ◌+◌, List, [], ◌∷◌, ◌++◌, map, length};
ghost use Rattle.gate_emit.specs.Moves.{negation, move_gates, PhaseFits};
ghost use Rattle.gate_emit.specs.Plans.{gates_of, EighthsFit};
ghost use Rattle.gate_core.specs.Local.{as_gate};

use crate::placed::{Control, PlacedMove, QubitMove};
use crate::row::GateRow;
use gate_core::gate::{Gate, OneKind, PlainGate};

/// The gates of a move, in order, at most nine. It takes no memory.
///
/// A control that holds at 0 is negated before and restored after: with two, the first is
/// negated first and restored last.
pub fn emit(mv: &PlacedMove) -> GateRow
    requires { EighthsFit mv.now }
    ensures { result ≡ gates_of mv.now }
{
    match *mv {
        PlacedMove::Unitary(unitary) => unitary_gates(unitary),
        PlacedMove::Measured { qubit, bit } => single(Gate::Measure { q: qubit, bit }),
        PlacedMove::Cleared { qubit, bit } => {
            let flip = PlainGate::One {
                kind: OneKind::X,
                q: qubit,
            };
            single(Gate::If {
                bit,
                value: 1,
                gate: flip,
            })
        }
        PlacedMove::Released => GateRow::new(),
    }
}

// The gates of a unitary move.
fn unitary_gates(mv: QubitMove) -> GateRow
    requires { PhaseFits mv }
    ensures { result ≡ map as_gate (move_gates mv) }
{
    match mv {
        QubitMove::Flip { target } => single(one(OneKind::X, target)),
        QubitMove::FlipBy { control, target } => controlled_flip(control, target),
        QubitMove::FlipByTwo {
            first,
            second,
            target,
        } => twice_controlled_flip(first, second, target),
        QubitMove::Hadamard { target } => single(one(OneKind::H, target)),
        QubitMove::HadamardBy { control, target } => controlled_hadamard(control, target),
        QubitMove::PhaseBy { eighths, control } => phase(eighths, control),
    }
}

// A gate on one qubit.
fn one(kind: OneKind, q: u32) -> Gate
    ensures { result ≡ Gate.One kind q }
{
    Gate::One { kind, q }
}

// A row of one gate.
fn single(gate: Gate) -> GateRow
    ensures { result ≡ gate ∷ [] }
{
    let mut row = GateRow::new();
    row.push(gate);
    row
}

// Negates a control that holds at 0.
fn negate(row: &mut GateRow, control: Control)
    requires { length row.old < 9 }
    ensures { row.new ≡ row.old ++ negation control }
{
    if !control.positive {
        row.push(one(OneKind::X, control.qubit));
    }
}

// Takes the negation of a control back.
fn restore(row: &mut GateRow, control: Control)
    requires { length row.old < 9 }
    ensures { row.new ≡ row.old ++ negation control }
{
    negate(row, control);
}

// A flip under a control.
fn controlled_flip(control: Control, target: u32) -> GateRow
    ensures { result ≡ map as_gate (move_gates (QubitMove.FlipBy control target)) }
{
    let mut row = GateRow::new();
    negate(&mut row, control);
    row.push(Gate::Cx {
        c: control.qubit,
        t: target,
    });
    restore(&mut row, control);
    row
}

// A flip under two controls.
fn twice_controlled_flip(first: Control, second: Control, target: u32) -> GateRow
    ensures { result ≡ map as_gate (move_gates (QubitMove.FlipByTwo first second target)) }
{
    let mut row = GateRow::new();
    negate_both(&mut row, first, second);
    row.push(Gate::Ccx {
        a: first.qubit,
        b: second.qubit,
        t: target,
    });
    negate_both(&mut row, second, first);
    row
}

// Negates two controls in this order, or takes their negations back.
fn negate_both(row: &mut GateRow, first: Control, second: Control)
    requires { length row.old < 8 }
    ensures { row.new ≡ row.old ++ (negation first ++ negation second) }
{
    negate(row, first);
    negate(row, second);
}

// A Hadamard under a control.
fn controlled_hadamard(control: Control, target: u32) -> GateRow
    ensures { result ≡ map as_gate (move_gates (QubitMove.HadamardBy control target)) }
{
    let mut row = GateRow::new();
    negate(&mut row, control);
    row.push(one(OneKind::S, target));
    row.push(one(OneKind::H, target));
    row.push(one(OneKind::T, target));
    row.push(Gate::Cx {
        c: control.qubit,
        t: target,
    });
    row.push(one(OneKind::Tdg, target));
    row.push(one(OneKind::H, target));
    row.push(one(OneKind::Sdg, target));
    restore(&mut row, control);
    row
}

// A phase where a control holds.
fn phase(eighths: u8, control: Control) -> GateRow
    requires some { 0 < eighths }
    requires few { eighths < 8 }
    ensures { result ≡ map as_gate (move_gates (QubitMove.PhaseBy eighths control)) }
{
    let mut row = GateRow::new();
    negate(&mut row, control);
    match eighths {
        1 => row.push(one(OneKind::T, control.qubit)),
        2 => row.push(one(OneKind::S, control.qubit)),
        3 => {
            row.push(one(OneKind::S, control.qubit));
            row.push(one(OneKind::T, control.qubit));
        }
        4 => row.push(one(OneKind::Z, control.qubit)),
        5 => {
            row.push(one(OneKind::Z, control.qubit));
            row.push(one(OneKind::T, control.qubit));
        }
        6 => row.push(one(OneKind::Sdg, control.qubit)),
        _ => row.push(one(OneKind::Tdg, control.qubit)),
    }
    restore(&mut row, control);
    row
}
