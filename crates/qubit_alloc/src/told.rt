//! What is told of a move: its step, the qubits of its wires, and its outcome bit.

ghost use Rattle.std.specs.Prelude.{◌≡◌, ◌<◌, length, get_or, cond, IfSome};
ghost use Rattle.flat_core.specs.Label.{EachNamed, end_of};
ghost use Rattle.flat_core.specs.Sound.{IsFlat};
ghost use Rattle.move_plan.specs.Effect.{is_measured};
ghost use Rattle.move_plan.specs.Track.{MoveThere, touched};
ghost use Rattle.qubit_alloc.specs.Place.{step_of};
ghost use Rattle.qubit_alloc.specs.PlacedMoves.{end_wire, number_in};
ghost use Rattle.qubit_alloc.specs.State.{noted, qubit_of, step_row, placed_row};

use crate::placed::Placed;
use flat_core::{End, Flat, Step, WireId};
use move_plan::Move;

/// The step of a move: none for a Free.
pub fn step_of(flat: &Flat, mv: Move) -> Option<Step>
    requires { MoveThere flat.now mv }
    ensures { result ≡ step_of flat.now mv }
{
    match mv {
        Move::Up(s) | Move::Down(s) | Move::Do(s) => Some(flat.step(s)),
        Move::Free(_) => None,
    }
}

/// The wire that a move may make live or not.
pub fn touched_wire(flat: &Flat, mv: Move) -> Option<WireId>
    requires { MoveThere flat.now mv }
    ensures { result ≡ touched flat.now mv }
{
    match mv {
        Move::Up(s) | Move::Down(s) | Move::Do(s) => flat.step(s).main_wire(),
        Move::Free(w) => Some(w),
    }
}

/// Notes the outcome number of the wire that a step measures.
pub fn note(numbers: &mut Vec<u32>, step: Option<Step>)
    requires { IfSome step (EachNamed (λ w. w.number < length numbers.old.items)) }
    ensures { numbers.new.items ≡ noted numbers.old.items step }
{
    if let Some(Step::M { wire, number }) = step {
        numbers[wire.number as usize] = number;
    }
}

/// The move with the qubits and the outcome number that the rows tell.
pub fn placed_row(flat: &Flat, mv: Move, qubits: &[Option<u32>], numbers: &[u32]) -> Placed
    requires sound { IsFlat flat.now }
    requires there { MoveThere flat.now mv }
    requires touches { IfSome (touched flat.now mv) (λ w. w.number < length flat.now.wires) }
    requires qubits { length qubits.now ≡ length flat.now.wires }
    requires numbers { length numbers.now ≡ length flat.now.wires }
    ensures { result ≡ placed_row flat.now mv qubits.now numbers.now }
{
    match mv {
        Move::Up(s) | Move::Down(s) | Move::Do(s) => step_row(flat, mv, flat.step(s), qubits),
        Move::Free(w) => Placed {
            mv,
            step: None,
            end: flat.end(w),
            target: qubits[w.number as usize],
            first: None,
            second: None,
            bit: freed_bit(flat, w, numbers),
        },
    }
}

// What the rows tell of a step.
fn step_row(flat: &Flat, mv: Move, step: Step, qubits: &[Option<u32>]) -> Placed
    requires there { EachNamed (λ w. w.number < length flat.now.wires) step }
    requires qubits { length qubits.now ≡ length flat.now.wires }
    ensures { result ≡ step_row flat.now mv step qubits.now }
{
    Placed {
        mv,
        step: Some(step),
        end: flat.end(end_wire(step)),
        target: qubit_of(qubits, step.main_wire()),
        first: qubit_of(qubits, step.first_wire()),
        second: qubit_of(qubits, step.second_wire()),
        bit: number_in(step),
    }
}

// The wire whose end is told: what a step changes or measures, and the control of a P.
fn end_wire(step: Step) -> WireId
    ensures { result ≡ end_wire step }
{
    match step {
        Step::X { target, .. } | Step::H { target, .. } => target,
        Step::P { control, .. } => control.wire,
        Step::M { wire, .. } => wire,
    }
}

// The number of the outcome bit of a measure, 0 for another step.
fn number_in(step: Step) -> u32
    ensures { result ≡ number_in step }
{
    match step {
        Step::M { number, .. } => number,
        Step::X { .. } | Step::H { .. } | Step::P { .. } => 0,
    }
}

// The qubit told of a wire, if there is a wire and it is on one.
fn qubit_of(qubits: &[Option<u32>], w: Option<WireId>) -> Option<u32>
    requires { IfSome w (λ v. v.number < length qubits.now) }
    ensures { result ≡ qubit_of qubits.now w }
{
    match w {
        Some(w) => qubits[w.number as usize],
        None => None,
    }
}

// The number of the outcome bit of a freed Measured wire, 0 for another wire.
fn freed_bit(flat: &Flat, w: WireId, numbers: &[u32]) -> u32
    requires there { w.number < length flat.now.wires }
    requires numbers { length numbers.now ≡ length flat.now.wires }
    ensures { result ≡ cond (is_measured (end_of flat.now w)) (get_or numbers.now w.number 0) 0 }
{
    match flat.end(w) {
        End::Measured => numbers[w.number as usize],
        End::Output | End::Dropped | End::Zeroed => 0,
    }
}
