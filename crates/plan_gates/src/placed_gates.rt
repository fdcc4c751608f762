//! The gates of a move whose wires are placed.

ghost use Rattle.std.specs.Prelude.{◌≡◌, IsSome, IfSome};
ghost use Rattle.gate_emit.specs.Plans.{gates_of};
ghost use Rattle.plan_gates.specs.PlacedMoves.{CanBeEmitted, HasFreedQubit, HasQubits, control_at, flip_of, freed_move, hadamard_of, move_of_placed, move_of_step, qubit};

use flat_core::{End, Lit, Step};
use gate_emit::emit::emit;
use gate_emit::{Control, GateRow, PlacedMove, QubitMove};
use qubit_alloc::Placed;

/// The gates of a placed move, in order, at most nine. It takes no memory.
pub fn emit_placed(placed: &Placed) -> GateRow
    requires { CanBeEmitted placed.now }
    ensures { result ≡ gates_of (move_of_placed placed.now) }
{
    emit(&placed_move(placed))
}

/// A placed move as a move on qubits: its step on the qubits that are told of it, or where it has no step the freeing of
/// a wire. A Measured wire that is freed is cleared by its outcome bit; for a Zeroed one nothing is to be done.
pub fn placed_move(placed: &Placed) -> PlacedMove
    requires { CanBeEmitted placed.now }
    ensures { result ≡ move_of_placed placed.now }
{
    match placed.step {
        Some(step) => step_move(placed, step),
        None => freed(placed),
    }
}

// A step on the qubits that are told of it.
fn step_move(placed: &Placed, step: Step) -> PlacedMove
    requires { HasQubits placed.now step }
    ensures { result ≡ move_of_step placed.now step }
{
    match step {
        Step::X { first, second, .. } => PlacedMove::Unitary(flip(placed, first, second)),
        Step::H { control, .. } => PlacedMove::Unitary(hadamard(placed, control)),
        Step::P { eighths, control } => PlacedMove::Unitary(QubitMove::PhaseBy {
            eighths,
            control: on_qubit(control, placed.first),
        }),
        Step::M { number, .. } => PlacedMove::Measured {
            qubit: told(placed.target),
            bit: number,
        },
    }
}

// A flip under the controls that there are.
fn flip(placed: &Placed, first: Option<Lit>, second: Option<Lit>) -> QubitMove
    requires on_target { IsSome placed.now.target }
    requires on_first { IfSome first (λ l. IsSome placed.now.first) }
    requires on_second { IfSome second (λ l. IsSome placed.now.second) }
    ensures { result ≡ flip_of placed.now first second }
{
    let target = told(placed.target);
    match (first, second) {
        (None, None) => QubitMove::Flip { target },
        (Some(literal), None) => QubitMove::FlipBy {
            control: on_qubit(literal, placed.first),
            target,
        },
        (None, Some(literal)) => QubitMove::FlipBy {
            control: on_qubit(literal, placed.second),
            target,
        },
        (Some(one), Some(other)) => QubitMove::FlipByTwo {
            first: on_qubit(one, placed.first),
            second: on_qubit(other, placed.second),
            target,
        },
    }
}

// A Hadamard matrix under the control, if there is one.
fn hadamard(placed: &Placed, control: Option<Lit>) -> QubitMove
    requires on_target { IsSome placed.now.target }
    requires on_control { IfSome control (λ l. IsSome placed.now.first) }
    ensures { result ≡ hadamard_of placed.now control }
{
    let target = told(placed.target);
    match control {
        None => QubitMove::Hadamard { target },
        Some(literal) => QubitMove::HadamardBy {
            control: on_qubit(literal, placed.first),
            target,
        },
    }
}

// The freeing of a wire.
fn freed(placed: &Placed) -> PlacedMove
    requires { HasFreedQubit placed.now.end placed.now.target }
    ensures { result ≡ freed_move placed.now.end placed.now.target placed.now.bit }
{
    match placed.end {
        End::Measured => PlacedMove::Cleared {
            qubit: told(placed.target),
            bit: placed.bit,
        },
        End::Output | End::Dropped | End::Zeroed => PlacedMove::Released,
    }
}

// A control on its qubit, with the sign of its literal.
fn on_qubit(literal: Lit, place: Option<u32>) -> Control
    requires { IsSome place }
    ensures { result ≡ control_at place literal }
{
    Control {
        qubit: told(place),
        positive: literal.positive,
    }
}

// The qubit that is told.
fn told(place: Option<u32>) -> u32
    requires { IsSome place }
    ensures { result ≡ qubit place }
{
    place.unwrap()
}
