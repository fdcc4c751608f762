//! Moves on qubits.

use flat_core::{End, Step};
use move_plan::Move;

/// A move with the qubits that its wires stand on.
#[derive(Clone, Copy, PartialEq, Eq)]
pub struct Placed {
    /// The move.
    pub mv: Move,
    /// The move's step, with wires: none for a Free.
    pub step: Option<Step>,
    /// What becomes of the step's target, of the measured or of the freed wire, and for a P of its control.
    pub end: End,
    /// The qubit of the target, of the measured or of the freed wire, if there is one and it is on a qubit.
    pub target: Option<u32>,
    /// The qubit of the first control, which the one control of an H or a P is, if there is one.
    pub first: Option<u32>,
    /// The qubit of the second control, if there is one.
    pub second: Option<u32>,
    /// The number of the outcome bit of a measure, or of the measure of a freed Measured wire, else 0.
    pub bit: u32,
}
