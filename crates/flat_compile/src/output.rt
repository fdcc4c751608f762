//! What is put for a plan.

/// What is put for a compiled program.
#[derive(Clone, Copy, PartialEq, Eq)]
pub enum Output {
    /// The OpenQASM text of its circuit.
    Text,
    /// The seven lines of its report: wires, steps and outcomes of the flat form, the level of recomputation, moves, width and gates.
    Report,
}
