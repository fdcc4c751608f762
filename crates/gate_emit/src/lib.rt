#![tactic(auto)]
//! The gates of a move whose qubits are placed, and the proof that they have the move's effect.

pub mod emit;
pub mod laws;
pub mod placed;
pub mod row;

pub use placed::{Control, PlacedMove, QubitMove};
pub use row::GateRow;
