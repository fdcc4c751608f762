#![tactic(auto)]
//! Wires on qubits: which qubit each wire stands on, move by move.

mod free;
pub mod laws;
pub mod placed;
pub mod placer;
mod seats;
mod told;
mod track;

pub use placed::Placed;
pub use placer::Placer;
