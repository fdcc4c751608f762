#![tactic(auto)]
//! The flat form of a program: its wires, and the reversible steps on them.

pub mod draft;
pub mod flat;
pub mod laws;
pub mod lists;
mod rows;
pub mod step;

pub use draft::Draft;
pub use flat::Flat;
pub use lists::{WireList, WireLists};
pub use step::{End, Lit, Step, StepId, WireId};
