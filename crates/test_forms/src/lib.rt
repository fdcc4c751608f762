#![tactic(auto)]
//! Flat forms from tables of wires and steps. Tests make their flat forms by it.

mod checks;
pub mod counts;
pub mod entries;
mod lists;
pub mod table;
pub mod worked;

pub use counts::{count_hadamards, count_inputs};
pub use entries::{StepEntry, WireEntry, at, flip, hadamard, input, measure, new, off, on, phase};
pub use table::{TableFault, flat_of};
pub use worked::{Worked, worked_form};
