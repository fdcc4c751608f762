#![tactic(auto)]
//! From a checked entry to the text of its circuit: the flat form, the moves of the first level
//! of recomputation that fits the budget, and their gates.

pub mod cycle;
pub mod entry;
pub mod fault;
pub mod output;

pub use cycle::{CyclePlace, CyclePlaces};
pub use entry::compile;
pub use fault::CompileFault;
pub use output::Output;
