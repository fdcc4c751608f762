#![tactic(auto)]
//! Generated programs: sources of any size, the same at each run, to try the compiler on.

pub mod laws;
mod line;
pub mod program;

pub use program::generated;
