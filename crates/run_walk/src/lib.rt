#![tactic(auto)]
//! The walk of a run through the tree of a checked program.
//!
//! A program's effect is not built: the walk goes through the arena and carries each step out at once on a stage, in the order of the text.

mod block;
mod call;
mod entry;
mod expr;
mod statement;

pub use entry::carry_out;
