#![tactic(auto)]
//! The flat form of a function with static values.
//!
//! A program's effect is not built: the walk goes through the arena and carries each step out at once, in the order of the text.

mod block;
mod call;
mod entry;
mod expr;
mod statement;

pub use entry::flatten;
