#![tactic(auto)]
//! What a walk through the tree of a checked program reads.
//!
//! A walk goes through the arena in the order of the text and carries each step of the program's effect out at once. What it does with a
//! step is its own matter. What is the same for each walk stands here: what a body sees, the values and types that are written, and what a
//! call or a statement names. `specs/Seen` says what each part of a body does, as a part of the source meaning.

pub mod block;
pub mod body;
pub mod call;
pub mod expr;
pub mod statement;
pub mod written;

pub use body::Body;
