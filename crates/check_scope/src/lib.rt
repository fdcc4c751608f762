#![tactic(auto)]
//! What an expression sees: the functions of the program, the variables, and the parts that expressions name.
//!
//! The definition of the walk begins here, in `specs`: `Walk` (a walk as a tree of its steps, and its two readings), `Context`
//! (what a walk sees and what it changes), `Uses` (the parts that an expression names) and `Places` (the use of one). `State`,
//! `Library` and `Steps` say how the code is held against it.

pub mod context;
pub mod fault;
pub mod header;
pub mod library;
mod name_index;
pub mod obey;
pub mod part_types;
mod part_uses;
mod parts;
pub mod places;
mod reach;
pub mod rule;
pub mod spots;
pub mod unknown;
pub mod uses;

pub use context::{Context, PartList};
pub use fault::{CheckFault, ExprFault};
pub use header::Header;
pub use library::Library;
pub use uses::{Use, UseList};
