#![tactic(auto)]
//! The rules of typing on functions and programs.
//!
//! The definition of the walk stands in `specs`: `Statement` (statements, blocks and a function's body) and `Program` (headers,
//! instances and the entry).

mod asking;
mod assign;
mod bind;
mod block;
mod body;
mod branch;
pub mod check;
mod ending;
mod ends;
mod entry;
mod forget;
mod headers;
mod instance;
pub mod laws;
mod leaving;
mod name_set;
mod named;
mod params;
mod plain;
mod results;
mod returns;
mod rounds;
mod statement;
mod steps_of_block;
pub mod tally;
mod target;
mod update;

pub use check::Checked;
