#![tactic(auto)]
//! Writing exact tables: a line for each row, with the bits of its value and its amplitude.

mod outs;
mod piece;
pub mod table;

pub use outs::by_outs;
pub use table::{put_circuit_table, put_source_table};
