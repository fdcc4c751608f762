#![tactic(auto)]
//! Texts in the lines of a table, for the programs that print answers to such tables.

mod row;

pub use row::text_of;
