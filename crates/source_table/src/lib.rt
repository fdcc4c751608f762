#![tactic(auto)]
//! From the text of a program to the exact table of what it means.
mod bits;
mod fault;
mod run;
mod table;
mod walks;

pub use fault::{RunFault, SourceFault};
pub use table::put_table_of_source;
