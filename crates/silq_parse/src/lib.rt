#![tactic(auto)]
//! The parser of Silq: the program that a text is, or its first fault.
//!
//! `lexed` makes the tokens of the whole text, with names by their numbers. The other modules read slices of them, each a
//! part of the grammar, and answer what is left: `tokens` a whole program, `header` and `types` the head of a function,
//! `block` and `statement` what it does; expressions are read by `expr_parse`. `source` joins them.

mod assign;
mod block;
pub mod fault;
mod function;
mod header;
mod lexed;
mod simple;
mod source;
mod statement;
mod terminal;
mod tokens;
mod types;

pub use fault::ParseFault;
pub use silq_tree::Program;
pub use source::parse;
