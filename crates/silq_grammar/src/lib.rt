#![tactic(auto)]
//! The grammar of Silq: what tokens a program may be, the tree that they stand for, and where tokens that are no program first
//! go wrong.

pub mod laws;
pub mod token;

pub use token::{Terminal, Token};
