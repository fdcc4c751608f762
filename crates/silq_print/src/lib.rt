#![tactic(auto)]
//! Programs as texts: how a program is printed, and what a text of a program keeps, its places aside.

mod block;
mod depth;
mod expr;
mod header;
pub mod laws;
mod level;
pub mod print;
mod printer;
mod style;
mod terminal;
