#![tactic(auto)]
//! The tokens of OpenQASM 2.0, and the items that they make as far as the grammar goes.

mod class;
mod cursor;
pub mod item;
pub mod kind;
pub mod laws;
pub mod same;
mod scanner;
mod stack;
pub mod symbol;
pub mod token;
mod words;

pub use item::{Ending, ItemReader, Taken};
pub use kind::Kind;
pub use same::same_kind;
pub use token::Token;
pub use words::number;
