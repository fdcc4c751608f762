#![tactic(auto)]
//! The tokens of a Silq text, one after another.
//!
//! Blanks are space, tab, carriage return and line feed. A comment runs from `//` to the line's end, or from `/*` to
//! the next `*/`. Between them stand tokens, each the longest one that begins there.

mod class;
mod cursor;
mod digits;
pub mod laws;
pub mod lexer;
pub mod token;
mod words;

pub use digits::number;
pub use lexer::Lexer;
pub use token::{LexCause, LexFault, Place, Token, TokenKind};
