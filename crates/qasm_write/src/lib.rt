#![tactic(auto)]
//! Writing circuits as OpenQASM 2.0.

pub(crate) mod line;
pub(crate) mod list;
pub mod piece;
pub mod writer;

pub use piece::{Piece, put_pieces};
pub use writer::QasmWriter;
