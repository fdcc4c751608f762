#![tactic(auto)]
//! Files as texts: their bytes up to a limit, and why these are no text.

pub mod file;
pub mod text;

pub use file::{ReadError, read_file};
pub use text::{NoText, text_of};
