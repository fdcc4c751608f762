#![tactic(auto)]
//! From the text of a program to its check, and to the text of its circuit.

pub mod fault;
pub mod text;

pub use fault::TextFault;
pub use text::{check_text, compile_text};
