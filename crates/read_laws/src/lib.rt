#![tactic(auto)]
//! Laws of reading and writing OpenQASM 2.0.

pub mod laws;
