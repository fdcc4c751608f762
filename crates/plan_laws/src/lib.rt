#![tactic(auto)]
//! The law that ties what a program means to the circuit of a plan of its flat form.

pub mod laws;
