#![tactic(auto)]
//! The laws that tie the table of a program to the table of its compiled circuit.

pub mod laws;
