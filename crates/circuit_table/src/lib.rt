#![tactic(auto)]
//! The exact table of an OpenQASM text.

mod fault;
pub mod put;
mod shown;

pub use fault::CircuitFault;
pub use put::put_table_of_circuit;
