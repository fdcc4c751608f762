#![tactic(auto)]
//! Reading OpenQASM 2.0.

pub mod circuit;
pub mod fault;
mod gate;
mod line;
mod named;
pub mod operand;
pub mod refusal;
mod refused;
pub mod registers;
mod state;
mod statement;
pub mod text;

pub use circuit::ReadCircuit;
pub use fault::QasmFault;
pub use text::read;
