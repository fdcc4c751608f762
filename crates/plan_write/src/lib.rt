#![tactic(auto)]
//! The text of a plan's circuit, put move by move.

pub mod fault;
pub(crate) mod gates;
pub mod write;

pub use fault::WriteFault;
pub use write::write_plan;
