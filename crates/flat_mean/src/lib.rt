#![tactic(auto)]
//! The paths of a flat form: the values of its wires and the weights.

pub mod laws;
pub mod path;

pub use path::path_value;
