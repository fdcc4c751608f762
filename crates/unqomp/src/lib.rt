#![tactic(auto)]
//! The circuit graph of a flat form.

mod chain;
mod edges;
pub mod graph;
pub mod laws;
pub mod uses;
mod vertices;

pub use graph::graph_of;
pub use uses::used_wires;
