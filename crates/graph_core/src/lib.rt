#![tactic(auto)]
//! Graphs on the steps of a flat form, and the circuit graph.

pub mod edges;
pub mod graph;
pub mod laws;
mod links;
pub mod vertex;

pub use edges::Edges;
pub use graph::{Arrow, EdgeId, Graph, VertexId};
pub use vertex::{EdgeKind, Vertex};
