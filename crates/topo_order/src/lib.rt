#![tactic(auto)]
//! Orders of a graph.

mod counting;
pub mod laws;
mod left;
mod ready;
mod ring;
pub mod vertex_order;
mod way;

pub use vertex_order::{Cycle, OrderFault, VertexOrder, order};
