//! Vertices and kinds of edges.

use flat_core::{StepId, WireId};

/// A vertex of a circuit graph: a step, the undoing of a step, or the freeing of a wire.
#[derive(Clone, Copy, PartialEq, Eq)]
pub enum Vertex {
    Forward(StepId),
    Reverse(StepId),
    Free(WireId),
}

/// What an edge is there for.
#[derive(Clone, Copy, PartialEq, Eq)]
pub enum EdgeKind {
    Target,
    Control,
    Availability,
}
