//! The edges of the circuit graph that a level copies where a step is done again.

ghost use Rattle.std.specs.Prelude.{◌≡◌, ◌<◌, ◌↔◌, length, Contains, IfOk, IsTrue};
ghost use Rattle.graph_core.specs.declared.graph.VertexId.{VertexId};
ghost use Rattle.reqomp.specs.Growing.{AreNear, IsNear};

use graph_core::{EdgeKind, Edges, Graph, VertexId};
use std::alloc::{AllocError, Global};

/// What stands near a vertex of the circuit graph, by ids.
#[derive(Drop)]
pub struct Near {
    /// The vertices whose Control edges enter it.
    pub holders: Vec<VertexId>,
    /// The vertices that its Availability edges lead to.
    pub changers: Vec<VertexId>,
}

// Whether edges are of one kind.
fn is_kind(k: EdgeKind, kind: EdgeKind) -> bool
    ensures { IsTrue result ↔ (k ≡ kind) }
{
    k == kind
}

// The other ends of the edges of a kind.
fn ends_of_kind(
    alloc: Global,
    mut edges: Edges<'_>,
    kind: EdgeKind,
) -> Result<Vec<VertexId>, AllocError>
    ensures { IfOk result (λ ends. (x : VertexId) → Contains ends.items x ↔ Contains edges.entry (x, kind)) }
{
    let mut ends = Vec::new(alloc);
    while let Some((x, k)) = edges.next() {
        if is_kind(k, kind) {
            ends.push(x)?;
        }
    }
    Ok(ends)
}

// What stands near a vertex.
fn near_vertex(alloc: Global, circuit: &Graph, at: VertexId) -> Result<Near, AllocError>
    requires { at.number < length circuit.now.vertices }
    ensures { IfOk result (IsNear circuit.now at) }
{
    let holders = ends_of_kind(alloc, circuit.before(at), EdgeKind::Control)?;
    let changers = ends_of_kind(alloc, circuit.after(at), EdgeKind::Availability)?;
    Ok(Near { holders, changers })
}

/// What stands near each vertex of the circuit graph. It fails only where memory runs out.
pub fn near_vertices(alloc: Global, circuit: &Graph) -> Result<Vec<Near>, AllocError>
    ensures { IfOk result (λ near. AreNear circuit.now near.items) }
{
    let mut near = Vec::new(alloc);
    for i in 0..circuit.len() {
        let row = near_vertex(alloc, circuit, VertexId { number: i as u32 })?;
        near.push(row)?;
    }
    Ok(near)
}
