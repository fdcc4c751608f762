//! The vertices of a cycle, from its least one on.

ghost use Rattle.std.specs.Prelude.{◌≡◌, ◌<◌, ℕ, length, Contains, get_or, IfOk, IsOkUnless};
ghost use Rattle.topo_order.specs.GivenCycle.{RanksFirst};
ghost use Rattle.topo_order.specs.Flags.{IsReadyAt};
ghost use Rattle.topo_order.specs.Left.{IsCycleAt, IsLeastLeftAt, IsRing, IsTurned};
ghost use Rattle.topo_order.specs.declared.vertex_order.OrderFault.TheVariants.{Memory};
ghost use Rattle.graph_core.specs.declared.graph.VertexId.{VertexId};
ghost use Rattle.graph_core.specs.declared.vertex.Vertex.{Vertex};

use crate::left::ranks_first;
use crate::vertex_order::OrderFault;
use crate::way::way_back;
use graph_core::{Graph, Vertex, VertexId};
use std::alloc::Global;

/// The vertices of a way from its newest id back to `again`.
pub fn ring_of(
    alloc: Global,
    graph: &Graph,
    ids: &[VertexId],
    again: VertexId,
) -> Result<Vec<Vertex>, OrderFault>
    requires there { (u : VertexId) → Contains ids.now u → u.number < length graph.now.vertices }
    requires stands { Contains ids.now again }
    ensures ring { IfOk result (λ r. IsRing graph.now ids.now again r.items) }
    ensures memory { IsOkUnless result Memory }
{
    let mut ring = Vec::new(alloc);
    let mut i = ids.len();
    while i > 0 {
        i -= 1;
        let id = ids[i];
        ring.push(graph.vertex(id))?;
        if id.number == again.number {
            return Ok(ring);
        }
    }
    unreachable!()
}

/// The place of the least vertex in rank.
fn least_place(ring: &[Vertex]) -> usize
    requires { 0 < length ring.now }
    ensures within { result < length ring.now }
    ensures least { (k : ℕ) (d : Vertex) → k < length ring.now → RanksFirst (get_or ring.now result d) (get_or ring.now k d) }
{
    let mut least = 0;
    for i in 0..ring.len() {
        if !ranks_first(ring[least], ring[i]) {
            least = i;
        }
    }
    least
}

/// The ring from its least vertex on.
pub fn turned(alloc: Global, ring: &[Vertex]) -> Result<Vec<Vertex>, OrderFault>
    requires { 0 < length ring.now }
    ensures turned { IfOk result (λ c. IsTurned ring.now c.items) }
    ensures memory { IsOkUnless result Memory }
{
    let place = least_place(ring);
    let mut cycle = Vec::new(alloc);
    cycle.extend_from_slice(&ring[place..])?;
    cycle.extend_from_slice(&ring[..place])?;
    Ok(cycle)
}

/// The cycle to which the way back from `start` comes.
pub fn given_cycle(
    alloc: Global,
    graph: &Graph,
    taken: &[bool],
    start: VertexId,
) -> Result<Vec<Vertex>, OrderFault>
    requires flags { length taken.now ≡ length graph.now.vertices }
    requires least { IsLeastLeftAt graph.now taken.now start }
    requires stuck { (u : VertexId) → u.number < length graph.now.vertices → ¬ IsReadyAt graph.now taken.now u }
    ensures cycle { IfOk result (λ c. IsCycleAt graph.now taken.now c.items) }
    ensures memory { IsOkUnless result Memory }
{
    let _count = graph.len();
    let way = way_back(alloc, graph, taken, start)?;
    let ring = ring_of(alloc, graph, &way.ids, way.again)?;
    turned(alloc, &ring)
}
