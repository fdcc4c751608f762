//! The way back from the least vertex that was never taken.

ghost use Rattle.std.specs.Prelude.{◌≡◌, ◌<◌, length, IfOk, IsOkUnless};
ghost use Rattle.topo_order.specs.Flags.{IsReadyAt};
ghost use Rattle.topo_order.specs.Left.{IsLeastLeftAt, IsRound};
ghost use Rattle.topo_order.specs.declared.vertex_order.OrderFault.TheVariants.{Memory};
ghost use Rattle.graph_core.specs.declared.graph.VertexId.{VertexId};

use crate::left::least_before;
use crate::vertex_order::OrderFault;
use graph_core::{Graph, VertexId};
use std::alloc::Global;

/// The ids on a way back, the oldest first, and the one that it comes to again.
#[derive(Drop)]
pub struct Way {
    pub ids: Vec<VertexId>,
    pub again: VertexId,
}

/// Goes back from `start` to the least predecessor that was never taken, until an id repeats.
pub fn way_back(
    alloc: Global,
    graph: &Graph,
    taken: &[bool],
    start: VertexId,
) -> Result<Way, OrderFault>
    requires flags { length taken.now ≡ length graph.now.vertices }
    requires least { IsLeastLeftAt graph.now taken.now start }
    requires stuck { (u : VertexId) → u.number < length graph.now.vertices → ¬ IsReadyAt graph.now taken.now u }
    ensures round { IfOk result (λ w. IsRound graph.now taken.now w.ids.items w.again) }
    ensures memory { IsOkUnless result Memory }
{
    let mut seen = vec![in alloc; false; graph.len()]?;
    let mut ids = Vec::new(alloc);
    let mut newest = start;
    ids.push(start)?;
    seen[start.number as usize] = true;
    while let Some(again) = least_before(graph, taken, newest) {
        if seen[again.number as usize] {
            return Ok(Way { ids, again });
        }
        seen[again.number as usize] = true;
        ids.push(again)?;
        newest = again;
    }
    unreachable!()
}
