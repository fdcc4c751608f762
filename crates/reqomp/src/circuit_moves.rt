//! The moves of level 0: those of the circuit graph's ready order.

ghost use Rattle.std.specs.Prelude.{◌≡◌, List, IfOk};
ghost use Rattle.graph_core.specs.declared.vertex.Vertex.{Vertex};
ghost use Rattle.graph_core.specs.Arena.{AreVerticesOf};
ghost use Rattle.graph_core.specs.Digraph.{IsCycle};
ghost use Rattle.graph_core.specs.Circuit.{circuit_graph};
ghost use Rattle.topo_order.specs.OrderOf.{IsOrderOf, IfCycle};
ghost use Rattle.topo_order.specs.GivenCycle.{IsGivenCycle};
ghost use Rattle.unqomp.specs.GraphOf.{IsGraphOf};
ghost use Rattle.move_plan.specs.declared.moves.Move.{Move};
ghost use Rattle.move_plan.specs.AsMoves.{moves_of};
ghost use Rattle.reqomp.specs.Level.{IsLevel};

use flat_core::Flat;
use graph_core::Graph;
use move_plan::{MoveList, move_of};
use std::alloc::{AllocError, Global};
use topo_order::{OrderFault, VertexOrder, order};
use unqomp::graph_of;

/// The moves of the vertices of an order.
pub fn moves_in_order(
    alloc: Global,
    flat: &Flat,
    graph: &Graph,
    ids: &VertexOrder,
) -> Result<MoveList, AllocError>
    requires graph { IsGraphOf flat.now graph.now }
    requires order { IsOrderOf graph.now ids.now }
    ensures { IfOk result (λ moves. (order : List Vertex) → AreVerticesOf graph.now ids.now order → moves ≡ moves_of flat.now order) }
{
    let mut moves = MoveList::new(alloc);
    for i in 0..ids.len() {
        let id = ids.get(i).unwrap();
        moves.push(move_of(flat, graph.vertex(*id)))?;
    }
    Ok(moves)
}

/// The moves of level 0, which marks no wire: those of the circuit graph's ready order. Where that graph has a cycle
/// the level is missing, and the cycle is given that `order` gives. It fails else only where memory runs out.
pub fn level_zero_moves(alloc: Global, flat: &Flat) -> Result<MoveList, OrderFault>
    ensures ok { IfOk result (λ moves. IsLevel flat.now 0 moves) }
    ensures cycle { IfCycle result (λ cycle. IsCycle (circuit_graph flat.now) cycle) }
    ensures given { IfCycle result (λ cycle. IsGivenCycle (circuit_graph flat.now) cycle) }
    ensures missing { IfCycle result (λ cycle. (moves : List Move) → ¬ IsLevel flat.now 0 moves) }
{
    let _count = flat.steps();
    let graph = graph_of(alloc, flat)?;
    let ids = order(alloc, &graph)?;
    let moves = moves_in_order(alloc, flat, &graph, &ids)?;
    Ok(moves)
}
