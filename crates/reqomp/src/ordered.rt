//! The moves of a level: those of its groups, in the ready order of its graph.

ghost use Rattle.std.specs.Prelude.{◌≡◌, ℕ, ◌≤◌, ◌++◌, List, length, map, reverse, slice_get, Some, None, IfOk, IfSome, OnOk, MatchOption};
ghost use Rattle.flat_core.specs.declared.step.WireId.{WireId};
ghost use Rattle.graph_core.specs.declared.vertex.Vertex.{Vertex};
ghost use Rattle.graph_core.specs.Arena.{AreVerticesOf, digraph_of};
ghost use Rattle.graph_core.specs.Circuit.{IsVertex};
ghost use Rattle.graph_core.specs.Digraph.{IsCycle};
ghost use Rattle.topo_order.specs.OrderOf.{IsOrderOf};
ghost use Rattle.unqomp.specs.GraphOf.{IsGraphOf};
ghost use Rattle.move_plan.specs.declared.moves.Move.TheVariants.{Up, Down};
ghost use Rattle.reqomp.specs.declared.groups.Group.{Group};
ghost use Rattle.reqomp.specs.Growing.{AreNear};
ghost use Rattle.reqomp.specs.Grouping.{vertices_of, AreGroups};
ghost use Rattle.reqomp.specs.Level.{AreMoves};
ghost use Rattle.reqomp.specs.LevelGraph.{IsLevelGraphOf};
ghost use Rattle.reqomp.specs.Search.{IsWidthOf};
ghost use Rattle.reqomp.specs.Simple.{marked_at};
ghost use Rattle.reqomp.specs.Trying.{group_moves, AreRedone, HasOrderMoves};

use crate::arena_of_level::level_graph;
use crate::groups::{Group, Groups};
use crate::marked::Marks;
use crate::near::Near;
use flat_core::{Flat, StepId};
use graph_core::Graph;
use move_plan::{Move, MoveList, move_of};
use std::alloc::{AllocError, Global};
use topo_order::{OrderFault, VertexOrder, order};

// The ready order of a graph, or none where it has a cycle.
fn order_if_any(alloc: Global, graph: &Graph) -> Result<Option<VertexOrder>, AllocError>
    ensures order { IfOk result (λ found. IfSome found (λ ids. IsOrderOf graph.now ids)) }
    ensures cycle { IfOk result (λ found. MatchOption found ((cycle : List Vertex) × IsCycle (digraph_of graph.now) cycle) (λ ids. IsOrderOf graph.now ids)) }
{
    match order(alloc, graph) {
        Ok(ids) => Ok(Some(ids)),
        Err(OrderFault::Cycle(_)) => Ok(None),
        Err(OrderFault::Memory) => Err(AllocError),
    }
}

// Does some steps.
fn push_up(moves: &mut MoveList, steps: &[StepId]) -> Result<(), AllocError>
    ensures { OnOk result (moves.new ≡ moves.old ++ map Up steps.now) }
{
    for s in steps {
        moves.push(Move::Up(*s))?;
    }
    Ok(())
}

// Undoes some steps, the last one first.
fn push_down(moves: &mut MoveList, steps: &[StepId]) -> Result<(), AllocError>
    ensures { OnOk result (moves.new ≡ moves.old ++ map Down (reverse steps.now)) }
{
    let mut i = steps.len();
    while i > 0 {
        i -= 1;
        moves.push(Move::Down(steps[i]))?;
    }
    Ok(())
}

// Adds the moves of a group.
fn push_group(flat: &Flat, moves: &mut MoveList, group: &Group) -> Result<(), AllocError>
    requires { IsVertex flat.now group.now.vertex }
    ensures { OnOk result (moves.new ≡ moves.old ++ group_moves flat.now group.now.vertex group.now.steps.items) }
{
    push_up(moves, &group.steps)?;
    moves.push(move_of(flat, group.vertex))?;
    push_down(moves, &group.steps)
}

// The moves of groups in an order.
fn moves_of_groups(
    alloc: Global,
    flat: &Flat,
    graph: &Graph,
    groups: &[Group],
    ids: &VertexOrder,
) -> Result<MoveList, AllocError>
    requires vertices { graph.now.vertices ≡ vertices_of groups.now }
    requires there { (i : ℕ) (group : Group) → slice_get groups.now i ≡ Some group → IsVertex flat.now group.vertex }
    requires order { IsOrderOf graph.now ids.now }
    ensures { IfOk result (λ moves. (marked : List WireId) (order : List Vertex) → AreRedone flat.now marked groups.now → AreVerticesOf graph.now ids.now order → AreMoves flat.now marked order moves) }
{
    let mut moves = MoveList::new(alloc);
    for i in 0..ids.len() {
        let id = ids.get(i).unwrap();
        push_group(flat, &mut moves, &groups[id.number as usize])?;
    }
    Ok(moves)
}

/// The moves of the ready order of a level's graph, or none where that graph has a cycle.
pub fn ordered_moves(
    alloc: Global,
    flat: &Flat,
    circuit: &Graph,
    near: &[Near],
    marks: &Marks,
    groups: &Groups,
) -> Result<Option<MoveList>, AllocError>
    requires circuit { IsGraphOf flat.now circuit.now }
    requires near { AreNear circuit.now near.now }
    requires groups { AreGroups flat.now (marked_at flat.now marks.now.level) circuit.now (length circuit.now.vertices) groups.now }
    requires few { groups.now.moves ≤ 600000 }
    ensures moves { IfOk result (λ found. MatchOption found (IsWidthOf flat.now marks.now.level None) (λ moves. HasOrderMoves flat.now marks.now.level moves)) }
    ensures few { IfOk result (λ found. IfSome found (λ moves. length moves ≤ 600000)) }
{
    let graph = level_graph(alloc, flat, circuit, near, marks, groups)?;
    match order_if_any(alloc, &graph)? {
        None => Ok(None),
        Some(ids) => Ok(Some(moves_of_groups(alloc, flat, &graph, &groups.items, &ids)?)),
    }
}
