//! The Control and Availability edges of uses.

ghost use Rattle.std.specs.Prelude.{◌≡◌, ◌+◌, ◌<◌, ◌≤◌, ◌^◌, ℕ, List, [], length, true, Some, Contains, slice_get, OnOk, IfOk};
ghost use Rattle.flat_core.specs.Sound.{IsFlat};
ghost use Rattle.flat_core.specs.Label.{step_at};
ghost use Rattle.flat_core.specs.Ends.{undone};
ghost use Rattle.graph_core.specs.Circuit.{Uses};
ghost use Rattle.graph_core.specs.Slots.{slot, SlotEdge};
ghost use Rattle.graph_core.specs.Arena.{IsFreeFor, with_arrows};
ghost use Rattle.graph_core.specs.declared.graph.Arrow.{Arrow};
ghost use Rattle.unqomp.specs.GraphOf.{HasEdges};
ghost use Rattle.unqomp.specs.UseList.{InUses, uses_before};
ghost use Rattle.unqomp.specs.UsesAdded.{HasUses};
ghost use Rattle.unqomp.specs.Making.{IsWhole, IsIdOf, slot_arrows, target_of};

use crate::chain::Chain;
use crate::uses::{Use, uses_of_step};
use flat_core::{End, Flat, Step, StepId, WireId};
use graph_core::{EdgeKind, Graph, Vertex, VertexId};
use std::alloc::{AllocError, Global};

// How many vertices of the chain of the wire come before the user.
fn slot_of(flat: &Flat, u: Use) -> usize
    requires sound { IsFlat flat.now }
    requires there { u.wire.number < length flat.now.wires }
    ensures { result ≡ slot flat.now u.user u.wire u.label }
{
    let top = flat.top(u.wire);
    let is_undone = matches!(u.user, Vertex::Reverse(_)) && flat.end(u.wire) == End::Dropped;
    if is_undone && u.label < top {
        top as usize + (top - u.label) as usize
    } else {
        u.label as usize
    }
}

// The id of the vertex that undoes a step with this target.
fn reverse_id(flat: &Flat, chains: &[Chain], s: StepId, target: WireId) -> Option<VertexId>
    requires sound { IsFlat flat.now }
    requires there { s.number < length flat.now.steps }
    requires undone { undone flat.now s ≡ true }
    requires target { target_of (step_at flat.now s) ≡ Some target }
    requires chains { length chains.now ≡ length flat.now.wires }
    ensures { IsIdOf flat.now chains.now result (Vertex.Reverse s) }
{
    let top = flat.top(target) as usize;
    let place = top + (top - 1 - flat.label_before(s, target) as usize);
    chains[target.number as usize].get(place)
}

// The id of a user.
fn user_id(flat: &Flat, chains: &[Chain], u: Use) -> Option<VertexId>
    requires sound { IsFlat flat.now }
    requires uses { Uses flat.now u.user u.wire u.label }
    requires chains { length chains.now ≡ length flat.now.wires }
    ensures { IsIdOf flat.now chains.now result u.user }
{
    match u.user {
        Vertex::Forward(s) => Some(VertexId { number: s.number }),
        Vertex::Reverse(s) => match flat.step(s) {
            Step::X { target, .. } => reverse_id(flat, chains, s, target),
            _ => None,
        },
        Vertex::Free(_) => None,
    }
}

// Adds the edges of a user at a slot of a chain.
fn add_at(graph: &mut Graph, chain: &Chain, user: VertexId, slot: usize) -> Result<(), AllocError>
    requires free { (e : Arrow) → Contains (slot_arrows chain.now user slot) e → IsFreeFor graph.old e }
    requires room { length graph.old.arrows + 2 < 2 ^ 32 }
    requires within { slot ≤ length chain.now }
    ensures { OnOk result (graph.new ≡ with_arrows graph.old (slot_arrows chain.now user slot)) }
{
    let next = chain.get(slot);
    if slot == 0 {
        if let Some(next) = next {
            graph.add_edge(user, next, EdgeKind::Availability)?;
        }
    } else if let Some(holder) = chain.get(slot - 1) {
        graph.add_use(holder, user, next)?;
    }
    Ok(())
}

// Adds the edges of the uses of a step.
fn add_uses(
    flat: &Flat,
    graph: &mut Graph,
    chains: &[Chain],
    s: StepId,
    uses: &mut Vec<Use>,
) -> Result<(), AllocError>
    requires sound { IsFlat flat.now }
    requires there { s.number < length flat.now.steps }
    requires whole { IsWhole flat.now graph.old.vertices chains.now }
    requires so_far { HasUses flat.now graph.old (uses_before flat.now s.number) }
    ensures added { OnOk result (HasUses flat.now graph.new (uses_before flat.now (s.number + 1))) }
    ensures vertices { OnOk result (graph.new.vertices ≡ graph.old.vertices) }
{
    uses_of_step(flat, s, uses)?;
    for u in uses.iter() {
        let _count = graph.len();
        let user = user_id(flat, chains, *u).unwrap();
        let slot = slot_of(flat, *u);
        add_at(graph, &chains[u.wire.number as usize], user, slot)?;
    }
    Ok(())
}

/// Adds the edges of all uses, step by step.
pub fn add_all_uses(
    alloc: Global,
    flat: &Flat,
    graph: &mut Graph,
    chains: &[Chain],
) -> Result<(), AllocError>
    requires sound { IsFlat flat.now }
    requires whole { IsWhole flat.now graph.old.vertices chains.now }
    requires targets { HasEdges graph.old (SlotEdge flat.now (InUses [])) }
    requires few { length graph.old.arrows ≤ 500000 }
    ensures edges { OnOk result (HasEdges graph.new (SlotEdge flat.now (InUses (uses_before flat.now (length flat.now.steps))))) }
    ensures vertices { OnOk result (graph.new.vertices ≡ graph.old.vertices) }
{
    let mut uses = Vec::new(alloc);
    for i in 0..flat.steps() {
        let s = StepId { number: i as u32 };
        add_uses(flat, graph, chains, s, &mut uses)?;
    }
    Ok(())
}
