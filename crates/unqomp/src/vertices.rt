//! The vertices of a circuit graph, and the Target edges along the chains.

ghost use Rattle.std.specs.Prelude.{◌≡◌, ◌+◌, ◌<◌, [], length, OnOk, IfOk, replicate};
ghost use Rattle.flat_core.specs.Ends.{is_freed};
ghost use Rattle.flat_core.specs.Sound.{IsFlat};
ghost use Rattle.unqomp.specs.Making.{target_of, IsForthStage, IsBackStage, IsLastStage};

use crate::chain::Chain;
use crate::uses::undone_target;
use flat_core::{End, Flat, Step, StepId, WireId};
use graph_core::{Graph, Vertex};
use std::alloc::{AllocError, Global};

// The wire that a step changes.
fn target_of(step: Step) -> Option<WireId>
    ensures { result ≡ target_of step }
{
    match step {
        Step::X { target, .. } | Step::H { target, .. } => Some(target),
        Step::P { .. } | Step::M { .. } => None,
    }
}

/// An empty chain for each wire.
pub fn no_chains(alloc: Global, wires: usize) -> Result<Vec<Chain>, AllocError>
    ensures { IfOk result (λ chains. chains.items ≡ replicate wires []) }
{
    let mut chains = Vec::new(alloc);
    for _ in 0..wires {
        chains.push(Chain::new(alloc))?;
    }
    Ok(chains)
}

// Adds the Forward vertex of a step.
fn add_step(
    flat: &Flat,
    graph: &mut Graph,
    chains: &mut Vec<Chain>,
    s: StepId,
) -> Result<(), AllocError>
    requires sound { IsFlat flat.now }
    requires there { s.number < length flat.now.steps }
    requires stage { IsForthStage flat.now graph.old chains.old.items s.number }
    ensures { OnOk result (IsForthStage flat.now graph.new chains.new.items (s.number + 1)) }
{
    let _count = graph.len();
    let v = Vertex::Forward(s);
    match target_of(flat.step(s)) {
        None => {
            graph.add_vertex(v)?;
            Ok(())
        }
        Some(w) => {
            let chain = &mut chains[w.number as usize];
            chain.add(graph, v)?;
            Ok(())
        }
    }
}

/// Adds the Forward vertices of all steps.
pub fn add_steps(flat: &Flat, graph: &mut Graph, chains: &mut Vec<Chain>) -> Result<(), AllocError>
    requires sound { IsFlat flat.now }
    requires stage { IsForthStage flat.now graph.old chains.old.items 0 }
    ensures { OnOk result (IsForthStage flat.now graph.new chains.new.items (length flat.now.steps)) }
{
    for i in 0..flat.steps() {
        add_step(flat, graph, chains, StepId { number: i as u32 })?;
    }
    Ok(())
}

// Adds the Reverse vertex of a step, if the step is undone again.
fn add_undoing(
    flat: &Flat,
    graph: &mut Graph,
    chains: &mut Vec<Chain>,
    s: StepId,
) -> Result<(), AllocError>
    requires sound { IsFlat flat.now }
    requires there { s.number < length flat.now.steps }
    requires stage { IsBackStage flat.now graph.old chains.old.items (s.number + 1) }
    ensures { OnOk result (IsBackStage flat.now graph.new chains.new.items s.number) }
{
    let _count = graph.len();
    match undone_target(flat, s) {
        None => Ok(()),
        Some(w) => {
            let chain = &mut chains[w.number as usize];
            chain.add(graph, Vertex::Reverse(s))?;
            Ok(())
        }
    }
}

/// Adds the Reverse vertices of all steps that are undone again, from the last step back.
pub fn add_undoings(
    flat: &Flat,
    graph: &mut Graph,
    chains: &mut Vec<Chain>,
) -> Result<(), AllocError>
    requires sound { IsFlat flat.now }
    requires stage { IsBackStage flat.now graph.old chains.old.items (length flat.now.steps) }
    ensures { OnOk result (IsBackStage flat.now graph.new chains.new.items 0) }
{
    let mut i = flat.steps();
    while i > 0 {
        i -= 1;
        add_undoing(flat, graph, chains, StepId { number: i as u32 })?;
    }
    Ok(())
}

// Whether a wire with this end is freed.
fn is_freed(end: End) -> bool
    ensures { result ≡ is_freed end }
{
    matches!(end, End::Measured | End::Zeroed)
}

// Adds the Free vertex of a wire, if the wire is freed.
fn add_freeing(
    flat: &Flat,
    graph: &mut Graph,
    chains: &mut Vec<Chain>,
    w: WireId,
) -> Result<(), AllocError>
    requires sound { IsFlat flat.now }
    requires there { w.number < length flat.now.wires }
    requires stage { IsLastStage flat.now graph.old chains.old.items w.number }
    ensures { OnOk result (IsLastStage flat.now graph.new chains.new.items (w.number + 1)) }
{
    let _count = graph.len();
    if is_freed(flat.end(w)) {
        let chain = &mut chains[w.number as usize];
        chain.add(graph, Vertex::Free(w))?;
    }
    Ok(())
}

/// Adds the Free vertices of all wires that are freed.
pub fn add_freeings(
    flat: &Flat,
    graph: &mut Graph,
    chains: &mut Vec<Chain>,
) -> Result<(), AllocError>
    requires sound { IsFlat flat.now }
    requires stage { IsLastStage flat.now graph.old chains.old.items 0 }
    ensures { OnOk result (IsLastStage flat.now graph.new chains.new.items (length flat.now.wires)) }
{
    for i in 0..flat.wires() {
        add_freeing(flat, graph, chains, WireId { number: i as u32 })?;
    }
    Ok(())
}
