//! The circuit graph of a flat form.

ghost use Rattle.std.specs.Prelude.{IfOk};
ghost use Rattle.unqomp.specs.GraphOf.{IsGraphOf};

use crate::edges::add_all_uses;
use crate::vertices::{add_freeings, add_steps, add_undoings, no_chains};
use flat_core::Flat;
use graph_core::Graph;
use std::alloc::{AllocError, Global};

/// The circuit graph of a flat form.
pub fn graph_of(alloc: Global, flat: &Flat) -> Result<Graph, AllocError>
    ensures { IfOk result (λ graph. IsGraphOf flat.now graph) }
{
    let _count = flat.steps();
    let mut graph = Graph::new(alloc);
    let mut chains = no_chains(alloc, flat.wires())?;
    add_steps(flat, &mut graph, &mut chains)?;
    add_undoings(flat, &mut graph, &mut chains)?;
    add_freeings(flat, &mut graph, &mut chains)?;
    add_all_uses(alloc, flat, &mut graph, &chains)?;
    Ok(graph)
}
