//! The ready order of a graph.

ghost use Rattle.std.specs.Prelude.{◌≡◌, ◌++◌, ◌∷◌, [], length, slice_get, IfOk, OnOk, OnErr};
ghost use Rattle.std.specs.Option.{option_copied};
ghost use Rattle.graph_core.specs.Arena.{digraph_of};
ghost use Rattle.graph_core.specs.Digraph.{IsAcyclic, IsCycle};
ghost use Rattle.topo_order.specs.OrderOf.{IsOrderOf, IfCycle};
ghost use Rattle.topo_order.specs.GivenCycle.{IsGivenCycle};
ghost use Rattle.topo_order.specs.declared.vertex_order.OrderFault.TheVariants.{Memory};

use crate::counting::{first_counters, take_vertex};
use crate::left::least_left;
use crate::ready::{first_ready, ready_tree};
use crate::ring::given_cycle;
use graph_core::{Graph, Vertex, VertexId};
use std::alloc::{AllocError, AllocFailed, Global};
use std::marker::Model;

/// The ids of vertices, in an order.
#[derive(Drop)]
pub struct VertexOrder {
    items: Vec<VertexId>,
}

impl Model for VertexOrder {
    ghost use Rattle.std.specs.Prelude.{List};
    ghost use Rattle.graph_core.specs.declared.graph.VertexId.{VertexId};

    ghost Value = { List VertexId };

    ghost view = { λ o. o.items.items };
}

impl VertexOrder {
    /// No ids.
    pub fn new(alloc: Global) -> VertexOrder
        ensures { result ≡ [] }
    {
        VertexOrder {
            items: Vec::new(alloc),
        }
    }

    /// How many ids.
    pub fn len(&self) -> usize
        ensures { result ≡ length self.now }
    {
        self.items.len()
    }

    /// The id at a place, if there is one.
    pub fn get(&self, i: usize) -> Option<&VertexId>
        ensures { option_copied result ≡ slice_get self.now i }
    {
        self.items.get(i)
    }

    /// Adds an id at the end.
    pub fn push(&mut self, item: VertexId) -> Result<(), AllocError>
        ensures ok { OnOk result (self.new ≡ self.old ++ item ∷ []) }
        ensures err { OnErr result (self.new ≡ self.old) }
    {
        self.items.push(item)?;
        Ok(())
    }
}

/// A cycle of a graph.
#[derive(Drop)]
pub struct Cycle {
    vertices: Vec<Vertex>,
}

impl Model for Cycle {
    ghost use Rattle.std.specs.Prelude.{List};
    ghost use Rattle.graph_core.specs.declared.vertex.Vertex.{Vertex};

    ghost Value = { List Vertex };

    ghost view = { λ c. c.vertices.items };
}

impl Cycle {
    /// The vertices in edge direction, from the least one in rank.
    pub fn vertices(&self) -> &[Vertex]
        ensures { result.now ≡ self.now }
    {
        self.vertices.as_slice()
    }
}

/// Why a graph has no order.
#[derive(Drop)]
pub enum OrderFault {
    /// No memory.
    Memory,
    /// The graph has a cycle.
    Cycle(Cycle),
}

impl From<AllocError> for OrderFault {
    ghost from_gives = { λ _ e. e ≡ Memory };

    fn from(_error: AllocError) -> OrderFault {
        OrderFault::Memory
    }
}

impl<T: Drop> From<AllocFailed<T>> for OrderFault {
    ghost from_gives = { λ _ e. e ≡ Memory };

    fn from(_error: AllocFailed<T>) -> OrderFault {
        OrderFault::Memory
    }
}

/// The ready order of a graph: next always comes the first of the vertices whose predecessors are all taken, a Free of
/// least wire, else a Reverse of greatest step, else a Forward of least step. A graph with a cycle has none, and the
/// cycle is given that is found by going back from the least vertex that was never taken to its least predecessor that
/// was never taken, again and again, until a vertex repeats.
pub fn order(alloc: Global, graph: &Graph) -> Result<VertexOrder, OrderFault>
    ensures ready { IfOk result (λ ids. IsOrderOf graph.now ids) }
    ensures acyclic { OnOk result (IsAcyclic (digraph_of graph.now)) }
    ensures given { IfCycle result (λ cycle. IsGivenCycle (digraph_of graph.now) cycle) }
    ensures cycle { IfCycle result (λ cycle. IsCycle (digraph_of graph.now) cycle) }
{
    let mut taken = vec![in alloc; false; graph.len()]?;
    let mut counters = first_counters(alloc, graph)?;
    let mut tree = ready_tree(alloc, graph, &counters)?;
    let mut ids = VertexOrder::new(alloc);
    while let Some(v) = first_ready(&tree) {
        taken[v.number as usize] = true;
        take_vertex(graph, &mut counters, &mut tree, v);
        ids.push(v)?;
    }
    match least_left(graph, &taken) {
        None => Ok(ids),
        Some(start) => {
            let vertices = given_cycle(alloc, graph, &taken, start)?;
            Err(OrderFault::Cycle(Cycle { vertices }))
        }
    }
}
