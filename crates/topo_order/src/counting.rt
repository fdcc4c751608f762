//! For each id, how many edges enter it from vertices that are not taken.

ghost use Rattle.std.specs.Prelude.{◌≡◌, ◌<◌, ◌≤◌, [], length, get_or, IfOk};
ghost use Rattle.topo_order.specs.Waiting.{AreCounters, between, waiting};
ghost use Rattle.topo_order.specs.ReadyTree.{IsTaken, IsTree};
ghost use Rattle.graph_core.specs.declared.graph.VertexId.{VertexId};

use crate::ready::put_leaf;
use graph_core::{Graph, VertexId};
use std::alloc::{AllocError, Global};

/// How many edges enter a vertex.
fn entering(graph: &Graph, v: VertexId) -> u32
    requires { v.number < length graph.now.vertices }
    ensures { result ≡ waiting graph.now [] v }
{
    let _count = graph.len();
    let mut count = 0;
    let mut edges = graph.before(v);
    while let Some(_) = edges.next() {
        count += 1;
    }
    count
}

/// Each id's counter where no vertex is taken.
pub fn first_counters(alloc: Global, graph: &Graph) -> Result<Vec<u32>, AllocError>
    ensures { IfOk result (λ c. AreCounters graph.now [] c.items) }
{
    let mut counters = Vec::new(alloc);
    for i in 0..graph.len() {
        counters.push(entering(graph, VertexId { number: i as u32 }))?;
    }
    Ok(counters)
}

/// Takes a vertex: it leaves the tree, the counter of each id is lowered by the number of edges to it from the vertex,
/// and what then waits for nothing more enters the tree.
pub fn take_vertex(graph: &Graph, counters: &mut [u32], tree: &mut [Option<VertexId>], v: VertexId)
    requires there { v.number < length graph.now.vertices }
    requires sized { length counters.old ≡ length graph.now.vertices }
    requires enough { (u : VertexId) → u.number < length graph.now.vertices → between graph.now v u ≤ get_or counters.old u.number 0 }
    requires tree { IsTree graph.now tree.old 0 }
    ensures { IsTaken graph.now v counters.old counters.new tree.old tree.new }
{
    let _count = graph.len();
    put_leaf(graph, tree, v, None);
    let mut edges = graph.after(v);
    while let Some((to, _)) = edges.next() {
        counters[to.number as usize] -= 1;
        if counters[to.number as usize] == 0 {
            put_leaf(graph, tree, to, Some(to));
        }
    }
}
