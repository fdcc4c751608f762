//! The ready vertices, kept so that the one that goes first is known.
//!
//! For n vertices the tree has 2 * n places. From place n on there is a leaf for each vertex, which has it where it is
//! ready. Each place k below n has the vertex that goes first of those at the places 2 * k and 2 * k + 1, so place 1 has
//! the one that goes first of all.

ghost use Rattle.std.specs.Prelude.{◌≡◌, ◌<◌, ◌↔◌, ◌⊎◌, None, Some, length, get_or, IsTrue, IfOk, MatchOption};
ghost use Rattle.topo_order.specs.ReadyOrder.{GoesFirst};
ghost use Rattle.topo_order.specs.Flags.{vertex_of};
ghost use Rattle.topo_order.specs.ReadyTree.{IsFirstOf, IsTree, SetsLeaf, ShowsZeros, leaf_at, tree_at};

use graph_core::{Graph, Vertex, VertexId};
use std::alloc::{AllocError, Global};

/// Whether `v` goes first of two ready vertices.
pub fn goes_first(v: Vertex, u: Vertex) -> bool
    ensures { IsTrue result ↔ GoesFirst v u }
{
    match (v, u) {
        (Vertex::Free(v), Vertex::Free(u)) => v.number <= u.number,
        (Vertex::Free(_), _) => true,
        (_, Vertex::Free(_)) => false,
        (Vertex::Reverse(v), Vertex::Reverse(u)) => u.number <= v.number,
        (Vertex::Reverse(_), _) => true,
        (_, Vertex::Reverse(_)) => false,
        (Vertex::Forward(v), Vertex::Forward(u)) => v.number <= u.number,
    }
}

/// Of a vertex and another, if there is one, the one that goes first.
fn better(graph: &Graph, best: Option<VertexId>, v: VertexId) -> VertexId
    requires there { v.number < length graph.now.vertices }
    requires best_there { MatchOption best (v.number ≡ v.number) (λ b. b.number < length graph.now.vertices) }
    ensures one { (result ≡ v) ⊎ (best ≡ Some result) }
    ensures first { GoesFirst (vertex_of graph.now result) (vertex_of graph.now v) }
    ensures before { (b : VertexId) → best ≡ Some b → GoesFirst (vertex_of graph.now result) (vertex_of graph.now b) }
{
    match best {
        None => v,
        Some(b) => {
            if goes_first(graph.vertex(b), graph.vertex(v)) {
                b
            } else {
                v
            }
        }
    }
}

/// Of two vertices, where they are there, the one that goes first.
fn first_of(graph: &Graph, a: Option<VertexId>, b: Option<VertexId>) -> Option<VertexId>
    requires a_there { (u : VertexId) → a ≡ Some u → u.number < length graph.now.vertices }
    requires b_there { (u : VertexId) → b ≡ Some u → u.number < length graph.now.vertices }
    ensures { IsFirstOf graph.now a b result }
{
    match b {
        None => a,
        Some(v) => Some(better(graph, a, v)),
    }
}

/// Writes the leaf of a vertex, and makes the places above it again.
pub fn put_leaf(graph: &Graph, tree: &mut [Option<VertexId>], v: VertexId, now: Option<VertexId>)
    requires there { v.number < length graph.now.vertices }
    requires fits { (u : VertexId) → now ≡ Some u → u ≡ v }
    requires tree { IsTree graph.now tree.old 0 }
    ensures tree { IsTree graph.now tree.new 0 }
    ensures leaves { SetsLeaf graph.now v now tree.old tree.new }
{
    let leaf = graph.len() + v.number as usize;
    tree[leaf] = now;
    let mut place = leaf / 2;
    while place > 0 {
        tree[place] = first_of(graph, tree[2 * place], tree[2 * place + 1]);
        place /= 2;
    }
}

// Writes the leaves of the vertices whose counter is 0.
fn put_zeros(graph: &Graph, tree: &mut [Option<VertexId>], counters: &[u32])
    requires sized { length counters.now ≡ length graph.now.vertices }
    requires tree { IsTree graph.now tree.old 0 }
    requires empty { (u : VertexId) → u.number < length graph.now.vertices → leaf_at graph.now tree.old u ≡ None }
    ensures { ShowsZeros graph.now counters.now tree.new }
{
    for i in 0..graph.len() {
        if counters[i] == 0 {
            let v = VertexId { number: i as u32 };
            put_leaf(graph, tree, v, Some(v));
        }
    }
}

/// The tree of the vertices whose counter is 0.
pub fn ready_tree(
    alloc: Global,
    graph: &Graph,
    counters: &[u32],
) -> Result<Vec<Option<VertexId>>, AllocError>
    requires { length counters.now ≡ length graph.now.vertices }
    ensures { IfOk result (λ tree. ShowsZeros graph.now counters.now tree.items) }
{
    let count = graph.len();
    let mut tree = vec![in alloc; None; 2 * count]?;
    put_zeros(graph, &mut tree, counters);
    Ok(tree)
}

/// The ready vertex that goes first, if one is ready.
pub fn first_ready(tree: &[Option<VertexId>]) -> Option<VertexId>
    ensures { result ≡ tree_at tree.now 1 }
{
    if tree.len() > 1 { tree[1] } else { None }
}
