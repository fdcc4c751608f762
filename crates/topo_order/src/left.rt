//! The vertices that were never taken.

ghost use Rattle.std.specs.Prelude.{◌≡◌, ◌<◌, ◌↔◌, ◌⊎◌, length, IsTrue, MatchOption};
ghost use Rattle.topo_order.specs.Flags.{vertex_of};
ghost use Rattle.topo_order.specs.GivenCycle.{RanksFirst};
ghost use Rattle.topo_order.specs.Left.{IsBeforeAt, IsLeastBeforeAt, IsLeastLeftAt, IsLeftAt};

use graph_core::{Graph, Vertex, VertexId};

/// Whether `v` is no higher than `u` in rank.
pub fn ranks_first(v: Vertex, u: Vertex) -> bool
    ensures { IsTrue result ↔ RanksFirst v u }
{
    match (v, u) {
        (Vertex::Forward(v), Vertex::Forward(u)) => v.number <= u.number,
        (Vertex::Forward(_), _) => true,
        (_, Vertex::Forward(_)) => false,
        (Vertex::Reverse(v), Vertex::Reverse(u)) => v.number <= u.number,
        (Vertex::Reverse(_), _) => true,
        (_, Vertex::Reverse(_)) => false,
        (Vertex::Free(v), Vertex::Free(u)) => v.number <= u.number,
    }
}

/// Of a vertex and another, if there is one, the lower in rank.
fn lower(graph: &Graph, best: Option<VertexId>, v: VertexId) -> VertexId
    requires there { v.number < length graph.now.vertices }
    requires best_there { MatchOption best (v.number ≡ v.number) (λ b. b.number < length graph.now.vertices) }
    ensures one { (result ≡ v) ⊎ (best ≡ Some result) }
    ensures first { RanksFirst (vertex_of graph.now result) (vertex_of graph.now v) }
    ensures before { (b : VertexId) → best ≡ Some b → RanksFirst (vertex_of graph.now result) (vertex_of graph.now b) }
{
    match best {
        None => v,
        Some(b) => {
            if ranks_first(graph.vertex(b), graph.vertex(v)) {
                b
            } else {
                v
            }
        }
    }
}

/// The least vertex in rank that was never taken.
pub fn least_left(graph: &Graph, taken: &[bool]) -> Option<VertexId>
    requires { length taken.now ≡ length graph.now.vertices }
    ensures some { MatchOption result (length taken.now ≡ length taken.now) (λ v. IsLeastLeftAt graph.now taken.now v) }
    ensures none { MatchOption result ((u : VertexId) → ¬ IsLeftAt graph.now taken.now u) (λ v. length taken.now ≡ length taken.now) }
{
    let mut best = None;
    for i in 0..graph.len() {
        if !taken[i] {
            best = Some(lower(graph, best, VertexId { number: i as u32 }));
        }
    }
    best
}

/// The least predecessor in rank that was never taken.
pub fn least_before(graph: &Graph, taken: &[bool], v: VertexId) -> Option<VertexId>
    requires flags { length taken.now ≡ length graph.now.vertices }
    requires there { v.number < length graph.now.vertices }
    ensures some { MatchOption result (length taken.now ≡ length taken.now) (λ u. IsLeastBeforeAt graph.now taken.now v u) }
    ensures none { MatchOption result ((u : VertexId) → ¬ IsBeforeAt graph.now taken.now v u) (λ u. length taken.now ≡ length taken.now) }
{
    let _count = graph.len();
    let mut best = None;
    let mut edges = graph.before(v);
    while let Some((from, _)) = edges.next() {
        if !taken[from.number as usize] {
            best = Some(lower(graph, best, from));
        }
    }
    best
}
