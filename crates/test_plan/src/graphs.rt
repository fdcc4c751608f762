//! Whether a graph is as wanted.

ghost use Rattle.std.specs.Prelude.{◌<◌, length};

use crate::words;
use graph_core::{EdgeKind, Graph, Vertex, VertexId};
use topo_order::VertexOrder;

// The vertex of an id, if there is one.
fn vertex_at(graph: &Graph, id: VertexId) -> Option<Vertex> {
    if (id.number as usize) < graph.len() {
        Some(graph.vertex(id))
    } else {
        None
    }
}

// How many edges of a kind leave an id, or else enter it, with this vertex at the other end, or with any.
fn count_at(
    graph: &Graph,
    id: VertexId,
    entering: bool,
    kind: EdgeKind,
    other: Option<Vertex>,
) -> usize
    requires { id.number < length graph.now.vertices }
{
    let mut edges = if entering {
        graph.before(id)
    } else {
        graph.after(id)
    };
    let mut count: usize = 0;
    while let Some((end, of)) = edges.next() {
        if of == kind && (other.is_none() || vertex_at(graph, end) == other) {
            count = count.wrapping_add(1);
        }
    }
    count
}

// How many edges of a kind leave a vertex, or else enter it, with this vertex at the other end; or how many leave any
// vertex.
fn count_edges(
    graph: &Graph,
    entering: bool,
    kind: EdgeKind,
    here: Option<Vertex>,
    other: Option<Vertex>,
) -> usize {
    let mut count: usize = 0;
    for i in 0..graph.len() {
        let id = VertexId { number: i as u32 };
        if here.is_none() || Some(graph.vertex(id)) == here {
            count = count.wrapping_add(count_at(graph, id, entering, kind, other));
        }
    }
    count
}

/// Whether the edges of a kind are exactly these, each once, seen from both ends.
pub fn has_edges(graph: &Graph, kind: EdgeKind, wanted: &str) -> bool {
    let mut count: usize = 0;
    for word in wanted.split_whitespace() {
        let Some((from, to)) = words::edge(word) else {
            return false;
        };
        let leaving = count_edges(graph, false, kind, Some(from), Some(to));
        let entering = count_edges(graph, true, kind, Some(to), Some(from));
        if leaving != 1 || entering != 1 {
            return false;
        }
        count = count.wrapping_add(1);
    }
    count_edges(graph, false, kind, None, None) == count
}

/// Whether some ids are those of exactly these vertices, in their order, and of all vertices.
pub fn has_order(graph: &Graph, ids: &VertexOrder, wanted: &str) -> bool {
    let mut count: usize = 0;
    for word in wanted.split_whitespace() {
        let Some(id) = ids.get(count) else {
            return false;
        };
        let Some(v) = words::vertex(word) else {
            return false;
        };
        if vertex_at(graph, *id) != Some(v) {
            return false;
        }
        count = count.wrapping_add(1);
    }
    ids.len() == count && graph.len() == count
}
