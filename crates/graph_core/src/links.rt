//! Vertices and edges in rows, with the lists of the edges at each vertex.

ghost use Rattle.std.specs.Prelude.{◌≡◌, ℕ, ◌+◌, ◌<◌, ◌^◌, length, Some, None, slice_get};
ghost use Rattle.graph_core.specs.declared.links.EdgeRow.{EdgeRow};
ghost use Rattle.graph_core.specs.declared.links.VertexRow.{VertexRow};
ghost use Rattle.graph_core.specs.Links.{AreLinked, arrows_in, link, vertices_in, with_link};
ghost use Rattle.graph_core.specs.Linking.{IsFirstPut};
ghost use Rattle.graph_core.specs.EdgesAt.{other_end};

use crate::graph::{Arrow, EdgeId, VertexId};
use crate::vertex::Vertex;

/// An edge in the list of those that leave a vertex, and one in the list of those that enter it.
#[derive(Clone, Copy)]
pub struct Links {
    pub leaving: Option<EdgeId>,
    pub entering: Option<EdgeId>,
}

/// A vertex, with the first edge of each of its lists.
#[derive(Clone, Copy)]
pub struct VertexRow {
    pub vertex: Vertex,
    pub first: Links,
}

/// An edge, with the next one in the lists of its ends.
#[derive(Clone, Copy)]
pub struct EdgeRow {
    pub arrow: Arrow,
    pub next: Links,
}

impl Links {
    /// No edges.
    fn none() -> Links
        ensures { result ≡ record { leaving = None; entering = None } }
    {
        Links {
            leaving: None,
            entering: None,
        }
    }

    /// The edge among those that enter a vertex, or else among those that leave it.
    pub fn get(self, entering: bool) -> Option<EdgeId>
        ensures { result ≡ link entering self }
    {
        if entering {
            self.entering
        } else {
            self.leaving
        }
    }

    /// The links with another edge in one direction.
    fn put(self, entering: bool, id: EdgeId) -> Links
        ensures { result ≡ with_link entering id self }
    {
        if entering {
            Links {
                leaving: self.leaving,
                entering: Some(id),
            }
        } else {
            Links {
                leaving: Some(id),
                entering: self.entering,
            }
        }
    }
}

impl VertexRow {
    /// A vertex without edges.
    pub fn new(vertex: Vertex) -> VertexRow
        ensures { result ≡ record { vertex = vertex; first = record { leaving = None; entering = None } } }
    {
        VertexRow {
            vertex,
            first: Links::none(),
        }
    }
}

impl EdgeRow {
    /// An edge that stands in no list.
    pub fn new(arrow: Arrow) -> EdgeRow
        ensures { result.arrow ≡ arrow }
    {
        EdgeRow {
            arrow,
            next: Links::none(),
        }
    }

    /// The vertex at the edge's other end: the one that it leaves where it enters a vertex.
    pub fn other_end(self, entering: bool) -> VertexId
        ensures { result ≡ other_end entering self.arrow }
    {
        if entering {
            self.arrow.from
        } else {
            self.arrow.to
        }
    }
}

// Makes an edge the first of a list.
fn put_first(vertices: &mut [VertexRow], v: VertexId, entering: bool, id: EdgeId)
    requires { v.number < length vertices.old }
    ensures put { IsFirstPut entering v id vertices.old vertices.new }
    ensures vertices { vertices_in vertices.new ≡ vertices_in vertices.old }
{
    let row = vertices[v.number as usize];
    vertices[v.number as usize] = VertexRow {
        vertex: row.vertex,
        first: row.first.put(entering, id),
    };
}

/// Puts an edge at the head of the lists of its two ends.
pub fn link_edge(vertices: &mut [VertexRow], edges: &mut [EdgeRow], id: EdgeId)
    requires there { id.number < length edges.old }
    requires ends { (row : EdgeRow) → slice_get edges.old id.number ≡ Some row → (row.arrow.from.number < length vertices.old) × (row.arrow.to.number < length vertices.old) }
    requires linked { AreLinked vertices.old edges.old id.number }
    ensures linked { AreLinked vertices.new edges.new (id.number + 1) }
    ensures vertices { vertices_in vertices.new ≡ vertices_in vertices.old }
    ensures arrows { arrows_in edges.new ≡ arrows_in edges.old }
{
    let arrow = edges[id.number as usize].arrow;
    let leaving = vertices[arrow.from.number as usize].first.leaving;
    let entering = vertices[arrow.to.number as usize].first.entering;
    edges[id.number as usize] = EdgeRow {
        arrow,
        next: Links { leaving, entering },
    };
    put_first(vertices, arrow.from, false, id);
    put_first(vertices, arrow.to, true, id);
}

/// Puts an edge and the one after it at the head of the lists of their ends.
pub fn link_both(vertices: &mut [VertexRow], edges: &mut [EdgeRow], id: EdgeId)
    requires there { id.number + 1 < length edges.old }
    requires room { id.number + 1 < 2 ^ 32 }
    requires ends { (i : ℕ) (row : EdgeRow) → slice_get edges.old i ≡ Some row → (row.arrow.from.number < length vertices.old) × (row.arrow.to.number < length vertices.old) }
    requires linked { AreLinked vertices.old edges.old id.number }
    ensures linked { AreLinked vertices.new edges.new (id.number + 1 + 1) }
    ensures vertices { vertices_in vertices.new ≡ vertices_in vertices.old }
    ensures arrows { arrows_in edges.new ≡ arrows_in edges.old }
{
    link_edge(vertices, edges, id);
    let number = id.number + 1;
    link_edge(vertices, edges, EdgeId { number });
}
