//! The graph as an arena: its vertices and its edges in the order in which they were added, with the edges at each vertex
//! linked in two lists.

ghost use Rattle.std.specs.Prelude.{◌≡◌, ◌+◌, ◌-◌, ◌^◌, ◌<◌, [], ◌∷◌, ◌++◌, length, slice_get, Contains, true, false, IfOk, IfSome, OnErr};
ghost use Rattle.std.specs.List.Sorted.{IsPermutation};
ghost use Rattle.graph_core.specs.Arena.{IsArena, IsFreeFor, with_vertex, with_arrows, control, availability, use_arrows};
ghost use Rattle.graph_core.specs.EdgesAt.{edges_at};

use crate::edges::{Edges, edges_linked};
use crate::links::{EdgeRow, VertexRow, link_both, link_edge};
use crate::vertex::{EdgeKind, Vertex};
use std::alloc::{AllocError, Global};
use std::marker::Model;

/// The number of a vertex.
#[derive(Clone, Copy, PartialEq, Eq)]
pub struct VertexId {
    pub number: u32,
}

/// The number of an edge.
#[derive(Clone, Copy, PartialEq, Eq)]
pub struct EdgeId {
    pub number: u32,
}

/// An edge by the ids of its ends.
#[derive(Clone, Copy, PartialEq, Eq)]
pub struct Arrow {
    pub from: VertexId,
    pub to: VertexId,
    pub kind: EdgeKind,
}

/// A graph on vertices.
#[derive(Drop)]
pub struct Graph {
    vertices: Vec<VertexRow>,
    edges: Vec<EdgeRow>,
}

impl Model for Graph {
    ghost use Rattle.graph_core.specs.Arena.{Arena};

    ghost Value = { Arena };

    ghost use Rattle.graph_core.specs.Links.{IsStored, arena_in};

    ghost view = { λ g. arena_in g.vertices.items g.edges.items };

    ghost invariant = { λ g. IsStored g.vertices.items g.edges.items };
}

impl Graph {
    /// A graph without vertices.
    pub fn new(alloc: Global) -> Graph
        ensures { result ≡ record { vertices = []; arrows = [] } }
    {
        Graph {
            vertices: Vec::new(alloc),
            edges: Vec::new(alloc),
        }
    }

    /// The number of vertices.
    pub fn len(&self) -> usize
        ensures count { result ≡ length self.now.vertices }
        ensures sound { IsArena self.now }
    {
        self.vertices.len()
    }

    /// The vertex of an id.
    pub fn vertex(&self, v: VertexId) -> Vertex
        requires { v.number < length self.now.vertices }
        ensures { slice_get self.now.vertices v.number ≡ Some result }
    {
        self.vertices[v.number as usize].vertex
    }

    /// The edges that leave a vertex.
    pub fn after(&self, v: VertexId) -> Edges<'_>
        requires { v.number < length self.now.vertices }
        ensures { IsPermutation (edges_at false v self.now.arrows) result }
    {
        let first = self.vertices[v.number as usize].first.leaving;
        edges_linked(&self.edges, v, false, first)
    }

    /// The edges that enter a vertex.
    pub fn before(&self, v: VertexId) -> Edges<'_>
        requires { v.number < length self.now.vertices }
        ensures { IsPermutation (edges_at true v self.now.arrows) result }
    {
        let first = self.vertices[v.number as usize].first.entering;
        edges_linked(&self.edges, v, true, first)
    }

    /// Adds a vertex, under the next id.
    pub fn add_vertex(&mut self, v: Vertex) -> Result<VertexId, AllocError>
        requires fresh { ¬ Contains self.old.vertices v }
        requires room { length self.old.vertices + 1 < 2 ^ 32 }
        ensures added { IfOk result (λ id. (id.number ≡ length self.old.vertices) × (self.new ≡ with_vertex self.old v)) }
        ensures refused { OnErr result (self.new ≡ self.old) }
    {
        let number = self.vertices.len() as u32;
        let row = VertexRow::new(v);
        self.vertices.push(row)?;
        Ok(VertexId { number })
    }

    /// Adds an edge, under the next id.
    pub fn add_edge(
        &mut self,
        from: VertexId,
        to: VertexId,
        kind: EdgeKind,
    ) -> Result<EdgeId, AllocError>
        requires free { IsFreeFor self.old (record { from = from; to = to; kind = kind }) }
        requires room { length self.old.arrows + 1 < 2 ^ 32 }
        ensures added { IfOk result (λ id. (id.number ≡ length self.old.arrows) × (self.new ≡ with_arrows self.old (record { from = from; to = to; kind = kind } ∷ []))) }
        ensures refused { OnErr result (self.new ≡ self.old) }
    {
        let number = self.edges.len() as u32;
        let edge = EdgeRow::new(Arrow { from, to, kind });
        self.edges.push(edge)?;
        link_edge(&mut self.vertices, &mut self.edges, EdgeId { number });
        Ok(EdgeId { number })
    }

    /// Adds the edges of a use: a Control edge from the holder to the user, whose id it gives, and after it an
    /// Availability edge from the user to the next vertex, where there is one.
    pub fn add_use(
        &mut self,
        holder: VertexId,
        user: VertexId,
        next: Option<VertexId>,
    ) -> Result<EdgeId, AllocError>
        requires free { IsFreeFor self.old (control holder user) }
        requires next_free { IfSome next (λ next. IsFreeFor self.old (availability user next)) }
        requires room { length self.old.arrows + 2 < 2 ^ 32 }
        ensures added { IfOk result (λ id. (id.number ≡ length self.old.arrows) × (self.new ≡ with_arrows self.old (use_arrows holder user next))) }
        ensures refused { OnErr result (self.new ≡ self.old) }
    {
        match next {
            None => self.add_edge(holder, user, EdgeKind::Control),
            Some(next) => self.add_both(holder, user, next),
        }
    }

    // Adds both edges of a use, or neither.
    fn add_both(
        &mut self,
        holder: VertexId,
        user: VertexId,
        next: VertexId,
    ) -> Result<EdgeId, AllocError>
        requires free { IsFreeFor self.old (control holder user) }
        requires next_free { IsFreeFor self.old (availability user next) }
        requires room { length self.old.arrows + 2 < 2 ^ 32 }
        ensures added { IfOk result (λ id. (id.number ≡ length self.old.arrows) × (self.new ≡ with_arrows self.old (control holder user ∷ availability user next ∷ []))) }
        ensures refused { OnErr result (self.new ≡ self.old) }
    {
        let number = self.edges.len() as u32;
        let control = EdgeRow::new(Arrow {
            from: holder,
            to: user,
            kind: EdgeKind::Control,
        });
        let availability = EdgeRow::new(Arrow {
            from: user,
            to: next,
            kind: EdgeKind::Availability,
        });
        self.edges.extend_from_slice(&[control, availability])?;
        link_both(&mut self.vertices, &mut self.edges, EdgeId { number });
        Ok(EdgeId { number })
    }
}
