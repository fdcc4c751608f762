//! The ids on the chain of a wire.

ghost use Rattle.std.specs.Prelude.{◌≡◌, ◌+◌, ◌-◌, ◌<◌, ◌^◌, ◌++◌, ◌∷◌, [], length, slice_get, Contains, OnOk, OnErr, IfSome, MatchOption};
ghost use Rattle.graph_core.specs.Arena.{IsArena};
ghost use Rattle.unqomp.specs.Linking.{linked, IsLinkable};
ghost use Rattle.unqomp.specs.Making.{vertex_id};

use graph_core::{EdgeKind, Graph, Vertex, VertexId};
use std::alloc::{AllocError, Global};
use std::marker::Model;

/// The ids of the vertices on the chain of a wire, in order.
#[derive(Drop)]
pub struct Chain {
    ids: Vec<VertexId>,
}

impl Model for Chain {
    ghost use Rattle.std.specs.Prelude.{List};
    ghost use Rattle.graph_core.specs.declared.graph.VertexId.{VertexId};

    ghost Value = { List VertexId };

    ghost view = { λ c. c.ids.items };
}

impl Chain {
    /// A chain without vertices.
    pub fn new(alloc: Global) -> Chain
        ensures { result ≡ [] }
    {
        Chain {
            ids: Vec::new(alloc),
        }
    }

    /// The id at a place, if there is one.
    pub fn get(&self, i: usize) -> Option<VertexId>
        ensures { result ≡ slice_get self.now i }
    {
        self.ids.get(i).copied()
    }

    /// The last id, if there is one.
    fn last(&self) -> Option<VertexId>
        ensures { result ≡ slice_get self.now (length self.now - 1) }
    {
        self.ids.last().copied()
    }

    /// Adds an id at the end.
    fn push(&mut self, id: VertexId) -> Result<(), AllocError>
        ensures ok { OnOk result (self.new ≡ self.old ++ id ∷ []) }
        ensures err { OnErr result (self.new ≡ self.old) }
    {
        self.ids.push(id)?;
        Ok(())
    }

    /// Adds a new vertex at the end, with the Target edge from the vertex before it.
    pub fn add(&mut self, graph: &mut Graph, v: Vertex) -> Result<(), AllocError>
        requires arena { IsArena graph.old }
        requires fresh { ¬ Contains graph.old.vertices v }
        requires room { length graph.old.vertices + 1 < 2 ^ 32 }
        requires edge_room { length graph.old.arrows + 1 < 2 ^ 32 }
        requires linkable { IsLinkable graph.old self.old }
        ensures graph { OnOk result (graph.new ≡ linked graph.old self.old v) }
        ensures chain { OnOk result (self.new ≡ self.old ++ vertex_id (length graph.old.vertices) ∷ []) }
    {
        let before = self.last();
        let id = graph.add_vertex(v)?;
        if let Some(before) = before {
            graph.add_edge(before, id, EdgeKind::Target)?;
        }
        self.push(id)
    }
}
