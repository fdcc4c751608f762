//! The graph of a level, made by its groups.

ghost use Rattle.std.specs.Prelude.{◌≡◌, ℕ, ◌<◌, ◌≤◌, [], false, length, slice_get, Some, IfOk, OnOk};
ghost use Rattle.graph_core.specs.declared.vertex.Vertex.{Vertex};
ghost use Rattle.graph_core.specs.Arena.{Arena, IsVertexOf};
ghost use Rattle.unqomp.specs.GraphOf.{IsGraphOf};
ghost use Rattle.reqomp.specs.declared.groups.Group.{Group};
ghost use Rattle.reqomp.specs.Growing.{AreNear, AreOnce, ArePlaced, ArePlaces, IsIdTable, HasGrown, IsSoundFor};
ghost use Rattle.reqomp.specs.Growing.{MayCopyBefore, MayCopyAfter, HasCopiedBefore, HasCopiedAfter, HasGroupEdges};
ghost use Rattle.reqomp.specs.Grouping.{vertices_of, IsGroup, AreGroups};
ghost use Rattle.reqomp.specs.LevelGraph.{IsLevelGraphOf};
ghost use Rattle.reqomp.specs.Simple.{marked_at};

use crate::groups::{Group, Groups};
use crate::growing::Growing;
use crate::marked::Marks;
use crate::near::Near;
use crate::places::Places;
use flat_core::Flat;
use graph_core::{Graph, VertexId};
use std::alloc::{AllocError, Global};

// The vertices of some groups, without edges.
fn without_edges(alloc: Global, groups: &[Group]) -> Result<Graph, AllocError>
    requires once { AreOnce (vertices_of groups.now) }
    requires few { length groups.now ≤ 600000 }
    ensures vertices { IfOk result (λ graph. graph.vertices ≡ vertices_of groups.now) }
    ensures no_edges { IfOk result (λ graph. graph.arrows ≡ []) }
{
    let mut graph = Graph::new(alloc);
    for group in groups {
        graph.add_vertex(group.vertex)?;
    }
    Ok(graph)
}

// For each vertex of the circuit graph its number among some groups, if it is there.
fn id_table(
    alloc: Global,
    circuit: &Graph,
    groups: &[Group],
) -> Result<Vec<Option<VertexId>>, AllocError>
    requires groups { ArePlaced circuit.now groups.now }
    requires few { length groups.now ≤ 600000 }
    ensures { IfOk result (λ ids. (graph : Arena) → graph.vertices ≡ vertices_of groups.now → IsIdTable circuit.now graph ids.items) }
{
    let mut ids = vec![in alloc; None; circuit.len()]?;
    for (i, group) in groups.iter().enumerate() {
        ids[group.at.number as usize] = Some(VertexId { number: i as u32 });
    }
    Ok(ids)
}

impl Growing {
    // Copies the edges of a step that is done again to a vertex of this graph.
    fn copy_again(
        &mut self,
        flat: &Flat,
        circuit: &Graph,
        ids: &[Option<VertexId>],
        near: &[Near],
        at: VertexId,
        id: VertexId,
    ) -> Result<(), AllocError>
        requires circuit { IsGraphOf flat.now circuit.now }
        requires table { IsIdTable circuit.now self.old.graph ids.now }
        requires sound { IsSoundFor flat.now (marked_at flat.now self.old.level) self.old.graph }
        requires near { AreNear circuit.now near.now }
        requires at { at.number < length circuit.now.vertices }
        requires id { id.number < length self.old.graph.vertices }
        requires before { (x v : Vertex) → IsVertexOf circuit.now at x → IsVertexOf self.old.graph id v
            → MayCopyBefore flat.now (marked_at flat.now self.old.level) false x v }
        requires after { (x u : Vertex) → IsVertexOf circuit.now at x → IsVertexOf self.old.graph id u
            → MayCopyAfter flat.now (marked_at flat.now self.old.level) x u }
        ensures level { self.new.level ≡ self.old.level }
        ensures grown { HasGrown self.old.graph self.new.graph }
        ensures sound { IsSoundFor flat.now (marked_at flat.now self.old.level) self.new.graph }
        ensures before { OnOk result ((x v : Vertex) → IsVertexOf circuit.now at x → IsVertexOf self.old.graph id v
            → HasCopiedBefore flat.now false x v self.new.graph) }
        ensures after { OnOk result ((x u : Vertex) → IsVertexOf circuit.now at x → IsVertexOf self.old.graph id u
            → HasCopiedAfter flat.now x u self.new.graph) }
    {
        let _vertices = circuit.len();
        let row = &near[at.number as usize];
        self.add_ends(flat, circuit, ids, &row.holders, id, true)?;
        self.add_ends(flat, circuit, ids, &row.changers, id, false)
    }

    // Adds the edges of a group, whose vertex has this id in this graph.
    fn add_group_edges(
        &mut self,
        flat: &Flat,
        circuit: &Graph,
        ids: &[Option<VertexId>],
        near: &[Near],
        places: &Places,
        group: &Group,
        id: VertexId,
    ) -> Result<(), AllocError>
        requires circuit { IsGraphOf flat.now circuit.now }
        requires table { IsIdTable circuit.now self.old.graph ids.now }
        requires sound { IsSoundFor flat.now (marked_at flat.now self.old.level) self.old.graph }
        requires near { AreNear circuit.now near.now }
        requires places { ArePlaces flat.now circuit.now (length circuit.now.vertices) places.now }
        requires group { IsGroup flat.now (marked_at flat.now self.old.level) circuit.now group.now }
        requires id { IsVertexOf self.old.graph id group.now.vertex }
        ensures level { self.new.level ≡ self.old.level }
        ensures grown { HasGrown self.old.graph self.new.graph }
        ensures sound { IsSoundFor flat.now (marked_at flat.now self.old.level) self.new.graph }
        ensures edges { OnOk result (HasGroupEdges flat.now group.now self.new.graph) }
    {
        let _steps = flat.steps();
        self.copy_before(flat, circuit, ids, group.at, id)?;
        for t in &group.steps {
            let at = places.beside(group.vertex, group.at, *t);
            self.copy_again(flat, circuit, ids, near, at, id)?;
        }
        Ok(())
    }

    // Adds the edges of all groups, whose vertices this graph has in their order.
    fn add_all_edges(
        &mut self,
        flat: &Flat,
        circuit: &Graph,
        ids: &[Option<VertexId>],
        near: &[Near],
        places: &Places,
        groups: &[Group],
    ) -> Result<(), AllocError>
        requires circuit { IsGraphOf flat.now circuit.now }
        requires table { IsIdTable circuit.now self.old.graph ids.now }
        requires sound { IsSoundFor flat.now (marked_at flat.now self.old.level) self.old.graph }
        requires near { AreNear circuit.now near.now }
        requires places { ArePlaces flat.now circuit.now (length circuit.now.vertices) places.now }
        requires groups { (i : ℕ) (group : Group) → slice_get groups.now i ≡ Some group
            → IsGroup flat.now (marked_at flat.now self.old.level) circuit.now group }
        requires vertices { self.old.graph.vertices ≡ vertices_of groups.now }
        ensures grown { HasGrown self.old.graph self.new.graph }
        ensures sound { IsSoundFor flat.now (marked_at flat.now self.old.level) self.new.graph }
        ensures edges { OnOk result ((i : ℕ) (group : Group) → slice_get groups.now i ≡ Some group → HasGroupEdges flat.now group self.new.graph) }
    {
        let _count = self.graph.len();
        for (i, group) in groups.iter().enumerate() {
            let id = VertexId { number: i as u32 };
            self.add_group_edges(flat, circuit, ids, near, places, group, id)?;
        }
        Ok(())
    }
}

/// The graph of a level, by its groups: its vertices are those of the groups, in their order. It fails only where
/// memory runs out.
pub fn level_graph(
    alloc: Global,
    flat: &Flat,
    circuit: &Graph,
    near: &[Near],
    marks: &Marks,
    groups: &Groups,
) -> Result<Graph, AllocError>
    requires circuit { IsGraphOf flat.now circuit.now }
    requires near { AreNear circuit.now near.now }
    requires groups { AreGroups flat.now (marked_at flat.now marks.now.level) circuit.now (length circuit.now.vertices) groups.now }
    requires few { groups.now.moves ≤ 600000 }
    ensures vertices { IfOk result (λ graph. graph.vertices ≡ vertices_of groups.now.items.items) }
    ensures edges { IfOk result (λ graph. IsLevelGraphOf flat.now (marked_at flat.now marks.now.level) graph) }
{
    let _steps = flat.steps();
    let graph = without_edges(alloc, &groups.items)?;
    let ids = id_table(alloc, circuit, &groups.items)?;
    let places = Places::new(alloc, flat, circuit)?;
    let mut growing = Growing {
        level: marks.level,
        graph,
        edges: 0,
    };
    growing.add_all_edges(flat, circuit, &ids, near, &places, &groups.items)?;
    Ok(growing.graph)
}
