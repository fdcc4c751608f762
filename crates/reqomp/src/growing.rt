//! The graph of a level in the making: its edges are copied from the circuit graph.

ghost use Rattle.std.specs.Prelude.{◌≡◌, ◌<◌, ◌⊎◌, ◌↔◌, true, length, get_or, None, Some, Contains, IsTrue, OnOk};
ghost use Rattle.graph_core.specs.declared.vertex.Vertex.{Vertex};
ghost use Rattle.graph_core.specs.declared.graph.VertexId.{VertexId};
ghost use Rattle.graph_core.specs.declared.vertex.EdgeKind.TheVariants.{Target};
ghost use Rattle.graph_core.specs.declared.graph.Arrow.{Arrow};
ghost use Rattle.graph_core.specs.Arena.{IsVertexOf};
ghost use Rattle.unqomp.specs.GraphOf.{IsGraphOf};
ghost use Rattle.reqomp.specs.Contracted.{TakenEdge};
ghost use Rattle.reqomp.specs.Growing.{IsIdTable, HasGrown, IsSoundFor, MayCopyBefore, HasCopiedBefore, TakenAgain, HasEnds, arrow_of, arrow_again};
ghost use Rattle.reqomp.specs.Simple.{marked_at};

use flat_core::Flat;
use graph_core::{Arrow, EdgeKind, Edges, Graph, VertexId};
use std::alloc::AllocError;

/// The graph of a level, and how many edges it has.
#[derive(Drop)]
pub struct Growing {
    pub level: u8,
    pub graph: Graph,
    pub edges: u32,
    ghost counted: { length graph.arrows ≡ edges },
}

// Whether an edge is of a kind, and has another end.
fn is_edge(v: VertexId, k: EdgeKind, other: VertexId, kind: EdgeKind) -> bool
    ensures { IsTrue result ↔ ((v ≡ other) × (k ≡ kind)) }
{
    v == other && k == kind
}

// The id in the level's graph of a vertex of the circuit graph, if it is there.
fn chosen(ids: &[Option<VertexId>], x: VertexId) -> Option<VertexId>
    requires { x.number < length ids.now }
    ensures { result ≡ get_or ids.now x.number None }
{
    ids[x.number as usize]
}

// The edge at a vertex of the level's graph that a step which is done again gives, and another vertex.
fn arrow_again(other: VertexId, own: VertexId, entering: bool) -> Arrow
    ensures { result ≡ arrow_again entering other own }
{
    if entering {
        Arrow {
            from: other,
            to: own,
            kind: EdgeKind::Control,
        }
    } else {
        Arrow {
            from: own,
            to: other,
            kind: EdgeKind::Availability,
        }
    }
}

// Whether an edge of a kind leads to a vertex, or comes from it.
fn has_end(edges: &mut Edges<'_>, other: VertexId, kind: EdgeKind) -> bool
    ensures { IsTrue result ↔ Contains edges.old (other, kind) }
{
    while let Some((v, k)) = edges.next() {
        if is_edge(v, k, other, kind) {
            return true;
        }
    }
    false
}

impl Growing {
    // Whether an edge is there.
    fn has_edge(&self, from: VertexId, to: VertexId, kind: EdgeKind) -> bool
        requires from { from.number < length self.now.graph.vertices }
        requires to { to.number < length self.now.graph.vertices }
        ensures { IsTrue result ↔ Contains self.now.graph.arrows (arrow_of from to kind) }
    {
        if kind == EdgeKind::Availability {
            has_end(&mut self.graph.after(from), to, kind)
        } else {
            has_end(&mut self.graph.before(to), from, kind)
        }
    }

    // Adds an edge, unless it is there.
    fn add_once(&mut self, from: VertexId, to: VertexId, kind: EdgeKind) -> Result<(), AllocError>
        requires from { from.number < length self.old.graph.vertices }
        requires to { to.number < length self.old.graph.vertices }
        requires lone_from { kind ≡ Target → (d : Arrow) → Contains self.old.graph.arrows d → d.kind ≡ Target → d.from ≡ from → d ≡ arrow_of from to kind }
        requires lone_to { kind ≡ Target → (d : Arrow) → Contains self.old.graph.arrows d → d.kind ≡ Target → d.to ≡ to → d ≡ arrow_of from to kind }
        ensures level { self.new.level ≡ self.old.level }
        ensures grown { HasGrown self.old.graph self.new.graph }
        ensures only { (e : Arrow) → Contains self.new.graph.arrows e → Contains self.old.graph.arrows e ⊎ (arrow_of from to kind ≡ e) }
        ensures there { OnOk result (Contains self.new.graph.arrows (arrow_of from to kind)) }
    {
        if self.has_edge(from, to, kind) {
            return Ok(());
        }
        if self.edges >= u32::MAX - 1 {
            return Err(AllocError);
        }
        self.graph.add_edge(from, to, kind)?;
        self.edges += 1;
        Ok(())
    }

    // Adds an edge of the level's graph, unless it is there.
    fn add_taken(
        &mut self,
        flat: &Flat,
        circuit: &Graph,
        from: VertexId,
        to: VertexId,
        kind: EdgeKind,
    ) -> Result<(), AllocError>
        requires circuit { IsGraphOf flat.now circuit.now }
        requires sound { IsSoundFor flat.now (marked_at flat.now self.old.level) self.old.graph }
        requires from { from.number < length self.old.graph.vertices }
        requires to { to.number < length self.old.graph.vertices }
        requires taken { (u v : Vertex) → IsVertexOf self.old.graph from u → IsVertexOf self.old.graph to v → TakenEdge flat.now (marked_at flat.now self.old.level) kind u v }
        ensures level { self.new.level ≡ self.old.level }
        ensures grown { HasGrown self.old.graph self.new.graph }
        ensures sound { IsSoundFor flat.now (marked_at flat.now self.old.level) self.new.graph }
        ensures there { OnOk result (Contains self.new.graph.arrows (arrow_of from to kind)) }
    {
        let _steps = flat.steps();
        let _vertices = circuit.len();
        let _count = self.graph.len();
        self.add_once(from, to, kind)
    }

    /// Copies the edges that enter a vertex of the circuit graph to a vertex of this one.
    pub fn copy_before(
        &mut self,
        flat: &Flat,
        circuit: &Graph,
        ids: &[Option<VertexId>],
        at: VertexId,
        to: VertexId,
    ) -> Result<(), AllocError>
        requires circuit { IsGraphOf flat.now circuit.now }
        requires table { IsIdTable circuit.now self.old.graph ids.now }
        requires sound { IsSoundFor flat.now (marked_at flat.now self.old.level) self.old.graph }
        requires at { at.number < length circuit.now.vertices }
        requires to { to.number < length self.old.graph.vertices }
        requires may { (x v : Vertex) → IsVertexOf circuit.now at x → IsVertexOf self.old.graph to v → MayCopyBefore flat.now (marked_at flat.now self.old.level) true x v }
        ensures level { self.new.level ≡ self.old.level }
        ensures grown { HasGrown self.old.graph self.new.graph }
        ensures sound { IsSoundFor flat.now (marked_at flat.now self.old.level) self.new.graph }
        ensures copied { OnOk result ((x v : Vertex) → IsVertexOf circuit.now at x → IsVertexOf self.old.graph to v → HasCopiedBefore flat.now true x v self.new.graph) }
    {
        let _vertices = circuit.len();
        let mut edges = circuit.before(at);
        while let Some((x, kind)) = edges.next() {
            if let Some(from) = chosen(ids, x) {
                self.add_taken(flat, circuit, from, to, kind)?;
            }
        }
        Ok(())
    }

    // Adds the edge of an end, if that is in this graph.
    fn add_end(
        &mut self,
        flat: &Flat,
        circuit: &Graph,
        ids: &[Option<VertexId>],
        x: VertexId,
        own: VertexId,
        entering: bool,
    ) -> Result<(), AllocError>
        requires circuit { IsGraphOf flat.now circuit.now }
        requires table { IsIdTable circuit.now self.old.graph ids.now }
        requires sound { IsSoundFor flat.now (marked_at flat.now self.old.level) self.old.graph }
        requires end { x.number < length circuit.now.vertices }
        requires own { own.number < length self.old.graph.vertices }
        requires taken { (u v : Vertex) → IsVertexOf circuit.now x u → IsVertexOf self.old.graph own v → TakenAgain flat.now (marked_at flat.now self.old.level) entering u v }
        ensures level { self.new.level ≡ self.old.level }
        ensures grown { HasGrown self.old.graph self.new.graph }
        ensures sound { IsSoundFor flat.now (marked_at flat.now self.old.level) self.new.graph }
        ensures there { OnOk result ((y : VertexId) → get_or ids.now x.number None ≡ Some y → Contains self.new.graph.arrows (arrow_again entering y own)) }
    {
        match chosen(ids, x) {
            None => Ok(()),
            Some(y) => {
                let arrow = arrow_again(y, own, entering);
                self.add_taken(flat, circuit, arrow.from, arrow.to, arrow.kind)
            }
        }
    }

    /// Adds edges for steps that are done again at a vertex of this graph: Control edges from those of some vertices of the
    /// circuit graph that are here, or else Availability edges to them.
    pub fn add_ends(
        &mut self,
        flat: &Flat,
        circuit: &Graph,
        ids: &[Option<VertexId>],
        ends: &[VertexId],
        own: VertexId,
        entering: bool,
    ) -> Result<(), AllocError>
        requires circuit { IsGraphOf flat.now circuit.now }
        requires table { IsIdTable circuit.now self.old.graph ids.now }
        requires sound { IsSoundFor flat.now (marked_at flat.now self.old.level) self.old.graph }
        requires ends { (x : VertexId) → Contains ends.now x → x.number < length circuit.now.vertices }
        requires own { own.number < length self.old.graph.vertices }
        requires taken { (x : VertexId) (u v : Vertex) → Contains ends.now x → IsVertexOf circuit.now x u → IsVertexOf self.old.graph own v → TakenAgain flat.now (marked_at flat.now self.old.level) entering u v }
        ensures level { self.new.level ≡ self.old.level }
        ensures grown { HasGrown self.old.graph self.new.graph }
        ensures sound { IsSoundFor flat.now (marked_at flat.now self.old.level) self.new.graph }
        ensures there { OnOk result (HasEnds ids.now ends.now own entering self.new.graph) }
    {
        for i in 0..ends.len() {
            let x = ends[i];
            self.add_end(flat, circuit, ids, x, own, entering)?;
        }
        Ok(())
    }
}
