//! The ids of the steps in the circuit graph.

ghost use Rattle.std.specs.Prelude.{◌≡◌, ◌+◌, ◌<◌, length, IfOk};
ghost use Rattle.flat_core.specs.Form.{FlatForm};
ghost use Rattle.graph_core.specs.Arena.{Arena, IsVertexOf};
ghost use Rattle.graph_core.specs.Circuit.{IsVertex};
ghost use Rattle.unqomp.specs.GraphOf.{IsGraphOf};
ghost use Rattle.reqomp.specs.Contracted.{alike};
ghost use Rattle.reqomp.specs.Growing.{ArePlaces};

use flat_core::{Flat, StepId};
use graph_core::{Graph, Vertex, VertexId};
use std::alloc::{AllocError, Global};

/// The ids in the circuit graph of the steps, done and undone.
#[derive(Drop)]
pub struct Places {
    pub forward: Vec<VertexId>,
    pub reverse: Vec<VertexId>,
}

impl Places {
    /// The places of the steps in a circuit graph. It fails only where memory runs out.
    pub fn new(alloc: Global, flat: &Flat, circuit: &Graph) -> Result<Places, AllocError>
        requires circuit { IsGraphOf flat.now circuit.now }
        ensures { IfOk result (λ places. ArePlaces flat.now circuit.now (length circuit.now.vertices) places) }
    {
        let first = VertexId { number: 0 };
        let mut places = Places {
            forward: vec![in alloc; first; flat.steps()]?,
            reverse: vec![in alloc; first; flat.steps()]?,
        };
        for i in 0..circuit.len() {
            places.note(flat, circuit, VertexId { number: i as u32 });
        }
        Ok(places)
    }

    // Notes the id of a vertex of the circuit graph.
    fn note(&mut self, flat: &Flat, circuit: &Graph, at: VertexId)
        requires circuit { IsGraphOf flat.now circuit.now }
        requires there { at.number < length circuit.now.vertices }
        requires places { ArePlaces flat.now circuit.now at.number self.old }
        ensures { ArePlaces flat.now circuit.now (at.number + 1) self.new }
    {
        let _count = circuit.len();
        match circuit.vertex(at) {
            Vertex::Forward(s) => self.forward[s.number as usize] = at,
            Vertex::Reverse(s) => self.reverse[s.number as usize] = at,
            Vertex::Free(_) => {}
        }
    }

    /// The id of another step, done where a vertex does its step, and undone where the vertex undoes it; for a vertex
    /// without a step its own id.
    pub fn beside(&self, v: Vertex, at: VertexId, t: StepId) -> VertexId
        requires forward_row { t.number < length self.now.forward.items }
        requires reverse_row { t.number < length self.now.reverse.items }
        ensures { (f : FlatForm) (circuit : Arena) → IsGraphOf f circuit → ArePlaces f circuit (length circuit.vertices) self.now
            → IsVertexOf circuit at v → IsVertex f (alike v t) → IsVertexOf circuit result (alike v t) }
    {
        match v {
            Vertex::Forward(_) => self.forward[t.number as usize],
            Vertex::Reverse(_) => self.reverse[t.number as usize],
            Vertex::Free(_) => at,
        }
    }
}
