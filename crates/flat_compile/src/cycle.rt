//! The vertices of a cycle, with the lines of their steps.

ghost use Rattle.std.specs.Prelude.{◌≡◌, ◌<◌, Contains, IfOk, List, length};
ghost use Rattle.graph_core.specs.Circuit.{IsVertex};
ghost use Rattle.graph_core.specs.declared.vertex.Vertex.{Vertex as Place};
ghost use Rattle.flat_compile.specs.Places.{IsPlaceOf, ArePlacesOf};

use flat_core::Flat;
use graph_core::Vertex;
use std::alloc::{AllocError, Global};
use std::marker::Model;

/// A vertex of a circuit graph, as it is told to a user.
#[derive(Clone, Copy, PartialEq, Eq)]
pub enum CyclePlace {
    /// A step, by its number from 0 and its source line from 1.
    Forward { step: u32, line: u32 },
    /// The undoing of a step.
    Reverse { step: u32, line: u32 },
    /// The freeing of a wire, by its number from 0.
    Free { wire: u32 },
}

/// The vertices of a cycle in edge direction, from the least one in rank.
#[derive(Drop)]
pub struct CyclePlaces {
    items: Vec<CyclePlace>,
}

impl Model for CyclePlaces {
    ghost use Rattle.std.specs.Prelude.{List};
    ghost use Rattle.flat_compile.specs.declared.cycle.CyclePlace.{CyclePlace};

    ghost Value = { List CyclePlace };

    ghost view = { λ c. c.items.items };
}

impl CyclePlaces {
    /// The vertices.
    pub fn as_slice(&self) -> &[CyclePlace]
        ensures { result.now ≡ self.now }
    {
        self.items.as_slice()
    }
}

// A vertex with its line.
fn place(flat: &Flat, vertex: Vertex) -> CyclePlace
    requires { IsVertex flat.now vertex }
    ensures { IsPlaceOf flat.now vertex result }
{
    match vertex {
        Vertex::Forward(step) => CyclePlace::Forward {
            step: step.number,
            line: flat.line(step),
        },
        Vertex::Reverse(step) => CyclePlace::Reverse {
            step: step.number,
            line: flat.line(step),
        },
        Vertex::Free(wire) => CyclePlace::Free { wire: wire.number },
    }
}

/// The vertices of a cycle with their lines.
pub(crate) fn places(
    alloc: Global,
    flat: &Flat,
    vertices: &[Vertex],
) -> Result<CyclePlaces, AllocError>
    requires { (v : Place) → Contains vertices.now v → IsVertex flat.now v }
    ensures { IfOk result (λ found. ArePlacesOf flat.now vertices.now found) }
{
    let mut items = Vec::new(alloc);
    for vertex in vertices {
        items.push(place(flat, *vertex))?;
    }
    Ok(CyclePlaces { items })
}
