//! The kept vertices of a level, each with the steps that are done again for it.

ghost use Rattle.std.specs.Prelude.{◌≡◌, ◌+◌, ◌<◌, ◌≤◌, ◌^◌, ◌↔◌, length, None, IsTrue, IfOk, IfSome, OnOk, MatchOption};
ghost use Rattle.flat_core.specs.Label.{step_at};
ghost use Rattle.flat_core.specs.Sound.{IsFlat};
ghost use Rattle.graph_core.specs.Circuit.{IsVertex};
ghost use Rattle.unqomp.specs.GraphOf.{IsGraphOf};
ghost use Rattle.reqomp.specs.Grouping.{AreGroups};
ghost use Rattle.reqomp.specs.Level.{IsKept};
ghost use Rattle.reqomp.specs.Marking.{AreMarks};
ghost use Rattle.reqomp.specs.Passing.{IsSearch};
ghost use Rattle.reqomp.specs.Redone.{changes_one};
ghost use Rattle.reqomp.specs.Search.{IsWidthOf};
ghost use Rattle.reqomp.specs.Simple.{marked_at};

use crate::marked::{Marks, changes_flagged};
use crate::pass_back::Search;
use flat_core::{Flat, StepId};
use graph_core::{Graph, Vertex, VertexId};
use std::alloc::{AllocError, Global};

/// A vertex, with its id in the circuit graph and the steps that a level does again for it, in step order.
#[derive(Drop)]
pub struct Group {
    pub at: VertexId,
    pub vertex: Vertex,
    pub steps: Vec<StepId>,
}

/// The groups of the kept vertices in the order of their ids, and how many moves they give.
#[derive(Drop)]
pub struct Groups {
    pub items: Vec<Group>,
    pub moves: usize,
}

// Whether a step changes a marked wire.
fn changes_marked(flat: &Flat, marks: &Marks, s: StepId) -> bool
    requires sound { IsFlat flat.now }
    requires there { s.number < length flat.now.steps }
    requires marks { AreMarks flat.now marks.now }
    ensures { result ≡ changes_one (marked_at flat.now marks.now.level) (step_at flat.now s) }
{
    changes_flagged(flat, &marks.flags, s)
}

// Whether a vertex stands on no chain of a marked wire.
fn is_kept(flat: &Flat, marks: &Marks, v: Vertex) -> bool
    requires sound { IsFlat flat.now }
    requires vertex { IsVertex flat.now v }
    requires marks { AreMarks flat.now marks.now }
    ensures { IsTrue result ↔ IsKept flat.now (marked_at flat.now marks.now.level) v }
{
    match v {
        Vertex::Forward(s) => !changes_marked(flat, marks, s),
        Vertex::Reverse(s) => !changes_marked(flat, marks, s),
        Vertex::Free(_) => true,
    }
}

// Adds the group of a vertex, where it is kept.
fn add_group(
    alloc: Global,
    flat: &Flat,
    circuit: &Graph,
    marks: &Marks,
    search: &mut Search,
    groups: &mut Groups,
    at: VertexId,
) -> Result<(), AllocError>
    requires sound { IsFlat flat.now }
    requires circuit { IsGraphOf flat.now circuit.now }
    requires marks { AreMarks flat.now marks.now }
    requires search { IsSearch flat.now search.old }
    requires room { search.old.newest + 1 < 2 ^ 64 }
    requires there { at.number < length circuit.now.vertices }
    requires groups { AreGroups flat.now (marked_at flat.now marks.now.level) circuit.now at.number groups.old }
    requires few { groups.old.moves ≤ 600000 }
    ensures search { IsSearch flat.now search.new }
    ensures newest { search.new.newest ≤ search.old.newest + 1 }
    ensures groups { OnOk result (AreGroups flat.now (marked_at flat.now marks.now.level) circuit.now (at.number + 1) groups.new) }
{
    let _count = circuit.len();
    let vertex = circuit.vertex(at);
    if !is_kept(flat, marks, vertex) {
        return Ok(());
    }
    let steps = search.redone(alloc, flat, marks, vertex)?;
    let more = 2 * steps.len() + 1;
    groups.items.push(Group { at, vertex, steps })?;
    groups.moves += more;
    Ok(())
}

/// The groups of a level, or none where they give more than 600,000 moves.
pub fn groups_of(
    alloc: Global,
    flat: &Flat,
    circuit: &Graph,
    marks: &Marks,
    search: &mut Search,
) -> Result<Option<Groups>, AllocError>
    requires circuit { IsGraphOf flat.now circuit.now }
    requires marks { AreMarks flat.now marks.now }
    requires search { IsSearch flat.now search.old }
    requires room { search.old.newest + 2 ^ 32 < 2 ^ 64 }
    ensures search { IsSearch flat.now search.new }
    ensures newest { search.new.newest ≤ search.old.newest + 2 ^ 32 }
    ensures groups { IfOk result (λ found. MatchOption found (IsWidthOf flat.now marks.now.level None) (λ groups. AreGroups flat.now (marked_at flat.now marks.now.level) circuit.now (length circuit.now.vertices) groups)) }
    ensures few { IfOk result (λ found. IfSome found (λ groups. groups.moves ≤ 600000)) }
{
    let _steps = flat.steps();
    let mut groups = Groups {
        items: Vec::new(alloc),
        moves: 0,
    };
    for i in 0..circuit.len() {
        let at = VertexId { number: i as u32 };
        add_group(alloc, flat, circuit, marks, search, &mut groups, at)?;
        if groups.moves > 600000 {
            return Ok(None);
        }
    }
    Ok(Some(groups))
}
