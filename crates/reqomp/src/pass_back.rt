//! The steps that a level does again for a vertex, found in a pass back over the steps.

ghost use Rattle.std.specs.Prelude.{◌≡◌, ◌+◌, ◌<◌, ◌≤◌, ◌^◌, ◌++◌, List, length, IfOk, IfSome};
ghost use Rattle.flat_core.specs.declared.step.WireId.{WireId};
ghost use Rattle.flat_core.specs.Label.{step_at, used};
ghost use Rattle.flat_core.specs.Sound.{IsFlat};
ghost use Rattle.graph_core.specs.Circuit.{IsVertex};
ghost use Rattle.reqomp.specs.Marking.{AreMarks};
ghost use Rattle.reqomp.specs.Passing.{IsSearch, AreStamped, IsBelow, HasFound, stamped, lowered};
ghost use Rattle.reqomp.specs.Redone.{Found, marked_among, changes_one, found_at, redone};
ghost use Rattle.reqomp.specs.Simple.{marked_at};

use crate::marked::{Marks, first_steps};
use flat_core::{Flat, Step, StepId, WireId};
use graph_core::Vertex;
use std::alloc::{AllocError, Global};
use unqomp::used_wires;

/// What passes over a form go by: the first step of each wire, and a stamp for each wire, by which a pass knows the
/// wires that it found.
#[derive(Drop)]
pub struct Search {
    pub first: Vec<u32>,
    pub stamps: Vec<u64>,
    pub newest: u64,
}

impl Search {
    /// For the passes over a form.
    pub fn new(alloc: Global, flat: &Flat) -> Result<Search, AllocError>
        ensures search { IfOk result (λ search. IsSearch flat.now search) }
        ensures unused { IfOk result (λ search. search.newest ≡ 0) }
    {
        let first = first_steps(alloc, flat)?;
        let stamps = vec![in alloc; 0; flat.wires()]?;
        Ok(Search {
            first,
            stamps,
            newest: 0,
        })
    }

    // Puts a wire, if any, among those found, where it is marked, and gives the least first step.
    fn find(&mut self, marks: &Marks, wire: Option<WireId>, low: u32) -> u32
        requires flags { IfSome wire (λ w. w.number < length marks.now.flags.items) }
        requires stamps { IfSome wire (λ w. w.number < length self.old.stamps.items) }
        requires first { IfSome wire (λ w. w.number < length self.old.first.items) }
        ensures found { self.new.stamps.items ≡ stamped marks.now.flags.items self.old.newest wire self.old.stamps.items }
        ensures least { result ≡ lowered marks.now.flags.items self.old.first.items wire low }
        ensures newest { self.new.newest ≡ self.old.newest }
        ensures as_many { length self.new.stamps.items ≡ length self.old.stamps.items }
        ensures firsts { self.new.first.items ≡ self.old.first.items }
    {
        match wire {
            None => low,
            Some(w) => {
                let at = w.number as usize;
                if marks.flags[at] {
                    self.stamps[at] = self.newest;
                    low.min(self.first[at])
                } else {
                    low
                }
            }
        }
    }

    // Puts the marked wires that a step uses among those found, and gives the least first step.
    fn find_used(&mut self, flat: &Flat, marks: &Marks, s: StepId, low: u32) -> u32
        requires sound { IsFlat flat.now }
        requires there { s.number < length flat.now.steps }
        requires marks { AreMarks flat.now marks.now }
        requires search { IsSearch flat.now self.old }
        ensures search { IsSearch flat.now self.new }
        ensures newest { self.new.newest ≡ self.old.newest }
        ensures found { (wires : List WireId) → AreStamped self.old.stamps.items self.old.newest wires → AreStamped self.new.stamps.items self.old.newest (marked_among (marked_at flat.now marks.now.level) (used (step_at flat.now s)) ++ wires) }
        ensures below { (wires : List WireId) → IsBelow flat.now low wires → IsBelow flat.now result (marked_among (marked_at flat.now marks.now.level) (used (step_at flat.now s)) ++ wires) }
    {
        let (first, second) = used_wires(flat.step(s));
        let low = self.find(marks, first, low);
        self.find(marks, second, low)
    }

    // Whether a step changes a wire that was found.
    fn changes_found(&self, flat: &Flat, s: StepId) -> bool
        requires sound { IsFlat flat.now }
        requires there { s.number < length flat.now.steps }
        requires search { IsSearch flat.now self.now }
        ensures { (wires : List WireId) → AreStamped self.now.stamps.items self.now.newest wires → result ≡ changes_one wires (step_at flat.now s) }
    {
        match flat.step(s) {
            Step::X { target, .. } | Step::H { target, .. } => {
                self.stamps[target.number as usize] == self.newest
            }
            Step::P { .. } | Step::M { .. } => false,
        }
    }

    // Goes back over a step, and gives the least first step of the wires found.
    fn step_back(
        &mut self,
        flat: &Flat,
        marks: &Marks,
        s: StepId,
        low: u32,
        steps: &mut Vec<StepId>,
    ) -> Result<u32, AllocError>
        requires sound { IsFlat flat.now }
        requires there { s.number < length flat.now.steps }
        requires marks { AreMarks flat.now marks.now }
        requires search { IsSearch flat.now self.old }
        ensures search { IsSearch flat.now self.new }
        ensures newest { self.new.newest ≡ self.old.newest }
        ensures found { IfOk result (λ least. (found : Found) → HasFound flat.now self.old low steps.old.items found → HasFound flat.now self.new least steps.new.items (found_at flat.now (marked_at flat.now marks.now.level) s found)) }
    {
        if self.changes_found(flat, s) {
            steps.push(s)?;
            Ok(self.find_used(flat, marks, s, low))
        } else {
            Ok(low)
        }
    }

    // The steps done again for the vertices of a step, in step order.
    fn pass_back(
        &mut self,
        alloc: Global,
        flat: &Flat,
        marks: &Marks,
        s: StepId,
    ) -> Result<Vec<StepId>, AllocError>
        requires sound { IsFlat flat.now }
        requires there { s.number < length flat.now.steps }
        requires marks { AreMarks flat.now marks.now }
        requires search { IsSearch flat.now self.old }
        requires room { self.old.newest + 1 < 2 ^ 64 }
        ensures search { IsSearch flat.now self.new }
        ensures newest { self.new.newest ≡ self.old.newest + 1 }
        ensures steps { IfOk result (λ steps. steps.items ≡ redone flat.now (marked_at flat.now marks.now.level) (Vertex.Forward s)) }
    {
        self.newest += 1;
        let mut low = self.find_used(flat, marks, s, s.number);
        let mut steps = Vec::new(alloc);
        let mut i = s.number;
        while low < i {
            i = marks.jumps[i as usize];
            low = self.step_back(flat, marks, StepId { number: i }, low, &mut steps)?;
        }
        steps.reverse();
        Ok(steps)
    }

    /// The steps that a level does again for a vertex, in step order.
    pub fn redone(
        &mut self,
        alloc: Global,
        flat: &Flat,
        marks: &Marks,
        v: Vertex,
    ) -> Result<Vec<StepId>, AllocError>
        requires vertex { IsVertex flat.now v }
        requires marks { AreMarks flat.now marks.now }
        requires search { IsSearch flat.now self.old }
        requires room { self.old.newest + 1 < 2 ^ 64 }
        ensures search { IsSearch flat.now self.new }
        ensures newest { self.new.newest ≤ self.old.newest + 1 }
        ensures steps { IfOk result (λ steps. steps.items ≡ redone flat.now (marked_at flat.now marks.now.level) v) }
    {
        let _steps = flat.steps();
        match v {
            Vertex::Forward(s) => self.pass_back(alloc, flat, marks, s),
            Vertex::Reverse(s) => self.pass_back(alloc, flat, marks, s),
            Vertex::Free(_) => Ok(Vec::new(alloc)),
        }
    }
}
