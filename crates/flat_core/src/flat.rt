//! Flat forms.

ghost use Rattle.std.specs.Prelude.{◌≡◌, ◌<◌, ◌↔◌, IsTrue, length, slice_get, Some};
ghost use Rattle.flat_core.specs.Label.{Names, step_at, end_of, is_input, top, label_before};
ghost use Rattle.flat_core.specs.Sound.{IsFlat};
ghost use Rattle.flat_core.specs.Rows.{flat_of, IsFlatRows};

use crate::lists::WireLists;
use crate::rows::{StepRow, WireRow};
use crate::step::{End, Step, StepId, WireId};
use std::marker::Model;

/// A flat form: its wires, its steps, and the wires of each parameter and of each result.
#[derive(Drop)]
pub struct Flat {
    wires: Vec<WireRow>,
    steps: Vec<StepRow>,
    outcomes: u32,
    ins: WireLists,
    outs: WireLists,
}

impl Model for Flat {
    ghost use Rattle.flat_core.specs.Form.{FlatForm};

    ghost Value = { FlatForm };

    ghost use Rattle.flat_core.specs.Rows.{flat_of, IsFlatRows};

    ghost view = { λ f. flat_of f.wires.items f.steps.items f.outcomes f.ins f.outs };

    ghost invariant = { λ f. IsFlatRows f.wires.items f.steps.items f.outcomes f.ins f.outs };
}

impl Flat {
    // The flat form of what was kept of wires and steps.
    pub(crate) fn of_rows(
        wires: Vec<WireRow>,
        steps: Vec<StepRow>,
        outcomes: u32,
        ins: WireLists,
        outs: WireLists,
    ) -> Flat
        requires { IsFlatRows wires.items steps.items outcomes ins outs }
        ensures { result ≡ flat_of wires.items steps.items outcomes ins outs }
    {
        Flat {
            wires,
            steps,
            outcomes,
            ins,
            outs,
        }
    }

    /// The number of steps.
    pub fn steps(&self) -> usize
        ensures count { result ≡ length self.now.steps }
        ensures sound { IsFlat self.now }
    {
        self.steps.len()
    }

    /// The number of wires.
    pub fn wires(&self) -> usize
        ensures { result ≡ length self.now.wires }
    {
        self.wires.len()
    }

    /// The number of outcome bits.
    pub fn outcomes(&self) -> u32
        ensures { result ≡ self.now.outcomes }
    {
        self.outcomes
    }

    /// A step by its id.
    pub fn step(&self, s: StepId) -> Step
        requires { s.number < length self.now.steps }
        ensures { result ≡ step_at self.now s }
    {
        self.steps[s.number as usize].step
    }

    /// The source line of a step.
    pub fn line(&self, s: StepId) -> u32
        requires { s.number < length self.now.steps }
        ensures { slice_get self.now.lines s.number ≡ Some result }
    {
        self.steps[s.number as usize].line
    }

    /// What becomes of a wire.
    pub fn end(&self, w: WireId) -> End
        requires { w.number < length self.now.wires }
        ensures { result ≡ end_of self.now w }
    {
        self.wires[w.number as usize].ending
    }

    /// Whether a wire is an input.
    pub fn is_input(&self, w: WireId) -> bool
        requires { w.number < length self.now.wires }
        ensures { result ≡ is_input self.now w }
    {
        self.wires[w.number as usize].input
    }

    /// The last label of a wire: the number of its X and H steps.
    pub fn top(&self, w: WireId) -> u32
        requires { w.number < length self.now.wires }
        ensures { result ≡ top self.now w }
    {
        self.wires[w.number as usize].label
    }

    /// The label that a wire has before a step that names it.
    pub fn label_before(&self, s: StepId, w: WireId) -> u32
        requires there { s.number < length self.now.steps }
        requires named { Names (step_at self.now s) w }
        ensures { result ≡ label_before self.now s w }
    {
        let row = &self.steps[s.number as usize];
        if is_it(row.step.main_wire(), w) {
            row.main
        } else if is_it(row.step.first_wire(), w) {
            row.first
        } else {
            row.second
        }
    }

    /// The wires of each parameter.
    pub fn ins(&self) -> &WireLists
        ensures { result.now ≡ self.now.ins }
    {
        &self.ins
    }

    /// The wires of each result.
    pub fn outs(&self) -> &WireLists
        ensures { result.now ≡ self.now.outs }
    {
        &self.outs
    }
}

// Whether a wire is the one named.
fn is_it(named: Option<WireId>, w: WireId) -> bool
    ensures { IsTrue result ↔ (named ≡ Some w) }
{
    match named {
        Some(v) => v.number == w.number,
        None => false,
    }
}
