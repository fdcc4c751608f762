//! Flat forms in the making.

ghost use Rattle.std.specs.Prelude.{◌≡◌, ◌+◌, ◌<◌, length, IfOk, OnErr, IfErr, MatchOption};
ghost use Rattle.flat_core.specs.Label.{wire_in, label_after};
ghost use Rattle.flat_core.specs.Sound.{IsFlat, count_measures};
ghost use Rattle.flat_core.specs.Drafts.{empty_draft, with_wire, with_step, with_end, finished, over_by_wire, over_by_step, IsNextStep, IsDraft, is_measured};

use crate::flat::Flat;
use crate::lists::WireLists;
use crate::rows::{StepRow, WireRow, mark, row_of};
use crate::step::{End, Step, StepId, WireId};
use silq_io::{LimitFault, LimitKind, OverLimit};
use std::alloc::Global;
use std::marker::Model;

const MOST_STEPS: usize = 200_000;

const MOST_WIRES: usize = 100_000;

const MOST_OUTCOMES: u32 = 4_096;

/// A flat form in the making. After a refusal it is as it was before.
#[derive(Drop)]
pub struct Draft {
    wires: Vec<WireRow>,
    steps: Vec<StepRow>,
    outcomes: u32,
}

impl Model for Draft {
    ghost use Rattle.flat_core.specs.Form.{DraftForm};

    ghost Value = { DraftForm };

    ghost use Rattle.flat_core.specs.Rows.{draft_of, IsDraftRows};

    ghost view = { λ d. draft_of d.wires.items d.steps.items };

    ghost invariant = { λ d. IsDraftRows d.wires.items d.steps.items d.outcomes };
}

impl Draft {
    /// A draft without wires and steps.
    pub fn new(alloc: Global) -> Draft
        ensures { result ≡ empty_draft }
    {
        Draft {
            wires: Vec::new(alloc),
            steps: Vec::new(alloc),
            outcomes: 0,
        }
    }

    /// Makes the next wire, which ends as Dropped at first.
    pub fn wire(&mut self, input: bool) -> Result<WireId, LimitFault>
        ensures made { IfOk result (λ w. (w.number ≡ length self.old.wires) × (self.new ≡ with_wire self.old input)) }
        ensures limit { MatchOption (over_by_wire self.old) (IfErr result (λ e. e ≡ LimitFault.Memory)) (λ over. result ≡ Err (LimitFault.Limit over)) }
        ensures refused { OnErr result (self.new ≡ self.old) }
    {
        let number = self.wires.len();
        if number >= MOST_WIRES {
            return Err(over(LimitKind::Wires, 100_001));
        }
        self.wires.push(WireRow {
            input,
            ending: End::Dropped,
            label: 0,
            measured: false,
        })?;
        Ok(WireId {
            number: number as u32,
        })
    }

    /// Makes the next step, which stands for something on this source line.
    pub fn step(&mut self, step: Step, line: u32) -> Result<StepId, LimitFault>
        requires { IsNextStep self.old step }
        ensures made { IfOk result (λ s. (s.number ≡ length self.old.steps) × (self.new ≡ with_step self.old step line)) }
        ensures limit { MatchOption (over_by_step self.old step) (IfErr result (λ e. e ≡ LimitFault.Memory)) (λ over. result ≡ Err (LimitFault.Limit over)) }
        ensures refused { OnErr result (self.new ≡ self.old) }
    {
        let measures = step.is_measure();
        if measures && self.outcomes >= MOST_OUTCOMES {
            return Err(over(LimitKind::Outcomes, 4_097));
        }
        let number = self.steps.len();
        if number >= MOST_STEPS {
            return Err(over(LimitKind::Steps, 200_001));
        }
        self.steps.push(row_of(&self.wires, step, line))?;
        mark(&mut self.wires, step.main_wire(), measures);
        if measures {
            self.outcomes += 1;
        }
        Ok(StepId {
            number: number as u32,
        })
    }

    /// Sets the end of a wire.
    pub fn end(&mut self, w: WireId, end: End)
        requires { w.number < length self.old.wires }
        ensures { self.new ≡ with_end self.old w end }
    {
        let row = &mut self.wires[w.number as usize];
        row.ending = end;
    }

    /// The label of a wire: the number of its X and H steps so far.
    pub fn label(&self, w: WireId) -> u32
        requires { w.number < length self.now.wires }
        ensures { result ≡ label_after self.now.steps w }
    {
        self.wires[w.number as usize].label
    }

    /// Whether a wire is an input.
    pub fn is_input(&self, w: WireId) -> bool
        requires { w.number < length self.now.wires }
        ensures { result ≡ (wire_in self.now.wires w).input }
    {
        self.wires[w.number as usize].input
    }

    /// Whether a wire has an M.
    pub fn is_measured(&self, w: WireId) -> bool
        requires { w.number < length self.now.wires }
        ensures { result ≡ is_measured self.now.steps w }
    {
        self.wires[w.number as usize].measured
    }

    /// The number of wires so far.
    pub fn wires(&self) -> usize
        ensures { result ≡ length self.now.wires }
    {
        self.wires.len()
    }

    /// The number of M steps so far, which is the number of the next one.
    pub fn outcomes(&self) -> u32
        ensures count { result ≡ count_measures self.now.steps }
        ensures sound { IsDraft self.now }
    {
        self.outcomes
    }

    /// The flat form of these wires and steps, with the wires of each parameter and of each result.
    pub fn finish(self, ins: WireLists, outs: WireLists) -> Flat
        requires { IsFlat (finished self ins outs) }
        ensures { result ≡ finished self ins outs }
    {
        let Draft {
            wires,
            steps,
            outcomes,
        } = self;
        Flat::of_rows(wires, steps, outcomes, ins, outs)
    }
}

// A count that went above its limit.
fn over(which: LimitKind, count: u64) -> LimitFault
    ensures { result ≡ LimitFault.Limit (record { which = which; count = count }) }
{
    LimitFault::Limit(OverLimit { which, count })
}
