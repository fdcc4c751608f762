//! A flat form that is built row by row.

ghost use Rattle.std.specs.Prelude.{◌≡◌, ◌<◌, [], length, IfOk, IfErr, Option, None};
ghost use Rattle.flat_core.specs.Drafts.{empty_draft, with_wire, with_end, finished, is_measured, over_by_wire, IsNextStep, FitsEnds};
ghost use Rattle.bit_arith.specs.Built.{begun, push, new_wire, new_wires, next_wire, next_wires, blank, read, made};
ghost use Rattle.bit_arith.specs.Rows.{measure};
ghost use Rattle.bit_arith.specs.Calls.{Building, Safe, no_target, IsTarget, AreTargets, Went, Refused};

use crate::operand::Operand;
use flat_core::{Draft, End, Flat, Step, WireId, WireLists};
use silq_io::LimitFault;
use std::alloc::Global;
use std::marker::Model;

/// A flat form in the making, the source line of the next steps, and the condition in force: an operand that has to hold for
/// the steps to change anything. After a refusal it is only dropped.
#[derive(Drop)]
pub struct Builder {
    pub(crate) alloc: Global,
    pub(crate) draft: Draft,
    pub(crate) line: u32,
    pub(crate) condition: Option<Operand>,
}

impl Model for Builder {
    ghost use Rattle.bit_arith.specs.Calls.{Building};

    ghost Value = { Building };

    ghost view = { λ b. record { draft = b.draft; setting = record { line = b.line; condition = b.condition } } };
}

impl Builder {
    /// A builder without wires and steps, on line 1 and without a condition.
    pub fn new(alloc: Global) -> Builder
        ensures { result ≡ record { draft = empty_draft; setting = record { line = 1; condition = None } } }
    {
        Builder {
            alloc,
            draft: Draft::new(alloc),
            line: 1,
            condition: None,
        }
    }

    /// Sets the condition in force and gives the old one.
    pub fn under(&mut self, condition: Option<Operand>) -> Option<Operand>
        ensures old { result ≡ self.old.setting.condition }
        ensures new { self.new ≡ record { draft = self.old.draft; setting = record { line = self.old.setting.line; condition = condition } } }
    {
        let old = self.condition;
        self.condition = condition;
        old
    }

    /// Sets the source line of the next steps and gives the old one.
    pub fn line(&mut self, line: u32) -> u32
        ensures old { result ≡ self.old.setting.line }
        ensures new { self.new ≡ record { draft = self.old.draft; setting = record { line = line; condition = self.old.setting.condition } } }
    {
        let old = self.line;
        self.line = line;
        old
    }

    /// The number of wires so far.
    pub fn wires(&self) -> usize
        ensures { result ≡ length self.now.draft.wires }
    {
        self.draft.wires()
    }

    /// Makes the next wire.
    pub fn wire(&mut self, input: bool) -> Result<WireId, LimitFault>
        ensures made { IfOk result (λ w. (w.number ≡ length self.old.draft.wires) × (self.new ≡ record { draft = with_wire self.old.draft input; setting = self.old.setting })) }
        ensures ok { IfOk result (λ _. over_by_wire self.old.draft ≡ None) }
        ensures refused { IfErr result (λ e. Refused e (record { draft = with_wire self.old.draft input; over = over_by_wire self.old.draft })) }
    {
        self.draft.wire(input)
    }

    // Makes the next wire, which is no input.
    pub(crate) fn new_wire(&mut self) -> Result<WireId, LimitFault>
        ensures answer { IfOk result (λ w. w ≡ next_wire (begun self.old.draft)) }
        ensures ok { IfOk result (λ _. Went self.old self.new (new_wire (begun self.old.draft))) }
        ensures target { IfOk result (λ w. IsTarget self.new.draft w) }
        ensures refused { IfErr result (λ e. Refused e (new_wire (begun self.old.draft))) }
    {
        // A draft tells that no step names a wire that is not there yet.
        let _outcomes = self.draft.outcomes();
        self.wire(false)
    }

    // Makes the next n wires.
    pub(crate) fn new_wires(&mut self, n: usize) -> Result<Vec<WireId>, LimitFault>
        ensures answer { IfOk result (λ ws. ws.items ≡ next_wires n (begun self.old.draft)) }
        ensures ok { IfOk result (λ _. Went self.old self.new (new_wires n (begun self.old.draft))) }
        ensures targets { IfOk result (λ ws. AreTargets self.new.draft ws.items) }
        ensures refused { IfErr result (λ e. Refused e (new_wires n (begun self.old.draft))) }
    {
        let mut wires = Vec::new(self.alloc);
        for _ in 0..n {
            let w = self.new_wire()?;
            wires.push(w)?;
        }
        Ok(wires)
    }

    // Makes the next step.
    pub(crate) fn push(&mut self, step: Step) -> Result<(), LimitFault>
        requires { IsNextStep self.old.draft step }
        ensures ok { IfOk result (λ _. Went self.old self.new (push self.old.setting step (begun self.old.draft))) }
        ensures refused { IfErr result (λ e. Refused e (push self.old.setting step (begun self.old.draft))) }
    {
        self.draft.step(step, self.line)?;
        Ok(())
    }

    /// Measures a wire with the next outcome number.
    #[tactic(auto, unfolding(crate::specs::Rows::measure))]
    pub fn measure(&mut self, w: WireId) -> Result<(), LimitFault>
        requires { IsTarget self.old.draft w }
        ensures ok { IfOk result (λ _. Went self.old self.new (measure self.old.setting w (begun self.old.draft))) }
        ensures refused { IfErr result (λ e. Refused e (measure self.old.setting w (begun self.old.draft))) }
    {
        let number = self.draft.outcomes();
        self.push(Step::M { wire: w, number })
    }

    /// Sets the end of a wire.
    pub fn end(&mut self, w: WireId, end: End)
        requires { w.number < length self.old.draft.wires }
        ensures { self.new ≡ record { draft = with_end self.old.draft w end; setting = self.old.setting } }
    {
        self.draft.end(w, end);
    }

    /// Whether a wire was measured.
    pub fn is_measured(&self, w: WireId) -> bool
        requires { w.number < length self.now.draft.wires }
        ensures { result ≡ is_measured self.now.draft.steps w }
    {
        self.draft.is_measured(w)
    }

    /// The operand as it is read now: a wire that is no input and that no step changed shows 0.
    pub fn read(&self, p: Operand) -> Operand
        requires { Safe (length self.now.draft.wires) no_target p }
        ensures { result ≡ read self.now.draft p }
    {
        match p {
            Operand::Const(_) => p,
            Operand::Literal(lit) => {
                if self.is_blank(lit.wire) {
                    Operand::Const(!lit.positive)
                } else {
                    p
                }
            }
        }
    }

    // Whether a wire shows 0: it is no input, and no step changed it.
    pub(crate) fn is_blank(&self, w: WireId) -> bool
        requires { w.number < length self.now.draft.wires }
        ensures { result ≡ blank self.now.draft w }
    {
        !self.draft.is_input(w) && self.draft.label(w) == 0
    }

    /// The flat form of what was built, with the wires of each parameter and of each result.
    pub fn finish(self, ins: WireLists, outs: WireLists) -> Flat
        requires { FitsEnds (finished self.draft ins outs) }
        ensures { result ≡ finished self.draft ins outs }
    {
        let Builder { draft, .. } = self;
        // A draft tells that it is sound.
        let _outcomes = draft.outcomes();
        draft.finish(ins, outs)
    }
}
