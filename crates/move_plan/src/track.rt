//! How far a list of moves has come, by rows for wires and steps.

ghost use Rattle.std.specs.Prelude.{◌≡◌, ◌+◌, ◌<◌, ◌≤◌, ◌↔◌, ◌^◌, ℕ, true, false, length, get_or, IsTrue, IfSome, IfOk};
ghost use Rattle.flat_core.specs.Label.{Names, wire_of, step_at, end_of, label_before};
ghost use Rattle.flat_core.specs.Ends.{undone};
ghost use Rattle.flat_core.specs.Sound.{IsFlat};
ghost use Rattle.flat_core.specs.declared.step.StepId.{StepId};
ghost use Rattle.flat_core.specs.declared.step.WireId.{WireId};
ghost use Rattle.move_plan.specs.Progress.{at_start, moved, StandsAt, FreeStands, Stands, IsEnd};
ghost use Rattle.move_plan.specs.Effect.{is_output};
ghost use Rattle.move_plan.specs.Live.{live, live_at_end, count_wires};
ghost use Rattle.move_plan.specs.Track.{HasRows, told, OfUsed, OfChanged, Named, MoveThere, touched, WireEnds, raised, lowered, with_measure, live_count};

use crate::moves::Move;
use flat_core::{End, Flat, Lit, Step, StepId, WireId};
use std::alloc::{AllocError, Global};

/// The label of each wire, the steps done by Do, and the wires measured and freed.
#[derive(Drop)]
pub struct Track {
    pub labels: Vec<u32>,
    pub done: Vec<bool>,
    pub measured: Vec<bool>,
    pub gone: Vec<bool>,
}

impl Track {
    /// Rows for a flat form.
    pub fn new(alloc: Global, flat: &Flat) -> Result<Track, AllocError>
        ensures { IfOk result (λ t. HasRows flat.now t) }
    {
        let wires = flat.wires();
        Ok(Track {
            labels: vec![in alloc; 0; wires]?,
            done: vec![in alloc; false; flat.steps()]?,
            measured: vec![in alloc; false; wires]?,
            gone: vec![in alloc; false; wires]?,
        })
    }

    /// Goes back to before the first move.
    pub fn reset(&mut self)
        ensures told { told self.new ≡ at_start }
        ensures labels { length self.new.labels.items ≡ length self.old.labels.items }
        ensures done { length self.new.done.items ≡ length self.old.done.items }
        ensures measured { length self.new.measured.items ≡ length self.old.measured.items }
        ensures gone { length self.new.gone.items ≡ length self.old.gone.items }
    {
        self.labels.fill(0);
        self.done.fill(false);
        self.measured.fill(false);
        self.gone.fill(false);
    }

    // Whether a wire is at a label, and not freed.
    fn is_at(&self, w: WireId, label: u32) -> bool
        requires labels { w.number < length self.now.labels.items }
        requires gone { w.number < length self.now.gone.items }
        ensures { IsTrue result ↔ StandsAt (told self.now) w label }
    {
        let at = w.number as usize;
        self.labels[at] == label && !self.gone[at]
    }

    // Whether the wire of a control of a step is at the label that it had before the step.
    fn control_is_at(&self, flat: &Flat, s: StepId, control: Option<Lit>) -> bool
        requires rows { HasRows flat.now self.now }
        requires step { s.number < length flat.now.steps }
        requires there { IfSome (wire_of control) (λ w. w.number < length flat.now.wires) }
        requires named { IfSome (wire_of control) (λ w. Names (step_at flat.now s) w) }
        ensures { IsTrue result ↔ IfSome (wire_of control) (λ w. StandsAt (told self.now) w (label_before flat.now s w)) }
    {
        match control {
            Some(lit) => self.is_at(lit.wire, flat.label_before(s, lit.wire)),
            None => true,
        }
    }

    // Whether the wires that a step uses are at the labels that they had before it.
    fn uses_stand(&self, flat: &Flat, s: StepId) -> bool
        requires rows { HasRows flat.now self.now }
        requires sound { IsFlat flat.now }
        requires step { s.number < length flat.now.steps }
        ensures { IsTrue result ↔ OfUsed (λ w. StandsAt (told self.now) w (label_before flat.now s w)) (step_at flat.now s) }
    {
        match flat.step(s) {
            Step::X { first, second, .. } => {
                self.control_is_at(flat, s, first) && self.control_is_at(flat, s, second)
            }
            Step::H { control, .. } => self.control_is_at(flat, s, control),
            Step::P { control, .. } => {
                self.is_at(control.wire, flat.label_before(s, control.wire))
            }
            Step::M { wire, .. } => self.is_at(wire, flat.label_before(s, wire)),
        }
    }

    // Whether the wire that a step changes is at the label that it had before it, or higher by so much.
    fn target_stands(&self, flat: &Flat, s: StepId, raise: u32) -> bool
        requires rows { HasRows flat.now self.now }
        requires sound { IsFlat flat.now }
        requires step { s.number < length flat.now.steps }
        requires low { raise ≤ 1 }
        ensures { IsTrue result ↔ OfChanged (λ w. StandsAt (told self.now) w (label_before flat.now s w + raise)) (step_at flat.now s) }
    {
        match flat.step(s) {
            Step::X { target, .. } | Step::H { target, .. } => {
                self.is_at(target, flat.label_before(s, target) + raise)
            }
            Step::P { .. } | Step::M { .. } => true,
        }
    }

    // Whether the wires that a step names stand before it, but what it changes higher by so much.
    fn named_stand(&self, flat: &Flat, s: StepId, raise: u32) -> bool
        requires rows { HasRows flat.now self.now }
        requires sound { IsFlat flat.now }
        requires step { s.number < length flat.now.steps }
        requires low { raise ≤ 1 }
        ensures { IsTrue result ↔ Named flat.now (told self.now) s raise }
    {
        self.uses_stand(flat, s) && self.target_stands(flat, s, raise)
    }

    // Whether a wire may be freed.
    fn may_free(&self, flat: &Flat, w: WireId) -> bool
        requires rows { HasRows flat.now self.now }
        ensures { IsTrue result ↔ FreeStands flat.now (told self.now) w }
    {
        let at = w.number as usize;
        if at >= flat.wires() {
            return false;
        }
        let cleared = match flat.end(w) {
            End::Measured => self.measured[at],
            End::Zeroed => true,
            End::Output | End::Dropped => false,
        };
        cleared && self.is_at(w, flat.top(w))
    }

    /// Whether a move may come next.
    pub fn stands(&self, flat: &Flat, mv: Move) -> bool
        requires rows { HasRows flat.now self.now }
        requires sound { IsFlat flat.now }
        ensures { IsTrue result ↔ Stands flat.now (told self.now) mv }
    {
        match mv {
            Move::Up(s) => is_undone(flat, s) && self.named_stand(flat, s, 0),
            Move::Down(s) => is_undone(flat, s) && self.named_stand(flat, s, 1),
            Move::Do(s) => {
                lasts(flat, s) && !self.done[s.number as usize] && self.named_stand(flat, s, 0)
            }
            Move::Free(w) => self.may_free(flat, w),
        }
    }

    /// Makes a move that may come next.
    pub fn apply(&mut self, flat: &Flat, mv: Move)
        requires rows { HasRows flat.now self.old }
        requires sound { IsFlat flat.now }
        requires stands { Stands flat.now (told self.old) mv }
        ensures told { told self.new ≡ moved flat.now (told self.old) mv }
        ensures rows { HasRows flat.now self.new }
    {
        match mv {
            Move::Up(s) => raise(&mut self.labels, flat.step(s)),
            Move::Down(s) => lower(&mut self.labels, flat.step(s)),
            Move::Do(s) => {
                let step = flat.step(s);
                raise(&mut self.labels, step);
                self.done[s.number as usize] = true;
                measure(&mut self.measured, step);
            }
            Move::Free(w) => self.gone[w.number as usize] = true,
        }
    }

    /// Whether the moves may end here.
    pub fn is_at_end(&self, flat: &Flat) -> bool
        requires { HasRows flat.now self.now }
        ensures { IsTrue result ↔ IsEnd flat.now (told self.now) }
    {
        let _steps = flat.steps();
        self.all_done(flat) && self.all_end(flat)
    }

    // Whether each step that is not undone again is done.
    fn all_done(&self, flat: &Flat) -> bool
        requires rows { HasRows flat.now self.now }
        requires sound { IsFlat flat.now }
        ensures { IsTrue result ↔ ((s : StepId) → s.number < length flat.now.steps → undone flat.now s ≡ false → (told self.now).done s ≡ true) }
    {
        for n in 0..flat.steps() {
            if !self.done[n] && lasts(flat, StepId { number: n as u32 }) {
                return false;
            }
        }
        true
    }

    // Whether each wire is where it has to be at the end.
    fn all_end(&self, flat: &Flat) -> bool
        requires rows { HasRows flat.now self.now }
        requires sound { IsFlat flat.now }
        ensures { IsTrue result ↔ ((w : WireId) → w.number < length flat.now.wires → WireEnds flat.now (told self.now) w) }
    {
        for n in 0..flat.wires() {
            if !self.wire_ends(flat, WireId { number: n as u32 }) {
                return false;
            }
        }
        true
    }

    // Whether a wire is where it has to be at the end.
    fn wire_ends(&self, flat: &Flat, w: WireId) -> bool
        requires rows { HasRows flat.now self.now }
        requires there { w.number < length flat.now.wires }
        ensures { IsTrue result ↔ WireEnds flat.now (told self.now) w }
    {
        let at = w.number as usize;
        let label = self.labels[at];
        match flat.end(w) {
            End::Output => label == flat.top(w),
            End::Dropped => label == 0,
            End::Measured | End::Zeroed => label == flat.top(w) && self.gone[at],
        }
    }

    // Whether a wire is live.
    fn is_live(&self, flat: &Flat, w: WireId) -> bool
        requires rows { HasRows flat.now self.now }
        requires there { w.number < length flat.now.wires }
        ensures { result ≡ live flat.now (told self.now) w }
    {
        let at = w.number as usize;
        !self.gone[at] && (flat.is_input(w) || 0 < self.labels[at] || self.measured[at])
    }

    /// How many wires are live.
    pub fn count_live(&self, flat: &Flat) -> usize
        requires rows { HasRows flat.now self.now }
        requires sound { IsFlat flat.now }
        ensures { result ≡ count_wires flat.now (live flat.now (told self.now)) }
    {
        let mut count = 0;
        for n in 0..flat.wires() {
            if self.is_live(flat, WireId { number: n as u32 }) {
                count += 1;
            }
        }
        count
    }

    /// How many wires are live at the end, where each Output wire is.
    pub fn count_live_at_end(&self, flat: &Flat) -> usize
        requires rows { HasRows flat.now self.now }
        requires sound { IsFlat flat.now }
        ensures { result ≡ count_wires flat.now (live_at_end flat.now (told self.now)) }
    {
        let mut count = 0;
        for n in 0..flat.wires() {
            let w = WireId { number: n as u32 };
            if self.is_live(flat, w) || is_output(flat, w) {
                count += 1;
            }
        }
        count
    }

    /// 1 for a wire that is live, and 0 for another one or none.
    pub fn live_count(&self, flat: &Flat, w: Option<WireId>) -> usize
        requires rows { HasRows flat.now self.now }
        requires there { IfSome w (λ v. v.number < length flat.now.wires) }
        ensures { result ≡ live_count flat.now (told self.now) w }
    {
        match w {
            Some(w) => usize::from(self.is_live(flat, w)),
            None => 0,
        }
    }
}

/// Whether there is a step of this number that is undone again.
pub fn is_undone(flat: &Flat, s: StepId) -> bool
    ensures value { result ≡ undone flat.now s }
    ensures there { IsTrue result → s.number < length flat.now.steps }
{
    if s.number as usize >= flat.steps() {
        return false;
    }
    match flat.step(s) {
        Step::X { target, .. } => matches!(flat.end(target), End::Dropped),
        Step::H { .. } | Step::P { .. } | Step::M { .. } => false,
    }
}

// Whether there is a step of this number that is not undone again.
fn lasts(flat: &Flat, s: StepId) -> bool
    ensures { IsTrue result ↔ (s.number < length flat.now.steps) × (undone flat.now s ≡ false) }
{
    (s.number as usize) < flat.steps() && !is_undone(flat, s)
}

// Whether a wire ends as an Output.
fn is_output(flat: &Flat, w: WireId) -> bool
    requires { w.number < length flat.now.wires }
    ensures { result ≡ is_output (end_of flat.now w) }
{
    matches!(flat.end(w), End::Output)
}

/// The wire that a move may make live or not.
pub fn touched_wire(flat: &Flat, mv: Move) -> Option<WireId>
    requires { MoveThere flat.now mv }
    ensures { result ≡ touched flat.now mv }
{
    match mv {
        Move::Up(s) | Move::Down(s) | Move::Do(s) => flat.step(s).main_wire(),
        Move::Free(w) => Some(w),
    }
}

// Raises the label of the wire that a step changes.
fn raise(labels: &mut Vec<u32>, step: Step)
    requires there { OfChanged (λ w. w.number < length labels.old.items) step }
    requires room { OfChanged (λ w. get_or labels.old.items w.number 0 + 1 < 2 ^ 32) step }
    ensures { labels.new.items ≡ raised labels.old.items step }
{
    match step {
        Step::X { target, .. } | Step::H { target, .. } => labels[target.number as usize] += 1,
        Step::P { .. } | Step::M { .. } => {}
    }
}

// Lowers the label of the wire that a step changes.
fn lower(labels: &mut Vec<u32>, step: Step)
    requires there { OfChanged (λ w. w.number < length labels.old.items) step }
    requires above { OfChanged (λ w. 0 < get_or labels.old.items w.number 0) step }
    ensures { labels.new.items ≡ lowered labels.old.items step }
{
    match step {
        Step::X { target, .. } | Step::H { target, .. } => labels[target.number as usize] -= 1,
        Step::P { .. } | Step::M { .. } => {}
    }
}

// Flags the wire that a step measures.
fn measure(flags: &mut Vec<bool>, step: Step)
    requires { OfUsed (λ w. w.number < length flags.old.items) step }
    ensures { flags.new.items ≡ with_measure flags.old.items step }
{
    match step {
        Step::M { wire, .. } => flags[wire.number as usize] = true,
        Step::X { .. } | Step::H { .. } | Step::P { .. } => {}
    }
}
