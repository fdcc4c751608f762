//! How far the moves have come, by rows for wires and steps.

ghost use Rattle.std.specs.Prelude.{◌≡◌, ◌+◌, ◌<◌, ◌^◌, get_or, length, IfSome, IfOk};
ghost use Rattle.flat_core.specs.Sound.{IsFlat};
ghost use Rattle.move_plan.specs.Progress.{at_start, moved, Stands};
ghost use Rattle.move_plan.specs.Live.{live};
ghost use Rattle.move_plan.specs.Track.{OfUsed, OfChanged, raised, lowered, with_measure};
ghost use Rattle.qubit_alloc.specs.State.{HasRows, told, keep_if};

use flat_core::{Flat, Step, WireId};
use move_plan::Move;
use std::alloc::{AllocError, Global};

/// The label of each wire, the steps done by Do, and the wires measured and freed.
#[derive(Drop)]
pub struct Track {
    pub labels: Vec<u32>,
    pub done: Vec<bool>,
    pub measured: Vec<bool>,
    pub gone: Vec<bool>,
}

impl Track {
    /// Before the first move.
    pub fn new(alloc: Global, flat: &Flat) -> Result<Track, AllocError>
        ensures rows { IfOk result (λ t. HasRows flat.now t) }
        ensures told { IfOk result (λ t. told t ≡ at_start) }
    {
        let wires = flat.wires();
        Ok(Track {
            labels: vec![in alloc; 0; wires]?,
            done: vec![in alloc; false; flat.steps()]?,
            measured: vec![in alloc; false; wires]?,
            gone: vec![in alloc; false; wires]?,
        })
    }

    /// Makes a move that may come next.
    pub fn apply(&mut self, flat: &Flat, mv: Move)
        requires rows { HasRows flat.now self.old }
        requires sound { IsFlat flat.now }
        requires stands { Stands flat.now (told self.old) mv }
        ensures told { told self.new ≡ moved flat.now (told self.old) mv }
        ensures rows { HasRows flat.now self.new }
    {
        match mv {
            Move::Up(s) => raise(&mut self.labels, flat.step(s)),
            Move::Down(s) => lower(&mut self.labels, flat.step(s)),
            Move::Do(s) => {
                let step = flat.step(s);
                raise(&mut self.labels, step);
                self.done[s.number as usize] = true;
                measure(&mut self.measured, step);
            }
            Move::Free(w) => self.gone[w.number as usize] = true,
        }
    }

    /// Whether a wire is live.
    pub fn is_live(&self, flat: &Flat, w: WireId) -> bool
        requires rows { HasRows flat.now self.now }
        requires there { w.number < length flat.now.wires }
        ensures { result ≡ live flat.now (told self.now) w }
    {
        let at = w.number as usize;
        !self.gone[at] && (flat.is_input(w) || 0 < self.labels[at] || self.measured[at])
    }

    /// A wire, if there is one and it is live.
    pub fn if_live(&self, flat: &Flat, w: Option<WireId>) -> Option<WireId>
        requires rows { HasRows flat.now self.now }
        requires there { IfSome w (λ v. v.number < length flat.now.wires) }
        ensures { result ≡ keep_if (live flat.now (told self.now)) w }
    {
        match w {
            Some(w) if self.is_live(flat, w) => Some(w),
            Some(_) | None => None,
        }
    }
}

// Raises the label of the wire that a step changes.
fn raise(labels: &mut Vec<u32>, step: Step)
    requires there { OfChanged (λ w. w.number < length labels.old.items) step }
    requires room { OfChanged (λ w. get_or labels.old.items w.number 0 + 1 < 2 ^ 32) step }
    ensures { labels.new.items ≡ raised labels.old.items step }
{
    match step {
        Step::X { target, .. } | Step::H { target, .. } => labels[target.number as usize] += 1,
        Step::P { .. } | Step::M { .. } => {}
    }
}

// Lowers the label of the wire that a step changes.
fn lower(labels: &mut Vec<u32>, step: Step)
    requires there { OfChanged (λ w. w.number < length labels.old.items) step }
    requires above { OfChanged (λ w. 0 < get_or labels.old.items w.number 0) step }
    ensures { labels.new.items ≡ lowered labels.old.items step }
{
    match step {
        Step::X { target, .. } | Step::H { target, .. } => labels[target.number as usize] -= 1,
        Step::P { .. } | Step::M { .. } => {}
    }
}

// Flags the wire that a step measures.
fn measure(flags: &mut Vec<bool>, step: Step)
    requires { OfUsed (λ w. w.number < length flags.old.items) step }
    ensures { flags.new.items ≡ with_measure flags.old.items step }
{
    match step {
        Step::M { wire, .. } => flags[wire.number as usize] = true,
        Step::X { .. } | Step::H { .. } | Step::P { .. } => {}
    }
}
