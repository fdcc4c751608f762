//! Wires placed on qubits, move by move.

ghost use Rattle.std.specs.Prelude.{◌≡◌, ◌+◌, ◌<◌, ◌≤◌, ℕ, Bool, true, false, cond, ◌&&◌, nat_lt, leb, length, get_or, replicate, None, Some, IfOk};
ghost use Rattle.flat_core.specs.Label.{is_input, end_of};
ghost use Rattle.flat_core.specs.declared.step.WireId.{WireId};
ghost use Rattle.flat_mean.specs.Path.{count_inputs, inputs_before};
ghost use Rattle.move_plan.specs.Progress.{at_start, moved, Stands, IsEnd};
ghost use Rattle.move_plan.specs.Effect.{is_output};
ghost use Rattle.move_plan.specs.Live.{live, live_at_end, count_wires};
ghost use Rattle.qubit_alloc.specs.Place.{Place, first_place, place_move, at_end};
ghost use Rattle.qubit_alloc.specs.PlacedMoves.{placed_of};
ghost use Rattle.qubit_alloc.specs.State.{progress_of, qubit_told, IsMadeFor, Tells, times_in, keep_if};

use crate::free::FreeQubits;
use crate::placed::Placed;
use crate::seats::{leave, seat, unless};
use crate::told::{note, placed_row, step_of, touched_wire};
use crate::track::Track;
use flat_core::{End, Flat, WireId};
use move_plan::Move;
use std::alloc::{AllocError, Global};
use std::marker::Model;

/// The qubits of the wires of a flat form, as the moves of a plan are made.
#[derive(Drop)]
pub struct Placer {
    track: Track,
    // The qubit of each wire that is on one.
    qubits: Vec<Option<u32>>,
    // The outcome number of each measured wire.
    numbers: Vec<u32>,
    free: FreeQubits,
    width: usize,
    finished: bool,
}

impl Model for Placer {
    ghost use Rattle.qubit_alloc.specs.State.{PlacerState, state_of, HasEvenRows};

    ghost Value = { PlacerState };

    ghost view = { λ p. state_of p.track p.qubits.items p.numbers.items p.free p.width p.finished };

    ghost invariant = { λ p. HasEvenRows p.track p.qubits.items p.numbers.items p.free p.width };
}

impl Placer {
    /// A placer for a flat form and a width, which takes all its memory here. The inputs are on the qubits 0, 1 and so
    /// on, in the order of their wires.
    pub fn new(alloc: Global, flat: &Flat, width: usize) -> Result<Placer, AllocError>
        requires inputs { count_inputs flat.now.wires ≤ width }
        requires few { width ≤ 100000 }
        ensures made { IfOk result (λ p. IsMadeFor flat.now p) }
        ensures progress { IfOk result (λ p. progress_of p ≡ at_start) }
        ensures places { IfOk result (λ p. Tells flat.now p (first_place flat.now)) }
        ensures width { IfOk result (λ p. p.width ≡ width) }
        ensures going { IfOk result (λ p. p.finished ≡ false) }
    {
        let wires = flat.wires();
        let track = Track::new(alloc, flat)?;
        let mut qubits = vec![in alloc; None; wires]?;
        let numbers = vec![in alloc; 0; wires]?;
        let used = place_inputs(flat, &mut qubits);
        let free = free_from(alloc, used, width)?;
        Ok(Placer {
            track,
            qubits,
            numbers,
            free,
            width,
            finished: false,
        })
    }

    /// Makes the next move of a plan, and tells the qubits of its wires. A wire that has to be on a qubit, and is not,
    /// gets the least free one; a wire that is live no more gives its own back. It takes no memory.
    pub fn place(&mut self, flat: &Flat, mv: Move) -> Placed
        requires made { IsMadeFor flat.now self.old }
        requires going { self.old.finished ≡ false }
        requires stands { Stands flat.now (progress_of self.old) mv }
        requires fits { count_wires flat.now (live flat.now (moved flat.now (progress_of self.old) mv)) ≤ self.old.width }
        ensures made { IsMadeFor flat.now self.new }
        ensures progress { progress_of self.new ≡ moved flat.now (progress_of self.old) mv }
        ensures places { (place : Place) → Tells flat.now self.old place → Tells flat.now self.new (place_move flat.now (progress_of self.old) place mv) }
        ensures told { (place : Place) → Tells flat.now self.old place → result ≡ placed_of flat.now (progress_of self.old) place mv }
        ensures width { self.new.width ≡ self.old.width }
        ensures going { self.new.finished ≡ false }
    {
        let _steps = flat.steps();
        let touched = touched_wire(flat, mv);
        self.track.apply(flat, mv);
        let live = self.track.if_live(flat, touched);
        seat(&mut self.qubits, &mut self.free, live);
        note(&mut self.numbers, step_of(flat, mv));
        let placed = placed_row(flat, mv, &self.qubits, &self.numbers);
        leave(&mut self.qubits, &mut self.free, unless(live, touched));
        placed
    }

    /// Ends the moves: each Output wire that nothing touched gets the least free qubit, in the order of the wires. It
    /// takes no memory.
    pub fn finish(&mut self, flat: &Flat)
        requires made { IsMadeFor flat.now self.old }
        requires going { self.old.finished ≡ false }
        requires fits { count_wires flat.now (live_at_end flat.now (progress_of self.old)) ≤ self.old.width }
        ensures made { IsMadeFor flat.now self.new }
        ensures finished { self.new.finished ≡ true }
        ensures progress { progress_of self.new ≡ progress_of self.old }
        ensures places { (place : Place) → Tells flat.now self.old place → Tells flat.now self.new (at_end flat.now (progress_of self.old) place) }
        ensures width { self.new.width ≡ self.old.width }
    {
        let _steps = flat.steps();
        for n in 0..flat.wires() {
            let output = if_output(flat, WireId { number: n as u32 });
            seat(&mut self.qubits, &mut self.free, output);
        }
        self.finished = true;
    }

    /// The qubit of a wire, if it is on one: while the moves are made, where the wire is live, and after `finish` also
    /// where it is an Output. It takes no memory.
    pub fn qubit(&self, w: WireId) -> Option<u32>
        ensures { result ≡ qubit_told self.now w }
    {
        match self.qubits.get(w.number as usize) {
            Some(qubit) => *qubit,
            None => None,
        }
    }
}

// A wire, if it ends as an Output.
fn if_output(flat: &Flat, w: WireId) -> Option<WireId>
    requires { w.number < length flat.now.wires }
    ensures { result ≡ keep_if (λ v. is_output (end_of flat.now v)) (Some w) }
{
    match flat.end(w) {
        End::Output => Some(w),
        End::Dropped | End::Measured | End::Zeroed => None,
    }
}

// Places the inputs on the qubits 0, 1 and so on, and gives how many there are.
fn place_inputs(flat: &Flat, qubits: &mut Vec<Option<u32>>) -> u32
    requires rows { length qubits.old.items ≡ length flat.now.wires }
    requires empty { qubits.old.items ≡ replicate (length flat.now.wires) None }
    ensures count { result ≡ count_inputs flat.now.wires }
    ensures rows { length qubits.new.items ≡ length flat.now.wires }
    ensures told { (w : WireId) → w.number < length flat.now.wires → get_or qubits.new.items w.number None ≡ cond (is_input flat.now w) (Some (inputs_before flat.now.wires w.number)) None }
{
    let _steps = flat.steps();
    let mut next = 0;
    for n in 0..flat.wires() {
        if flat.is_input(WireId { number: n as u32 }) {
            qubits[n] = Some(next);
            next += 1;
        }
    }
    next
}

// The qubits from one on and below the width.
fn free_from(alloc: Global, from: u32, width: usize) -> Result<FreeQubits, AllocError>
    requires within { from ≤ width }
    requires few { width ≤ 100000 }
    ensures items { IfOk result (λ q. (j : ℕ) → times_in q.items j ≡ cond (leb from j && nat_lt j width) 1 0) }
    ensures room { IfOk result (λ q. width ≤ q.room) }
{
    let mut free = FreeQubits::with_room(alloc, width)?;
    for qubit in from as usize..width {
        free.add(qubit as u32);
    }
    Ok(free)
}
