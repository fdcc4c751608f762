//! Validity and width of lists of moves.

ghost use Rattle.std.specs.Prelude.{◌≡◌, ◌↔◌, length, IsTrue, IfOk};
ghost use Rattle.std.specs.Bool.{OnTrue};
ghost use Rattle.flat_core.specs.Sound.{IsFlat};
ghost use Rattle.move_plan.specs.Progress.{at_start, moved, Stands, AllStand, progress, IsPlan};
ghost use Rattle.move_plan.specs.Live.{live, count_wires, width};
ghost use Rattle.move_plan.specs.Track.{IsMadeFor, HasRows, told};

use crate::moves::Move;
use crate::track::{Track, touched_wire};
use flat_core::Flat;
use std::alloc::{AllocError, Global};
use std::marker::Model;

/// Rows for the wires and steps of a flat form, in which lists of moves are followed.
#[derive(Drop)]
pub struct Rows {
    track: Track,
}

impl Model for Rows {
    ghost use Rattle.move_plan.specs.Track.{RowsForm};

    ghost Value = { RowsForm };

    ghost use Rattle.move_plan.specs.Track.{rows_of, HasEvenRows};

    ghost view = { λ r. rows_of r.track };

    ghost invariant = { λ r. HasEvenRows r.track };
}

impl Rows {
    /// Rows for a flat form.
    pub fn new(alloc: Global, flat: &Flat) -> Result<Rows, AllocError>
        ensures { IfOk result (λ rows. IsMadeFor flat.now rows) }
    {
        let track = Track::new(alloc, flat)?;
        Ok(Rows { track })
    }

    /// Whether a list of moves is valid, also one with numbers that no step or wire has. It takes no memory.
    pub fn valid(&mut self, flat: &Flat, moves: &[Move]) -> bool
        requires { IsMadeFor flat.now self.old }
        ensures told { IsTrue result ↔ IsPlan flat.now moves.now }
        ensures kept { self.new ≡ self.old }
    {
        self.track.reset();
        all_stand(&mut self.track, flat, moves) && self.track.is_at_end(flat)
    }

    /// How many qubits a valid list of moves needs: the greatest number of wires that are live at once. It takes no
    /// memory.
    pub fn width(&mut self, flat: &Flat, moves: &[Move]) -> usize
        requires made { IsMadeFor flat.now self.old }
        requires valid { IsPlan flat.now moves.now }
        ensures told { result ≡ width flat.now moves.now }
        ensures kept { self.new ≡ self.old }
    {
        self.track.reset();
        most_live(&mut self.track, flat, moves)
    }
}

// Makes the moves as long as each may come, and says whether all could.
fn all_stand(track: &mut Track, flat: &Flat, moves: &[Move]) -> bool
    requires rows { HasRows flat.now track.old }
    requires start { told track.old ≡ at_start }
    ensures stand { IsTrue result ↔ AllStand flat.now at_start moves.now }
    ensures told { OnTrue result (told track.new ≡ progress flat.now at_start moves.now) }
    ensures rows { HasRows flat.now track.new }
{
    let _steps = flat.steps();
    for mv in moves {
        if !track.stands(flat, *mv) {
            return false;
        }
        track.apply(flat, *mv);
    }
    true
}

// Makes the moves of a valid list, and gives the greatest number of live wires.
fn most_live(track: &mut Track, flat: &Flat, moves: &[Move]) -> usize
    requires rows { HasRows flat.now track.old }
    requires start { told track.old ≡ at_start }
    requires valid { IsPlan flat.now moves.now }
    ensures told { result ≡ width flat.now moves.now }
    ensures rows { HasRows flat.now track.new }
{
    let _steps = flat.steps();
    let mut live = track.count_live(flat);
    let mut most = live;
    for mv in moves {
        live = live_after(track, flat, *mv, live);
        most = most.max(live);
    }
    most.max(track.count_live_at_end(flat))
}

// Makes a move that may come next, and gives how many wires are live then.
fn live_after(track: &mut Track, flat: &Flat, mv: Move, count: usize) -> usize
    requires rows { HasRows flat.now track.old }
    requires sound { IsFlat flat.now }
    requires stands { Stands flat.now (told track.old) mv }
    requires before { count ≡ count_wires flat.now (live flat.now (told track.old)) }
    ensures told { told track.new ≡ moved flat.now (told track.old) mv }
    ensures rows { HasRows flat.now track.new }
    ensures after { result ≡ count_wires flat.now (live flat.now (told track.new)) }
{
    let wire = touched_wire(flat, mv);
    let before = track.live_count(flat, wire);
    track.apply(flat, mv);
    count + track.live_count(flat, wire) - before
}
