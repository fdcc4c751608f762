//! The gates of a plan, move by move.

ghost use Rattle.std.specs.Prelude.{◌≡◌, ◌≤◌, false};
ghost use Rattle.move_plan.specs.Progress.{Stands, moved};
ghost use Rattle.move_plan.specs.Live.{count_wires, live};
ghost use Rattle.gate_emit.specs.Plans.{gates_of};
ghost use Rattle.qubit_alloc.specs.Place.{Place, place_move};
ghost use Rattle.qubit_alloc.specs.PlacedMoves.{placed_of};
ghost use Rattle.qubit_alloc.specs.State.{IsMadeFor, Tells, progress_of};
ghost use Rattle.plan_gates.specs.PlacedMoves.{move_of_placed};

use crate::placed_gates::emit_placed;
use flat_core::Flat;
use gate_emit::GateRow;
use move_plan::Move;
use qubit_alloc::Placer;

/// Makes the next move of a plan, and gives its gates in order, at most nine. It takes no memory.
pub fn emit_next(placer: &mut Placer, flat: &Flat, mv: Move) -> GateRow
    requires made { IsMadeFor flat.now placer.old }
    requires going { placer.old.finished ≡ false }
    requires stands { Stands flat.now (progress_of placer.old) mv }
    requires fits { count_wires flat.now (live flat.now (moved flat.now (progress_of placer.old) mv)) ≤ placer.old.width }
    ensures gates { (place : Place) → Tells flat.now placer.old place → result ≡ gates_of (move_of_placed (placed_of flat.now (progress_of placer.old) place mv)) }
    ensures made { IsMadeFor flat.now placer.new }
    ensures progress { progress_of placer.new ≡ moved flat.now (progress_of placer.old) mv }
    ensures places { (place : Place) → Tells flat.now placer.old place → Tells flat.now placer.new (place_move flat.now (progress_of placer.old) place mv) }
    ensures width { placer.new.width ≡ placer.old.width }
    ensures going { placer.new.finished ≡ false }
{
    let _steps = flat.steps();
    let placed = placer.place(flat, mv);
    emit_placed(&placed)
}
