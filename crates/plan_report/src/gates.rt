//! How many gates a plan has.

ghost use Rattle.std.specs.Prelude.{◌≡◌, ◌≤◌, false, length};
ghost use Rattle.move_plan.specs.Progress.{at_start, IsPlan};
ghost use Rattle.move_plan.specs.Live.{width as spec_width};
ghost use Rattle.qubit_alloc.specs.Place.{first_place};
ghost use Rattle.qubit_alloc.specs.State.{IsMadeFor, Tells, progress_of};
ghost use Rattle.plan_gates.specs.PlanCircuit.{gates_of_plan};

use flat_core::Flat;
use move_plan::Move;
use plan_gates::emit_next;
use qubit_alloc::Placer;

// Makes all moves of a plan, and counts their gates.
pub fn count_gates(placer: &mut Placer, flat: &Flat, moves: &[Move]) -> usize
    requires made { IsMadeFor flat.now placer.old }
    requires going { placer.old.finished ≡ false }
    requires begins { progress_of placer.old ≡ at_start }
    requires places { Tells flat.now placer.old (first_place flat.now) }
    requires plan { IsPlan flat.now moves.now }
    requires fits { spec_width flat.now moves.now ≤ placer.old.width }
    ensures { result ≡ length (gates_of_plan flat.now moves.now) }
{
    let mut count: usize = 0;
    for mv in moves {
        let row = emit_next(placer, flat, *mv);
        count += row.as_slice().len();
    }
    count
}
