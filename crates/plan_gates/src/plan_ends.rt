//! The qubits of the parameters and of the results of a plan.

ghost use Rattle.std.specs.Prelude.{◌≡◌, ◌≤◌, IfOk, false};
ghost use Rattle.move_plan.specs.Progress.{at_start, progress, IsPlan};
ghost use Rattle.move_plan.specs.Live.{width as spec_width};
ghost use Rattle.qubit_alloc.specs.Place.{first_place, place_all};
ghost use Rattle.qubit_alloc.specs.State.{IsMadeFor, Tells, progress_of};
ghost use Rattle.plan_gates.specs.PlanCircuit.{in_qubits, out_qubits};

use crate::lists::qubit_lists;
use flat_core::Flat;
use gate_core::QubitLists;
use move_plan::Move;
use qubit_alloc::Placer;
use std::alloc::{AllocError, Global};

/// The qubits of each parameter before the moves, and of each result after them.
#[derive(Drop)]
pub struct PlanLists {
    pub ins: QubitLists,
    pub outs: QubitLists,
}

/// The qubits of the parameters and of the results, for a valid list of moves on so many qubits. It fails only where
/// memory runs out.
pub fn plan_lists(
    alloc: Global,
    flat: &Flat,
    moves: &[Move],
    width: usize,
) -> Result<PlanLists, AllocError>
    requires plan { IsPlan flat.now moves.now }
    requires fits { spec_width flat.now moves.now ≤ width }
    requires few { width ≤ 100000 }
    ensures parameters { IfOk result (λ lists. lists.ins ≡ in_qubits flat.now) }
    ensures results { IfOk result (λ lists. lists.outs ≡ out_qubits flat.now moves.now) }
{
    let _steps = flat.steps();
    let mut placer = Placer::new(alloc, flat, width)?;
    let ins = qubit_lists(alloc, &placer, flat.ins())?;
    place_moves(&mut placer, flat, moves);
    placer.finish(flat);
    let outs = qubit_lists(alloc, &placer, flat.outs())?;
    Ok(PlanLists { ins, outs })
}

// Makes all moves of a plan.
fn place_moves(placer: &mut Placer, flat: &Flat, moves: &[Move])
    requires made { IsMadeFor flat.now placer.old }
    requires going { placer.old.finished ≡ false }
    requires begins { progress_of placer.old ≡ at_start }
    requires places { Tells flat.now placer.old (first_place flat.now) }
    requires plan { IsPlan flat.now moves.now }
    requires fits { spec_width flat.now moves.now ≤ placer.old.width }
    ensures made { IsMadeFor flat.now placer.new }
    ensures going { placer.new.finished ≡ false }
    ensures progress { progress_of placer.new ≡ progress flat.now at_start moves.now }
    ensures places { Tells flat.now placer.new (place_all flat.now at_start (first_place flat.now) moves.now) }
    ensures width { placer.new.width ≡ placer.old.width }
{
    for mv in moves {
        placer.place(flat, *mv);
    }
}
