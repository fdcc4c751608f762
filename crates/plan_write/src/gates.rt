//! The lines of the gates of a plan.

ghost use Rattle.std.specs.Prelude.{◌≡◌, ◌≤◌, ℕ, false, List, OnOk, OnErr};
ghost use Rattle.silq_io.specs.Counts.{Rose};
ghost use Rattle.silq_io.specs.Sinks.{Adds, Breaks};
ghost use Rattle.move_plan.specs.Progress.{at_start, progress, IsPlan};
ghost use Rattle.move_plan.specs.Live.{width as spec_width};
ghost use Rattle.qubit_alloc.specs.Place.{first_place};
ghost use Rattle.qubit_alloc.specs.State.{IsMadeFor, Tells, progress_of};
ghost use Rattle.plan_gates.specs.PlanCircuit.{gates_of_plan};
ghost use Rattle.qasm_write.specs.Written.{gate_lines};

use flat_core::Flat;
use gate_core::Gate;
use move_plan::Move;
use plan_gates::emit_next;
use qasm_write::QasmWriter;
use qubit_alloc::Placer;
use silq_io::{Failed, Sink};

// Puts the lines of some gates.
fn write_gates<S: Sink>(writer: &mut QasmWriter<S>, gates: &[Gate]) -> Result<(), Failed>
    ensures same_sink { writer.new.out.ghost_name ≡ writer.old.out.ghost_name }
    ensures ok { OnOk result (Adds (S.put_so_far writer.old.out.now) (S.put_so_far writer.new.out.now) (gate_lines gates.now)) }
    ensures count { S.faults writer.old.out.now ≤ S.faults writer.new.out.now }
    ensures failed { OnErr result (Rose (S.faults writer.old.out.now) (S.faults writer.new.out.now)) }
    ensures broken { OnErr result (Breaks (S.put_so_far writer.old.out.now) (S.put_so_far writer.new.out.now) (gate_lines gates.now)) }
{
    for next in gates {
        writer.gate(*next)?;
    }
    Ok(())
}

// Makes all moves of a plan, and puts the lines of their gates.
pub fn write_moves<S: Sink>(
    writer: &mut QasmWriter<S>,
    placer: &mut Placer,
    flat: &Flat,
    moves: &[Move],
) -> Result<(), Failed>
    requires made { IsMadeFor flat.now placer.old }
    requires going { placer.old.finished ≡ false }
    requires begins { progress_of placer.old ≡ at_start }
    requires places { Tells flat.now placer.old (first_place flat.now) }
    requires plan { IsPlan flat.now moves.now }
    requires fits { spec_width flat.now moves.now ≤ placer.old.width }
    ensures same_sink { writer.new.out.ghost_name ≡ writer.old.out.ghost_name }
    ensures ok { OnOk result (Adds (S.put_so_far writer.old.out.now) (S.put_so_far writer.new.out.now) (gate_lines (gates_of_plan flat.now moves.now))) }
    ensures count { S.faults writer.old.out.now ≤ S.faults writer.new.out.now }
    ensures failed { OnErr result (Rose (S.faults writer.old.out.now) (S.faults writer.new.out.now)) }
    ensures broken { OnErr result (Breaks (S.put_so_far writer.old.out.now) (S.put_so_far writer.new.out.now) (gate_lines (gates_of_plan flat.now moves.now))) }
{
    for mv in moves {
        let row = emit_next(placer, flat, *mv);
        write_gates(writer, row.as_slice())?;
    }
    Ok(())
}
