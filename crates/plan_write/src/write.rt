//! The text of a plan's circuit.

ghost use Rattle.std.specs.Prelude.{◌≡◌, ◌≤◌, ℕ, false, List, [], OnOk, OnErr, IsErrOf};
ghost use Rattle.silq_io.specs.Counts.{Rose};
ghost use Rattle.silq_io.specs.Sinks.{Adds, Breaks};
ghost use Rattle.move_plan.specs.Progress.{at_start, IsPlan};
ghost use Rattle.move_plan.specs.Live.{width as spec_width};
ghost use Rattle.qubit_alloc.specs.Place.{first_place};
ghost use Rattle.qubit_alloc.specs.State.{IsMadeFor, Tells, progress_of};
ghost use Rattle.plan_gates.specs.PlanCircuit.{in_qubits, out_qubits};
ghost use Rattle.plan_write.specs.Text.{plan_text};

use crate::fault::WriteFault;
use crate::gates::write_moves;
use flat_core::Flat;
use move_plan::Move;
use plan_gates::{PlanLists, plan_lists};
use qasm_write::QasmWriter;
use qubit_alloc::Placer;
use silq_io::{Failed, Sink};
use std::alloc::Global;

/// Puts the text of the circuit of a valid list of moves on so many qubits, gate by gate as the moves are made. All memory
/// is taken before the first byte is put.
pub fn write_plan<S: Sink>(
    alloc: Global,
    flat: &Flat,
    moves: &[Move],
    width: u32,
    out: &mut S,
) -> Result<(), WriteFault>
    requires plan { IsPlan flat.now moves.now }
    requires fits { spec_width flat.now moves.now ≤ width }
    requires few { width ≤ 100000 }
    ensures ok { OnOk result (Adds (S.put_so_far out.old) (S.put_so_far out.new) (plan_text flat.now moves.now width)) }
    ensures memory { IsErrOf result WriteFault.Memory → Adds (S.put_so_far out.old) (S.put_so_far out.new) [] }
    ensures failed { IsErrOf result WriteFault.Failed → Rose (S.faults out.old) (S.faults out.new) }
    ensures broken { IsErrOf result WriteFault.Failed → Breaks (S.put_so_far out.old) (S.put_so_far out.new) (plan_text flat.now moves.now width) }
    ensures count { S.faults out.old ≤ S.faults out.new }
{
    let lists = plan_lists(alloc, flat, moves, width as usize)?;
    let mut placer = Placer::new(alloc, flat, width as usize)?;
    let mut writer = QasmWriter::new(out);
    write_parts(&mut writer, &mut placer, flat, moves, width, &lists)?;
    Ok(())
}

// Puts the head, the gates and the end.
fn write_parts<S: Sink>(
    writer: &mut QasmWriter<S>,
    placer: &mut Placer,
    flat: &Flat,
    moves: &[Move],
    width: u32,
    lists: &PlanLists,
) -> Result<(), Failed>
    requires made { IsMadeFor flat.now placer.old }
    requires going { placer.old.finished ≡ false }
    requires begins { progress_of placer.old ≡ at_start }
    requires places { Tells flat.now placer.old (first_place flat.now) }
    requires plan { IsPlan flat.now moves.now }
    requires fits { spec_width flat.now moves.now ≤ placer.old.width }
    requires parameters { lists.now.ins ≡ in_qubits flat.now }
    requires results { lists.now.outs ≡ out_qubits flat.now moves.now }
    ensures same_sink { writer.new.out.ghost_name ≡ writer.old.out.ghost_name }
    ensures ok { OnOk result (Adds (S.put_so_far writer.old.out.now) (S.put_so_far writer.new.out.now) (plan_text flat.now moves.now width)) }
    ensures count { S.faults writer.old.out.now ≤ S.faults writer.new.out.now }
    ensures failed { OnErr result (Rose (S.faults writer.old.out.now) (S.faults writer.new.out.now)) }
    ensures broken { OnErr result (Breaks (S.put_so_far writer.old.out.now) (S.put_so_far writer.new.out.now) (plan_text flat.now moves.now width)) }
{
    writer.head(width, flat.outcomes(), &lists.ins)?;
    write_moves(writer, placer, flat, moves)?;
    writer.finish(&lists.outs)
}
