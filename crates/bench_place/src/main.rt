#![tactic(auto)]
//! Makes the flat form of N flips of temporaries under two controls, each of them used once, and the moves that do, use
//! and undo them one after another. It places the moves, writes their gates to a sink that counts bytes, and prints how
//! many moves and bytes there are. `bench/place.sh` times it.

ghost use Rattle.std.specs.Prelude.{◌≤◌};
ghost use Rattle.move_plan.specs.Progress.{IsPlan};
ghost use Rattle.move_plan.specs.Live.{width as spec_width};

use flat_core::End::{Dropped, Output};
use flat_core::{Flat, StepId};
use gate_emit::GateRow;
use move_plan::{Move, MoveList, Rows};
use plan_gates::{emit_next, qubit_lists};
use qasm_write::QasmWriter;
use qubit_alloc::Placer;
use silq_io::{Failed, Sink, SureSink};
use std::alloc::{AllocError, Global};
use std::process::ExitCode;
use std::{env, io};
use test_forms::{StepEntry, TableFault, WireEntry, at, flat_of, flip, input, new, on};

// The greatest N: a flat form has at most 100,000 wires, and three are inputs.
const MOST: u32 = 99_997;

// Why there is no text.
#[derive(Drop)]
enum Fault {
    Table,
    Memory,
    Moves,
    Write,
}

impl From<TableFault> for Fault {
    fn from(_fault: TableFault) -> Fault {
        Fault::Table
    }
}

impl From<AllocError> for Fault {
    fn from(_error: AllocError) -> Fault {
        Fault::Memory
    }
}

impl From<Failed> for Fault {
    fn from(_fault: Failed) -> Fault {
        Fault::Write
    }
}

// The number of temporaries, which is the one word.
fn read_number(rt: &HostRuntime) -> io::Result<Option<u32>> {
    let mut words = env::args(rt)?.skip(1);
    let Some(number) = words.next() else {
        return Ok(None);
    };
    Ok(number.as_str().parse::<u32>().ok())
}

// Three inputs, and the temporaries.
fn wires(alloc: Global, temporaries: u32) -> Result<Vec<WireEntry>, AllocError> {
    let mut wires = vec![in alloc; input(Output); 3]?;
    for _ in 0..temporaries {
        wires.push(new(Dropped))?;
    }
    Ok(wires)
}

// Each temporary is the conjunction of two inputs, and flips the third.
fn steps(alloc: Global, temporaries: u32) -> Result<Vec<StepEntry>, AllocError>
    requires { temporaries ≤ 100000 }
{
    let mut steps = Vec::new(alloc);
    for i in 0..temporaries {
        steps.push(at(1, flip(i + 3, on(0), on(1))))?;
        steps.push(at(1, flip(2, on(i + 3), None)))?;
    }
    Ok(steps)
}

// The flat form of so many temporaries.
fn form(alloc: Global, temporaries: u32) -> Result<Flat, TableFault>
    requires { temporaries ≤ 100000 }
{
    let wires = wires(alloc, temporaries)?;
    let steps = steps(alloc, temporaries)?;
    flat_of(alloc, &wires, &steps)
}

// Each temporary is done, used and undone before the next.
fn moves(alloc: Global, temporaries: u32) -> Result<MoveList, AllocError>
    requires { temporaries ≤ 100000 }
{
    let mut moves = MoveList::new(alloc);
    for i in 0..temporaries {
        let temporary = StepId { number: 2 * i };
        let used = StepId { number: 2 * i + 1 };
        moves.push(Move::Up(temporary))?;
        moves.push(Move::Do(used))?;
        moves.push(Move::Down(temporary))?;
    }
    Ok(moves)
}

// Writes the gates of a move.
fn write_gates<S: Sink>(writer: &mut QasmWriter<'_, S>, row: &GateRow) -> Result<(), Failed> {
    for gate in row.as_slice() {
        writer.gate(*gate)?;
    }
    Ok(())
}

// Writes the text of a valid list of moves on so many qubits.
fn write_plan<S: Sink>(
    alloc: Global,
    flat: &Flat,
    moves: &[Move],
    width: usize,
    out: &mut S,
) -> Result<(), Fault>
    requires plan { IsPlan flat.now moves.now }
    requires fits { spec_width flat.now moves.now ≤ width }
    requires few { width ≤ 100000 }
{
    let _steps = flat.steps();
    let mut placer = Placer::new(alloc, flat, width)?;
    let ins = qubit_lists(alloc, &placer, flat.ins())?;
    let mut writer = QasmWriter::new(out);
    writer.head(width as u32, flat.outcomes(), &ins)?;
    for mv in moves {
        let row = emit_next(&mut placer, flat, *mv);
        write_gates(&mut writer, &row)?;
    }
    placer.finish(flat);
    let outs = qubit_lists(alloc, &placer, flat.outs())?;
    writer.finish(&outs)?;
    Ok(())
}

// Writes the text of so many temporaries, and gives the numbers of moves and bytes.
fn done(alloc: Global, temporaries: u32) -> Result<(usize, u64), Fault> {
    let temporaries = temporaries.min(MOST);
    let flat = form(alloc, temporaries)?;
    let list = moves(alloc, temporaries)?;
    let moves = list.as_slice();
    let mut rows = Rows::new(alloc, &flat)?;
    if !rows.valid(&flat, moves) {
        return Err(Fault::Moves);
    }
    let width = rows.width(&flat, moves);
    if width > 100_000 {
        return Err(Fault::Moves);
    }
    let mut row = [0u8; 0];
    let mut out = SureSink::new(&mut row);
    write_plan(alloc, &flat, moves, width, &mut out)?;
    Ok((moves.len(), out.rest()))
}

fn main(rt: HostRuntime) -> io::Result<ExitCode> {
    let Some(temporaries) = read_number(&rt)? else {
        return Ok(ExitCode::from(2));
    };
    match done(rt.alloc(), temporaries) {
        Ok((moves, bytes)) => println!(rt; "moves {moves} bytes {bytes}")?,
        Err(_) => return Ok(ExitCode::from(1)),
    }
    Ok(ExitCode::from(0))
}
