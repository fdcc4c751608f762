//! Whole texts of flat forms, from their moves.

ghost use Rattle.std.specs.Prelude.{◌≡◌, ◌≤◌, ℕ, List};
ghost use Rattle.move_plan.specs.Progress.{IsPlan};
ghost use Rattle.move_plan.specs.Live.{width as spec_width};

use crate::words;
use flat_core::{Flat, WireId};
use gate_core::gate::Gate;
use gate_core::{QubitList, QubitLists};
use move_plan::{Move, Rows};
use plan_gates::{emit_next, plan_lists};
use qasm_write::QasmWriter;
use qubit_alloc::Placer;
use silq_io::{Failed, MemSink, Sink};
use std::alloc::{AllocError, Global};
use test_forms::{TableFault, Worked, worked_form};

// A form, its moves, their width, the wires of the parameters and of the results, each in a list of its own, and the text
// that is wanted.
#[derive(Clone, Copy)]
struct Row {
    form: Worked,
    moves: &'static str,
    width: u32,
    ins: &'static [u32],
    outs: &'static [u32],
    text: &'static str,
}

const XOR_OF_ANDS: Row = Row {
    form: Worked::XorOfAnds,
    moves: "up0 up1 do2 down1 down0",
    width: 6,
    ins: &[0, 1, 2, 3],
    outs: &[3, 0, 1, 2],
    text: "OPENQASM 2.0;
include \"qelib1.inc\";
qreg q[6];
// silqc in 0 q[0]
// silqc in 1 q[1]
// silqc in 2 q[2]
// silqc in 3 q[3]
ccx q[0],q[1],q[4];
ccx q[4],q[2],q[5];
cx q[5],q[3];
ccx q[4],q[2],q[5];
ccx q[0],q[1],q[4];
// silqc out 0 q[3]
// silqc out 1 q[0]
// silqc out 2 q[1]
// silqc out 3 q[2]
",
};

const HADAMARD_AFTER_UNCOPY: Row = Row {
    form: Worked::HadamardAfterUncopy,
    moves: "up0 do2 down0 do1",
    width: 3,
    ins: &[0, 1],
    outs: &[0, 1],
    text: "OPENQASM 2.0;
include \"qelib1.inc\";
qreg q[3];
// silqc in 0 q[0]
// silqc in 1 q[1]
cx q[0],q[2];
cx q[2],q[1];
cx q[0],q[2];
h q[0];
// silqc out 0 q[0]
// silqc out 1 q[1]
",
};

const TWO_ANDS: Row = Row {
    form: Worked::TwoAnds,
    moves: "up0 up1 do2 do3 down1 do4 down0",
    width: 7,
    ins: &[0, 1, 2, 3, 4],
    outs: &[4, 0, 1, 2, 3],
    text: "OPENQASM 2.0;
include \"qelib1.inc\";
qreg q[7];
// silqc in 0 q[0]
// silqc in 1 q[1]
// silqc in 2 q[2]
// silqc in 3 q[3]
// silqc in 4 q[4]
ccx q[0],q[1],q[5];
ccx q[2],q[3],q[6];
cx q[5],q[4];
cx q[6],q[4];
ccx q[2],q[3],q[6];
cx q[5],q[4];
ccx q[0],q[1],q[5];
// silqc out 0 q[4]
// silqc out 1 q[0]
// silqc out 2 q[1]
// silqc out 3 q[2]
// silqc out 4 q[3]
",
};

const RECOMPUTED: Row = Row {
    form: Worked::TwoAnds,
    moves: "up0 do2 down0 up1 do3 down1 up0 do4 down0",
    width: 6,
    ins: &[0, 1, 2, 3, 4],
    outs: &[4, 0, 1, 2, 3],
    text: "OPENQASM 2.0;
include \"qelib1.inc\";
qreg q[6];
// silqc in 0 q[0]
// silqc in 1 q[1]
// silqc in 2 q[2]
// silqc in 3 q[3]
// silqc in 4 q[4]
ccx q[0],q[1],q[5];
cx q[5],q[4];
ccx q[0],q[1],q[5];
ccx q[2],q[3],q[5];
cx q[5],q[4];
ccx q[2],q[3],q[5];
ccx q[0],q[1],q[5];
cx q[5],q[4];
ccx q[0],q[1],q[5];
// silqc out 0 q[4]
// silqc out 1 q[0]
// silqc out 2 q[1]
// silqc out 3 q[2]
// silqc out 4 q[3]
",
};

const TELEPORTATION: Row = Row {
    form: Worked::Teleportation,
    moves: "do0 do1 do2 do3 do4 do5 do6 free1 up7 do8 down7 free0",
    width: 3,
    ins: &[0],
    outs: &[2],
    text: "OPENQASM 2.0;
include \"qelib1.inc\";
qreg q[3];
creg m0[1];
creg m1[1];
// silqc in 0 q[0]
h q[1];
cx q[1],q[2];
cx q[0],q[1];
h q[0];
measure q[0] -> m0[0];
measure q[1] -> m1[0];
cx q[1],q[2];
if (m1==1) x q[1];
ccx q[0],q[2],q[1];
z q[1];
ccx q[0],q[2],q[1];
if (m0==1) x q[0];
// silqc out 0 q[2]
",
};

const CONTROLLED_HADAMARDS: Row = Row {
    form: Worked::ControlledHadamards,
    moves: "do0 do1",
    width: 2,
    ins: &[0, 1],
    outs: &[1, 0],
    text: "OPENQASM 2.0;
include \"qelib1.inc\";
qreg q[2];
// silqc in 0 q[0]
// silqc in 1 q[1]
s q[1];
h q[1];
t q[1];
cx q[0],q[1];
tdg q[1];
h q[1];
sdg q[1];
s q[1];
h q[1];
t q[1];
cx q[0],q[1];
tdg q[1];
h q[1];
sdg q[1];
// silqc out 0 q[1]
// silqc out 1 q[0]
",
};

const BOTH_SIGNS: Row = Row {
    form: Worked::BothSigns,
    moves: "do0 do1",
    width: 3,
    ins: &[0, 1, 2],
    outs: &[0, 1, 2],
    text: "OPENQASM 2.0;
include \"qelib1.inc\";
qreg q[3];
// silqc in 0 q[0]
// silqc in 1 q[1]
// silqc in 2 q[2]
x q[0];
s q[1];
h q[1];
t q[1];
cx q[0],q[1];
tdg q[1];
h q[1];
sdg q[1];
x q[0];
x q[1];
ccx q[0],q[1],q[2];
x q[1];
// silqc out 0 q[0]
// silqc out 1 q[1]
// silqc out 2 q[2]
",
};

// The input stands on the first qubit, and the outputs that nothing touches on the next ones in their order.
const UNTOUCHED: Row = Row {
    form: Worked::Untouched,
    moves: "free3",
    width: 3,
    ins: &[1],
    outs: &[0, 1, 2],
    text: "OPENQASM 2.0;
include \"qelib1.inc\";
qreg q[3];
// silqc in 0 q[0]
// silqc out 0 q[1]
// silqc out 1 q[0]
// silqc out 2 q[2]
",
};

// What a text is written from.
#[derive(Drop)]
struct PlacedForm {
    width: u32,
    outcomes: u32,
    ins: QubitLists,
    gates: Vec<Gate>,
    outs: QubitLists,
}

// The qubits of some wires, each in a list of its own, which is empty where the wire is on no qubit.
fn qubits_of(alloc: Global, placer: &Placer, wires: &[u32]) -> Result<QubitLists, AllocError> {
    let mut lists = QubitLists::new(alloc);
    for number in wires {
        let mut list = QubitList::new(alloc);
        if let Some(qubit) = placer.qubit(WireId { number: *number }) {
            list.push(qubit)?;
        }
        lists.push(list)?;
    }
    Ok(lists)
}

// A form with the valid list of moves of a row, placed.
fn placed(alloc: Global, flat: &Flat, moves: &[Move], row: &Row) -> Result<PlacedForm, AllocError>
    requires plan { IsPlan flat.now moves.now }
    requires fits { spec_width flat.now moves.now ≤ row.now.width }
    requires few { row.now.width ≤ 100000 }
{
    let mut placer = Placer::new(alloc, flat, row.width as usize)?;
    let ins = qubits_of(alloc, &placer, row.ins)?;
    let mut gates = Vec::new(alloc);
    for mv in moves {
        let next = emit_next(&mut placer, flat, *mv);
        gates.extend_from_slice(next.as_slice())?;
    }
    placer.finish(flat);
    let outs = qubits_of(alloc, &placer, row.outs)?;
    Ok(PlacedForm {
        width: row.width,
        outcomes: flat.outcomes(),
        ins,
        gates,
        outs,
    })
}

// The placed form of a row, or nothing where the moves are not valid or have another width.
fn placed_by(alloc: Global, row: &Row) -> Result<Option<PlacedForm>, TableFault> {
    let flat = worked_form(alloc, row.form)?;
    let list = words::moves(alloc, row.moves)?;
    let moves = list.as_slice();
    let mut rows = Rows::new(alloc, &flat)?;
    if row.width > 100_000
        || !rows.valid(&flat, moves)
        || rows.width(&flat, moves) != row.width as usize
    {
        return Ok(None);
    }
    Ok(Some(placed(alloc, &flat, moves, row)?))
}

// Writes the text of a placed form.
fn write<S: Sink>(out: &mut S, placed: &PlacedForm) -> Result<(), Failed> {
    let mut writer = QasmWriter::new(out);
    writer.head(placed.width, placed.outcomes, &placed.ins)?;
    for gate in placed.gates.as_slice() {
        writer.gate(*gate)?;
    }
    writer.finish(&placed.outs)
}

// The first qubit of the first list.
fn first_of(lists: &QubitLists) -> Option<u32> {
    let list = lists.get(0)?;
    list.get(0).copied()
}

// The first qubits of the lists of parameters and of results that are told for the valid moves of a row.
fn first_told(alloc: Global, row: &Row) -> Result<(Option<u32>, Option<u32>), TableFault> {
    let flat = worked_form(alloc, row.form)?;
    let list = words::moves(alloc, row.moves)?;
    let moves = list.as_slice();
    let width = row.width as usize;
    let mut rows = Rows::new(alloc, &flat)?;
    if width > 100_000 || !rows.valid(&flat, moves) || rows.width(&flat, moves) != width {
        return Ok((None, None));
    }
    let lists = plan_lists(alloc, &flat, moves, width)?;
    Ok((first_of(&lists.ins), first_of(&lists.outs)))
}

#[test]
fn lists_of_teleportation(rt: HostRuntime) {
    let told = first_told(rt.alloc(), &TELEPORTATION);
    assert!(rt; matches!(told, Ok((Some(0), Some(2)))));
}

// Whether the whole text of a row is written.
fn is_written(alloc: Global, row: &Row) -> Result<bool, TableFault> {
    let mut out = MemSink::new(alloc, 1_000, Vec::new(alloc))?;
    let Some(placed) = placed_by(alloc, row)? else {
        return Ok(false);
    };
    Ok(write(&mut out, &placed).is_ok() && out.bytes() == row.text.as_bytes())
}

#[test]
fn whole_texts(rt: HostRuntime) {
    let rows = [
        XOR_OF_ANDS,
        HADAMARD_AFTER_UNCOPY,
        TWO_ANDS,
        RECOMPUTED,
        TELEPORTATION,
        CONTROLLED_HADAMARDS,
        BOTH_SIGNS,
        UNTOUCHED,
    ];
    for row in &rows {
        let written = is_written(rt.alloc(), row).unwrap_or(false);
        assert!(rt; written, "{}", row.text);
    }
}

/// A sink that takes one byte at a time.
#[derive(Drop)]
struct Slow<T> {
    inner: T,
}

impl<T: Sink> Sink for Slow<T> {
    ghost put_so_far = { λ slow. T.put_so_far slow.inner };

    ghost faults = { λ slow. T.faults slow.inner };

    fn put(&mut self, bytes: &[u8]) -> Result<usize, Failed> {
        let end = bytes.len().min(1);
        self.inner.put(&bytes[..end])
    }
}

// Whether just this front of the text is written, and the fault told, where the put behind it fails.
fn breaks_behind(alloc: Global, placed: &PlacedForm, front: &[u8]) -> Result<bool, AllocError> {
    let fails = vec![in alloc; front.len() as u64 + 1; 1]?;
    let inner = MemSink::new(alloc, 1_000, fails)?;
    let mut out = Slow { inner };
    let wrote = write(&mut out, placed);
    Ok(wrote == Err(Failed) && out.inner.bytes() == front)
}

// Whether the fault of each put of a row's text is told: each put is of one byte.
fn break_everywhere(alloc: Global, row: &Row) -> Result<bool, TableFault> {
    let text = row.text.as_bytes();
    let Some(placed) = placed_by(alloc, row)? else {
        return Ok(false);
    };
    for put in 0..text.len() {
        if !breaks_behind(alloc, &placed, &text[..put])? {
            return Ok(false);
        }
    }
    Ok(true)
}

#[test]
fn each_put_may_fail(rt: HostRuntime) {
    let breaks = break_everywhere(rt.alloc(), &HADAMARD_AFTER_UNCOPY);
    assert!(rt; matches!(breaks, Ok(true)));
}
