//! Texts of circuits, byte by byte.

use crate::teleportation::teleportation;
use gate_core::{QubitList, QubitLists};
use qasm_write::QasmWriter;
use silq_io::{Failed, MemSink, Sink};
use std::alloc::{AllocError, Global};
use std::test::Fail;

const TEXT: &[u8] = b"OPENQASM 2.0;\ninclude \"qelib1.inc\";\nqreg q[3];\ncreg m0[1];\ncreg m1[1];
// silqc in 0 q[0]
h q[1];\ncx q[1],q[2];\ncx q[0],q[1];\nh q[0];\nmeasure q[0] -> m0[0];\nmeasure q[1] -> m1[0];\ncx q[1],q[2];
if (m1==1) x q[1];\nccx q[0],q[2],q[1];\nz q[1];\nccx q[0],q[2],q[1];\nif (m0==1) x q[0];
// silqc out 0 q[2]
";

/// A sink that takes one byte at a time.
#[derive(Drop)]
struct Slow<T> {
    inner: T,
}

impl<T: Sink> Sink for Slow<T> {
    ghost put_so_far = { λ slow. T.put_so_far slow.inner };

    ghost faults = { λ slow. T.faults slow.inner };

    fn put(&mut self, bytes: &[u8]) -> Result<usize, Failed> {
        let end = bytes.len().min(1);
        self.inner.put(&bytes[..end])
    }
}

// One list of one qubit.
fn one_list(alloc: Global, qubit: u32) -> Result<QubitLists, AllocError> {
    let mut list = QubitList::new(alloc);
    list.push(qubit)?;
    let mut lists = QubitLists::new(alloc);
    lists.push(list)?;
    Ok(lists)
}

// Writes the teleportation.
fn write<S: Sink>(out: &mut S, ins: &QubitLists, outs: &QubitLists) -> Result<(), Failed> {
    let mut writer = QasmWriter::new(out);
    writer.head(3, 2, ins)?;
    for gate in teleportation() {
        writer.gate(gate)?;
    }
    writer.finish(outs)
}

#[test]
fn a_text_in_pieces(rt: HostRuntime) -> Result<(), Fail> {
    let alloc = rt.alloc();
    let ins = one_list(alloc, 0)?;
    let outs = one_list(alloc, 2)?;
    let mut out = MemSink::new(alloc, 500, Vec::new(alloc))?;
    let mut slow = Slow {
        inner: MemSink::new(alloc, 500, Vec::new(alloc))?,
    };
    let written = [write(&mut out, &ins, &outs), write(&mut slow, &ins, &outs)];
    assert!(rt; written == [Ok(()), Ok(())] && out.bytes() == TEXT && slow.inner.bytes() == TEXT);
    Ok(())
}

#[test]
fn a_failing_put_ends_the_text(rt: HostRuntime) -> Result<(), Fail> {
    let alloc = rt.alloc();
    let ins = one_list(alloc, 0)?;
    let mut out = MemSink::new(alloc, 500, vec![in alloc; 1u64]?)?;
    let mut small = MemSink::new(alloc, 40, Vec::new(alloc))?;
    let written = [write(&mut out, &ins, &ins), write(&mut small, &ins, &ins)];
    assert!(rt; written == [Err(Failed), Err(Failed)]);
    assert!(rt; out.bytes().is_empty() && small.bytes() == &TEXT[..40]);
    Ok(())
}
