//! Circuits and lists of qubits.

use gate_core::{Circuit, Gate, OneKind, PlainGate, QubitList, QubitLists};
use std::alloc::{AllocError, Global};
use std::test::Fail;

// Whether a circuit refuses a statement, or accepts it and has it last after it is added.
fn is_added(circuit: &mut Circuit, gate: Gate, is_accepted: bool) -> Result<bool, AllocError> {
    if !circuit.accepts(gate) {
        return Ok(!is_accepted);
    }
    let last = circuit.len();
    circuit.push(gate)?;
    Ok(is_accepted && circuit.gate(last) == Some(gate) && circuit.len() == last.wrapping_add(1))
}

#[test]
fn a_circuit_holds_what_it_accepts(rt: HostRuntime) -> Result<(), Fail> {
    let x = OneKind::X;
    let flip = PlainGate::One { kind: x, q: 2 };
    let table = [
        (Gate::One { kind: x, q: 0 }, true),
        (Gate::One { kind: x, q: 3 }, false),
        (Gate::Cx { c: 0, t: 2 }, true),
        (Gate::Cz { c: 1, t: 1 }, false),
        (Gate::Ccx { a: 2, b: 0, t: 1 }, true),
        (Gate::Ccx { a: 1, b: 0, t: 1 }, false),
        (Gate::Measure { q: 1, bit: 1 }, true),
        (Gate::Measure { q: 2, bit: 1 }, false),
        (Gate::Measure { q: 2, bit: 2 }, false),
        (
            Gate::If {
                bit: 1,
                value: 7,
                gate: flip,
            },
            true,
        ),
    ];
    let mut circuit = Circuit::new(rt.alloc(), 3, 2);
    let empty = circuit.is_empty();
    for (row, (gate, is_accepted)) in table.into_iter().enumerate() {
        let is_right = is_added(&mut circuit, gate, is_accepted)?;
        assert!(rt; is_right, "row {row}");
    }
    assert!(rt; empty && circuit.len() == 5 && circuit.gate(5).is_none());
    assert!(rt; (circuit.qubits(), circuit.bits()) == (3, 2));
    assert!(rt; circuit.is_measured(1) && !circuit.is_measured(0));
    Ok(())
}

/// The list of some qubits.
pub fn list_of(alloc: Global, qubits: &[u32]) -> Result<QubitList, AllocError> {
    let mut list = QubitList::new(alloc);
    for qubit in qubits {
        list.push(*qubit)?;
    }
    Ok(list)
}

#[test]
fn lists_of_qubits(rt: HostRuntime) -> Result<(), Fail> {
    let list = list_of(rt.alloc(), &[4, 2])?;
    assert!(rt; list.len() == 2 && list.as_slice() == [4, 2].as_slice());
    assert!(rt; list.get(1) == Some(&2) && list.get(2).is_none());
    let mut lists = QubitLists::new(rt.alloc());
    let empty = lists.is_empty();
    lists.push(list)?;
    lists.push(QubitList::new(rt.alloc()))?;
    let lengths = [0, 1, 2].map(|i| lists.get(i).map(QubitList::len));
    assert!(rt; lengths == [Some(2), Some(0), None] && empty);
    assert!(rt; lists.len() == 2 && lists.as_slice().len() == 2);
    Ok(())
}
