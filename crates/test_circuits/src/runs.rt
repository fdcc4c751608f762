//! Tables of circuits.

use crate::teleportation::{if_x, one, teleportation};
use amp_core::Amp;
use amp_run::{RunFault, are_inputs, table};
use gate_core::{Circuit, Gate, OneKind, PlainGate, QubitList, QubitLists};
use silq_io::{LimitKind, OverLimit};
use std::alloc::{AllocError, Global};
use std::test::Fail;
use sum_laws::Table;

// The numbers of qubits, of bits and of input qubits.
type Sizes = (u32, u32, u32);

// A value, and its amplitude.
type Row<'a> = (&'a [bool], Amp);

const O: bool = false;

const I: bool = true;

const MEASURE: Gate = Gate::Measure { q: 0, bit: 0 };

// The number (a + c w^2) / root two^k.
fn over(a: i128, c: i128, k: u32) -> Amp {
    Amp {
        a,
        b: 0,
        c,
        d: 0,
        k,
    }
}

fn h() -> Gate {
    one(OneKind::H, 0)
}

// The circuit of these statements, but for those that do not fit.
fn circuit_of(
    alloc: Global,
    qubits: u32,
    bits: u32,
    gates: &[Gate],
) -> Result<Circuit, AllocError> {
    let mut circuit = Circuit::new(alloc, qubits, bits);
    for gate in gates {
        if circuit.accepts(*gate) {
            circuit.push(*gate)?;
        }
    }
    Ok(circuit)
}

// The first n qubits in one list.
fn first_qubits(alloc: Global, n: u32) -> Result<QubitLists, AllocError> {
    let mut list = QubitList::new(alloc);
    for q in 0..n {
        list.push(q)?;
    }
    let mut lists = QubitLists::new(alloc);
    lists.push(list)?;
    Ok(lists)
}

// The table of such a circuit, with its first qubits as inputs; `None` where it has not so many.
fn answer(
    alloc: Global,
    sizes: Sizes,
    gates: &[Gate],
    input: &[bool],
    outcome: &[bool],
) -> Result<Option<Table>, RunFault> {
    let (qubits, bits, ins) = sizes;
    let circuit = circuit_of(alloc, qubits, bits, gates)?;
    let ins = first_qubits(alloc, ins)?;
    if are_inputs(alloc, &circuit, &ins)? {
        Ok(Some(table(alloc, &circuit, &ins, input, outcome)?))
    } else {
        Ok(None)
    }
}

// Whether a table has exactly these rows, in their order.
fn has_rows(table: &Table, rows: &[Row<'_>]) -> bool {
    let mut all = table.len() == rows.len();
    for (i, row) in rows.iter().enumerate() {
        all = all && table.row(i) == Some(*row);
    }
    all
}

// Whether the answer is a table with exactly these rows, in their order.
fn is_table(answer: Result<Option<Table>, RunFault>, rows: &[Row<'_>]) -> bool {
    match answer {
        Ok(Some(table)) => has_rows(&table, rows),
        _ => false,
    }
}

#[test]
fn inputs_that_fit(rt: HostRuntime) -> Result<(), Fail> {
    let alloc = rt.alloc();
    let circuit = Circuit::new(alloc, 2, 0);
    let mut with_empty = first_qubits(alloc, 2)?;
    with_empty.push(QubitList::new(alloc))?;
    let fit = [
        are_inputs(alloc, &circuit, &first_qubits(alloc, 2)?)?,
        are_inputs(alloc, &circuit, &first_qubits(alloc, 3)?)?,
        are_inputs(alloc, &circuit, &with_empty)?,
    ];
    assert!(rt; fit == [true, false, true]);
    Ok(())
}

#[test]
fn tables_of_small_circuits(rt: HostRuntime) {
    let alloc = rt.alloc();
    let half = over(1, 0, 1);

    let nothing = answer(alloc, (0, 0, 0), &[], &[], &[]);
    assert!(rt; is_table(nothing, &[(&[], Amp::ONE)]));

    let ccx = Gate::Ccx { a: 0, b: 1, t: 2 };
    let flipped = answer(alloc, (3, 0, 2), &[ccx], &[I, I], &[]);
    assert!(rt; is_table(flipped, &[(&[I, I, I], Amp::ONE)]));

    let corrected = answer(alloc, (2, 1, 0), &[h(), MEASURE, if_x(0, 0)], &[], &[I]);
    assert!(rt; is_table(corrected, &[(&[O, O], half)]));

    let too_early = answer(alloc, (2, 1, 0), &[h(), if_x(0, 1), MEASURE], &[], &[I]);
    assert!(rt; is_table(too_early, &[(&[I, O], half)]));
}

// The amplitude of one bit, zero where it has no row.
fn amplitude_in(table: &Table, bit: bool) -> Amp {
    for i in 0..table.len() {
        if let Some((bits, amp)) = table.row(i)
            && bits == [bit].as_slice()
        {
            return amp;
        }
    }
    Amp::ZERO
}

// The amplitudes of 0 and of 1 after two gates on one qubit.
fn amplitudes(alloc: Global, gates: [Gate; 2], bit: bool) -> Option<[Amp; 2]> {
    match answer(alloc, (1, 0, 1), &gates, &[bit], &[]) {
        Ok(Some(table)) => Some([amplitude_in(&table, O), amplitude_in(&table, I)]),
        _ => None,
    }
}

#[test]
fn tables_of_one_qubit(rt: HostRuntime) {
    let identity = one(OneKind::Id, 0);
    let y = one(OneKind::Y, 0);
    let half = over(1, 0, 1);
    let table = [
        ([h(), identity], O, [half, half]),
        ([h(), identity], I, [half, over(-1, 0, 1)]),
        ([h(), h()], I, [Amp::ZERO, Amp::ONE]),
        ([y, identity], O, [Amp::ZERO, over(0, 1, 0)]),
        ([y, identity], I, [over(0, -1, 0), Amp::ZERO]),
    ];
    for (row, (gates, bit, wanted)) in table.into_iter().enumerate() {
        let found = amplitudes(rt.alloc(), gates, bit);
        assert!(rt; found == Some(wanted), "row {row}");
    }
}

#[test]
fn a_qubit_is_teleported(rt: HostRuntime) {
    let gates = teleportation();
    for outcome in [[O, O], [O, I], [I, O], [I, I]] {
        let found = answer(rt.alloc(), (3, 2, 1), &gates, &[I], &outcome);
        assert!(rt;
            is_table(found, &[(&[O, O, I], over(1, 0, 2))]),
            "{outcome:?}"
        );
    }
}

// Fifty Hadamard gates, and one under an `if`.
fn many_gates(alloc: Global) -> Result<Vec<Gate>, AllocError> {
    let kind = OneKind::H;
    let gate = PlainGate::One { kind, q: 0 };
    let mut gates = vec![in alloc; h(); 50]?;
    gates.push(Gate::If {
        bit: 0,
        value: 1,
        gate,
    })?;
    Ok(gates)
}

#[test]
fn refusals_in_their_order(rt: HostRuntime) -> Result<(), Fail> {
    let alloc = rt.alloc();
    let gates = many_gates(alloc)?;
    let gates = gates.as_slice();
    let found = [
        answer(alloc, (21, 1, 1), gates, &[I, I], &[]).err(),
        answer(alloc, (21, 1, 1), gates, &[I], &[]).err(),
        answer(alloc, (21, 1, 1), gates, &[I], &[I]).err(),
        answer(alloc, (20, 1, 1), gates, &[I], &[I]).err(),
    ];
    let bits = |given, wanted| Some(RunFault::Bits { given, wanted });
    let limit = |which, count| Some(RunFault::Limit(OverLimit { which, count }));
    let wanted = [
        bits(2, 1),
        bits(0, 1),
        limit(LimitKind::Qubits, 21),
        limit(LimitKind::HGates, 51),
    ];
    assert!(rt; found == wanted);
    Ok(())
}

#[test]
fn the_greatest_circuits(rt: HostRuntime) -> Result<(), Fail> {
    let gates = vec![in rt.alloc(); h(); 50]?;
    let found = answer(rt.alloc(), (20, 1, 1), &gates, &[I], &[O]);
    let bits = [[I].as_slice(), [O; 19].as_slice()].concat(rt.alloc())?;
    assert!(rt; is_table(found, &[(&bits, Amp::ONE)]));
    Ok(())
}
