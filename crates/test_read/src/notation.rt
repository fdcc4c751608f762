//! How what is read is written in one line.
//!
//! `qubits 2 bits 1: h 0; cx 0 1; measure 0 0; if 0 1 x 1 | in 0 1, 2 | out -`: how many qubits and classical bits there are; the
//! statements by their words, with numbers of qubits and bits as the text has them in order; and the lists of the qubits that comment
//! lines name, `in` and `out`. `-` stands where there is none. An `if` has its bit, its value and its gate.
//!
//! A refusal is its note: `4:9: syntax: repeated`, `3:1: unsupported: definition` or `limit: qubits 100001`.

use gate_core::{Circuit, Gate, OneKind, PlainGate, QubitLists};
use qasm_read::{QasmFault, ReadCircuit};
use std::alloc::{AllocError, Global};

// The word of a gate on one qubit.
fn word_of(kind: OneKind) -> &'static str {
    match kind {
        OneKind::Id => "id",
        OneKind::X => "x",
        OneKind::Y => "y",
        OneKind::Z => "z",
        OneKind::H => "h",
        OneKind::S => "s",
        OneKind::Sdg => "sdg",
        OneKind::T => "t",
        OneKind::Tdg => "tdg",
    }
}

// Adds a gate.
fn add_plain(out: &mut String, gate: PlainGate) -> Result<(), AllocError> {
    match gate {
        PlainGate::One { kind, q } => {
            let word = word_of(kind);
            write!(out, "{word} {q}")
        }
        PlainGate::Cx { c, t } => write!(out, "cx {c} {t}"),
        PlainGate::Cz { c, t } => write!(out, "cz {c} {t}"),
        PlainGate::Ccx { a, b, t } => write!(out, "ccx {a} {b} {t}"),
    }
}

// Adds a statement.
fn add_gate(out: &mut String, gate: Gate) -> Result<(), AllocError> {
    match gate {
        Gate::One { kind, q } => add_plain(out, PlainGate::One { kind, q }),
        Gate::Cx { c, t } => add_plain(out, PlainGate::Cx { c, t }),
        Gate::Cz { c, t } => add_plain(out, PlainGate::Cz { c, t }),
        Gate::Ccx { a, b, t } => add_plain(out, PlainGate::Ccx { a, b, t }),
        Gate::Measure { q, bit } => write!(out, "measure {q} {bit}"),
        Gate::If { bit, value, gate } => {
            write!(out, "if {bit} {value} ")?;
            add_plain(out, gate)
        }
    }
}

// Adds the statements, or `-` for none.
fn add_gates(out: &mut String, circuit: &Circuit) -> Result<(), AllocError> {
    let mut joint = "";
    for place in 0..circuit.len() {
        if let Some(gate) = circuit.gate(place) {
            out.push_str(joint)?;
            add_gate(out, gate)?;
            joint = "; ";
        }
    }
    out.push_str(if circuit.is_empty() { "-" } else { "" })
}

// Adds the qubits of one list.
fn add_list(out: &mut String, qubits: &[u32]) -> Result<(), AllocError> {
    let mut joint = "";
    for qubit in qubits {
        write!(out, "{joint}{qubit}")?;
        joint = " ";
    }
    Ok(())
}

// Adds the lists, or `-` for none.
fn add_lists(out: &mut String, lists: &QubitLists) -> Result<(), AllocError> {
    let mut joint = "";
    for list in lists.as_slice() {
        out.push_str(joint)?;
        add_list(out, list.as_slice())?;
        joint = ", ";
    }
    out.push_str(if lists.is_empty() { "-" } else { "" })
}

/// A circuit with the qubits that comment lines name.
pub fn circuit_text(alloc: Global, read: &ReadCircuit) -> Result<String, AllocError> {
    let mut out = String::new(alloc);
    let (qubits, bits) = (read.circuit.qubits(), read.circuit.bits());
    write!(out, "qubits {qubits} bits {bits}: ")?;
    add_gates(&mut out, &read.circuit)?;
    out.push_str(" | in ")?;
    add_lists(&mut out, &read.ins)?;
    out.push_str(" | out ")?;
    add_lists(&mut out, &read.outs)?;
    Ok(out)
}

/// A refusal.
pub fn fault_text(alloc: Global, fault: QasmFault) -> Result<String, AllocError> {
    match fault {
        QasmFault::Memory => String::from_str(alloc, "no memory"),
        QasmFault::Syntax { line, col } => format!(in alloc; "{line}:{col}: syntax: form"),
        QasmFault::Unsupported { line, col, what } => {
            let name = what.name();
            format!(in alloc; "{line}:{col}: unsupported: {name}")
        }
        QasmFault::Bad { line, col, cause } => {
            let name = cause.name();
            format!(in alloc; "{line}:{col}: syntax: {name}")
        }
        QasmFault::Limit(over) => {
            let (name, count) = (over.which.name(), over.count);
            format!(in alloc; "limit: {name} {count}")
        }
    }
}
