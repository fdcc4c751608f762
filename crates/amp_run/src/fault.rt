//! Which circuits and bits have no table.

ghost use Rattle.std.specs.Prelude.{◌≡◌, ◌≤◌};
ghost use Rattle.amp_run.specs.Refusal.{fault_of, h_gates, h_gates_in, h_of_kind};
ghost use Rattle.amp_run.specs.declared.fault.RunFault.TheVariants.{Memory};

use gate_core::{Circuit, Gate, OneKind, PlainGate};
use silq_io::{LimitKind, OverLimit};
use std::alloc::AllocError;

/// Why a circuit has no table.
#[derive(Clone, Copy, PartialEq, Eq)]
pub enum RunFault {
    /// No memory.
    Memory,
    /// The input or the outcome has so many bits in place of as many as are wanted.
    Bits { given: u64, wanted: u64 },
    /// Too many qubits or Hadamard gates.
    Limit(OverLimit),
}

impl From<AllocError> for RunFault {
    ghost from_gives = { λ _ fault. fault ≡ Memory };

    fn from(_: AllocError) -> Self {
        RunFault::Memory
    }
}

const MAX_QUBITS: u32 = 20;

const MAX_H_GATES: usize = 50;

// The fault of a circuit with these input qubits, but for want of memory.
pub fn refusal(
    circuit: &Circuit,
    qubits: &[u32],
    input: &[bool],
    outcome: &[bool],
) -> Option<RunFault>
    ensures { result ≡ fault_of circuit.now qubits.now input.now outcome.now }
{
    if input.len() != qubits.len() {
        return Some(bits(input.len() as u64, qubits.len() as u64));
    }
    if outcome.len() as u64 != u64::from(circuit.bits()) {
        return Some(bits(outcome.len() as u64, u64::from(circuit.bits())));
    }
    if circuit.qubits() > MAX_QUBITS {
        return Some(limit(LimitKind::Qubits, 21));
    }
    if count_h_gates(circuit) > MAX_H_GATES {
        return Some(limit(LimitKind::HGates, 51));
    }
    None
}

fn bits(given: u64, wanted: u64) -> RunFault
    ensures { result ≡ RunFault.Bits given wanted }
{
    RunFault::Bits { given, wanted }
}

fn limit(which: LimitKind, count: u64) -> RunFault
    ensures { result ≡ RunFault.Limit (record { which = which; count = count }) }
{
    RunFault::Limit(OverLimit { which, count })
}

// How many Hadamard gates a circuit has.
fn count_h_gates(circuit: &Circuit) -> usize
    ensures { result ≡ h_gates circuit.now.gates }
{
    let mut count = 0;
    for i in 0..circuit.len() {
        count += h_gates_of(circuit.gate(i).unwrap());
    }
    count
}

// How many Hadamard gates a statement holds.
fn h_gates_of(gate: Gate) -> usize
    ensures count { result ≡ h_gates_in gate }
    ensures few { result ≤ 1 }
{
    match gate {
        Gate::One { kind, q: _ } => h_of(kind),
        Gate::If {
            bit: _,
            value: _,
            gate: PlainGate::One { kind: inner, q: _ },
        } => h_of(inner),
        _ => 0,
    }
}

// 1 for the Hadamard gate, and 0 for another.
fn h_of(kind: OneKind) -> usize
    ensures count { result ≡ h_of_kind kind }
    ensures few { result ≤ 1 }
{
    match kind {
        OneKind::H => 1,
        _ => 0,
    }
}
