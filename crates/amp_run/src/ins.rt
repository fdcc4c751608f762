//! Which lists of input qubits a circuit can begin with.

ghost use Rattle.std.specs.Prelude.{◌↔◌, IsTrue, IfOk};
ghost use Rattle.gate_core.specs.Local.{AllBelow, AllDiffer};
ghost use Rattle.gate_core.specs.Meaning.{joined};
ghost use Rattle.amp_run.specs.Inputs.{AreNew};

use crate::start::joined_qubits;
use gate_core::{Circuit, QubitLists};
use std::alloc::{AllocError, Global};

/// Whether the qubits of these lists are qubits of the circuit and differ, as `table` asks.
pub fn are_inputs(alloc: Global, circuit: &Circuit, ins: &QubitLists) -> Result<bool, AllocError>
    ensures { IfOk result (λ fit. IsTrue fit ↔ (AllBelow circuit.now.qubits (joined ins.now) × AllDiffer (joined ins.now))) }
{
    let qubits = joined_qubits(alloc, ins)?;
    let mut free = vec![in alloc; true; circuit.qubits() as usize]?;
    Ok(are_new(&qubits, &mut free))
}

// Whether these qubits are below the number of flags, differ, and are all free. Those that were seen are free no more.
fn are_new(qubits: &[u32], free: &mut [bool]) -> bool
    ensures { IsTrue result ↔ AreNew free.old qubits.now }
{
    for q in qubits {
        let q = *q as usize;
        if q >= free.len() || !free[q] {
            return false;
        }
        free[q] = false;
    }
    true
}
