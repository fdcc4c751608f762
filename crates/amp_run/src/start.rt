//! The basis state that a circuit begins with.

ghost use Rattle.std.specs.Prelude.{◌≡◌, Bool, false, length, replicate, IfOk};
ghost use Rattle.gate_core.specs.Local.{AllBelow};
ghost use Rattle.gate_core.specs.Meaning.{joined, placed};

use gate_core::QubitLists;
use std::alloc::{AllocError, Global};
use sum_laws::BitList;

/// The qubits of all lists in one.
pub fn joined_qubits(alloc: Global, lists: &QubitLists) -> Result<Vec<u32>, AllocError>
    ensures { IfOk result (λ qubits. qubits.items ≡ joined lists.now) }
{
    let mut qubits = Vec::new(alloc);
    for list in lists.as_slice() {
        qubits.extend_from_slice(list.as_slice())?;
    }
    Ok(qubits)
}

// So many zeros.
pub fn zeros(alloc: Global, n: u32) -> Result<BitList, AllocError>
    ensures { IfOk result (λ bits. bits ≡ replicate n false) }
{
    BitList::from_slice(alloc, &vec![in alloc; false; n as usize]?)
}

// The input bits on these qubits, and 0 on the others of n.
pub fn start(alloc: Global, n: u32, qubits: &[u32], input: &[bool]) -> Result<BitList, AllocError>
    requires in_range { AllBelow n qubits.now }
    requires lengths { length input.now ≡ length qubits.now }
    ensures value { IfOk result (λ bits. bits ≡ placed qubits.now input.now (replicate n false)) }
    ensures width { IfOk result (λ bits. length bits ≡ n) }
{
    let mut bits = zeros(alloc, n)?;
    for (i, q) in qubits.iter().enumerate() {
        bits.set(*q as usize, input[i]);
    }
    Ok(bits)
}
