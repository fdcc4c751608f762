//! The qubits of lists of wires.

ghost use Rattle.std.specs.Prelude.{◌≡◌, IfOk, All, IsSome, Some, map};
ghost use Rattle.qubit_alloc.specs.State.{qubit_told};

use flat_core::{WireList, WireLists};
use gate_core::{QubitList, QubitLists};
use qubit_alloc::Placer;
use std::alloc::{AllocError, Global};

/// The qubits of lists of wires, as those of the parameters before the moves or those of the results after them. Each
/// wire has to be on a qubit. It fails only where memory runs out.
pub fn qubit_lists(
    alloc: Global,
    placer: &Placer,
    lists: &WireLists,
) -> Result<QubitLists, AllocError>
    requires { All (All (λ w. IsSome (qubit_told placer.now w))) lists.now }
    ensures { IfOk result (λ told. map (map Some) told ≡ map (map (qubit_told placer.now)) lists.now) }
{
    let mut told = QubitLists::new(alloc);
    for i in 0..lists.len() {
        let wires = lists.get(i).unwrap();
        let qubits = qubit_list(alloc, placer, wires)?;
        told.push(qubits)?;
    }
    Ok(told)
}

// The qubits of a list of wires.
fn qubit_list(alloc: Global, placer: &Placer, wires: &WireList) -> Result<QubitList, AllocError>
    requires { All (λ w. IsSome (qubit_told placer.now w)) wires.now }
    ensures { IfOk result (λ told. map Some told ≡ map (qubit_told placer.now) wires.now) }
{
    let mut told = QubitList::new(alloc);
    for i in 0..wires.len() {
        let wire = wires.get(i).unwrap();
        let qubit = placer.qubit(*wire).unwrap();
        told.push(qubit)?;
    }
    Ok(told)
}
