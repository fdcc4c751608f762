#![tactic(auto)]
//! The table of a circuit: its meaning, computed gate by gate with the terms of one value merged after each gate.

ghost use Rattle.std.specs.Prelude.{◌≡◌, ◌≢◌, ◌^◌, IsNone, IfOk, IfErr};
ghost use Rattle.sum_laws.specs.Table.{TableOf};
ghost use Rattle.sum_laws.specs.Units.{StandsFor};
ghost use Rattle.gate_core.specs.Local.{AllBelow, AllDiffer, HasWidth};
ghost use Rattle.gate_core.specs.Meaning.{joined, meaning};
ghost use Rattle.amp_run.specs.Refusal.{fault_of};

mod column;
mod fault;
mod ins;
mod parts;
mod run;
mod start;

pub use fault::RunFault;
use gate_core::{Circuit, QubitLists};
pub use ins::are_inputs;
pub use start::joined_qubits;
use std::alloc::Global;
use sum_laws::Table;

/// The table of a circuit over all its qubits, from the input bits on the qubits of `ins`, in their order, and 0 on
/// the others, and for these outcomes of the measures. The value of a row has the bit of qubit 0 first. An outcome
/// bit that no statement measures is not looked at. `are_inputs` tells whether `ins` is as asked.
///
/// Each row has a bit for each qubit, and the rows stand for at most 2^50 single terms, as `Terms::merged` asks of sums.
///
/// `Bits` comes where the input has not one bit for each qubit of `ins`, or else the outcome not one for each
/// classical bit; `Limit` above 20 qubits, or else above 50 Hadamard gates, those under an `if` included.
pub fn table(
    alloc: Global,
    circuit: &Circuit,
    ins: &QubitLists,
    input: &[bool],
    outcome: &[bool],
) -> Result<Table, RunFault>
    requires differ { AllDiffer (joined ins.now) }
    requires in_range { AllBelow circuit.now.qubits (joined ins.now) }
    ensures table { IfOk result (λ t. TableOf (meaning circuit.now.qubits circuit.now.bits circuit.now.gates ins.now input.now outcome.now) t) }
    ensures wide { IfOk result (λ t. HasWidth circuit.now.qubits t) }
    ensures small { IfOk result (λ t. StandsFor (2 ^ 50) 50 t) }
    ensures refused { IfErr result (λ fault. fault ≢ RunFault.Memory → fault_of circuit.now (joined ins.now) input.now outcome.now ≡ Some fault) }
    ensures accepted { IfOk result (λ _. IsNone (fault_of circuit.now (joined ins.now) input.now outcome.now)) }
{
    let qubits = start::joined_qubits(alloc, ins)?;
    if let Some(fault) = fault::refusal(circuit, &qubits, input, outcome) {
        return Err(fault);
    }
    let bits = start::start(alloc, circuit.qubits(), &qubits, input)?;
    Ok(run::run(alloc, circuit, bits, outcome)?)
}
