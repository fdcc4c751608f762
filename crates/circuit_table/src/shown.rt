//! The table of a circuit as it is shown.

ghost use Rattle.std.specs.Prelude.{◌≡◌, ◌≢◌, ◌≤◌, ℕ, All, Err, IfErr, IfOk, IsErrOf, List, Ok, Some, length};
ghost use Rattle.gate_core.specs.Local.{AllBelow, AllDiffer};
ghost use Rattle.gate_core.specs.Meaning.{joined};
ghost use Rattle.amp_run.specs.Refusal.{fault_of};
ghost use Rattle.amp_run.specs.declared.fault.RunFault.{RunFault as RunFaults};
ghost use Rattle.amp_run.specs.declared.fault.RunFault.TheVariants as runs;
ghost use Rattle.qasm_read.specs.Text.{reading};
ghost use Rattle.qasm_read.specs.declared.fault.QasmFault.{QasmFault as QasmFaults};
ghost use Rattle.qasm_read.specs.declared.fault.QasmFault.TheVariants as reads;
ghost use Rattle.circuit_table.specs.Tables.{HasFault, HasTable};
ghost use Rattle.circuit_table.specs.declared.fault.CircuitFault.TheVariants as faults;

use crate::fault::CircuitFault;
use amp_run::{RunFault, joined_qubits, table};
use qasm_read::{ReadCircuit, read};
use std::alloc::Global;
use sum_laws::Table;
use table_write::by_outs;

// The rows, whose first bits, so many, are those of the outs.
#[derive(Drop)]
pub(crate) struct Shown {
    pub(crate) outs: usize,
    pub(crate) rows: Table,
}

// The table of what was read.
fn shown_rows(
    alloc: Global,
    circuit: &ReadCircuit,
    input: &[bool],
    outcome: &[bool],
) -> Result<Shown, RunFault>
    requires ins { AllDiffer (joined circuit.now.ins) × AllBelow circuit.now.circuit.qubits (joined circuit.now.ins) }
    requires outs { AllDiffer (joined circuit.now.outs) × AllBelow circuit.now.circuit.qubits (joined circuit.now.outs) }
    ensures table { IfOk result (λ t. (text : List ℕ) → reading text ≡ Ok circuit.now → HasTable input.now outcome.now text t.outs t.rows) }
    ensures wide { IfOk result (λ shown. All (λ row. shown.outs ≤ length row.0) shown.rows) }
    ensures refused { IfErr result (λ f. f ≢ runs.Memory → fault_of circuit.now.circuit (joined circuit.now.ins) input.now outcome.now ≡ Some f) }
{
    let rows = table(alloc, &circuit.circuit, &circuit.ins, input, outcome)?;
    let outs = joined_qubits(alloc, &circuit.outs)?;
    let rows = by_outs(alloc, circuit.circuit.qubits(), &outs, &rows)?;
    Ok(Shown {
        outs: outs.len(),
        rows,
    })
}

// The table of what a text spells.
pub(crate) fn shown_table(
    alloc: Global,
    text: &str,
    input: &[bool],
    outcome: &[bool],
) -> Result<Shown, CircuitFault>
    ensures table { IfOk result (λ shown. HasTable input.now outcome.now text.now shown.outs shown.rows) }
    ensures wide { IfOk result (λ shown. All (λ row. shown.outs ≤ length row.0) shown.rows) }
    ensures read { (f : QasmFaults) → IsErrOf result (faults.Read f) → f ≢ reads.Memory → reading text.now ≡ Err f }
    ensures run { (f : RunFaults) → IsErrOf result (faults.Run f) → f ≢ runs.Memory → HasFault input.now outcome.now text.now f }
    ensures others { IfErr result (λ fault. fault ≢ faults.Failed) }
{
    let circuit = match read(alloc, text) {
        Ok(circuit) => circuit,
        Err(fault) => return Err(CircuitFault::Read(fault)),
    };
    match shown_rows(alloc, &circuit, input, outcome) {
        Ok(shown) => Ok(shown),
        Err(fault) => Err(CircuitFault::Run(fault)),
    }
}
