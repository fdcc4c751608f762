//! Putting the table of a text's circuit.

ghost use Rattle.std.specs.Prelude.{◌≡◌, ◌≢◌, ◌≤◌, [], Err, IfErr, IsErrOf, OnOk};
ghost use Rattle.silq_io.specs.Counts.{Rose};
ghost use Rattle.silq_io.specs.Sinks.{Adds};
ghost use Rattle.amp_run.specs.declared.fault.RunFault.{RunFault as RunFaults};
ghost use Rattle.amp_run.specs.declared.fault.RunFault.TheVariants as runs;
ghost use Rattle.qasm_read.specs.Text.{reading};
ghost use Rattle.qasm_read.specs.declared.fault.QasmFault.{QasmFault as QasmFaults};
ghost use Rattle.qasm_read.specs.declared.fault.QasmFault.TheVariants as reads;
ghost use Rattle.circuit_table.specs.Tables.{BreaksTable, HasFault, PutsTable};
ghost use Rattle.circuit_table.specs.declared.fault.CircuitFault.TheVariants as faults;

use crate::fault::CircuitFault;
use crate::shown::shown_table;
use silq_io::Sink;
use std::alloc::Global;
use table_write::put_circuit_table;

/// Reads an OpenQASM text and puts the exact table of its circuit on these input bits and for these outcomes.
/// Nothing is put before all refusals but that of the sink are past.
pub fn put_table_of_circuit<S: Sink>(
    alloc: Global,
    text: &str,
    input: &[bool],
    outcome: &[bool],
    out: &mut S,
) -> Result<(), CircuitFault>
    ensures done { OnOk result (PutsTable input.now outcome.now (S.put_so_far out.old) (S.put_so_far out.new) text.now) }
    ensures read { (f : QasmFaults) → IsErrOf result (faults.Read f) → f ≢ reads.Memory → reading text.now ≡ Err f }
    ensures run { (f : RunFaults) → IsErrOf result (faults.Run f) → f ≢ runs.Memory → HasFault input.now outcome.now text.now f }
    ensures broken { IsErrOf result faults.Failed → BreaksTable input.now outcome.now (S.put_so_far out.old) (S.put_so_far out.new) text.now }
    ensures failed { IsErrOf result faults.Failed → Rose (S.faults out.old) (S.faults out.new) }
    ensures refused { IfErr result (λ f. f ≢ faults.Failed → Adds (S.put_so_far out.old) (S.put_so_far out.new) []) }
    ensures count { S.faults out.old ≤ S.faults out.new }
{
    let shown = match shown_table(alloc, text, input, outcome) {
        Ok(shown) => shown,
        Err(fault) => return Err(fault),
    };
    match put_circuit_table(out, &shown.rows, shown.outs) {
        Ok(()) => Ok(()),
        Err(_) => Err(CircuitFault::Failed),
    }
}
