//! From the text of a program to its exact table.

ghost use Rattle.std.specs.Prelude.{◌≡◌, ◌≢◌, ◌≤◌, ◌⊎◌, [], IfErr, IfSome, IsErrOf, OnErr, OnOk, Some, Err};
ghost use Rattle.silq_io.specs.Counts.{Rose};
ghost use Rattle.silq_io.specs.Sinks.{Adds, Breaks};
ghost use Rattle.silq_parse.specs.Faults.{first_fault};
ghost use Rattle.silq_parse.specs.declared.fault.ParseFault.{ParseFault as ParseFaults};
ghost use Rattle.silq_parse.specs.declared.fault.ParseFault.TheVariants as parses;
ghost use Rattle.check_scope.specs.Faults.{fault_as};
ghost use Rattle.check_scope.specs.declared.fault.CheckFault.{CheckFault as CheckFaults};
ghost use Rattle.source_table.specs.declared.fault.RunFault.{RunFault as RunFaults};
ghost use Rattle.silq_compile.specs.Sources.{Answers};
ghost use Rattle.table_write.specs.Lines.{source_text};
ghost use Rattle.source_table.specs.Tables.{BreaksTable, PutsTable, StopsRun};
ghost use Rattle.source_table.specs.declared.fault.SourceFault.TheVariants as faults;

use crate::fault::SourceFault;
use crate::run::run;
use check_fun::check::check;
use silq_io::Sink;
use silq_parse::parse;
use std::alloc::Global;
use sum_laws::Table;
use table_write::put_source_table;

/// Puts the exact table of what the function `entry` of a text means, with these values of its static parameters, on these input bits and
/// for these outcomes: a line for each row. Nothing is put before all refusals but that of the sink are past.
pub fn put_table_of_source<S: Sink>(
    alloc: Global,
    text: &str,
    entry: &str,
    statics: &[i64],
    input: &[bool],
    outcome: &[bool],
    out: &mut S,
) -> Result<(), SourceFault>
    ensures done { OnOk result (PutsTable input.now outcome.now (S.put_so_far out.old) (S.put_so_far out.new)
        (record { text = text.now; entry = entry.now; statics = statics.now })) }

    // When each refusal comes.
    ensures parse { (f : ParseFaults) → IsErrOf result (faults.Parse f) → (f ≡ parses.Memory) ⊎ (first_fault text.now ≡ Some f) }
    ensures check { (f : CheckFaults) → IsErrOf result (faults.Check f) → IfSome (fault_as f) (λ first.
        Answers (record { text = text.now; entry = entry.now; statics = statics.now }) (Err first)) }
    ensures run { (f : RunFaults) → IsErrOf result (faults.Run f) → StopsRun input.now outcome.now f
        (record { text = text.now; entry = entry.now; statics = statics.now }) }
    ensures broken { IsErrOf result faults.Failed → BreaksTable input.now outcome.now (S.put_so_far out.old) (S.put_so_far out.new)
        (record { text = text.now; entry = entry.now; statics = statics.now }) }
    ensures failed { IsErrOf result faults.Failed → Rose (S.faults out.old) (S.faults out.new) }

    // What a refusal leaves.
    ensures refused { IfErr result (λ f. f ≢ faults.Failed → Adds (S.put_so_far out.old) (S.put_so_far out.new) []) }
    ensures count { S.faults out.old ≤ S.faults out.new }
{
    let program = match parse(alloc, text) {
        Ok(program) => program,
        Err(fault) => return Err(SourceFault::Parse(fault)),
    };
    let checked = match check(alloc, program, entry, statics) {
        Ok(checked) => checked,
        Err(fault) => return Err(SourceFault::Check(fault)),
    };
    let key = &checked.entry;
    match run(
        &checked.library,
        key.fun.number,
        key.statics.as_slice(),
        input,
        outcome,
    ) {
        Ok(table) => put(&table, out),
        Err(fault) => Err(SourceFault::Run(fault)),
    }
}

// Puts the lines of a table.
fn put<S: Sink>(table: &Table, out: &mut S) -> Result<(), SourceFault>
    ensures ok { OnOk result (Adds (S.put_so_far out.old) (S.put_so_far out.new) (source_text table.now)) }
    ensures count { S.faults out.old ≤ S.faults out.new }
    ensures failed { OnErr result (Rose (S.faults out.old) (S.faults out.new)) }
    ensures broken { OnErr result (Breaks (S.put_so_far out.old) (S.put_so_far out.new) (source_text table.now)) }
    ensures sink { IfErr result (λ f. f ≡ faults.Failed) }
{
    match put_source_table(out, table) {
        Ok(()) => Ok(()),
        Err(_) => Err(SourceFault::Failed),
    }
}
