//! The compilation of a text.

ghost use Rattle.std.specs.Prelude.{◌≡◌, ◌≢◌, ◌≤◌, ◌<◌, ◌⊎◌, [], length, IfErr, IfSome, IsErrOf, OnOk, Some, Err, Ok, ℕ, List};
ghost use Rattle.silq_io.specs.Counts.{Rose};
ghost use Rattle.silq_io.specs.Sinks.{Adds};
ghost use Rattle.silq_parse.specs.Faults.{first_fault};
ghost use Rattle.silq_parse.specs.declared.fault.ParseFault.{ParseFault as ParseFaults};
ghost use Rattle.silq_parse.specs.declared.fault.ParseFault.TheVariants as parses;
ghost use Rattle.check_scope.specs.Faults.{fault_as};
ghost use Rattle.check_scope.specs.declared.fault.CheckFault.{CheckFault as CheckFaults};
ghost use Rattle.flat_compile.specs.declared.fault.CompileFault.{CompileFault as CompileFaults};
ghost use Rattle.flat_compile.specs.declared.fault.CompileFault.TheVariants as compiles;
ghost use Rattle.silq_compile.specs.Headline.{PutsText, Refuses};
ghost use Rattle.silq_compile.specs.Sources.{Answers, IsAccepted};
ghost use Rattle.silq_compile.specs.declared.fault.TextFault.TheVariants as faults;

use crate::fault::TextFault;
use check_fun::check::check;
use flat_compile::{Output, compile};
use silq_io::Sink;
use silq_parse::parse;
use std::alloc::Global;

/// Checks the function `entry` of a text with these values of its static parameters.
pub fn check_text(alloc: Global, text: &str, entry: &str, statics: &[i64]) -> Result<(), TextFault>
    ensures accepted { OnOk result (IsAccepted (record { text = text.now; entry = entry.now; statics = statics.now })) }
    ensures parse { (f : ParseFaults) → IsErrOf result (faults.Parse f) → (f ≡ parses.Memory) ⊎ (first_fault text.now ≡ Some f) }
    ensures check { (f : CheckFaults) → IsErrOf result (faults.Check f) → IfSome (fault_as f) (λ first. Answers (record { text = text.now; entry = entry.now; statics = statics.now }) (Err first)) }
    ensures no_compile { (f : CompileFaults) → ¬ IsErrOf result (faults.Compile f) }
{
    let program = match parse(alloc, text) {
        Ok(program) => program,
        Err(fault) => return Err(TextFault::Parse(fault)),
    };
    match check(alloc, program, entry, statics) {
        Ok(_) => Ok(()),
        Err(fault) => Err(TextFault::Check(fault)),
    }
}

/// Compiles the function `entry` of a text with these values of its static parameters, with at most so many qubits, and puts the OpenQASM text
/// of its circuit, or the report of it. Nothing is put before all refusals but that of the sink are past.
pub fn compile_text<S: Sink>(
    alloc: Global,
    text: &str,
    entry: &str,
    statics: &[i64],
    budget: u32,
    output: Output,
    out: &mut S,
) -> Result<(), TextFault>
    requires few { budget ≤ 100000 }
    // The headline: the text put is that of a circuit that gives exactly the source's amplitudes, within the budget.
    ensures done { OnOk result (PutsText output budget (S.put_so_far out.old) (S.put_so_far out.new) (record { text = text.now; entry = entry.now; statics = statics.now })) }

    // When each refusal comes.
    ensures parse { (f : ParseFaults) → IsErrOf result (faults.Parse f) → (f ≡ parses.Memory) ⊎ (first_fault text.now ≡ Some f) }
    ensures check { (f : CheckFaults) → IsErrOf result (faults.Check f) → IfSome (fault_as f) (λ first. Answers (record { text = text.now; entry = entry.now; statics = statics.now }) (Err first)) }
    ensures compile { (f : CompileFaults) → IsErrOf result (faults.Compile f) → Refuses output budget (S.put_so_far out.old) (S.put_so_far out.new) (record { text = text.now; entry = entry.now; statics = statics.now }) f }
    ensures failed { IsErrOf result (faults.Compile compiles.Failed) → Rose (S.faults out.old) (S.faults out.new) }

    // What a refusal leaves.
    ensures refused { IfErr result (λ f. f ≢ faults.Compile compiles.Failed → Adds (S.put_so_far out.old) (S.put_so_far out.new) []) }
    ensures count { S.faults out.old ≤ S.faults out.new }
{
    let program = match parse(alloc, text) {
        Ok(program) => program,
        Err(fault) => return Err(TextFault::Parse(fault)),
    };
    let checked = match check(alloc, program, entry, statics) {
        Ok(checked) => checked,
        Err(fault) => return Err(TextFault::Check(fault)),
    };
    let key = &checked.entry;
    match compile(
        alloc,
        &checked.library,
        key.fun.number,
        key.statics.as_slice(),
        budget,
        output,
        out,
    ) {
        Ok(()) => Ok(()),
        Err(fault) => Err(TextFault::Compile(fault)),
    }
}
