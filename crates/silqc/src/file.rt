//! The check, the compilation or the table of a program's file, or of a generated program.

ghost use Rattle.std.specs.Prelude.{◌≡◌, ◌≢◌, ℕ, ◌≤◌, Bool, List, Option, Some, None, IfSome, [], length};
ghost use Rattle.silq_io.specs.Counts.{Rose};
ghost use Rattle.silq_io.specs.Sinks.{Adds};
ghost use Rattle.silq_gen.specs.Generated.{generated};
ghost use Rattle.silqc.specs.Asked.{IsWithin, asked_of, check, compile, mean};
ghost use Rattle.silqc.specs.Command.{on_generated, source_of};
ghost use Rattle.silqc.specs.Ending.{CanEnd, Tells};

use crate::asked::Asked;
use crate::refusal::{no_program_status, read_status, source_status, text_status};
use crate::status::Status;
use cli_words::Source;
use file_text::{read_file, text_of};
use flat_compile::Output;
use silq_compile::{check_text, compile_text};
use silq_gen::generated;
use silq_io::{Files, Sink};
use source_table::put_table_of_source;
use std::alloc::Global;

// How many bytes the text of a program may have.
const SOURCE_LIMIT: usize = 1_048_576;

// How many qubits a generated program may have, as many as the default of `--budget`.
const DEFAULT_BUDGET: u32 = 4096;

/// Reads a file, and does with its function what is asked.
pub fn run_file<F: Files, S: Sink>(
    alloc: Global,
    source: &Source,
    asked: Asked,
    files: &mut F,
    out: &mut S,
) -> Status
    requires few { IsWithin (asked_of asked) }
    ensures ends { CanEnd (asked_of asked.entry) result }
    ensures tells { IfSome (F.held files.old source.now.file.now) (λ bytes. Tells (S.put_so_far out.old) (S.put_so_far out.new) result (asked_of asked.entry) (record { text = bytes; entry = source.now.entry.now; statics = source.now.statics.items })) }
    ensures read_whole { result ≡ Status.Done → IfSome (F.held files.old source.now.file.now) (λ _. F.left files.new source.now.file.now ≡ Some []) }
    ensures read_fault { result ≡ Status.ReadFault → Rose (F.faults files.old source.now.file.now) (F.faults files.new source.now.file.now) }
    ensures write_fault { result ≡ Status.WriteFault → Rose (S.faults out.old) (S.faults out.new) }
    ensures refused { result ≢ Status.Done → result ≢ Status.WriteFault → Adds (S.put_so_far out.old) (S.put_so_far out.new) [] }
    ensures quiet { asked_of asked.entry ≡ check → Adds (S.put_so_far out.old) (S.put_so_far out.new) [] }
    ensures held { (name : List ℕ) → F.held files.new name ≡ F.held files.old name }
    ensures file_counts { (name : List ℕ) → F.faults files.old name ≤ F.faults files.new name }
    ensures out_count { S.faults out.old ≤ S.faults out.new }
{
    let bytes = match read_file(alloc, files, source.file, SOURCE_LIMIT) {
        Ok(bytes) => bytes,
        Err(fault) => return read_status(fault),
    };
    match text_of(&bytes, SOURCE_LIMIT) {
        Ok(text) => run_text(
            alloc,
            text,
            source.entry,
            source.statics.as_slice(),
            asked,
            out,
        ),
        Err(why) => no_program_status(why),
    }
}

/// Makes the program of a number and a size, and puts the report of its `main`, or of a refusal nothing.
pub fn run_generated<S: Sink>(alloc: Global, number: u64, size: u32, out: &mut S) -> Status
    requires { size ≤ 10000 }
    ensures ends { CanEnd (on_generated number size).asked result }
    ensures read { result ≢ Status.ReadFault }
    ensures tells { Tells (S.put_so_far out.old) (S.put_so_far out.new) result (on_generated number size).asked (source_of (on_generated number size) (generated number size)) }
    ensures write_fault { result ≡ Status.WriteFault → Rose (S.faults out.old) (S.faults out.new) }
    ensures refused { result ≢ Status.Done → result ≢ Status.WriteFault → Adds (S.put_so_far out.old) (S.put_so_far out.new) [] }
    ensures out_count { S.faults out.old ≤ S.faults out.new }
{
    let Ok(text) = generated(alloc, number, size) else {
        return Status::Memory;
    };
    compiled(
        alloc,
        &text,
        "main",
        &[],
        Output::Report,
        DEFAULT_BUDGET,
        out,
    )
}

// Does with the function of a text what is asked.
fn run_text<S: Sink>(
    alloc: Global,
    text: &str,
    entry: &str,
    statics: &[i64],
    asked: Asked,
    out: &mut S,
) -> Status
    requires short { length text.now ≤ 1048576 }
    requires few { IsWithin (asked_of asked) }
    ensures ends { CanEnd (asked_of asked.entry) result }
    ensures read { result ≢ Status.ReadFault }
    ensures tells { Tells (S.put_so_far out.old) (S.put_so_far out.new) result (asked_of asked.entry) (record { text = text.now; entry = entry.now; statics = statics.now }) }
    ensures write_fault { result ≡ Status.WriteFault → Rose (S.faults out.old) (S.faults out.new) }
    ensures refused { result ≢ Status.Done → result ≢ Status.WriteFault → Adds (S.put_so_far out.old) (S.put_so_far out.new) [] }
    ensures quiet { asked_of asked.entry ≡ check → Adds (S.put_so_far out.old) (S.put_so_far out.new) [] }
    ensures out_count { S.faults out.old ≤ S.faults out.new }
{
    match asked {
        Asked::Check => checked(alloc, text, entry, statics),
        Asked::Compile { output, budget } => {
            compiled(alloc, text, entry, statics, output, budget, out)
        }
        Asked::Mean { input, outcome } => {
            tabled(alloc, text, entry, statics, input, outcome, out)
        }
    }
}

// Compiles the function of a text.
fn compiled<S: Sink>(
    alloc: Global,
    text: &str,
    entry: &str,
    statics: &[i64],
    output: Output,
    budget: u32,
    out: &mut S,
) -> Status
    requires short { length text.now ≤ 1048576 }
    requires few { budget ≤ 100000 }
    ensures ends { CanEnd (compile output budget) result }
    ensures read { result ≢ Status.ReadFault }
    ensures tells { Tells (S.put_so_far out.old) (S.put_so_far out.new) result (compile output budget) (record { text = text.now; entry = entry.now; statics = statics.now }) }
    ensures write_fault { result ≡ Status.WriteFault → Rose (S.faults out.old) (S.faults out.new) }
    ensures refused { result ≢ Status.Done → result ≢ Status.WriteFault → Adds (S.put_so_far out.old) (S.put_so_far out.new) [] }
    ensures out_count { S.faults out.old ≤ S.faults out.new }
{
    match compile_text(alloc, text, entry, statics, budget, output, out) {
        Ok(()) => Status::Done,
        Err(fault) => text_status(fault, budget),
    }
}

// Checks the function of a text.
fn checked(alloc: Global, text: &str, entry: &str, statics: &[i64]) -> Status
    requires short { length text.now ≤ 1048576 }
    ensures ends { CanEnd check result }
    ensures read { result ≢ Status.ReadFault }
    ensures tells { (old new : Option (List ℕ)) → Tells old new result check (record { text = text.now; entry = entry.now; statics = statics.now }) }
{
    match check_text(alloc, text, entry, statics) {
        Ok(()) => Status::Done,
        Err(fault) => text_status(fault, 0),
    }
}

// Puts the table of what the function of a text means.
fn tabled<S: Sink>(
    alloc: Global,
    text: &str,
    entry: &str,
    statics: &[i64],
    input: &[bool],
    outcome: &[bool],
    out: &mut S,
) -> Status
    requires short { length text.now ≤ 1048576 }
    ensures ends { CanEnd (mean input.now outcome.now) result }
    ensures read { result ≢ Status.ReadFault }
    ensures tells { Tells (S.put_so_far out.old) (S.put_so_far out.new) result (mean input.now outcome.now) (record { text = text.now; entry = entry.now; statics = statics.now }) }
    ensures write_fault { result ≡ Status.WriteFault → Rose (S.faults out.old) (S.faults out.new) }
    ensures refused { result ≢ Status.Done → result ≢ Status.WriteFault → Adds (S.put_so_far out.old) (S.put_so_far out.new) [] }
    ensures out_count { S.faults out.old ≤ S.faults out.new }
{
    match put_table_of_source(alloc, text, entry, statics, input, outcome, out) {
        Ok(()) => Status::Done,
        Err(fault) => source_status(fault),
    }
}
