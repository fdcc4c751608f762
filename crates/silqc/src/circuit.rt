//! The table of a circuit's file.

ghost use Rattle.std.specs.Prelude.{◌≡◌, ◌≢◌, ℕ, ◌≤◌, List, Some, None, IfSome, []};
ghost use Rattle.silq_io.specs.Counts.{Rose};
ghost use Rattle.silq_io.specs.Sinks.{Adds};
ghost use Rattle.file_text.specs.NoText.{no_text};
ghost use Rattle.circuit_table.specs.Tables.{BreaksTable, PutsTable};
ghost use Rattle.silqc.specs.Circuits.{EndsCircuit};
ghost use Rattle.silqc.specs.Ending.{TellsItsRules};

use crate::refusal::{circuit_status, no_circuit_status, read_status};
use crate::status::Status;
use circuit_table::put_table_of_circuit;
use file_text::{read_file, text_of};
use silq_io::{Files, Sink};
use std::alloc::Global;

// How many bytes the text of a circuit may have.
const CIRCUIT_LIMIT: usize = 268_435_456;

/// Reads an OpenQASM file, and puts the exact table of its circuit on these input bits and for these outcomes.
pub fn run_circuit<F: Files, S: Sink>(
    alloc: Global,
    file: &str,
    input: &[bool],
    outcome: &[bool],
    files: &mut F,
    out: &mut S,
) -> Status
    ensures ends { IfSome (F.held files.old file.now) (EndsCircuit result input.now outcome.now) }
    ensures done { result ≡ Status.Done → IfSome (F.held files.old file.now) (PutsTable input.now outcome.now (S.put_so_far out.old) (S.put_so_far out.new)) }
    ensures broken { result ≡ Status.WriteFault → IfSome (F.held files.old file.now) (BreaksTable input.now outcome.now (S.put_so_far out.old) (S.put_so_far out.new)) }
    ensures words { result ≢ Status.Words }
    ensures rules { TellsItsRules result }
    ensures read_whole { result ≡ Status.Done → IfSome (F.held files.old file.now) (λ _. F.left files.new file.now ≡ Some []) }
    ensures read_fault { result ≡ Status.ReadFault → Rose (F.faults files.old file.now) (F.faults files.new file.now) }
    ensures write_fault { result ≡ Status.WriteFault → Rose (S.faults out.old) (S.faults out.new) }
    ensures refused { result ≢ Status.Done → result ≢ Status.WriteFault → Adds (S.put_so_far out.old) (S.put_so_far out.new) [] }
    ensures held { (name : List ℕ) → F.held files.new name ≡ F.held files.old name }
    ensures file_counts { (name : List ℕ) → F.faults files.old name ≤ F.faults files.new name }
    ensures out_count { S.faults out.old ≤ S.faults out.new }
{
    let bytes = match read_file(alloc, files, file, CIRCUIT_LIMIT) {
        Ok(bytes) => bytes,
        Err(fault) => return read_status(fault),
    };
    match text_of(&bytes, CIRCUIT_LIMIT) {
        Ok(text) => tabled(alloc, text, input, outcome, out),
        Err(why) => no_circuit_status(why),
    }
}

// Puts the table of a text.
fn tabled<S: Sink>(
    alloc: Global,
    text: &str,
    input: &[bool],
    outcome: &[bool],
    out: &mut S,
) -> Status
    requires { no_text 268435456 text.now ≡ None }
    ensures ends { EndsCircuit result input.now outcome.now text.now }
    ensures done { result ≡ Status.Done → PutsTable input.now outcome.now (S.put_so_far out.old) (S.put_so_far out.new) text.now }
    ensures broken { result ≡ Status.WriteFault → BreaksTable input.now outcome.now (S.put_so_far out.old) (S.put_so_far out.new) text.now }
    ensures words { result ≢ Status.Words }
    ensures read { result ≢ Status.ReadFault }
    ensures rules { TellsItsRules result }
    ensures write_fault { result ≡ Status.WriteFault → Rose (S.faults out.old) (S.faults out.new) }
    ensures refused { result ≢ Status.Done → result ≢ Status.WriteFault → Adds (S.put_so_far out.old) (S.put_so_far out.new) [] }
    ensures out_count { S.faults out.old ≤ S.faults out.new }
{
    match put_table_of_circuit(alloc, text, input, outcome, out) {
        Ok(()) => Status::Done,
        Err(fault) => circuit_status(fault),
    }
}
