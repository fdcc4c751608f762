#![tactic(auto)]
//! silqc: compiles a program of a profile of Silq to OpenQASM 2.0.

ghost use Rattle.std.specs.Prelude.{◌≡◌, ◌≢◌, ℕ, ◌≤◌, ◌⊎◌, Bool, List, [], IfSome, None, Option, Some};
ghost use Rattle.cli_words.specs.Job.{Job as Jobs, amps, gen, job_of};
ghost use Rattle.cli_words.specs.Told.{IsInRange, told};
ghost use Rattle.flat_compile.specs.declared.cycle.CyclePlace.{CyclePlace};
ghost use Rattle.silq_io.specs.Counts.{Rose};
ghost use Rattle.silq_io.specs.Sinks.{Adds};
ghost use Rattle.silq_io.specs.declared.fault.SyntaxCause.{SyntaxCause};
ghost use Rattle.silq_io.specs.declared.fault.What.{What};
ghost use Rattle.silq_io.specs.declared.limit.LimitKind.{LimitKind};
ghost use Rattle.circuit_table.specs.Tables as circuits;
ghost use Rattle.silqc.specs.Answer.{BreaksRule, BreaksText, EndsWell, ForgetsFalse, HasBits, HasCycle, HasFault, HasUnsupported, NeedsMore, OfProgram, PassesLimit};
ghost use Rattle.silqc.specs.Asked.{asked_of, check, compile, mean};
ghost use Rattle.silqc.specs.Circuits.{EndsCircuit};
ghost use Rattle.silqc.specs.Command.{Command, ForCircuit, ForJob, ForSource, HadFault, IsCommand, IsReadWhole, bytes_at, command_of, source_of};
ghost use Rattle.silqc.specs.Ending.{CanEnd, Tells, TellsItsRules};
ghost use Rattle.silqc.specs.Exact.{EndsAtFault, EndsByAnswer, EndsByPlan, EndsByRun};
ghost use Rattle.silqc.specs.Note.{Noted, note_of};

mod asked;
mod circuit;
mod file;
mod refusal;
pub mod status;

use asked::Asked;
use circuit::run_circuit;
use cli_words::{Job, WordFault, read_job, texts};
use file::{run_file, run_generated};
use flat_compile::Output;
use silq_io::{Files, Sink, Words};
use status::Status;
use std::alloc::Global;

/// Carries out the command of these words. `compile FILE ENTRY STATIC..`, with an optional `--budget N`, reads the file from `files`, and
/// puts the OpenQASM text of the function ENTRY with these values of its static parameters to `out`; `report` of the same words puts
/// the seven lines of its report. `check FILE ENTRY STATIC..` checks the program from that function, and puts nothing to `out`.
/// `mean FILE ENTRY BITS OUTCOME STATIC..` puts the exact table of what the function means on the input BITS where the measurements
/// give OUTCOME. `amps FILE BITS OUTCOME` reads an OpenQASM text and puts the exact table of its circuit.
/// `gen NUMBER SIZE` makes a program of SIZE lines from a number, and reports of its `main` within 4,096 qubits; it reads no file.
/// A refusal puts one line to `notes`.
///
/// Want of memory alone may come at any time before the first byte is put.
pub fn silqc<F: Files, S: Sink, N: Sink>(
    alloc: Global,
    words: &Words,
    files: &mut F,
    out: &mut S,
    notes: &mut N,
) -> Status
    // The headline: the text put is that of a circuit that gives exactly the source's amplitudes, within the budget; a table is that of what
    // the source means.
    ensures done { result ≡ Status.Done → ForSource words.now (F.held files.old) (λ a. OfProgram (EndsWell (S.put_so_far out.old) (S.put_so_far out.new) a)) }
    ensures circuit_table { result ≡ Status.Done → ForCircuit words.now (F.held files.old) (λ input outcome. circuits.PutsTable input outcome (S.put_so_far out.old) (S.put_so_far out.new)) }
    ensures read_whole { result ≡ Status.Done → ForJob words.now (IsReadWhole (F.held files.old) (F.left files.new)) }

    // When each refusal comes.
    ensures words { result ≡ Status.Words → job_of words.now ≡ None }
    ensures read_fault { result ≡ Status.ReadFault → ForJob words.now (HadFault (F.faults files.old) (F.faults files.new)) }
    ensures syntax { (cause : SyntaxCause) (line col : ℕ) → result ≡ Status.Syntax cause line col → ForSource words.now (F.held files.old) (HasFault (record { cause = cause; line = line; col = col })) }
    ensures names { (rule line col : ℕ) → result ≡ Status.Names rule line col → ForSource words.now (F.held files.old) (λ a. OfProgram (BreaksRule rule line col)) }
    ensures typing { (rule line col : ℕ) → result ≡ Status.Typing rule line col → ForSource words.now (F.held files.old) (λ a. OfProgram (BreaksRule rule line col)) }
    ensures rules { TellsItsRules result }
    ensures unsupported { (what : What) (line col : ℕ) → result ≡ Status.Unsupported what line col → ForSource words.now (F.held files.old) (λ a. OfProgram (HasUnsupported what line col)) }
    ensures limit { (which : LimitKind) (count : ℕ) → result ≡ Status.Limit which count → ForSource words.now (F.held files.old) (λ a. OfProgram (PassesLimit which count a)) }
    ensures cycle { (places : List CyclePlace) → result ≡ Status.Cycle places → ForSource words.now (F.held files.old) (λ a. OfProgram (HasCycle places a)) }
    ensures over_budget { (least most : ℕ) → result ≡ Status.OverBudget least most → ForSource words.now (F.held files.old) (λ a. OfProgram (NeedsMore least most a)) }
    ensures bits { (given wanted : ℕ) → result ≡ Status.Bits given wanted → ForSource words.now (F.held files.old) (λ a. OfProgram (HasBits given wanted a)) }
    ensures false_forget { (line : ℕ) → result ≡ Status.FalseForget line → ForSource words.now (F.held files.old) (λ a. OfProgram (ForgetsFalse line a)) }
    ensures write_fault { result ≡ Status.WriteFault → Rose (S.faults out.old) (S.faults out.new) }

    // Each source and each circuit ends as it must.
    ensures no_job { job_of words.now ≡ None → (result ≡ Status.Words) ⊎ (result ≡ Status.Memory) }
    ensures can_end { (c : Command) → IsCommand words.now c → CanEnd c.asked result }
    ensures at_fault { ForSource words.now (F.held files.old) (EndsAtFault result) }
    ensures answered { ForSource words.now (F.held files.old) (EndsByAnswer result) }
    ensures planned { ForSource words.now (F.held files.old) (EndsByPlan result) }
    ensures ran { ForSource words.now (F.held files.old) (EndsByRun result) }
    ensures circuit { ForCircuit words.now (F.held files.old) (EndsCircuit result) }

    // What a refusal and a check leave.
    ensures broken { result ≡ Status.WriteFault → ForSource words.now (F.held files.old) (λ a. OfProgram (BreaksText (S.put_so_far out.old) (S.put_so_far out.new) a)) }
    ensures broken_table { result ≡ Status.WriteFault → ForCircuit words.now (F.held files.old) (λ input outcome. circuits.BreaksTable input outcome (S.put_so_far out.old) (S.put_so_far out.new)) }
    ensures refused { result ≢ Status.Done → result ≢ Status.WriteFault → Adds (S.put_so_far out.old) (S.put_so_far out.new) [] }
    ensures checked { (c : Command) → IsCommand words.now c → c.asked ≡ check → Adds (S.put_so_far out.old) (S.put_so_far out.new) [] }
    ensures noted { Noted (N.put_so_far notes.old) (N.put_so_far notes.new) (N.faults notes.old) (N.faults notes.new) (note_of result) }

    // What never changes or falls.
    ensures held { (name : List ℕ) → F.held files.new name ≡ F.held files.old name }
    ensures no_file { (number size : ℕ) → job_of words.now ≡ Some (gen number size) → files.new ≡ files.old }
    ensures file_counts { (name : List ℕ) → F.faults files.old name ≤ F.faults files.new name }
    ensures out_count { S.faults out.old ≤ S.faults out.new }
    ensures note_count { N.faults notes.old ≤ N.faults notes.new }
{
    let status = run(alloc, words, files, out);
    status.tell(notes);
    status
}

// Carries out the command, but for the note.
fn run<F: Files, S: Sink>(alloc: Global, words: &Words, files: &mut F, out: &mut S) -> Status
    ensures words { result ≡ Status.Words → job_of words.now ≡ None }
    ensures no_job { job_of words.now ≡ None → (result ≡ Status.Words) ⊎ (result ≡ Status.Memory) }
    ensures rules { TellsItsRules result }
    ensures can_end { (c : Command) → IsCommand words.now c → CanEnd c.asked result }
    ensures tells { ForSource words.now (F.held files.old) (Tells (S.put_so_far out.old) (S.put_so_far out.new) result) }
    ensures circuit { ForCircuit words.now (F.held files.old) (EndsCircuit result) }
    ensures circuit_table { result ≡ Status.Done → ForCircuit words.now (F.held files.old) (λ input outcome. circuits.PutsTable input outcome (S.put_so_far out.old) (S.put_so_far out.new)) }
    ensures broken_table { result ≡ Status.WriteFault → ForCircuit words.now (F.held files.old) (λ input outcome. circuits.BreaksTable input outcome (S.put_so_far out.old) (S.put_so_far out.new)) }
    ensures read_whole { result ≡ Status.Done → ForJob words.now (IsReadWhole (F.held files.old) (F.left files.new)) }
    ensures read_fault { result ≡ Status.ReadFault → ForJob words.now (HadFault (F.faults files.old) (F.faults files.new)) }
    ensures write_fault { result ≡ Status.WriteFault → Rose (S.faults out.old) (S.faults out.new) }
    ensures refused { result ≢ Status.Done → result ≢ Status.WriteFault → Adds (S.put_so_far out.old) (S.put_so_far out.new) [] }
    ensures checked { (c : Command) → IsCommand words.now c → c.asked ≡ check → Adds (S.put_so_far out.old) (S.put_so_far out.new) [] }
    ensures held { (name : List ℕ) → F.held files.new name ≡ F.held files.old name }
    ensures no_file { (number size : ℕ) → job_of words.now ≡ Some (gen number size) → files.new ≡ files.old }
    ensures file_counts { (name : List ℕ) → F.faults files.old name ≤ F.faults files.new name }
    ensures out_count { S.faults out.old ≤ S.faults out.new }
{
    let Ok(texts) = texts(alloc, words) else {
        return Status::Memory;
    };
    match read_job(alloc, texts.as_slice()) {
        Ok(job) => run_job(alloc, &job, files, out),
        Err(WordFault::NotAJob) => Status::Words,
        Err(WordFault::Memory) => Status::Memory,
    }
}

// Carries out a job.
fn run_job<F: Files, S: Sink>(alloc: Global, job: &Job, files: &mut F, out: &mut S) -> Status
    requires { IsInRange job.now }
    ensures words { result ≢ Status.Words }
    ensures rules { TellsItsRules result }
    ensures can_end { (c : Command) → command_of (told job.now) ≡ Some c → CanEnd c.asked result }
    ensures tells { (c : Command) → command_of (told job.now) ≡ Some c
        → IfSome (bytes_at (F.held files.old) c.origin) (λ bytes. Tells (S.put_so_far out.old) (S.put_so_far out.new) result c.asked (source_of c bytes)) }
    ensures circuit { (file : List ℕ) (input outcome : List Bool) → told job.now ≡ amps file input outcome → IfSome (F.held files.old file) (EndsCircuit result input outcome) }
    ensures circuit_table { result ≡ Status.Done → (file : List ℕ) (input outcome : List Bool) → told job.now ≡ amps file input outcome
        → IfSome (F.held files.old file) (circuits.PutsTable input outcome (S.put_so_far out.old) (S.put_so_far out.new)) }
    ensures broken_table { result ≡ Status.WriteFault → (file : List ℕ) (input outcome : List Bool) → told job.now ≡ amps file input outcome
        → IfSome (F.held files.old file) (circuits.BreaksTable input outcome (S.put_so_far out.old) (S.put_so_far out.new)) }
    ensures read_whole { result ≡ Status.Done → IsReadWhole (F.held files.old) (F.left files.new) (told job.now) }
    ensures read_fault { result ≡ Status.ReadFault → HadFault (F.faults files.old) (F.faults files.new) (told job.now) }
    ensures write_fault { result ≡ Status.WriteFault → Rose (S.faults out.old) (S.faults out.new) }
    ensures refused { result ≢ Status.Done → result ≢ Status.WriteFault → Adds (S.put_so_far out.old) (S.put_so_far out.new) [] }
    ensures checked { (c : Command) → command_of (told job.now) ≡ Some c → c.asked ≡ check → Adds (S.put_so_far out.old) (S.put_so_far out.new) [] }
    ensures held { (name : List ℕ) → F.held files.new name ≡ F.held files.old name }
    ensures no_file { (number size : ℕ) → told job.now ≡ gen number size → files.new ≡ files.old }
    ensures file_counts { (name : List ℕ) → F.faults files.old name ≤ F.faults files.new name }
    ensures out_count { S.faults out.old ≤ S.faults out.new }
{
    match job {
        Job::Compile { source, budget } => run_file(
            alloc,
            source,
            within(Output::Text, *budget),
            files,
            out,
        ),
        Job::Report { source, budget } => run_file(
            alloc,
            source,
            within(Output::Report, *budget),
            files,
            out,
        ),
        Job::Check { source } => run_file(alloc, source, Asked::Check, files, out),
        Job::Mean {
            source,
            bits,
            outcome,
        } => run_file(
            alloc,
            source,
            on_bits(bits.as_slice(), outcome.as_slice()),
            files,
            out,
        ),
        Job::Amps {
            file,
            bits,
            outcome,
        } => run_circuit(alloc, file, bits.as_slice(), outcome.as_slice(), files, out),
        Job::Gen { number, size } => run_generated(alloc, *number, *size, out),
    }
}

// What is asked of a compilation.
fn within<'a>(output: Output, budget: u32) -> Asked<'a>
    ensures { asked_of result ≡ compile output budget }
{
    Asked::Compile { output, budget }
}

// What is asked of a run.
fn on_bits<'a>(input: &'a [bool], outcome: &'a [bool]) -> Asked<'a>
    ensures { asked_of result ≡ mean input.now outcome.now }
{
    Asked::Mean { input, outcome }
}
