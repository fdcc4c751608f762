//! How a command ends.

ghost use Rattle.std.specs.Prelude.{◌≡◌, ℕ, ◌≤◌, ◌++◌, codes, decimal, OnOk, OnErr};
ghost use Rattle.silq_io.specs.Counts.{Rose};
ghost use Rattle.silq_io.specs.Sinks.{Adds, Breaks};
ghost use Rattle.silqc.specs.Note.{note_of, syntax_note, unsupported_note, limit_note, bits_note, budget_note, code_of, cycle_note, forget_note, place_text, places_text, Noted};

use flat_compile::{CyclePlace, CyclePlaces};
use qasm_write::{Piece, put_pieces};
use silq_io::{Failed, LimitKind, Sink, SyntaxCause, What, put_all};

/// How a command ends.
#[derive(Drop)]
pub enum Status {
    /// The input was read to its end; a check accepts it, another job has put its whole text.
    Done,
    /// The words are no job.
    Words,
    /// The file was not read.
    ReadFault,
    /// The file is no program, or no circuit.
    Syntax {
        cause: SyntaxCause,
        /// The line of the first fault, from 1.
        line: u32,
        /// Its column, from 1, in characters.
        col: u32,
    },
    /// The first broken rule is one of names: K1 or K2.
    Names {
        rule: u8,
        line: u32,
        col: u32,
    },
    /// The first broken rule is one of types: K3 to K23.
    Typing {
        rule: u8,
        line: u32,
        col: u32,
    },
    /// Something that is not supported stands there before any broken rule.
    Unsupported {
        what: What,
        line: u32,
        col: u32,
    },
    /// A limit is passed.
    Limit {
        which: LimitKind,
        /// The count at which the work stopped: the limit and one.
        count: u64,
    },
    /// The circuit graph has this cycle.
    Cycle(CyclePlaces),
    /// The program needs more qubits than the budget has.
    OverBudget {
        least: usize,
        budget: usize,
    },
    /// The text was not written whole.
    WriteFault,
    /// There was no memory.
    Memory,
    /// So many input bits were given in place of so many, or else so many outcomes.
    Bits {
        given: u64,
        wanted: u64,
    },
    /// On this line a forget is false on a term.
    FalseForget {
        line: u32,
    },
}

impl Status {
    /// The exit status of the program.
    pub fn code(&self) -> u8
        ensures { result ≡ code_of self.now }
    {
        match self {
            Status::Done => 0,
            Status::Words => 2,
            Status::ReadFault => 3,
            Status::Syntax { .. } => 4,
            Status::Names { .. } => 5,
            Status::Typing { .. } => 6,
            Status::Unsupported { .. } => 7,
            Status::Limit { .. } => 8,
            Status::Cycle(_) => 9,
            Status::OverBudget { .. } => 10,
            Status::WriteFault => 11,
            Status::Memory => 12,
            Status::Bits { .. } => 13,
            Status::FalseForget { .. } => 14,
        }
    }

    // Puts the line, with a line feed: nothing where all went well.
    fn put<N: Sink>(&self, notes: &mut N) -> Result<(), Failed>
        ensures ok { OnOk result (Adds (N.put_so_far notes.old) (N.put_so_far notes.new) (note_of self.now)) }
        ensures count { N.faults notes.old ≤ N.faults notes.new }
        ensures failed { OnErr result (Rose (N.faults notes.old) (N.faults notes.new)) }
        ensures broken { OnErr result (Breaks (N.put_so_far notes.old) (N.put_so_far notes.new) (note_of self.now)) }
    {
        match self {
            Status::Done => Ok(()),
            Status::Words => put_all(notes, b"silqc: the words are not a job\n"),
            Status::ReadFault => put_all(notes, b"silqc: reading failed\n"),
            Status::Syntax { cause, line, col } => put_syntax(notes, cause.name(), *line, *col),
            Status::Names { rule, line, col } => put_rule(notes, ": names: K", *rule, *line, *col),
            Status::Typing { rule, line, col } => put_rule(notes, ": type: K", *rule, *line, *col),
            Status::Unsupported { what, line, col } => put_unsupported(
                notes,
                what.name(),
                *line,
                *col,
            ),
            Status::Limit { which, count } => put_limit(notes, which.name(), *count),
            Status::Cycle(cycle) => put_cycle(notes, cycle.as_slice()),
            Status::OverBudget { least, budget } => put_over_budget(notes, *least, *budget),
            Status::WriteFault => put_all(notes, b"silqc: writing failed\n"),
            Status::Memory => put_all(notes, b"silqc: no memory\n"),
            Status::Bits { given, wanted } => put_bits(notes, *given, *wanted),
            Status::FalseForget { line } => put_false_forget(notes, *line),
        }
    }

    // Puts the line. A failed note changes nothing else.
    pub(crate) fn tell<N: Sink>(&self, notes: &mut N)
        ensures noted { Noted (N.put_so_far notes.old) (N.put_so_far notes.new) (N.faults notes.old) (N.faults notes.new) (note_of self.now) }
        ensures count { N.faults notes.old ≤ N.faults notes.new }
    {
        let _ = self.put(notes);
    }
}

// Puts the line of a fault of the file.
fn put_syntax<N: Sink>(notes: &mut N, cause: &str, line: u32, col: u32) -> Result<(), Failed>
    ensures ok { OnOk result (Adds (N.put_so_far notes.old) (N.put_so_far notes.new) (syntax_note cause.now line col)) }
    ensures count { N.faults notes.old ≤ N.faults notes.new }
    ensures failed { OnErr result (Rose (N.faults notes.old) (N.faults notes.new)) }
    ensures broken { OnErr result (Breaks (N.put_so_far notes.old) (N.put_so_far notes.new) (syntax_note cause.now line col)) }
{
    put_pieces(
        notes,
        &[
            Piece::Text("silqc: "),
            Piece::Number(u64::from(line)),
            Piece::Text(":"),
            Piece::Number(u64::from(col)),
            Piece::Text(": syntax: "),
            Piece::Text(cause),
            Piece::Text("\n"),
        ],
    )
}

// Puts the line of a broken rule.
fn put_rule<N: Sink>(notes: &mut N, kind: &str, rule: u8, line: u32, col: u32) -> Result<(), Failed>
    ensures ok { OnOk result (Adds (N.put_so_far notes.old) (N.put_so_far notes.new) (codes "silqc: " ++ (decimal line ++ (codes ":" ++ (decimal col ++ (kind.now ++ (decimal rule ++ codes "\n"))))))) }
    ensures count { N.faults notes.old ≤ N.faults notes.new }
    ensures failed { OnErr result (Rose (N.faults notes.old) (N.faults notes.new)) }
    ensures broken { OnErr result (Breaks (N.put_so_far notes.old) (N.put_so_far notes.new) (codes "silqc: " ++ (decimal line ++ (codes ":" ++ (decimal col ++ (kind.now ++ (decimal rule ++ codes "\n"))))))) }
{
    put_pieces(
        notes,
        &[
            Piece::Text("silqc: "),
            Piece::Number(u64::from(line)),
            Piece::Text(":"),
            Piece::Number(u64::from(col)),
            Piece::Text(kind),
            Piece::Number(u64::from(rule)),
            Piece::Text("\n"),
        ],
    )
}

// Puts the line of something that is not supported.
fn put_unsupported<N: Sink>(notes: &mut N, what: &str, line: u32, col: u32) -> Result<(), Failed>
    ensures ok { OnOk result (Adds (N.put_so_far notes.old) (N.put_so_far notes.new) (unsupported_note what.now line col)) }
    ensures count { N.faults notes.old ≤ N.faults notes.new }
    ensures failed { OnErr result (Rose (N.faults notes.old) (N.faults notes.new)) }
    ensures broken { OnErr result (Breaks (N.put_so_far notes.old) (N.put_so_far notes.new) (unsupported_note what.now line col)) }
{
    put_pieces(
        notes,
        &[
            Piece::Text("silqc: "),
            Piece::Number(u64::from(line)),
            Piece::Text(":"),
            Piece::Number(u64::from(col)),
            Piece::Text(": unsupported: "),
            Piece::Text(what),
            Piece::Text("\n"),
        ],
    )
}

// Puts the line of a limit that is passed.
fn put_limit<N: Sink>(notes: &mut N, which: &str, count: u64) -> Result<(), Failed>
    ensures ok { OnOk result (Adds (N.put_so_far notes.old) (N.put_so_far notes.new) (limit_note which.now count)) }
    ensures count { N.faults notes.old ≤ N.faults notes.new }
    ensures failed { OnErr result (Rose (N.faults notes.old) (N.faults notes.new)) }
    ensures broken { OnErr result (Breaks (N.put_so_far notes.old) (N.put_so_far notes.new) (limit_note which.now count)) }
{
    put_pieces(
        notes,
        &[
            Piece::Text("silqc: limit: "),
            Piece::Text(which),
            Piece::Text(" "),
            Piece::Number(count),
            Piece::Text("\n"),
        ],
    )
}

// Puts the line of a program that needs more qubits than it may have.
fn put_over_budget<N: Sink>(notes: &mut N, least: usize, budget: usize) -> Result<(), Failed>
    ensures ok { OnOk result (Adds (N.put_so_far notes.old) (N.put_so_far notes.new) (budget_note least budget)) }
    ensures count { N.faults notes.old ≤ N.faults notes.new }
    ensures failed { OnErr result (Rose (N.faults notes.old) (N.faults notes.new)) }
    ensures broken { OnErr result (Breaks (N.put_so_far notes.old) (N.put_so_far notes.new) (budget_note least budget)) }
{
    put_pieces(
        notes,
        &[
            Piece::Text("silqc: over budget: least "),
            Piece::Number(least as u64),
            Piece::Text(", budget "),
            Piece::Number(budget as u64),
            Piece::Text("\n"),
        ],
    )
}

// Puts the line of a cycle.
fn put_cycle<N: Sink>(notes: &mut N, cycle: &[CyclePlace]) -> Result<(), Failed>
    ensures ok { OnOk result (Adds (N.put_so_far notes.old) (N.put_so_far notes.new) (cycle_note cycle.now)) }
    ensures count { N.faults notes.old ≤ N.faults notes.new }
    ensures failed { OnErr result (Rose (N.faults notes.old) (N.faults notes.new)) }
    ensures broken { OnErr result (Breaks (N.put_so_far notes.old) (N.put_so_far notes.new) (cycle_note cycle.now)) }
{
    put_all(notes, b"silqc: cycle:")?;
    put_places(notes, cycle)?;
    put_all(notes, b"\n")
}

// Puts the vertices of a cycle.
fn put_places<N: Sink>(notes: &mut N, cycle: &[CyclePlace]) -> Result<(), Failed>
    ensures ok { OnOk result (Adds (N.put_so_far notes.old) (N.put_so_far notes.new) (places_text cycle.now)) }
    ensures count { N.faults notes.old ≤ N.faults notes.new }
    ensures failed { OnErr result (Rose (N.faults notes.old) (N.faults notes.new)) }
    ensures broken { OnErr result (Breaks (N.put_so_far notes.old) (N.put_so_far notes.new) (places_text cycle.now)) }
{
    for place in cycle {
        put_place(notes, *place)?;
    }
    Ok(())
}

// Puts a vertex of a cycle.
fn put_place<N: Sink>(notes: &mut N, place: CyclePlace) -> Result<(), Failed>
    ensures ok { OnOk result (Adds (N.put_so_far notes.old) (N.put_so_far notes.new) (place_text place)) }
    ensures count { N.faults notes.old ≤ N.faults notes.new }
    ensures failed { OnErr result (Rose (N.faults notes.old) (N.faults notes.new)) }
    ensures broken { OnErr result (Breaks (N.put_so_far notes.old) (N.put_so_far notes.new) (place_text place)) }
{
    match place {
        CyclePlace::Forward { step, line } => put_step(notes, " F", step, line),
        CyclePlace::Reverse { step, line } => put_step(notes, " R", step, line),
        CyclePlace::Free { wire } => put_pieces(
            notes,
            &[Piece::Text(" Z"), Piece::Number(u64::from(wire))],
        ),
    }
}

// Puts a step with its line.
fn put_step<N: Sink>(notes: &mut N, kind: &str, step: u32, line: u32) -> Result<(), Failed>
    ensures ok { OnOk result (Adds (N.put_so_far notes.old) (N.put_so_far notes.new) (kind.now ++ (decimal step ++ (codes "@" ++ decimal line)))) }
    ensures count { N.faults notes.old ≤ N.faults notes.new }
    ensures failed { OnErr result (Rose (N.faults notes.old) (N.faults notes.new)) }
    ensures broken { OnErr result (Breaks (N.put_so_far notes.old) (N.put_so_far notes.new) (kind.now ++ (decimal step ++ (codes "@" ++ decimal line)))) }
{
    put_pieces(
        notes,
        &[
            Piece::Text(kind),
            Piece::Number(u64::from(step)),
            Piece::Text("@"),
            Piece::Number(u64::from(line)),
        ],
    )
}

// Puts the line of bits that are too few or too many.
fn put_bits<N: Sink>(notes: &mut N, given: u64, wanted: u64) -> Result<(), Failed>
    ensures ok { OnOk result (Adds (N.put_so_far notes.old) (N.put_so_far notes.new) (bits_note given wanted)) }
    ensures count { N.faults notes.old ≤ N.faults notes.new }
    ensures failed { OnErr result (Rose (N.faults notes.old) (N.faults notes.new)) }
    ensures broken { OnErr result (Breaks (N.put_so_far notes.old) (N.put_so_far notes.new) (bits_note given wanted)) }
{
    put_pieces(
        notes,
        &[
            Piece::Text("silqc: bits: given "),
            Piece::Number(given),
            Piece::Text(", wanted "),
            Piece::Number(wanted),
            Piece::Text("\n"),
        ],
    )
}

// Puts the line of a forget that is false.
fn put_false_forget<N: Sink>(notes: &mut N, line: u32) -> Result<(), Failed>
    ensures ok { OnOk result (Adds (N.put_so_far notes.old) (N.put_so_far notes.new) (forget_note line)) }
    ensures count { N.faults notes.old ≤ N.faults notes.new }
    ensures failed { OnErr result (Rose (N.faults notes.old) (N.faults notes.new)) }
    ensures broken { OnErr result (Breaks (N.put_so_far notes.old) (N.put_so_far notes.new) (forget_note line)) }
{
    put_pieces(
        notes,
        &[
            Piece::Text("silqc: forget is false on line "),
            Piece::Number(u64::from(line)),
            Piece::Text("\n"),
        ],
    )
}
