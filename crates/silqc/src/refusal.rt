//! The status of each fault of the layers below.

ghost use Rattle.std.specs.Prelude.{◌≡◌};
ghost use Rattle.check_scope.specs.Faults.{fault_as};
ghost use Rattle.silqc.specs.Answer.{most};
ghost use Rattle.silqc.specs.Circuits as circuits;
ghost use Rattle.silqc.specs.Program.{lex_cause, unread};
ghost use Rattle.silqc.specs.Status as told;

use crate::status::Status;
use amp_run::RunFault as TableFault;
use check_scope::CheckFault;
use circuit_table::CircuitFault;
use file_text::{NoText, ReadError};
use flat_compile::CompileFault;
use qasm_read::QasmFault;
use silq_compile::TextFault;
use silq_io::{LimitKind, SyntaxCause};
use silq_lex::LexCause;
use silq_parse::ParseFault;
use silq_tree::Spot;
use source_table::{RunFault, SourceFault};

/// How a command ends whose file is not read.
pub fn read_status(fault: ReadError) -> Status
    ensures { result ≡ told.read_status fault }
{
    match fault {
        ReadError::Memory => Status::Memory,
        ReadError::Failed => Status::ReadFault,
    }
}

/// How a command ends at a fault of the parser.
pub fn parse_status(fault: ParseFault) -> Status
    ensures { result ≡ told.parse_status fault }
{
    match fault {
        ParseFault::Memory => Status::Memory,
        ParseFault::Long => syntax(SyntaxCause::Long, 1, 1),
        ParseFault::Lex(fault) => syntax(cause_of(fault.cause), fault.line, fault.col),
        ParseFault::Syntax { line, col } => syntax(SyntaxCause::Form, line, col),
        ParseFault::Deep { line, col } => syntax(SyntaxCause::Deep, line, col),
    }
}

// How a command ends at a fault of the text.
fn syntax(cause: SyntaxCause, line: u32, col: u32) -> Status
    ensures { result ≡ Status.Syntax cause line col }
{
    Status::Syntax { cause, line, col }
}

// The cause of a lexical fault.
fn cause_of(cause: LexCause) -> SyntaxCause
    ensures { result ≡ lex_cause cause }
{
    match cause {
        LexCause::Character => SyntaxCause::Character,
        LexCause::Number => SyntaxCause::Number,
        LexCause::Comment => SyntaxCause::Comment,
    }
}

/// How a command ends at the first fault of typing.
pub fn check_status(fault: CheckFault) -> Status
    ensures { result ≡ told.check_status (fault_as fault) }
{
    match fault {
        CheckFault::Broken { rule, at } => rule_status(rule, at),
        CheckFault::Unsupported { what, at } => Status::Unsupported {
            what,
            line: at.line,
            col: at.col,
        },
        CheckFault::Limit(which) => Status::Limit {
            which,
            count: most_counted(which) + 1,
        },
        CheckFault::Memory => Status::Memory,
    }
}

// How a command ends at a broken rule: K1 and K2 are those of names.
fn rule_status(rule: u8, at: Spot) -> Status
    ensures { result ≡ told.rule_status rule at }
{
    let Spot { line, col } = at;
    if rule <= 2 {
        Status::Names { rule, line, col }
    } else {
        Status::Typing { rule, line, col }
    }
}

// What a check counts, at most.
fn most_counted(which: LimitKind) -> u64
    ensures { result ≡ most which }
{
    match which {
        LimitKind::Walked => 1_000_000,
        LimitKind::Instances => 4096,
        LimitKind::Depth => 64,
        _ => 0,
    }
}

/// How a compilation with this budget ends where there is no text.
pub fn compile_status(fault: CompileFault, budget: u32) -> Status
    ensures { result ≡ told.compile_status budget fault }
{
    match fault {
        CompileFault::Memory => Status::Memory,
        CompileFault::Limit(over) => Status::Limit {
            which: over.which,
            count: over.count,
        },
        CompileFault::Cycle(cycle) => Status::Cycle(cycle),
        CompileFault::OverBudget { least } => Status::OverBudget {
            least,
            budget: budget as usize,
        },
        CompileFault::Failed => Status::WriteFault,
    }
}

/// How a command ends whose file is no text of a program.
pub fn no_program_status(why: NoText) -> Status
    ensures { result ≡ told.syntax_status (unread why) }
{
    match why {
        NoText::Long => syntax(SyntaxCause::Long, 1, 1),
        NoText::Utf8 { line, col } => syntax(SyntaxCause::Utf8, line, col),
    }
}

/// How a check, or a compilation with this budget, ends where a text is refused.
pub fn text_status(fault: TextFault, budget: u32) -> Status
    ensures { result ≡ told.text_status budget fault }
{
    match fault {
        TextFault::Parse(fault) => parse_status(fault),
        TextFault::Check(fault) => check_status(fault),
        TextFault::Compile(fault) => compile_status(fault, budget),
    }
}

/// How the command ends whose text has no table.
pub fn source_status(fault: SourceFault) -> Status
    ensures { result ≡ told.source_status fault }
{
    match fault {
        SourceFault::Parse(fault) => parse_status(fault),
        SourceFault::Check(fault) => check_status(fault),
        SourceFault::Run(fault) => run_status(fault),
        SourceFault::Failed => Status::WriteFault,
    }
}

// How a run ends that gives no table.
fn run_status(fault: RunFault) -> Status
    ensures { result ≡ told.run_status fault }
{
    match fault {
        RunFault::Memory => Status::Memory,
        RunFault::Limit(over) => Status::Limit {
            which: over.which,
            count: over.count,
        },
        RunFault::Bits { given, wanted } => Status::Bits { given, wanted },
        RunFault::FalseForget { line } => Status::FalseForget { line },
    }
}

/// How a command ends whose file is no text of a circuit.
pub fn no_circuit_status(why: NoText) -> Status
    ensures { result ≡ circuits.no_text_status why }
{
    match why {
        NoText::Long => Status::Limit {
            which: LimitKind::Text,
            count: 268_435_457,
        },
        NoText::Utf8 { line, col } => syntax(SyntaxCause::Utf8, line, col),
    }
}

/// How the command ends whose circuit has no table.
pub fn circuit_status(fault: CircuitFault) -> Status
    ensures { result ≡ circuits.circuit_status fault }
{
    match fault {
        CircuitFault::Read(fault) => qasm_status(fault),
        CircuitFault::Run(fault) => table_status(fault),
        CircuitFault::Failed => Status::WriteFault,
    }
}

// How the reading of a circuit ends at its first refusal.
fn qasm_status(fault: QasmFault) -> Status
    ensures { result ≡ circuits.qasm_status fault }
{
    match fault {
        QasmFault::Memory => Status::Memory,
        QasmFault::Syntax { line, col } => syntax(SyntaxCause::Form, line, col),
        QasmFault::Unsupported { line, col, what } => Status::Unsupported { what, line, col },
        QasmFault::Bad { line, col, cause } => syntax(cause, line, col),
        QasmFault::Limit(over) => Status::Limit {
            which: over.which,
            count: over.count,
        },
    }
}

// How the run of a circuit ends that gives no table.
fn table_status(fault: TableFault) -> Status
    ensures { result ≡ circuits.amp_status fault }
{
    match fault {
        TableFault::Memory => Status::Memory,
        TableFault::Bits { given, wanted } => Status::Bits { given, wanted },
        TableFault::Limit(over) => Status::Limit {
            which: over.which,
            count: over.count,
        },
    }
}
