//! Refusals, in the words of notes.

use check_scope::CheckFault;
use flat_compile::{CompileFault, CyclePlace};
use silq_compile::TextFault;
use silq_lex::LexCause;
use silq_parse::ParseFault;
use std::alloc::{AllocError, Global};

// The word of a cause.
fn cause(cause: LexCause) -> &'static str {
    match cause {
        LexCause::Character => "character",
        LexCause::Number => "number",
        LexCause::Comment => "comment",
    }
}

// A text that is no program.
fn syntax(alloc: Global, fault: ParseFault) -> Result<String, AllocError> {
    let (line, col, word) = match fault {
        ParseFault::Memory => return String::from_str(alloc, "silqc: no memory"),
        ParseFault::Long => (1, 1, "long"),
        ParseFault::Lex(fault) => (fault.line, fault.col, cause(fault.cause)),
        ParseFault::Syntax { line, col } => (line, col, "form"),
        ParseFault::Deep { line, col } => (line, col, "deep"),
    };
    format!(in alloc; "silqc: {line}:{col}: syntax: {word}")
}

// A program that is not accepted.
fn checked(alloc: Global, fault: CheckFault) -> Result<String, AllocError> {
    match fault {
        CheckFault::Memory => String::from_str(alloc, "silqc: no memory"),
        CheckFault::Limit(kind) => {
            let name = kind.name();
            format!(in alloc; "silqc: limit: {name}")
        }
        CheckFault::Unsupported { what, at } => {
            let (line, col, name) = (at.line, at.col, what.name());
            format!(in alloc; "silqc: {line}:{col}: unsupported: {name}")
        }
        CheckFault::Broken { rule, at } => {
            let word = if rule < 3 { "names" } else { "type" };
            let (line, col) = (at.line, at.col);
            format!(in alloc; "silqc: {line}:{col}: {word}: K{rule}")
        }
    }
}

// A vertex of a cycle.
fn place(alloc: Global, place: CyclePlace) -> Result<String, AllocError> {
    match place {
        CyclePlace::Forward { step, line } => format!(in alloc; " F{step}@{line}"),
        CyclePlace::Reverse { step, line } => format!(in alloc; " R{step}@{line}"),
        CyclePlace::Free { wire } => format!(in alloc; " Z{wire}"),
    }
}

// The vertices of a cycle.
fn cycle(alloc: Global, places: &[CyclePlace]) -> Result<String, AllocError> {
    let mut text = String::from_str(alloc, "silqc: cycle:")?;
    for vertex in places {
        text.push_str(&place(alloc, *vertex)?)?;
    }
    Ok(text)
}

// An accepted program that is not compiled.
fn compiled(alloc: Global, fault: CompileFault, budget: u32) -> Result<String, AllocError> {
    match fault {
        CompileFault::Memory => String::from_str(alloc, "silqc: no memory"),
        CompileFault::Limit(over) => {
            let (name, count) = (over.which.name(), over.count);
            format!(in alloc; "silqc: limit: {name} {count}")
        }
        CompileFault::Cycle(places) => cycle(alloc, places.as_slice()),
        CompileFault::OverBudget { least } => {
            format!(in alloc; "silqc: over budget: least {least}, budget {budget}")
        }
        CompileFault::Failed => String::from_str(alloc, "silqc: writing failed"),
    }
}

/// Why a text is not compiled.
pub fn refusal(alloc: Global, fault: TextFault, budget: u32) -> Result<String, AllocError> {
    match fault {
        TextFault::Parse(fault) => syntax(alloc, fault),
        TextFault::Check(fault) => checked(alloc, fault),
        TextFault::Compile(fault) => compiled(alloc, fault, budget),
    }
}
