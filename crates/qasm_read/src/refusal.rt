//! A refusal and its place, and which of two comes first.

ghost use Rattle.std.specs.Prelude.{◌≡◌, ◌+◌, ◌<◌, ◌^◌, IsTrue, ◌↔◌};
ghost use Rattle.qasm_read.specs.Refusals as spec;
ghost use Rattle.qasm_read.specs.Refusals.{first_refusal, is_before, rank, row, where_};
ghost use Rattle.qasm_read.specs.Earlier.{earlier};

use crate::fault::QasmFault;
use silq_io::{LimitKind, OverLimit, SyntaxCause, What};
use silq_lex::Place;

/// Why an item is refused, and the place by which the first of several refusals is found.
#[derive(Clone, Copy)]
pub struct Refusal {
    pub at: Place,
    pub fault: QasmFault,
}

/// The refusal of what begins no text of the grammar.
pub(crate) fn syntax(at: Place) -> Refusal
    ensures { result ≡ spec.syntax at }
{
    Refusal {
        at,
        fault: QasmFault::Syntax {
            line: at.line,
            col: at.col,
        },
    }
}

/// The refusal of what is not supported.
pub(crate) fn unsupported(at: Place, what: What) -> Refusal
    ensures { result ≡ spec.unsupported at what }
{
    Refusal {
        at,
        fault: QasmFault::Unsupported {
            line: at.line,
            col: at.col,
            what,
        },
    }
}

/// The refusal of what breaks a rule.
pub(crate) fn bad(at: Place, cause: SyntaxCause) -> Refusal
    ensures { result ≡ spec.bad at cause }
{
    Refusal {
        at,
        fault: QasmFault::Bad {
            line: at.line,
            col: at.col,
            cause,
        },
    }
}

/// The refusal of a count above this limit.
pub(crate) fn above(at: Place, which: LimitKind, most: u32) -> Refusal
    ensures { result ≡ spec.above at which most }
{
    Refusal {
        at,
        fault: QasmFault::Limit(OverLimit {
            which,
            count: u64::from(most) + 1,
        }),
    }
}

/// A refusal, where the condition holds.
pub(crate) fn where_(holds: bool, refusal: Refusal) -> Option<Refusal>
    ensures { result ≡ first_refusal (where_ holds refusal) }
{
    if holds { Some(refusal) } else { None }
}

/// Two of Unsupported at one token go by this order.
fn row(what: What) -> u8
    ensures { result ≡ row what }
{
    match what {
        What::Gate => 0,
        What::Definition => 1,
        What::Reset => 2,
        What::Include => 3,
        What::If => 4,
        What::Register => 5,
        What::WideIf => 6,
        What::Remeasure => 7,
        _ => 8,
    }
}

/// At one token Syntax comes first, then Unsupported, then Bad, then Limit.
fn rank(fault: QasmFault) -> u8
    ensures value { result ≡ rank fault }
    ensures small { result < 12 }
{
    match fault {
        QasmFault::Memory => 0,
        QasmFault::Syntax { line: _, col: _ } => 0,
        QasmFault::Unsupported {
            line: _,
            col: _,
            what,
        } => 1 + row(what),
        QasmFault::Bad {
            line: _,
            col: _,
            cause: _,
        } => 10,
        QasmFault::Limit(_) => 11,
    }
}

/// Whether one refusal comes before another.
fn is_before(a: &Refusal, b: &Refusal) -> bool
    ensures { result ≡ is_before a.now b.now }
{
    a.at.start < b.at.start || (a.at.start == b.at.start && rank(a.fault) < rank(b.fault))
}

/// The first of two refusals; at one place and of one kind the one that is named first.
pub(crate) fn earlier(a: Option<Refusal>, b: Option<Refusal>) -> Option<Refusal>
    ensures { result ≡ earlier a b }
{
    match (a, b) {
        (Some(a), Some(b)) => Some(if is_before(&b, &a) { b } else { a }),
        (None, b) => b,
        (a, None) => a,
    }
}
