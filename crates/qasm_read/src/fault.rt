//! Why a text is not read.

ghost use Rattle.std.specs.Prelude.{◌≡◌};
ghost use Rattle.qasm_read.specs.declared.fault.QasmFault.TheVariants.{Memory};

use silq_io::{OverLimit, SyntaxCause, What};
use std::alloc::{AllocError, AllocFailed};

/// Why a text spells no circuit. Lines and columns count from 1; a column counts characters.
#[derive(Clone, Copy, PartialEq, Eq)]
pub enum QasmFault {
    /// There is not enough memory.
    Memory,
    /// The first token with which the text so far begins no text of the grammar, or the text's end.
    Syntax {
        line: u32,
        col: u32,
    },
    /// What is not supported.
    Unsupported {
        line: u32,
        col: u32,
        what: What,
    },
    /// What has the form of the grammar and breaks a rule.
    Bad {
        line: u32,
        col: u32,
        cause: SyntaxCause,
    },
    /// A count went above its limit.
    Limit(OverLimit),
}

impl From<AllocError> for QasmFault {
    ghost from_gives = { λ _ fault. fault ≡ Memory };

    fn from(_: AllocError) -> Self {
        QasmFault::Memory
    }
}

impl<T: Drop> From<AllocFailed<T>> for QasmFault {
    ghost from_gives = { λ _ fault. fault ≡ Memory };

    fn from(_: AllocFailed<T>) -> Self {
        QasmFault::Memory
    }
}
