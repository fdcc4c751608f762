//! Faults of the parser.

use silq_lex::LexFault;
use thiserror::Error;

/// Why a text is no program. Lines and columns count from 1; a column counts characters.
#[derive(Clone, Copy, Debug, PartialEq, Eq, Error)]
pub enum ParseFault {
    /// There is not enough memory.
    #[error("no memory")]
    Memory,
    /// The text has more than 1,048,576 bytes.
    #[error("the text is too long")]
    Long,
    /// The text is no row of tokens.
    #[error("no token begins here")]
    Lex(LexFault),
    /// The first token with which the tokens so far begin no program, or the text's end.
    #[error("line {line}, column {col}: this can't stand here")]
    Syntax { line: u32, col: u32 },
    /// The first token at which more than 64 constructs are open.
    #[error("line {line}, column {col}: nested too deeply")]
    Deep { line: u32, col: u32 },
}
