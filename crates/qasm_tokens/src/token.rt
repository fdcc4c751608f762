//! Tokens and comment lines.

use crate::kind::Kind;
use silq_lex::Place;

/// A token, which borrows the text.
#[derive(Clone, Copy)]
pub struct Token<'s> {
    /// What it is to the grammar.
    pub kind: Kind,
    /// Its characters.
    pub text: &'s str,
    /// The place of its first character.
    pub at: Place,
}

/// A token, or a comment line.
#[derive(Clone, Copy)]
pub(crate) enum Mark<'s> {
    Token(Token<'s>),
    /// A comment that begins in the first column, up to the line's end.
    Line(&'s str),
}
