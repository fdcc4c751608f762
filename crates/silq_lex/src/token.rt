//! Tokens and lexical faults.

/// What a token is.
#[derive(Clone, Copy, PartialEq, Eq)]
pub enum TokenKind {
    /// A name that is no reserved word.
    Name,
    /// A reserved word.
    Word,
    /// A run of digits, at most 9223372036854775807.
    Number,
    /// A sign, as `:=` or `(`.
    Sign,
}

/// A place in a text.
#[derive(Clone, Copy, PartialEq, Eq)]
pub struct Place {
    /// The bytes before it.
    pub start: usize,
    /// The line, from 1. A line ends after a line feed.
    pub line: u32,
    /// The column, from 1, counted in characters.
    pub col: u32,
}

/// A token, which borrows the source.
#[derive(Clone, Copy, PartialEq, Eq)]
pub struct Token<'s> {
    /// What it is.
    pub kind: TokenKind,
    /// Its text: the slice of the source at `start`.
    pub text: &'s str,
    /// The bytes before it.
    pub start: usize,
    /// The line of its first character, from 1.
    pub line: u32,
    /// The column of its first character, from 1, counted in characters.
    pub col: u32,
}

/// Why a text is no row of tokens.
#[derive(Clone, Copy, Debug, PartialEq, Eq)]
pub enum LexCause {
    /// No token begins with the character.
    Character,
    /// A number above 9223372036854775807.
    Number,
    /// A comment `/*` without an end.
    Comment,
}

/// The first place at which a text is no row of tokens, and why.
#[derive(Clone, Copy, Debug, PartialEq, Eq)]
pub struct LexFault {
    /// The line, from 1.
    pub line: u32,
    /// The column, from 1, counted in characters.
    pub col: u32,
    /// Why.
    pub cause: LexCause,
}
