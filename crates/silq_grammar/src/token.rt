//! Tokens of Silq as the grammar sees them.

ghost use Rattle.std.specs.Prelude.{◌≡◌};
ghost use Rattle.silq_grammar.specs.Tokens.{spot_of};

use silq_tree::{NameId, Spot};

/// A reserved word or a sign. Two spellings of one word are one terminal.
#[derive(Clone, Copy, PartialEq, Eq)]
pub enum Terminal {
    Def,
    Return,
    If,
    Else,
    For,
    In,
    Forget,
    Phase,
    Const,
    Qfree,
    Mfree,
    Lifted,
    True,
    False,
    /// `pi` or `π`
    Pi,
    /// `B` or `𝔹`
    Bit,
    /// `N` or `ℕ`
    Natural,
    UInt,
    Int,
    /// `:=`
    Becomes,
    /// `+=`
    AddTo,
    /// `-=`
    SubtractFrom,
    /// `^=`
    XorTo,
    /// `==`
    Equal,
    /// `!=`
    NotEqual,
    /// `<=`
    AtMost,
    /// `>=`
    AtLeast,
    /// `<`
    Below,
    /// `>`
    Above,
    /// `&&`
    And,
    /// `||`
    Or,
    /// `..`
    Dots,
    LeftParen,
    RightParen,
    LeftBracket,
    RightBracket,
    LeftBrace,
    RightBrace,
    Comma,
    Semicolon,
    Colon,
    /// `=`
    Is,
    /// `!`
    Bang,
    Plus,
    Minus,
    /// `*` or `·`
    Star,
    Slash,
    /// `^`
    Caret,
    /// `×`
    Times,
}

/// A token with its place.
#[derive(Clone, Copy, PartialEq, Eq)]
pub enum Token {
    /// A name that is no reserved word.
    Name(NameId, Spot),
    /// A number, at most 9223372036854775807.
    Number(i64, Spot),
    /// A reserved word or a sign.
    Fixed(Terminal, Spot),
}

impl Token {
    /// Its place.
    pub fn at(&self) -> Spot
        ensures { result ≡ spot_of self.now }
    {
        match self {
            Token::Name(_, at) | Token::Number(_, at) | Token::Fixed(_, at) => *at,
        }
    }
}
