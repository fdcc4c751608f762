//! Classes of characters.

ghost use Rattle.std.specs.Prelude.{◌≡◌};
ghost use Rattle.silq_lex.specs.Characters.{is_blank, is_digit, starts_name, continues_name};
ghost use Rattle.silq_lex.specs.Classes.{goes_on};

use unicode_ident::{is_xid_continue, is_xid_start};

/// What goes on with characters of one class.
#[derive(Clone, Copy)]
pub(crate) enum Class {
    Name,
    Number,
    Line,
}

impl Class {
    /// Whether it goes on with the character.
    pub(crate) fn goes_on(self, c: char) -> bool
        ensures { result ≡ goes_on self c }
    {
        match self {
            Class::Name => is_xid_continue(c) && c != '·',
            Class::Number => is_digit(c),
            Class::Line => c != '\n',
        }
    }
}

/// Whether the character is a digit.
pub(crate) fn is_digit(c: char) -> bool
    ensures { result ≡ is_digit c }
{
    '0' <= c && c <= '9'
}

/// Whether the character is a blank.
pub(crate) fn is_blank(c: char) -> bool
    ensures { result ≡ is_blank c }
{
    c == ' ' || c == '\t' || c == '\r' || c == '\n'
}

/// Whether a name starts with the character.
pub(crate) fn starts_name(c: char) -> bool
    ensures { result ≡ starts_name c }
{
    c == '_' || is_xid_start(c)
}
