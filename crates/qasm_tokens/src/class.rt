//! Classes of characters.

ghost use Rattle.std.specs.Prelude.{◌≡◌};
ghost use Rattle.silq_lex.specs.Characters.{is_blank, is_digit};
ghost use Rattle.qasm_tokens.specs.Words.{is_letter, is_lower};
ghost use Rattle.qasm_tokens.specs.Classes.{passes};

/// What goes on with characters of one class.
#[derive(Clone, Copy)]
pub(crate) enum Class {
    Word,
    Number,
    Quoted,
    Line,
}

impl Class {
    /// Whether it goes on with the character.
    pub(crate) fn passes(self, c: char) -> bool
        ensures { result ≡ passes self c }
    {
        match self {
            Class::Word => is_letter(c) || is_digit(c) || c == '_',
            Class::Number => is_digit(c),
            Class::Quoted => c != '"',
            Class::Line => c != '\n',
        }
    }
}

/// Whether the character is a letter from a to z.
pub(crate) fn is_lower(c: char) -> bool
    ensures { result ≡ is_lower c }
{
    'a' <= c && c <= 'z'
}

/// Whether the character is a letter from a to z or from A to Z.
pub(crate) fn is_letter(c: char) -> bool
    ensures { result ≡ is_letter c }
{
    is_lower(c) || ('A' <= c && c <= 'Z')
}

/// Whether the character is a digit.
pub(crate) fn is_digit(c: char) -> bool
    ensures { result ≡ is_digit c }
{
    '0' <= c && c <= '9'
}

/// Whether the character is a blank.
pub(crate) fn is_blank(c: char) -> bool
    ensures { result ≡ is_blank c }
{
    c == ' ' || c == '\t' || c == '\r' || c == '\n'
}
