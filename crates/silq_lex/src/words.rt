//! Reserved words and signs.

ghost use Rattle.std.specs.Prelude.{◌≡◌, ◌∷◌, []};
ghost use Rattle.std.specs.Str.{chars};
ghost use Rattle.silq_lex.specs.Kinds.{is_one_of, reserved, signs};

/// The reserved words; the last three are second spellings.
const RESERVED: [&str; 22] = [
    "def", "return", "if", "else", "for", "in", "forget", "phase", "const", "qfree", "mfree",
    "lifted", "true", "false", "pi", "B", "N", "uint", "int", "𝔹", "ℕ", "π",
];

/// Whether the text is a reserved word.
pub(crate) fn is_reserved(text: &str) -> bool
    ensures { result ≡ is_one_of reserved (chars text.now) }
{
    RESERVED.contains(&text)
}

/// Whether the character is a sign.
pub(crate) fn is_single(c: char) -> bool
    ensures { result ≡ is_one_of signs (c ∷ []) }
{
    matches!(
        c,
        '(' | ')'
            | '['
            | ']'
            | '{'
            | '}'
            | ','
            | ';'
            | ':'
            | '='
            | '<'
            | '>'
            | '!'
            | '+'
            | '-'
            | '*'
            | '/'
            | '^'
            | '×'
            | '·'
    )
}

/// Whether the two characters are a sign.
pub(crate) fn is_double(c: char, d: char) -> bool
    ensures { result ≡ is_one_of signs (c ∷ d ∷ []) }
{
    match c {
        ':' | '+' | '-' | '^' | '=' | '!' | '<' | '>' => d == '=',
        '&' => d == '&',
        '|' => d == '|',
        '.' => d == '.',
        _ => false,
    }
}
