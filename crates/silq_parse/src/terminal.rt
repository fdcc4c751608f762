//! Reserved words and signs.

ghost use Rattle.std.specs.Prelude.{◌≡◌};
ghost use Rattle.silq_parse.specs.Spelling.{spelled, found, written};

use silq_grammar::Terminal;

/// How each terminal is spelled.
const SPELLINGS: [(&str, Terminal); 53] = [
    ("def", Terminal::Def),
    ("return", Terminal::Return),
    ("if", Terminal::If),
    ("else", Terminal::Else),
    ("for", Terminal::For),
    ("in", Terminal::In),
    ("forget", Terminal::Forget),
    ("phase", Terminal::Phase),
    ("const", Terminal::Const),
    ("qfree", Terminal::Qfree),
    ("mfree", Terminal::Mfree),
    ("lifted", Terminal::Lifted),
    ("true", Terminal::True),
    ("false", Terminal::False),
    ("pi", Terminal::Pi),
    ("B", Terminal::Bit),
    ("N", Terminal::Natural),
    ("uint", Terminal::UInt),
    ("int", Terminal::Int),
    (":=", Terminal::Becomes),
    ("+=", Terminal::AddTo),
    ("-=", Terminal::SubtractFrom),
    ("^=", Terminal::XorTo),
    ("==", Terminal::Equal),
    ("!=", Terminal::NotEqual),
    ("<=", Terminal::AtMost),
    (">=", Terminal::AtLeast),
    ("<", Terminal::Below),
    (">", Terminal::Above),
    ("&&", Terminal::And),
    ("||", Terminal::Or),
    ("..", Terminal::Dots),
    ("(", Terminal::LeftParen),
    (")", Terminal::RightParen),
    ("[", Terminal::LeftBracket),
    ("]", Terminal::RightBracket),
    ("{", Terminal::LeftBrace),
    ("}", Terminal::RightBrace),
    (",", Terminal::Comma),
    (";", Terminal::Semicolon),
    (":", Terminal::Colon),
    ("=", Terminal::Is),
    ("!", Terminal::Bang),
    ("+", Terminal::Plus),
    ("-", Terminal::Minus),
    ("*", Terminal::Star),
    ("/", Terminal::Slash),
    ("^", Terminal::Caret),
    ("𝔹", Terminal::Bit),
    ("ℕ", Terminal::Natural),
    ("π", Terminal::Pi),
    ("×", Terminal::Times),
    ("·", Terminal::Star),
];

/// The terminal that a text spells.
pub(crate) fn terminal(text: &str) -> Option<Terminal>
    ensures { result ≡ spelled text.now }
{
    find(&SPELLINGS, text)
}

/// The terminal of the first of the spellings that is the text.
fn find(spellings: &[(&str, Terminal)], text: &str) -> Option<Terminal>
    ensures { result ≡ found (written spellings.now) text.now }
{
    let mut left = spellings;
    while let [(spelling, terminal), rest @ ..] = left {
        if *spelling == text {
            return Some(*terminal);
        }
        left = rest;
    }
    None
}
