//! How words and signs are written.

ghost use Rattle.std.specs.Prelude.{◌≡◌};
ghost use Rattle.silq_print.specs.Printed.{fixed_text};

use silq_grammar::Terminal;

/// A reserved word or a sign in its first spelling.
pub(crate) fn spelling(t: Terminal) -> &'static str
    ensures { result.now ≡ fixed_text t }
{
    match t {
        Terminal::Def => "def",
        Terminal::Return => "return",
        Terminal::If => "if",
        Terminal::Else => "else",
        Terminal::For => "for",
        Terminal::In => "in",
        Terminal::Forget => "forget",
        Terminal::Phase => "phase",
        Terminal::Const => "const",
        Terminal::Qfree => "qfree",
        Terminal::Mfree => "mfree",
        Terminal::Lifted => "lifted",
        Terminal::True => "true",
        Terminal::False => "false",
        Terminal::Pi => "pi",
        Terminal::Bit => "B",
        Terminal::Natural => "N",
        Terminal::UInt => "uint",
        Terminal::Int => "int",
        Terminal::Becomes => ":=",
        Terminal::AddTo => "+=",
        Terminal::SubtractFrom => "-=",
        Terminal::XorTo => "^=",
        Terminal::Equal => "==",
        Terminal::NotEqual => "!=",
        Terminal::AtMost => "<=",
        Terminal::AtLeast => ">=",
        Terminal::Below => "<",
        Terminal::Above => ">",
        Terminal::And => "&&",
        Terminal::Or => "||",
        Terminal::Dots => "..",
        Terminal::LeftParen => "(",
        Terminal::RightParen => ")",
        Terminal::LeftBracket => "[",
        Terminal::RightBracket => "]",
        Terminal::LeftBrace => "{",
        Terminal::RightBrace => "}",
        Terminal::Comma => ",",
        Terminal::Semicolon => ";",
        Terminal::Colon => ":",
        Terminal::Is => "=",
        Terminal::Bang => "!",
        Terminal::Plus => "+",
        Terminal::Minus => "-",
        Terminal::Star => "*",
        Terminal::Slash => "/",
        Terminal::Caret => "^",
        Terminal::Times => "×",
    }
}
