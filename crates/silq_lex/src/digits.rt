//! Numbers.

ghost use Rattle.std.specs.Prelude.{◌≡◌, ◌^◌, ◌<◌, true, Some, pos, nat_le};
ghost use Rattle.std.specs.Str.{chars};
ghost use Rattle.silq_lex.specs.Kinds.{kind_of, is_number, number_of};

use crate::token::TokenKind;

/// Whether a number is at most 9223372036854775807.
pub(crate) fn fits(digits: &str) -> bool
    requires { is_number (chars digits.now) ≡ true }
    ensures { result ≡ nat_le (number_of (chars digits.now)) 9223372036854775807 }
{
    digits.parse::<i64>().is_ok()
}

/// The number that a token of the kind `Number` spells.
pub fn number(digits: &str) -> i64
    requires kind { kind_of (chars digits.now) ≡ Some TokenKind.Number }
    requires fits { number_of (chars digits.now) < 2 ^ 63 }
    ensures { result ≡ pos (number_of (chars digits.now)) }
{
    digits.parse::<i64>().unwrap()
}
