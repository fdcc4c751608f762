//! Whether two kinds are the same.

ghost use Rattle.std.specs.Prelude.{◌≡◌};
ghost use Rattle.qasm_tokens.specs.Table.{kind_number, one_number, same_kind};

use crate::kind::Kind;
use gate_core::OneKind;

/// The place of a gate on one qubit in a list of all kinds.
fn place_of_one(one: OneKind) -> u8
    ensures { result ≡ one_number one }
{
    match one {
        OneKind::Id => 28,
        OneKind::X => 29,
        OneKind::Y => 30,
        OneKind::Z => 31,
        OneKind::H => 32,
        OneKind::S => 33,
        OneKind::Sdg => 34,
        OneKind::T => 35,
        OneKind::Tdg => 36,
    }
}

/// The place of a kind in a list of all kinds.
fn place_of(kind: Kind) -> u8
    ensures { result ≡ kind_number kind }
{
    match kind {
        Kind::OpenQasm => 0,
        Kind::Version => 1,
        Kind::Include => 2,
        Kind::Qreg => 3,
        Kind::Creg => 4,
        Kind::Measure => 5,
        Kind::If => 6,
        Kind::Barrier => 7,
        Kind::Definition => 8,
        Kind::Reset => 9,
        Kind::Cx => 11,
        Kind::Cz => 12,
        Kind::Ccx => 13,
        Kind::Lower => 14,
        Kind::Upper => 15,
        Kind::Number => 16,
        Kind::TooGreat => 17,
        Kind::Library => 18,
        Kind::OtherFile => 19,
        Kind::Semicolon => 20,
        Kind::Comma => 21,
        Kind::LeftParen => 22,
        Kind::RightParen => 23,
        Kind::LeftBracket => 24,
        Kind::RightBracket => 25,
        Kind::Arrow => 26,
        Kind::Equal => 27,
        Kind::Stray => 10,
        Kind::One(one) => place_of_one(one),
    }
}

/// Whether the kinds are the same.
pub fn same_kind(expected: Kind, kind: Kind) -> bool
    ensures { result ≡ same_kind expected kind }
{
    place_of(expected) == place_of(kind)
}
