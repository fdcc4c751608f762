//! The kinds of words, numbers and names of files.

ghost use Rattle.std.specs.Prelude.{◌≡◌, ◌^◌, ◌<◌, true, nat_lt, option_map, bytes_eq, find as list_find};
ghost use Rattle.std.specs.Str.{chars};
ghost use Rattle.silq_lex.specs.Kinds.{is_number, number_of};
ghost use Rattle.qasm_tokens.specs.Words.{file_kind, number_kind, word_kind, words};
ghost use Rattle.qasm_tokens.specs.Spelling.{found, written};

use crate::class::is_lower;
use crate::kind::Kind;
use gate_core::OneKind;

/// The words of the grammar, those that are refused by name, and those of gates.
const WORDS: [(&str, Kind); 22] = [
    ("OPENQASM", Kind::OpenQasm),
    ("include", Kind::Include),
    ("qreg", Kind::Qreg),
    ("creg", Kind::Creg),
    ("measure", Kind::Measure),
    ("if", Kind::If),
    ("barrier", Kind::Barrier),
    ("gate", Kind::Definition),
    ("opaque", Kind::Definition),
    ("reset", Kind::Reset),
    ("id", Kind::One(OneKind::Id)),
    ("x", Kind::One(OneKind::X)),
    ("y", Kind::One(OneKind::Y)),
    ("z", Kind::One(OneKind::Z)),
    ("h", Kind::One(OneKind::H)),
    ("s", Kind::One(OneKind::S)),
    ("sdg", Kind::One(OneKind::Sdg)),
    ("t", Kind::One(OneKind::T)),
    ("tdg", Kind::One(OneKind::Tdg)),
    ("cx", Kind::Cx),
    ("cz", Kind::Cz),
    ("ccx", Kind::Ccx),
];

/// The kind of the first of the words that is the text.
fn find(words: &[(&str, Kind)], text: &str) -> Option<Kind>
    ensures { result ≡ found (written words.now) text.now }
{
    let mut left = words;
    while let [(word, kind), rest @ ..] = left {
        if *word == text {
            return Some(*kind);
        }
        left = rest;
    }
    None
}

/// The kind of a word that has one of its own.
fn named(text: &str) -> Option<Kind>
    ensures { result ≡ option_map (λ w. w.1) (list_find (λ w. bytes_eq w.0 (chars text.now)) words) }
{
    find(&WORDS, text)
}

/// The kind of a word, with its first letter.
pub(crate) fn kind_of_word(first: char, text: &str) -> Kind
    ensures { result ≡ word_kind first (chars text.now) }
{
    match named(text) {
        Some(kind) => kind,
        None if is_lower(first) => Kind::Lower,
        None => Kind::Upper,
    }
}

/// Whether a number has at most 32 bits.
fn fits(digits: &str) -> bool
    requires { is_number (chars digits.now) ≡ true }
    ensures { result ≡ nat_lt (number_of (chars digits.now)) (2 ^ 32) }
{
    digits.parse::<u32>().is_ok()
}

/// The kind of a number.
pub(crate) fn kind_of_number(digits: &str) -> Kind
    requires { is_number (chars digits.now) ≡ true }
    ensures { result ≡ number_kind (chars digits.now) }
{
    if fits(digits) {
        Kind::Number
    } else {
        Kind::TooGreat
    }
}

/// The kind of a name in quotes.
pub(crate) fn kind_of_file(text: &str) -> Kind
    ensures { result ≡ file_kind (chars text.now) }
{
    if text == "\"qelib1.inc\"" {
        Kind::Library
    } else {
        Kind::OtherFile
    }
}

/// The number that a token of the kind `Number` spells.
pub fn number(digits: &str) -> u32
    requires digits { is_number (chars digits.now) ≡ true }
    requires fits { number_of (chars digits.now) < 2 ^ 32 }
    ensures { result ≡ number_of (chars digits.now) }
{
    digits.parse::<u32>().unwrap()
}
