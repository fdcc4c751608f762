//! What stands at a cursor: blanks, comments and tokens.

ghost use Rattle.std.specs.Prelude.{◌≡◌, ℕ, ◌<◌, true, false, List, [], ◌∷◌, ◌++◌, not, ◌==◌, length, nat_eq, codes, IfNone, IfSome, MatchOption};
ghost use Rattle.std.specs.List.{starts_with};
ghost use Rattle.silq_lex.specs.Runs.{run};
ghost use Rattle.silq_lex.specs.Characters.{is_digit};
ghost use Rattle.qasm_tokens.specs.Words.{digits_at, file_at, piece_at, sign_at};
ghost use Rattle.qasm_tokens.specs.Signs.{second_of, single_kind};
ghost use Rattle.qasm_tokens.specs.Tokens.{front_of, comment};
ghost use Rattle.qasm_tokens.specs.Cursors.{Passes, ReadsPiece, ReadsSecond, ReadsToken, ReadsFront, GivesNext, ahead, word_at, number_at};

use crate::class::{Class, is_blank, is_digit, is_letter};
use crate::cursor::{Cursor, before};
use crate::kind::Kind;
use crate::token::{Mark, Token};
use crate::words::{kind_of_file, kind_of_number, kind_of_word};

/// The second character of a sign of two that begins with this one, and the sign's kind.
fn second_of(c: char) -> Option<(char, Kind)>
    ensures { result ≡ second_of c }
{
    match c {
        '-' => Some(('>', Kind::Arrow)),
        '=' => Some(('=', Kind::Equal)),
        _ => None,
    }
}

/// The kind of a sign of one character, or of a stray.
fn single_kind(c: char) -> Kind
    ensures { result ≡ single_kind c }
{
    match c {
        ';' => Kind::Semicolon,
        ',' => Kind::Comma,
        '(' => Kind::LeftParen,
        ')' => Kind::RightParen,
        '[' => Kind::LeftBracket,
        ']' => Kind::RightBracket,
        _ => Kind::Stray,
    }
}

impl<'s> Cursor<'s> {
    /// The word that begins with the letter `c` before the cursor `next`: its kind, and the cursor behind it.
    fn word(&self, c: char, next: &Cursor<'s>) -> (Kind, Cursor<'s>)
        requires { Passes self.now next.now (c ∷ []) }
        ensures { ReadsPiece self.now result (word_at c (ahead next.now)) }
    {
        let end = next.past(Class::Word);
        (kind_of_word(c, before(self.rest, end.rest)), end)
    }

    /// The cursor behind the number that begins with the digit `c` before the cursor `next`.
    fn past_digits(&self, c: char, next: &Cursor<'s>) -> Cursor<'s>
        requires { Passes self.now next.now (c ∷ []) }
        ensures { Passes self.now result (digits_at c (ahead next.now)) }
    {
        if c == '0' {
            *next
        } else {
            next.past(Class::Number)
        }
    }

    /// The number that begins with the digit `c` before the cursor `next`: its kind, and the cursor behind it.
    fn number(&self, c: char, next: &Cursor<'s>) -> (Kind, Cursor<'s>)
        requires passes { Passes self.now next.now (c ∷ []) }
        requires digit { is_digit c ≡ true }
        ensures { ReadsPiece self.now result (number_at c (ahead next.now)) }
    {
        let end = self.past_digits(c, next);
        (kind_of_number(before(self.rest, end.rest)), end)
    }

    /// The name in quotes whose first quote stands before the cursor `next`: its kind, and the cursor behind it.
    fn quoted(&self, next: &Cursor<'s>) -> (Kind, Cursor<'s>)
        requires { Passes self.now next.now (34 ∷ []) }
        ensures { ReadsPiece self.now result (file_at 34 (ahead next.now)) }
    {
        match next.past(Class::Quoted).past_char('"') {
            Some(end) => (kind_of_file(before(self.rest, end.rest)), end),
            None => (Kind::Stray, *next),
        }
    }

    /// The rest of a sign of two characters of which `c` is the first: its kind, and the cursor behind it.
    fn past_second(&self, c: char) -> Option<(Kind, Cursor<'s>)>
        ensures { ReadsSecond (second_of c) self.now result }
    {
        let (second, kind) = second_of(c)?;
        let end = self.past_char(second)?;
        Some((kind, end))
    }

    /// The sign that begins with `c` before the cursor `next`, or a stray: its kind, and the cursor behind it.
    fn sign(&self, c: char, next: &Cursor<'s>) -> (Kind, Cursor<'s>)
        requires { Passes self.now next.now (c ∷ []) }
        ensures { ReadsPiece self.now result (sign_at c (ahead next.now)) }
    {
        match next.past_second(c) {
            Some(sign) => sign,
            None => (single_kind(c), *next),
        }
    }

    /// The cursor behind the rest of `2.0`, of which `c` is the first character.
    fn past_version(&self, c: char) -> Option<Cursor<'s>>
        ensures none { IfNone result (starts_with nat_eq (c ∷ ahead self.now) (codes "2.0") ≡ false) }
        ensures some { IfSome result (λ end. (c ≡ 50) × Passes self.now end (46 ∷ 48 ∷ [])) }
    {
        if c != '2' {
            return None;
        }
        self.past_char('.')?.past_char('0')
    }

    /// What begins with `c` before the cursor `next`: its kind, and the cursor behind it.
    fn piece(&self, c: char, next: &Cursor<'s>) -> (Kind, Cursor<'s>)
        requires { Passes self.now next.now (c ∷ []) }
        ensures { ReadsPiece self.now result (piece_at c (ahead next.now)) }
    {
        if is_letter(c) {
            return self.word(c, next);
        }
        match next.past_version(c) {
            Some(end) => (Kind::Version, end),
            None if is_digit(c) => self.number(c, next),
            None if c == '"' => self.quoted(next),
            None => self.sign(c, next),
        }
    }

    /// The token that begins with `c` before the cursor `next`, and the cursor behind it.
    fn token(&self, c: char, next: &Cursor<'s>) -> (Token<'s>, Cursor<'s>)
        requires { Passes self.now next.now (c ∷ []) }
        ensures { ReadsToken self.now result (piece_at c (ahead next.now)) }
    {
        let (kind, end) = self.piece(c, next);
        let text = before(self.rest, end.rest);
        let at = self.place;
        (Token { kind, text, at }, end)
    }

    /// Whether a comment begins with `c`, behind which the cursor stands.
    fn begins_comment(&self, c: char) -> bool
        ensures { result ≡ starts_with nat_eq (c ∷ ahead self.now) (codes "//") }
    {
        c == '/' && self.past_char('/').is_some()
    }

    /// The comment whose first slash stands before the cursor `next`, where it begins a line, and the cursor behind it.
    fn comment(&self, next: &Cursor<'s>) -> (Option<Mark<'s>>, Cursor<'s>)
        requires { Passes self.now next.now (47 ∷ []) }
        ensures { ReadsFront self.now result (comment (47 ∷ run (λ d. not (d == 10)) (ahead next.now))) }
    {
        let end = next.past(Class::Line);
        if self.place.col == 1 {
            (Some(Mark::Line(before(self.rest, end.rest))), end)
        } else {
            (None, end)
        }
    }

    /// What begins with `c` before the cursor `next`, where it is a mark, and the cursor behind it.
    fn front(&self, c: char, next: &Cursor<'s>) -> (Option<Mark<'s>>, Cursor<'s>)
        requires { Passes self.now next.now (c ∷ []) }
        ensures { ReadsFront self.now result (front_of c (ahead next.now)) }
    {
        if is_blank(c) {
            return (None, *next);
        }
        if next.begins_comment(c) {
            return self.comment(next);
        }
        let (token, end) = self.token(c, next);
        (Some(Mark::Token(token)), end)
    }

    /// The next mark, where there is one, and the cursor behind it.
    pub(crate) fn next_mark(&self) -> (Option<Mark<'s>>, Cursor<'s>)
        ensures { GivesNext self.now result.0 result.1 }
    {
        let mut here = *self;
        while let Some((c, next)) = here.step() {
            let (mark, end) = here.front(c, &next);
            if mark.is_some() {
                return (mark, end);
            }
            here = end;
        }
        (None, here)
    }
}
