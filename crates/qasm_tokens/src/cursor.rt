//! A place in a text, with the text from there on.

ghost use Rattle.std.specs.Prelude.{◌≡◌, ℕ, ◌+◌, ◌-◌, ◌^◌, ◌<◌, ◌≤◌, false, List};
ghost use Rattle.std.specs.Prelude.{[], ◌∷◌, ◌++◌, length, nat_eq, MatchOption, IfNone, IfSome, encode_utf8, encode_utf8_all};
ghost use Rattle.std.specs.Str.{chars};
ghost use Rattle.std.specs.List.{starts_with};
ghost use Rattle.silq_lex.specs.Tokens.{behind, behind_all};

use crate::class::Class;
use silq_lex::Place;

/// A place in a text, with the text from there on.
#[derive(Clone, Copy)]
pub(crate) struct Cursor<'s> {
    pub(crate) rest: &'s str,
    pub(crate) place: Place,
    ghost small: { place.start + length rest.now < 2 ^ 32 - 1 },
    ghost line_small: { place.line ≤ place.start + 1 },
    ghost col_small: { place.col ≤ place.start + 1 },
}

/// The first character, and the text behind it.
fn split_first(text: &str) -> Option<(char, &str)>
    ensures first { MatchOption result (chars text.now ≡ []) (λ p. chars text.now ≡ p.0 ∷ chars p.1.now) }
    ensures bytes { MatchOption result (text.now ≡ []) (λ p. text.now ≡ encode_utf8 p.0 ++ p.1.now) }
    ensures shorter { IfSome result (λ p. length p.1.now < length text.now) }
{
    let mut more = text.chars();
    let c = more.next()?;
    Some((c, more.as_str()))
}

/// The text before the rest of it.
pub(crate) fn before<'t>(text: &'t str, rest: &str) -> &'t str
    requires { (front : List ℕ) × (chars text.now ≡ front ++ chars rest.now) }
    ensures { (front : List ℕ) → chars text.now ≡ front ++ chars rest.now → chars result.now ≡ front }
{
    text.split_at(text.len() - rest.len()).0
}

/// The place behind a character at this place.
fn behind(at: Place, c: char) -> Place
    requires start { at.start < 2 ^ 32 }
    requires line { at.line < 2 ^ 32 - 1 }
    requires col { at.col < 2 ^ 32 - 1 }
    ensures { result ≡ behind at c }
{
    let start = at.start + c.len_utf8();
    if c == '\n' {
        Place {
            start,
            line: at.line + 1,
            col: 1,
        }
    } else {
        Place {
            start,
            line: at.line,
            col: at.col + 1,
        }
    }
}

impl<'s> Cursor<'s> {
    ghost use Rattle.qasm_tokens.specs.Cursors.{Passes, ahead};
    ghost use Rattle.silq_lex.specs.Runs.{run, past};
    ghost use Rattle.qasm_tokens.specs.Classes.{passes};

    /// The first character, and the cursor behind it.
    pub(crate) fn step(&self) -> Option<(char, Cursor<'s>)>
        ensures none { IfNone result (ahead self.now ≡ []) }
        ensures some { IfSome result (λ p. Passes self.now p.1 (p.0 ∷ [])) }
        ensures shorter { IfSome result (λ p. length p.1.rest.now < length self.now.rest.now) }
    {
        let (c, rest) = split_first(self.rest)?;
        let place = behind(self.place, c);
        Some((c, Cursor { rest, place }))
    }

    /// The cursor behind the characters of a class.
    pub(crate) fn past(&self, class: Class) -> Cursor<'s>
        ensures place { result.place ≡ behind_all self.now.place (run (passes class) (ahead self.now)) }
        ensures rest { ahead result ≡ past (passes class) (ahead self.now) }
        ensures no_longer { length result.rest.now ≤ length self.now.rest.now }
    {
        let mut cursor = *self;
        while let Some((c, next)) = cursor.step() {
            if !class.passes(c) {
                return cursor;
            }
            cursor = next;
        }
        cursor
    }

    /// The cursor behind this character, where it stands here.
    pub(crate) fn past_char(&self, c: char) -> Option<Cursor<'s>>
        ensures none { IfNone result (starts_with nat_eq (ahead self.now) (c ∷ []) ≡ false) }
        ensures some { IfSome result (λ next. Passes self.now next (c ∷ [])) }
        ensures shorter { IfSome result (λ next. length next.rest.now < length self.now.rest.now) }
    {
        match self.step() {
            Some((d, next)) if d == c => Some(next),
            _ => None,
        }
    }
}
