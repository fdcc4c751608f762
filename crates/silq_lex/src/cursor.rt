//! A place in the source, with the text from there on.

ghost use Rattle.std.specs.Prelude.{◌≡◌, ℕ, ◌+◌, ◌-◌, ◌^◌, ◌<◌, ◌≤◌, List, [], ◌∷◌, ◌++◌, true, length, MatchOption, IfNone, IfSome, encode_utf8, encode_utf8_all};
ghost use Rattle.std.specs.Str.{chars};
ghost use Rattle.silq_lex.specs.Kinds.{is_one_of, signs, kind_of, is_name};
ghost use Rattle.silq_lex.specs.Longest.{longest};
ghost use Rattle.silq_lex.specs.Tokens.{behind, behind_all, through_close, kinded, token, fault_at};

use crate::class::{Class, is_blank, is_digit, starts_name};
use crate::digits::fits;
use crate::token::{LexCause, LexFault, Place, Token, TokenKind};
use crate::words::{is_double, is_reserved, is_single};

/// A place in the source, with the text from there on.
#[derive(Clone, Copy)]
pub(crate) struct Cursor<'s> {
    pub(crate) rest: &'s str,
    pub(crate) place: Place,
    ghost small: { place.start + length rest.now < 2 ^ 32 - 1 },
    ghost line_small: { place.line ≤ place.start + 1 },
    ghost col_small: { place.col ≤ place.start + 1 },
}

/// The first character, and the text behind it.
fn split_first(text: &str) -> Option<(char, &str)>
    ensures first { MatchOption result (chars text.now ≡ []) (λ p. chars text.now ≡ p.0 ∷ chars p.1.now) }
    ensures bytes { MatchOption result (text.now ≡ []) (λ p. text.now ≡ encode_utf8 p.0 ++ p.1.now) }
    ensures shorter { IfSome result (λ p. length p.1.now < length text.now) }
{
    let mut more = text.chars();
    let c = more.next()?;
    Some((c, more.as_str()))
}

/// The text before the rest of it.
fn before<'t>(text: &'t str, rest: &str) -> &'t str
    requires { (front : List ℕ) × (chars text.now ≡ front ++ chars rest.now) }
    ensures bytes { (front : List ℕ) → chars text.now ≡ front ++ chars rest.now → result.now ≡ encode_utf8_all front }
    ensures characters { (front : List ℕ) → chars text.now ≡ front ++ chars rest.now → chars result.now ≡ front }
{
    text.split_at(text.len() - rest.len()).0
}

/// The place behind a character at this place.
fn behind(at: Place, c: char) -> Place
    requires start { at.start < 2 ^ 32 }
    requires line { at.line < 2 ^ 32 - 1 }
    requires col { at.col < 2 ^ 32 - 1 }
    ensures { result ≡ behind at c }
{
    let start = at.start + c.len_utf8();
    if c == '\n' {
        Place {
            start,
            line: at.line + 1,
            col: 1,
        }
    } else {
        Place {
            start,
            line: at.line,
            col: at.col + 1,
        }
    }
}

/// The kind of a name.
fn kind_of_name(text: &str) -> TokenKind
    requires { is_name (chars text.now) ≡ true }
    ensures { kinded (kind_of (chars text.now)) (chars text.now) ≡ token result (chars text.now) }
{
    if is_reserved(text) {
        TokenKind::Word
    } else {
        TokenKind::Name
    }
}

impl<'s> Cursor<'s> {
    ghost use Rattle.silq_lex.specs.Cursors.{Passes, PassesGap, PassesGaps, IsThere, ReadsToken, GivesNext, behind_front, upcoming};
    ghost use Rattle.silq_lex.specs.Runs.{run, past};
    ghost use Rattle.silq_lex.specs.Classes.{goes_on};

    /// The first character, and the cursor behind it.
    fn step(&self) -> Option<(char, Cursor<'s>)>
        ensures none { IfNone result (chars self.now.rest.now ≡ []) }
        ensures some { IfSome result (λ p. Passes self.now p.1 (p.0 ∷ [])) }
        ensures shorter { IfSome result (λ p. length p.1.rest.now < length self.now.rest.now) }
    {
        let (c, rest) = split_first(self.rest)?;
        let place = behind(self.place, c);
        Some((c, Cursor { rest, place }))
    }

    /// The cursor behind the characters of a class.
    fn past(&self, class: Class) -> Cursor<'s>
        ensures place { result.place ≡ behind_all self.now.place (run (goes_on class) (chars self.now.rest.now)) }
        ensures rest { chars result.rest.now ≡ past (goes_on class) (chars self.now.rest.now) }
        ensures no_longer { length result.rest.now ≤ length self.now.rest.now }
    {
        let mut cursor = *self;
        while let Some((c, next)) = cursor.step() {
            if !class.goes_on(c) {
                return cursor;
            }
            cursor = next;
        }
        cursor
    }

    /// The cursor behind the next `*/`.
    fn past_close(&self) -> Option<Cursor<'s>>
        ensures there { IsThere result
            (behind_front self.now.place (chars self.now.rest.now) (through_close (chars self.now.rest.now))) }
        ensures no_longer { IfSome result (λ end. length end.rest.now ≤ length self.now.rest.now) }
    {
        let mut inside = *self;
        while let Some((c, next)) = inside.step() {
            if c == '*'
                && let Some(('/', end)) = next.step()
            {
                return Some(end);
            }
            inside = next;
        }
        None
    }

    /// The fault with this cause here.
    fn fault(&self, cause: LexCause) -> LexFault
        ensures { result ≡ fault_at self.now.place cause }
    {
        LexFault {
            line: self.place.line,
            col: self.place.col,
            cause,
        }
    }

    /// The cursor behind the blank or the comment here, where one is here.
    fn past_gap(&self) -> Result<Option<Cursor<'s>>, LexFault>
        ensures { PassesGap self.now result }
    {
        let Some((c, next)) = self.step() else {
            return Ok(None);
        };
        if is_blank(c) {
            return Ok(Some(next));
        }
        if c != '/' {
            return Ok(None);
        }
        match next.step() {
            Some(('/', inside)) => Ok(Some(inside.past(Class::Line))),
            Some(('*', inside)) => match inside.past_close() {
                Some(end) => Ok(Some(end)),
                None => Err(self.fault(LexCause::Comment)),
            },
            _ => Ok(None),
        }
    }

    /// The cursor behind all blanks and comments here.
    fn past_gaps(&self) -> Result<Cursor<'s>, LexFault>
        ensures { PassesGaps self.now result }
    {
        let mut cursor = *self;
        while let Some(next) = cursor.past_gap()? {
            cursor = next;
        }
        Ok(cursor)
    }

    /// The cursor behind the sign whose first character is `c`, which stands before this cursor.
    fn past_sign(&self, c: char) -> Option<Cursor<'s>>
        ensures { IsThere result (behind_front self.now.place (chars self.now.rest.now)
            (longest (λ front. is_one_of signs (c ∷ front)) (chars self.now.rest.now))) }
    {
        match self.step() {
            Some((d, end)) if is_double(c, d) => Some(end),
            _ if is_single(c) => Some(*self),
            _ => None,
        }
    }

    /// The token here with this text.
    fn located(&self, kind: TokenKind, text: &'s str) -> Token<'s>
        ensures kind { result.kind ≡ kind }
        ensures text { result.text.now ≡ text.now }
        ensures start { result.start ≡ self.now.place.start }
        ensures line { result.line ≡ self.now.place.line }
        ensures col { result.col ≡ self.now.place.col }
    {
        Token {
            kind,
            text,
            start: self.place.start,
            line: self.place.line,
            col: self.place.col,
        }
    }

    /// The token here, which begins with the character `c` before the cursor `next`, and the cursor behind it.
    fn token(&self, c: char, next: &Cursor<'s>) -> Result<(Token<'s>, Cursor<'s>), LexFault>
        requires { Passes self.now next.now (c ∷ []) }
        ensures { ReadsToken self.now result }
    {
        if starts_name(c) {
            let end = next.past(Class::Name);
            let text = before(self.rest, end.rest);
            return Ok((self.located(kind_of_name(text), text), end));
        }
        if is_digit(c) {
            let end = next.past(Class::Number);
            let text = before(self.rest, end.rest);
            if !fits(text) {
                return Err(self.fault(LexCause::Number));
            }
            return Ok((self.located(TokenKind::Number, text), end));
        }
        match next.past_sign(c) {
            Some(end) => {
                let text = before(self.rest, end.rest);
                Ok((self.located(TokenKind::Sign, text), end))
            }
            None => Err(self.fault(LexCause::Character)),
        }
    }

    /// The next token, where there is one, and the cursor behind it.
    pub(crate) fn next_token(&self) -> Result<(Option<Token<'s>>, Cursor<'s>), LexFault>
        ensures { GivesNext (upcoming self.now) result }
    {
        let here = self.past_gaps()?;
        match here.step() {
            Some((c, next)) => {
                let (token, end) = here.token(c, &next)?;
                Ok((Some(token), end))
            }
            None => Ok((None, here)),
        }
    }
}
