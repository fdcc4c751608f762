//! The lexer.

ghost use Rattle.std.specs.Prelude.{◌≡◌, ◌-◌, ◌^◌, ◌<◌, [], ◌∷◌, length, Some, IfOk, IfErr, OnErr, IfSome, IfNone};
ghost use Rattle.std.specs.Str.{chars};
ghost use Rattle.silq_lex.specs.Kinds.{kind_of, number_of};
ghost use Rattle.silq_lex.specs.Tokens.{tokens_of, located_of, with_first, ends, End, Fault, IsAtEnd};
ghost use Rattle.silq_lex.specs.Laws.{AreSlices};

use crate::cursor::Cursor;
use crate::token::{LexFault, Place, Token, TokenKind};
use std::marker::Model;

/// A text that is read token by token. It is seen as the tokens still to come, and how they end.
#[derive(Drop)]
pub struct Lexer<'s> {
    cursor: Cursor<'s>,
    fault: Option<LexFault>,
}

impl<'s> Model for Lexer<'s> {
    ghost use Rattle.silq_lex.specs.Kinds.{kind_of, number_of};
    ghost use Rattle.silq_lex.specs.Tokens.{Tokens};
    ghost use Rattle.silq_lex.specs.Lexers.{still_to_come};

    ghost Value = { Tokens };

    ghost view = { λ lexer. still_to_come lexer.fault lexer.cursor };
}

impl<'s> Lexer<'s> {
    /// A text of fewer than 2^32 - 1 bytes, from its start on.
    pub fn new(src: &'s str) -> Lexer<'s>
        requires { length src.now < 2 ^ 32 - 1 }
        ensures tokens { result ≡ tokens_of (chars src.now) }
        ensures slices { AreSlices src.now 0 result.items }
    {
        let place = Place {
            start: 0,
            line: 1,
            col: 1,
        };
        Lexer {
            cursor: Cursor { rest: src, place },
            fault: None,
        }
    }

    /// The next token; None where only blanks and whole comments are left. After a fault the same fault.
    pub fn next(&mut self) -> Result<Option<Token<'s>>, LexFault>
        ensures token { IfOk result (λ found. IfSome found
            (λ token. self.old ≡ with_first (located_of token) self.new)) }
        ensures kind { IfOk result (λ found. IfSome found
            (λ token. kind_of (chars token.text.now) ≡ Some token.kind)) }
        ensures number { IfOk result (λ found. IfSome found
            (λ token. token.kind ≡ TokenKind.Number → number_of (chars token.text.now) < 2 ^ 63)) }

        ensures end { IfOk result (λ found. IfNone found (IsAtEnd self.old)) }
        ensures stays_at_end { IfOk result (λ found. IfNone found (self.new ≡ self.old)) }

        ensures fault { IfErr result (λ fault. self.old ≡ ends (Fault fault)) }
        ensures stays_at_fault { OnErr result (self.new ≡ self.old) }
    {
        if let Some(fault) = self.fault {
            return Err(fault);
        }
        match self.cursor.next_token() {
            Ok((token, cursor)) => {
                self.cursor = cursor;
                Ok(token)
            }
            Err(fault) => {
                self.fault = Some(fault);
                Err(fault)
            }
        }
    }

    /// The place behind the last character, blanks and comments included.
    pub fn end(&self) -> Place
        requires { IsAtEnd self.now }
        ensures { self.now ≡ ends (End result) }
    {
        match self.cursor.next_token() {
            Ok((None, cursor)) => cursor.place,
            _ => unreachable!(),
        }
    }
}
