//! The items of a text, one after another.

ghost use Rattle.std.specs.Prelude.{◌≡◌, ◌^◌, ◌-◌, ◌<◌, length, reverse, IfOk, OnOk};
ghost use Rattle.std.specs.List.{All};
ghost use Rattle.std.specs.Str.{chars};
ghost use Rattle.qasm_tokens.specs.declared.token.Mark.TheVariants as marks;
ghost use Rattle.qasm_tokens.specs.Items.{is_whole};
ghost use Rattle.qasm_tokens.specs.Taken.{Takes, Adds, AddsToken, TellsWhole, KeepsSpelled, IsSpelled, ending_of, is_at_semicolon, item_of, items_in, still};

use crate::cursor::Cursor;
use crate::kind::Kind;
use crate::same::same_kind;
use crate::stack::{may_stop, put, step};
use crate::symbol::{Symbol, TEXT};
use crate::token::{Mark, Token};
use silq_lex::Place;
use std::alloc::{AllocError, Global};
use std::marker::Model;

/// How an item ends.
#[derive(Clone, Copy)]
pub enum Ending {
    /// With its semicolon.
    Whole,
    /// With the text, where it may end.
    TextEnd,
    /// At the first token that cannot come, or with the text where it may not end: the place.
    Syntax(Place),
}

/// An item of a text, as far as the grammar goes.
#[derive(Drop)]
pub struct Taken<'s> {
    /// Its tokens, the semicolon included.
    pub tokens: Vec<Token<'s>>,
    /// The comments that begin in the first column, before and in it.
    pub lines: Vec<&'s str>,
    /// How it ends.
    pub ending: Ending,
}

/// The items of a text, one after another. It is seen as the items still to come, and the place of the text's Syntax, if any.
#[derive(Drop)]
pub struct ItemReader<'s> {
    cursor: Cursor<'s>,
    stack: Vec<Symbol>,
}

impl<'s> Model for ItemReader<'s> {
    ghost use Rattle.std.specs.Prelude.{reverse};
    ghost use Rattle.qasm_tokens.specs.Upcoming.{Upcoming};

    ghost Value = { Upcoming };

    ghost use Rattle.qasm_tokens.specs.Taken.{still};

    ghost view = { λ reader. still reader.cursor (reverse reader.stack.items) };
}

/// How an item ends with the text, of which this is the last place.
fn ending_of(stack: &[Symbol], end: Place) -> Ending
    ensures { result ≡ ending_of (reverse stack.now) end }
{
    if may_stop(stack) {
        Ending::TextEnd
    } else {
        Ending::Syntax(end)
    }
}

impl<'s> Taken<'s> {
    /// Adds a token. Whether the item ends with it.
    fn add_token(&mut self, stack: &mut Vec<Symbol>, token: Token<'s>) -> Result<bool, AllocError>
        ensures item { IfOk result (λ ends. AddsToken self.old (reverse stack.old.items) token.entry ends self.new (reverse stack.new.items)) }
        ensures whole { IfOk result (λ ends. TellsWhole self.old ends self.new) }
        ensures numbers { OnOk result (KeepsSpelled self.old (marks.Token token.entry) self.new) }
    {
        if !step(stack, token.kind)? {
            self.ending = Ending::Syntax(token.at);
            return Ok(true);
        }
        self.tokens.push(token)?;
        if same_kind(Kind::Semicolon, token.kind) {
            self.ending = Ending::Whole;
            return Ok(true);
        }
        Ok(false)
    }

    /// Adds a token or a line. Whether the item ends with it.
    fn add(&mut self, stack: &mut Vec<Symbol>, mark: Mark<'s>) -> Result<bool, AllocError>
        ensures item { IfOk result (λ ends. Adds self.old (reverse stack.old.items) mark.entry ends self.new (reverse stack.new.items)) }
        ensures whole { IfOk result (λ ends. TellsWhole self.old ends self.new) }
        ensures numbers { OnOk result (KeepsSpelled self.old mark.entry self.new) }
    {
        match mark {
            Mark::Token(token) => self.add_token(stack, token),
            Mark::Line(text) => {
                self.lines.push(text)?;
                Ok(false)
            }
        }
    }
}

/// The next item from a cursor on, where the stack is expected.
fn item_at<'s>(
    alloc: Global,
    cursor: &mut Cursor<'s>,
    stack: &mut Vec<Symbol>,
) -> Result<Taken<'s>, AllocError>
    ensures item { IfOk result (λ taken. Takes (still cursor.old (reverse stack.old.items)) taken (still cursor.new (reverse stack.new.items))) }
    ensures whole { IfOk result (λ taken. is_whole (item_of taken).tokens ≡ is_at_semicolon taken.ending) }
    ensures numbers { IfOk result (λ taken. All IsSpelled (item_of taken).tokens) }
{
    let mut item = Taken {
        tokens: Vec::new(alloc),
        lines: Vec::new(alloc),
        ending: Ending::TextEnd,
    };
    loop {
        let (mark, next) = cursor.next_mark();
        *cursor = next;
        let Some(mark) = mark else {
            item.ending = ending_of(stack, next.place);
            return Ok(item);
        };
        if item.add(stack, mark)? {
            return Ok(item);
        }
    }
}

impl<'s> ItemReader<'s> {
    /// The items of a text of fewer than 2^32 - 1 bytes, from its first on.
    pub fn new(alloc: Global, text: &'s str) -> Result<ItemReader<'s>, AllocError>
        requires { length text.now < 2 ^ 32 - 1 }
        ensures { IfOk result (λ reader. reader ≡ items_in (chars text.now)) }
    {
        let place = Place {
            start: 0,
            line: 1,
            col: 1,
        };
        let mut stack = Vec::new(alloc);
        put(&mut stack, &TEXT)?;
        Ok(ItemReader {
            cursor: Cursor { rest: text, place },
            stack,
        })
    }

    /// The next item. After an error the reader is of no further use.
    pub fn take_item(&mut self, alloc: Global) -> Result<Taken<'s>, AllocError>
        ensures item { IfOk result (λ taken. Takes self.old taken self.new) }
        ensures whole { IfOk result (λ taken. is_whole (item_of taken).tokens ≡ is_at_semicolon taken.ending) }
        ensures numbers { IfOk result (λ taken. All IsSpelled (item_of taken).tokens) }
    {
        item_at(alloc, &mut self.cursor, &mut self.stack)
    }
}
