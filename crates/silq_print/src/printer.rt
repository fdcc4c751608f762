//! Putting tokens, each with one blank behind it.

ghost use Rattle.std.specs.Prelude.{◌≡◌, ℕ, ◌≤◌, true, false, List, [], ◌∷◌, ◌++◌, OnOk, OnErr, decimal, slice_index_or};
ghost use Rattle.silq_io.specs.Counts.{Rose};
ghost use Rattle.silq_io.specs.Sinks.{Adds, Breaks};
ghost use Rattle.silq_grammar.specs.declared.token.Token.TheVariants.{Name, Number, Fixed};
ghost use Rattle.silq_print.specs.Bare.{nowhere};
ghost use Rattle.silq_print.specs.Printed.{token_text, blank_behind, printed};
ghost use Rattle.silq_print.specs.Puts.{state, Puts};

use crate::terminal::spelling;
use itoa::Buffer;
use silq_grammar::{Terminal, Token};
use silq_io::{Failed, Sink, put_all};
use silq_tree::{NameId, Names, Spot};

/// The place of each token that is put: it has none.
const NOWHERE: Spot = Spot { line: 0, col: 0 };

/// The text of a name; where there is none, the empty one.
fn name_text(names: &Names, id: NameId) -> &str
    ensures { result.now ≡ slice_index_or names.now id.number [] }
{
    if (id.number as usize) < names.len() {
        names.text(id)
    } else {
        ""
    }
}

/// Puts a number; a negative one is none, and nothing is put.
fn put_number<S: Sink>(out: &mut S, names: &Names, value: i64) -> Result<(), Failed>
    ensures ok { OnOk result (Adds (S.put_so_far out.old) (S.put_so_far out.new) (token_text names.now (Number value nowhere))) }
    ensures count { S.faults out.old ≤ S.faults out.new }
    ensures failed { OnErr result (Rose (S.faults out.old) (S.faults out.new)) }
    ensures broken { OnErr result (Breaks (S.put_so_far out.old) (S.put_so_far out.new) (token_text names.now (Number value nowhere))) }
{
    let Ok(size) = u64::try_from(value) else {
        return Ok(());
    };
    let mut buffer = Buffer::new();
    put_all(out, buffer.format(size).as_bytes())
}

/// Puts the text of a token.
fn put_text<S: Sink>(out: &mut S, names: &Names, token: Token) -> Result<(), Failed>
    ensures ok { OnOk result (Adds (S.put_so_far out.old) (S.put_so_far out.new) (token_text names.now token)) }
    ensures count { S.faults out.old ≤ S.faults out.new }
    ensures failed { OnErr result (Rose (S.faults out.old) (S.faults out.new)) }
    ensures broken { OnErr result (Breaks (S.put_so_far out.old) (S.put_so_far out.new) (token_text names.now token)) }
{
    match token {
        Token::Name(id, _) => put_all(out, name_text(names, id).as_bytes()),
        Token::Number(value, _) => put_number(out, names, value),
        Token::Fixed(t, _) => put_all(out, spelling(t).as_bytes()),
    }
}

/// The blank behind a token: a statement, and each brace, ends its line.
fn blank(token: Token) -> u8
    ensures { result ≡ blank_behind token }
{
    match token {
        Token::Fixed(Terminal::Semicolon, _) => b'\n',
        Token::Fixed(Terminal::LeftBrace, _) => b'\n',
        Token::Fixed(Terminal::RightBrace, _) => b'\n',
        _ => b' ',
    }
}

/// Puts a token with the blank behind it.
#[tactic(auto, using(crate::proofs::Puts::parts))]
fn put_token<S: Sink>(out: &mut S, names: &Names, token: Token) -> Result<(), Failed>
    ensures ok { OnOk result (Adds (S.put_so_far out.old) (S.put_so_far out.new) (token_text names.now token ++ blank_behind token ∷ [])) }
    ensures count { S.faults out.old ≤ S.faults out.new }
    ensures failed { OnErr result (Rose (S.faults out.old) (S.faults out.new)) }
    ensures broken { OnErr result (Breaks (S.put_so_far out.old) (S.put_so_far out.new) (token_text names.now token ++ blank_behind token ∷ [])) }
{
    put_text(out, names, token)?;
    put_all(out, &[blank(token)])
}

/// Puts tokens to a sink. Once the sink failed, nothing more is put.
#[derive(Drop)]
pub(crate) struct Printer<'a, S: Sink> {
    out: &'a mut S,
    failed: bool,
}

impl<'a, S: Sink> Printer<'a, S> {
    /// A printer to this sink.
    pub(crate) fn new(out: &'a mut S) -> Printer<'a, S>
        ensures same_sink { result.out.ghost_name ≡ out.entry.ghost_name }
        ensures now { result.out.now ≡ out.old }
        ensures fine { result.failed ≡ false }
    {
        Printer { out, failed: false }
    }

    /// Whether the sink failed.
    pub(crate) fn failed(&self) -> bool
        ensures { result ≡ self.now.failed }
    {
        self.failed
    }

    /// Puts a token.
    pub(crate) fn put(&mut self, names: &Names, token: Token)
        ensures same_sink { self.new.out.ghost_name ≡ self.old.out.ghost_name }
        ensures puts { Puts true names.now (state self.old.failed (S.put_so_far self.old.out.now) (S.faults self.old.out.now)) (state self.new.failed (S.put_so_far self.new.out.now) (S.faults self.new.out.now)) (token ∷ []) }
    {
        if !self.failed {
            self.failed = put_token(self.out, names, token).is_err();
        }
    }

    /// Puts a word or a sign.
    pub(crate) fn fixed(&mut self, names: &Names, t: Terminal)
        ensures same_sink { self.new.out.ghost_name ≡ self.old.out.ghost_name }
        ensures puts { Puts true names.now (state self.old.failed (S.put_so_far self.old.out.now) (S.faults self.old.out.now)) (state self.new.failed (S.put_so_far self.new.out.now) (S.faults self.new.out.now)) (Fixed t nowhere ∷ []) }
    {
        self.put(names, Token::Fixed(t, NOWHERE))
    }

    /// Puts a name.
    pub(crate) fn name(&mut self, names: &Names, id: NameId)
        ensures same_sink { self.new.out.ghost_name ≡ self.old.out.ghost_name }
        ensures puts { Puts true names.now (state self.old.failed (S.put_so_far self.old.out.now) (S.faults self.old.out.now)) (state self.new.failed (S.put_so_far self.new.out.now) (S.faults self.new.out.now)) (Name id nowhere ∷ []) }
    {
        self.put(names, Token::Name(id, NOWHERE))
    }

    /// Puts a number.
    pub(crate) fn number(&mut self, names: &Names, value: &i64)
        ensures same_sink { self.new.out.ghost_name ≡ self.old.out.ghost_name }
        ensures puts { Puts true names.now (state self.old.failed (S.put_so_far self.old.out.now) (S.faults self.old.out.now)) (state self.new.failed (S.put_so_far self.new.out.now) (S.faults self.new.out.now)) (Number value.now nowhere ∷ []) }
    {
        self.put(names, Token::Number(*value, NOWHERE))
    }
}
