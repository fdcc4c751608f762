//! The grammar as a table: what is expected behind each token.

ghost use Rattle.std.specs.Prelude.{◌≡◌, [], true, false, MatchOption};
ghost use Rattle.qasm_tokens.specs.Table.{begin, begin_gate, can_be_empty, is_name};
ghost use Rattle.qasm_tokens.specs.declared.symbol.Symbol.TheVariants as symbols;

use crate::kind::Kind;
use crate::same::same_kind;

/// What the grammar expects at a place.
#[derive(Clone, Copy)]
pub enum Symbol {
    /// One sign, number or word.
    Expect(Kind),
    /// A register's name: any word that starts with a lower-case letter.
    AName,
    /// Items up to the text's end.
    Items,
    /// The name of a file.
    AFile,
    /// An index, or none.
    IndexPart,
    /// What an `if` holds.
    UnderIf,
    /// Further operands of a barrier.
    MoreBarrier,
    /// What stands behind a form that is refused by name: anything.
    Unread,
}

/// What is expected of a text.
pub(crate) static TEXT: [Symbol; 4] = [
    Symbol::Expect(Kind::OpenQasm),
    Symbol::Expect(Kind::Version),
    Symbol::Expect(Kind::Semicolon),
    Symbol::Items,
];

static NOTHING: [Symbol; 0] = [];

static UNREAD: [Symbol; 1] = [Symbol::Unread];

static FILE: [Symbol; 1] = [Symbol::AFile];

static END_ITEM: [Symbol; 2] = [Symbol::Expect(Kind::Semicolon), Symbol::Items];

static DECLARATION: [Symbol; 6] = [
    Symbol::AName,
    Symbol::Expect(Kind::LeftBracket),
    Symbol::Expect(Kind::Number),
    Symbol::Expect(Kind::RightBracket),
    Symbol::Expect(Kind::Semicolon),
    Symbol::Items,
];

static MEASURE: [Symbol; 7] = [
    Symbol::AName,
    Symbol::IndexPart,
    Symbol::Expect(Kind::Arrow),
    Symbol::AName,
    Symbol::IndexPart,
    Symbol::Expect(Kind::Semicolon),
    Symbol::Items,
];

static CONDITION: [Symbol; 6] = [
    Symbol::Expect(Kind::LeftParen),
    Symbol::AName,
    Symbol::Expect(Kind::Equal),
    Symbol::Expect(Kind::Number),
    Symbol::Expect(Kind::RightParen),
    Symbol::UnderIf,
];

static BARRIER: [Symbol; 5] = [
    Symbol::AName,
    Symbol::IndexPart,
    Symbol::MoreBarrier,
    Symbol::Expect(Kind::Semicolon),
    Symbol::Items,
];

static ONE_OPERAND: [Symbol; 4] = [
    Symbol::AName,
    Symbol::IndexPart,
    Symbol::Expect(Kind::Semicolon),
    Symbol::Items,
];

static TWO_OPERANDS: [Symbol; 7] = [
    Symbol::AName,
    Symbol::IndexPart,
    Symbol::Expect(Kind::Comma),
    Symbol::AName,
    Symbol::IndexPart,
    Symbol::Expect(Kind::Semicolon),
    Symbol::Items,
];

static THREE_OPERANDS: [Symbol; 10] = [
    Symbol::AName,
    Symbol::IndexPart,
    Symbol::Expect(Kind::Comma),
    Symbol::AName,
    Symbol::IndexPart,
    Symbol::Expect(Kind::Comma),
    Symbol::AName,
    Symbol::IndexPart,
    Symbol::Expect(Kind::Semicolon),
    Symbol::Items,
];

static INDEX: [Symbol; 2] = [
    Symbol::Expect(Kind::Number),
    Symbol::Expect(Kind::RightBracket),
];

static OPERANDS: [Symbol; 3] = [Symbol::AName, Symbol::IndexPart, Symbol::MoreBarrier];

/// Whether the kind is that of a word that starts with a lower-case letter.
fn is_name(kind: Kind) -> bool
    ensures { result ≡ is_name kind }
{
    matches!(
        kind,
        Kind::Include
            | Kind::Qreg
            | Kind::Creg
            | Kind::Measure
            | Kind::If
            | Kind::Barrier
            | Kind::Definition
            | Kind::Reset
            | Kind::One(_)
            | Kind::Cx
            | Kind::Cz
            | Kind::Ccx
            | Kind::Lower
    )
}

/// What is expected behind the word of a gate, or another word in its place.
fn begin_gate(kind: Kind) -> Option<&'static [Symbol]>
    ensures { MatchOption result (begin_gate kind ≡ None) (λ rule. begin_gate kind ≡ Some rule.now) }
{
    match kind {
        Kind::One(_) => Some(&ONE_OPERAND),
        Kind::Cx | Kind::Cz => Some(&TWO_OPERANDS),
        Kind::Ccx => Some(&THREE_OPERANDS),
        Kind::Lower | Kind::Upper => Some(&UNREAD),
        _ => None,
    }
}

/// What is expected behind the first token of an item.
fn begin_item(kind: Kind) -> Option<&'static [Symbol]>
    ensures { MatchOption result (begin symbols.Items kind ≡ None) (λ rule. begin symbols.Items kind ≡ Some rule.now) }
{
    match kind {
        Kind::Include => Some(&FILE),
        Kind::Qreg | Kind::Creg => Some(&DECLARATION),
        Kind::Measure => Some(&MEASURE),
        Kind::If => Some(&CONDITION),
        Kind::Barrier => Some(&BARRIER),
        Kind::Definition | Kind::Reset => Some(&UNREAD),
        _ => begin_gate(kind),
    }
}

/// What is expected behind the first token of what an `if` holds.
fn begin_under_if(kind: Kind) -> Option<&'static [Symbol]>
    ensures { MatchOption result (begin symbols.UnderIf kind ≡ None) (λ rule. begin symbols.UnderIf kind ≡ Some rule.now) }
{
    match kind {
        Kind::Measure | Kind::Reset | Kind::Barrier => Some(&UNREAD),
        _ => begin_gate(kind),
    }
}

/// What is expected behind the name of a file.
fn begin_file(kind: Kind) -> Option<&'static [Symbol]>
    ensures { MatchOption result (begin symbols.AFile kind ≡ None) (λ rule. begin symbols.AFile kind ≡ Some rule.now) }
{
    match kind {
        Kind::Library => Some(&END_ITEM),
        Kind::OtherFile => Some(&UNREAD),
        _ => None,
    }
}

/// What is expected behind the bracket of an index.
fn begin_index(kind: Kind) -> Option<&'static [Symbol]>
    ensures { MatchOption result (begin symbols.IndexPart kind ≡ None) (λ rule. begin symbols.IndexPart kind ≡ Some rule.now) }
{
    match kind {
        Kind::LeftBracket => Some(&INDEX),
        _ => None,
    }
}

/// What is expected behind a comma of a barrier.
fn begin_more(kind: Kind) -> Option<&'static [Symbol]>
    ensures { MatchOption result (begin symbols.MoreBarrier kind ≡ None) (λ rule. begin symbols.MoreBarrier kind ≡ Some rule.now) }
{
    match kind {
        Kind::Comma => Some(&OPERANDS),
        _ => None,
    }
}

/// Nothing further, where the token may come.
fn begin_one(may_come: bool) -> Option<&'static [Symbol]>
    ensures { MatchOption result (may_come ≡ false) (λ rule. (may_come ≡ true) × (rule.now ≡ [])) }
{
    if may_come { Some(&NOTHING) } else { None }
}

impl Symbol {
    /// What is expected behind the token, where the symbol begins with it.
    pub(crate) fn begin(self, kind: Kind) -> Option<&'static [Symbol]>
        ensures { MatchOption result (begin self kind ≡ None) (λ rule. begin self kind ≡ Some rule.now) }
    {
        match self {
            Symbol::Expect(expected) => begin_one(same_kind(expected, kind)),
            Symbol::AName => begin_one(is_name(kind)),
            Symbol::Items => begin_item(kind),
            Symbol::AFile => begin_file(kind),
            Symbol::IndexPart => begin_index(kind),
            Symbol::UnderIf => begin_under_if(kind),
            Symbol::MoreBarrier => begin_more(kind),
            Symbol::Unread => Some(&UNREAD),
        }
    }

    /// Whether the symbol may stand for no tokens.
    pub(crate) fn can_be_empty(self) -> bool
        ensures { result ≡ can_be_empty self }
    {
        matches!(
            self,
            Symbol::Items | Symbol::IndexPart | Symbol::MoreBarrier | Symbol::Unread
        )
    }
}
