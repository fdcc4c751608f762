//! The operands among the tokens of an item.

ghost use Rattle.std.specs.Prelude.{◌≡◌, ◌<◌, ◌^◌, [], ◌++◌, All, IfOk, map};
ghost use Rattle.qasm_tokens.specs.Table.{is_name};
ghost use Rattle.qasm_read.specs.Read.{IsSpelled, operands_of, tokens_of};
ghost use Rattle.qasm_read.specs.Refusals as spec;
ghost use Rattle.qasm_read.specs.Refusals.{has_index, is_bare};

use qasm_tokens::{Kind, Token, number, same_kind};
use silq_lex::Place;
use std::alloc::{AllocError, Global};

/// What stands behind an operand's name.
#[derive(Clone, Copy)]
pub enum Index {
    /// No bracket.
    Bare,
    /// A bracket and no number.
    Open,
    /// An index, and the place of its number.
    At(Place, u32),
}

impl Index {
    /// Whether there is no bracket.
    pub(crate) fn is_bare(&self) -> bool
        ensures { result ≡ is_bare self.now }
    {
        matches!(self, Index::Bare)
    }

    /// Whether there is an index.
    pub(crate) fn has_index(&self) -> bool
        ensures { result ≡ has_index self.now }
    {
        matches!(self, Index::At(_, _))
    }
}

/// An operand: a name with what stands behind it.
#[derive(Clone, Copy)]
pub struct Operand<'s> {
    pub name: Token<'s>,
    pub index: Index,
}

/// What the tokens behind a name say of its index.
fn index_after(tokens: &[Token]) -> Index
    requires { All IsSpelled tokens.now }
    ensures { result ≡ spec.index_after (tokens_of tokens.now) }
{
    match tokens {
        [bracket, rest @ ..] if same_kind(Kind::LeftBracket, bracket.kind) => number_in(rest),
        _ => Index::Bare,
    }
}

/// The index behind a bracket.
fn number_in(tokens: &[Token]) -> Index
    requires { All IsSpelled tokens.now }
    ensures { result ≡ spec.number_in (tokens_of tokens.now) }
{
    match tokens {
        [token, ..] if same_kind(Kind::Number, token.kind) => {
            Index::At(token.at, number(token.text))
        }
        _ => Index::Open,
    }
}

/// Whether the kind is that of a word that starts with a lower-case letter.
fn is_name(kind: Kind) -> bool
    ensures { result ≡ is_name kind }
{
    matches!(
        kind,
        Kind::Include
            | Kind::Qreg
            | Kind::Creg
            | Kind::Measure
            | Kind::If
            | Kind::Barrier
            | Kind::Definition
            | Kind::Reset
            | Kind::One(_)
            | Kind::Cx
            | Kind::Cz
            | Kind::Ccx
            | Kind::Lower
    )
}

/// The operands in tokens: each name with its index.
pub(crate) fn operands<'s>(
    alloc: Global,
    tokens: &[Token<'s>],
) -> Result<Vec<Operand<'s>>, AllocError>
    requires { All IsSpelled tokens.now }
    ensures { IfOk result (λ found. operands_of found.items ≡ spec.operands (tokens_of tokens.now)) }
{
    let mut found = Vec::new(alloc);
    for i in 0..tokens.len() {
        let name = tokens[i];
        if is_name(name.kind) {
            found.push(Operand {
                name,
                index: index_after(&tokens[i + 1..]),
            })?;
        }
    }
    Ok(found)
}
