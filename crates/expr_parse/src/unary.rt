//! Operands with their signs.

ghost use Rattle.std.specs.Prelude.{◌≡◌, ◌+◌, ◌-◌, ◌^◌, ◌<◌, ◌≤◌, List, [], ◌∷◌, length, IfOk, OnOk, MatchResult};
ghost use Rattle.silq_tree.specs.Arena.{IsArena};
ghost use Rattle.silq_grammar.specs.declared.token.Token.TheVariants.{Name, Number, Fixed};
ghost use Rattle.silq_grammar.specs.declared.token.Terminal.TheVariants as t;
ghost use Rattle.silq_grammar.specs.Machine.{Symbol, AUnary, InName, NumberType, Closing, Ends, exprs, nest};
ghost use Rattle.silq_grammar.specs.Outcome.{outcome};
ghost use Rattle.silq_grammar.specs.Spelled.{unary_text};
ghost use Rattle.silq_grammar.specs.Trees.{unary_tree};
ghost use Rattle.expr_parse.specs.Operands.{sign_of_unary};
ghost use Rattle.expr_parse.specs.Stops.{StopsAt};
ghost use Rattle.expr_parse.specs.Reads.{ReadsExpr};

use crate::list::closed_group;
use crate::node::{add, add_group, add_number, add_target, add_unary};
use crate::operand::{Operand, begun, colon};
use crate::scalar::scalar;
use crate::stop::{Stop, deeper};
use crate::target::behind_name;
use silq_grammar::{Terminal, Token};
use silq_tree::{Expr, ExprId, NameId, Spot, Tree, UnaryOp};
use std::alloc::Global;

/// An operand with its signs, where the nest may still grow by `room`.
#[cycle(expression)]
pub(crate) fn unary<'t>(
    alloc: Global,
    tree: &mut Tree,
    tokens: &'t [Token],
    room: u32,
) -> Result<(ExprId, &'t [Token]), Stop<'t>>
    requires arena { IsArena tree.old }
    requires nodes { length tree.old.exprs + length tokens.now < 2 ^ 32 - 1 }
    ensures machine { (k : List Symbol) → nest k + room ≡ 64 → MatchResult result (λ p. outcome (AUnary ∷ k) tokens.now ≡ outcome k p.1.now)
        (λ stop. StopsAt (outcome (AUnary ∷ k) tokens.now) stop) }
    ensures reads { IfOk result (λ p. ReadsExpr unary_text unary_tree tree.old tree.new tokens.now p.0 p.1.now) }
    ensures arena { OnOk result (IsArena tree.new) }
    ensures shorter { IfOk result (λ p. length p.1.now < length tokens.now) }
{
    match begun(tokens) {
        Operand::Name(name, at, rest) => named(alloc, tree, name, at, rest, room),
        Operand::Number(value, at, rest) => number(alloc, tree, value, at, rest, room),
        Operand::Truth(value, at, rest) => Ok((add(tree, Expr::Truth { value, at })?, rest)),
        Operand::Pi(at, rest) => Ok((add(tree, Expr::Pi { at })?, rest)),
        Operand::Paren(at, rest) => enclosed(alloc, tree, at, rest, deeper(tokens, room)?),
        Operand::Sign(op, at, rest) => signed(alloc, tree, op, at, rest, deeper(tokens, room)?),
        Operand::Nothing => Err(Stop::Syntax(tokens)),
    }
}

/// A place or a call behind its name, where the nest may still grow by `room`.
#[cycle(expression)]
fn named<'t>(
    alloc: Global,
    tree: &mut Tree,
    name: NameId,
    at: Spot,
    tokens: &'t [Token],
    room: u32,
) -> Result<(ExprId, &'t [Token]), Stop<'t>>
    requires arena { IsArena tree.old }
    requires nodes { length tree.old.exprs + length tokens.now < 2 ^ 32 - 2 }
    ensures machine { (k : List Symbol) → nest k + room ≡ 64 → MatchResult result (λ p. outcome (InName ∷ k) tokens.now ≡ outcome k p.1.now)
        (λ stop. StopsAt (outcome (InName ∷ k) tokens.now) stop) }
    ensures reads { IfOk result (λ p. ReadsExpr unary_text unary_tree tree.old tree.new (Name name at ∷ tokens.now) p.0 p.1.now) }
    ensures arena { OnOk result (IsArena tree.new) }
    ensures no_longer { IfOk result (λ p. length p.1.now ≤ length tokens.now) }
{
    let (target, rest) = behind_name(alloc, tree, name, at, tokens, room)?;
    Ok((add_target(tree, target, at)?, rest))
}

/// The type of a number behind it, or none, where the nest may still grow by `room`.
#[cycle(expression)]
fn number<'t>(
    alloc: Global,
    tree: &mut Tree,
    value: i64,
    at: Spot,
    tokens: &'t [Token],
    room: u32,
) -> Result<(ExprId, &'t [Token]), Stop<'t>>
    requires arena { IsArena tree.old }
    requires nodes { length tree.old.exprs + length tokens.now < 2 ^ 32 - 2 }
    ensures machine { (k : List Symbol) → nest k + room ≡ 64 → MatchResult result (λ p. outcome (NumberType ∷ k) tokens.now ≡ outcome k p.1.now)
        (λ stop. StopsAt (outcome (NumberType ∷ k) tokens.now) stop) }
    ensures reads { IfOk result (λ p. ReadsExpr unary_text unary_tree tree.old tree.new (Number value at ∷ tokens.now) p.0 p.1.now) }
    ensures arena { OnOk result (IsArena tree.new) }
    ensures no_longer { IfOk result (λ p. length p.1.now ≤ length tokens.now) }
{
    let Some(more) = colon(tokens) else {
        return Ok((add_number(tree, value, None, at)?, tokens));
    };
    let (ty, rest) = scalar(alloc, tree, more, room)?;
    Ok((add_number(tree, value, Some(ty), at)?, rest))
}

/// Expressions behind the parenthesis that opens them, where the nest may still grow by `room` inside.
#[cycle(expression)]
fn enclosed<'t>(
    alloc: Global,
    tree: &mut Tree,
    at: Spot,
    tokens: &'t [Token],
    room: u32,
) -> Result<(ExprId, &'t [Token]), Stop<'t>>
    requires arena { IsArena tree.old }
    requires nodes { length tree.old.exprs + length tokens.now < 2 ^ 32 - 2 }
    ensures machine { (k : List Symbol) → nest (Closing t.RightParen ∷ k) + room ≡ 64 → MatchResult result (λ p. outcome (exprs (Closing t.RightParen ∷ k)) tokens.now ≡ outcome k p.1.now)
        (λ stop. StopsAt (outcome (exprs (Closing t.RightParen ∷ k)) tokens.now) stop) }
    ensures reads { IfOk result (λ p. ReadsExpr unary_text unary_tree tree.old tree.new (Fixed t.LeftParen at ∷ tokens.now) p.0 p.1.now) }
    ensures arena { OnOk result (IsArena tree.new) }
    ensures no_longer { IfOk result (λ p. length p.1.now ≤ length tokens.now) }
{
    let (group, rest) = closed_group(alloc, tree, Terminal::RightParen, tokens, room)?;
    Ok((add_group(tree, group, at)?, rest))
}

/// An operand behind one of its signs, where the nest may still grow by `room` inside.
#[cycle(expression)]
fn signed<'t>(
    alloc: Global,
    tree: &mut Tree,
    op: UnaryOp,
    at: Spot,
    tokens: &'t [Token],
    room: u32,
) -> Result<(ExprId, &'t [Token]), Stop<'t>>
    requires arena { IsArena tree.old }
    requires nodes { length tree.old.exprs + length tokens.now < 2 ^ 32 - 2 }
    ensures machine { (k : List Symbol) → nest (Ends ∷ k) + room ≡ 64 → MatchResult result (λ p. outcome (AUnary ∷ Ends ∷ k) tokens.now ≡ outcome k p.1.now)
        (λ stop. StopsAt (outcome (AUnary ∷ Ends ∷ k) tokens.now) stop) }
    ensures reads { IfOk result (λ p. ReadsExpr unary_text unary_tree tree.old tree.new (Fixed (sign_of_unary op) at ∷ tokens.now) p.0 p.1.now) }
    ensures arena { OnOk result (IsArena tree.new) }
    ensures no_longer { IfOk result (λ p. length p.1.now ≤ length tokens.now) }
{
    let (arg, rest) = unary(alloc, tree, tokens, room)?;
    Ok((add_unary(tree, op, arg, at)?, rest))
}
