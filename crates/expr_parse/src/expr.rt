//! Expressions: operators and what stands between them.

ghost use Rattle.std.specs.Prelude.{◌≡◌, ◌+◌, ◌-◌, ◌^◌, ◌<◌, ◌≤◌, List, [], ◌∷◌, length, IfOk, OnOk, MatchResult};
ghost use Rattle.silq_tree.specs.Arena.{IsArena};
ghost use Rattle.silq_grammar.specs.Machine.{Symbol, AUnary, Prods, Sums, Compare, Ands, an_expr, nest};
ghost use Rattle.silq_grammar.specs.Outcome.{outcome};
ghost use Rattle.silq_grammar.specs.Spelled.{expr_text, and_text, cmp_text, sum_text, prod_text};
ghost use Rattle.silq_grammar.specs.Trees.{expr_tree, and_tree, cmp_tree, sum_tree, prod_tree};
ghost use Rattle.expr_parse.specs.Stops.{StopsAt};
ghost use Rattle.expr_parse.specs.Reads.{ReadsExpr};

use crate::node::{add_binary, first_spot};
use crate::operator::{
    and_operator, comparison_operator, or_operator, prod_operator, sum_operator,
};
use crate::stop::{Stop, deeper};
use crate::unary::unary;
use silq_grammar::Token;
use silq_tree::{ExprId, Tree};
use std::alloc::Global;

/// An expression, where the nest may still grow by `room`.
#[cycle(expression)]
pub fn expr<'t>(
    alloc: Global,
    tree: &mut Tree,
    tokens: &'t [Token],
    room: u32,
) -> Result<(ExprId, &'t [Token]), Stop<'t>>
    requires arena { IsArena tree.old }
    requires nodes { length tree.old.exprs + length tokens.now < 2 ^ 32 - 1 }
    ensures machine { (k : List Symbol) → nest k + room ≡ 64 → MatchResult result (λ p. outcome (an_expr k) tokens.now ≡ outcome k p.1.now)
        (λ stop. StopsAt (outcome (an_expr k) tokens.now) stop) }
    ensures reads { IfOk result (λ p. ReadsExpr expr_text expr_tree tree.old tree.new tokens.now p.0 p.1.now) }
    ensures arena { OnOk result (IsArena tree.new) }
    ensures shorter { IfOk result (λ p. length p.1.now < length tokens.now) }
{
    let (mut left, mut rest) = and(alloc, tree, tokens, room)?;
    let mut inside = room;
    while let Some((op, more)) = or_operator(rest) {
        inside = deeper(rest, inside)?;
        let (right, after) = and(alloc, tree, more, inside)?;
        left = add_binary(tree, op, left, right, first_spot(tokens))?;
        rest = after;
    }
    Ok((left, rest))
}

/// What may stand on each side of `||`, where the nest may still grow by `room`.
#[cycle(expression)]
fn and<'t>(
    alloc: Global,
    tree: &mut Tree,
    tokens: &'t [Token],
    room: u32,
) -> Result<(ExprId, &'t [Token]), Stop<'t>>
    requires arena { IsArena tree.old }
    requires nodes { length tree.old.exprs + length tokens.now < 2 ^ 32 - 1 }
    ensures machine { (k : List Symbol) → nest k + room ≡ 64 → MatchResult result (λ p. outcome (AUnary ∷ Prods 0 ∷ Sums 0 ∷ Compare ∷ Ands 0 ∷ k) tokens.now ≡ outcome k p.1.now)
        (λ stop. StopsAt (outcome (AUnary ∷ Prods 0 ∷ Sums 0 ∷ Compare ∷ Ands 0 ∷ k) tokens.now) stop) }
    ensures reads { IfOk result (λ p. ReadsExpr and_text and_tree tree.old tree.new tokens.now p.0 p.1.now) }
    ensures arena { OnOk result (IsArena tree.new) }
    ensures shorter { IfOk result (λ p. length p.1.now < length tokens.now) }
{
    let (mut left, mut rest) = comparison(alloc, tree, tokens, room)?;
    let mut inside = room;
    while let Some((op, more)) = and_operator(rest) {
        inside = deeper(rest, inside)?;
        let (right, after) = comparison(alloc, tree, more, inside)?;
        left = add_binary(tree, op, left, right, first_spot(tokens))?;
        rest = after;
    }
    Ok((left, rest))
}

/// What may stand on each side of `&&`: a sum, or two that are compared; where the nest may still grow by `room`.
#[cycle(expression)]
fn comparison<'t>(
    alloc: Global,
    tree: &mut Tree,
    tokens: &'t [Token],
    room: u32,
) -> Result<(ExprId, &'t [Token]), Stop<'t>>
    requires arena { IsArena tree.old }
    requires nodes { length tree.old.exprs + length tokens.now < 2 ^ 32 - 1 }
    ensures machine { (k : List Symbol) → nest k + room ≡ 64 → MatchResult result (λ p. outcome (AUnary ∷ Prods 0 ∷ Sums 0 ∷ Compare ∷ k) tokens.now ≡ outcome k p.1.now)
        (λ stop. StopsAt (outcome (AUnary ∷ Prods 0 ∷ Sums 0 ∷ Compare ∷ k) tokens.now) stop) }
    ensures reads { IfOk result (λ p. ReadsExpr cmp_text cmp_tree tree.old tree.new tokens.now p.0 p.1.now) }
    ensures arena { OnOk result (IsArena tree.new) }
    ensures shorter { IfOk result (λ p. length p.1.now < length tokens.now) }
{
    let (left, rest) = sum(alloc, tree, tokens, room)?;
    let Some((op, more)) = comparison_operator(rest) else {
        return Ok((left, rest));
    };
    let (right, after) = sum(alloc, tree, more, deeper(rest, room)?)?;
    let id = add_binary(tree, op, left, right, first_spot(tokens))?;
    Ok((id, after))
}

/// A sum, where the nest may still grow by `room`.
#[cycle(expression)]
fn sum<'t>(
    alloc: Global,
    tree: &mut Tree,
    tokens: &'t [Token],
    room: u32,
) -> Result<(ExprId, &'t [Token]), Stop<'t>>
    requires arena { IsArena tree.old }
    requires nodes { length tree.old.exprs + length tokens.now < 2 ^ 32 - 1 }
    ensures machine { (k : List Symbol) → nest k + room ≡ 64 → MatchResult result (λ p. outcome (AUnary ∷ Prods 0 ∷ Sums 0 ∷ k) tokens.now ≡ outcome k p.1.now)
        (λ stop. StopsAt (outcome (AUnary ∷ Prods 0 ∷ Sums 0 ∷ k) tokens.now) stop) }
    ensures reads { IfOk result (λ p. ReadsExpr sum_text sum_tree tree.old tree.new tokens.now p.0 p.1.now) }
    ensures arena { OnOk result (IsArena tree.new) }
    ensures shorter { IfOk result (λ p. length p.1.now < length tokens.now) }
{
    let (mut left, mut rest) = prod(alloc, tree, tokens, room)?;
    let mut inside = room;
    while let Some((op, more)) = sum_operator(rest) {
        inside = deeper(rest, inside)?;
        let (right, after) = prod(alloc, tree, more, inside)?;
        left = add_binary(tree, op, left, right, first_spot(tokens))?;
        rest = after;
    }
    Ok((left, rest))
}

/// A product, where the nest may still grow by `room`.
#[cycle(expression)]
fn prod<'t>(
    alloc: Global,
    tree: &mut Tree,
    tokens: &'t [Token],
    room: u32,
) -> Result<(ExprId, &'t [Token]), Stop<'t>>
    requires arena { IsArena tree.old }
    requires nodes { length tree.old.exprs + length tokens.now < 2 ^ 32 - 1 }
    ensures machine { (k : List Symbol) → nest k + room ≡ 64 → MatchResult result (λ p. outcome (AUnary ∷ Prods 0 ∷ k) tokens.now ≡ outcome k p.1.now)
        (λ stop. StopsAt (outcome (AUnary ∷ Prods 0 ∷ k) tokens.now) stop) }
    ensures reads { IfOk result (λ p. ReadsExpr prod_text prod_tree tree.old tree.new tokens.now p.0 p.1.now) }
    ensures arena { OnOk result (IsArena tree.new) }
    ensures shorter { IfOk result (λ p. length p.1.now < length tokens.now) }
{
    let (mut left, mut rest) = unary(alloc, tree, tokens, room)?;
    let mut inside = room;
    while let Some((op, more)) = prod_operator(rest) {
        inside = deeper(rest, inside)?;
        let (right, after) = unary(alloc, tree, more, inside)?;
        left = add_binary(tree, op, left, right, first_spot(tokens))?;
        rest = after;
    }
    Ok((left, rest))
}
