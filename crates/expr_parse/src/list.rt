//! Lists of expressions.

ghost use Rattle.std.specs.Prelude.{◌≡◌, ◌+◌, ◌-◌, ◌^◌, ◌<◌, ◌≤◌, ◌⊎◌, List, [], ◌∷◌, length, Some, IfOk, IfErr, IfSome, OnOk, MatchOption, MatchResult};
ghost use Rattle.silq_tree.specs.declared.node.ExprId.{ExprId};
ghost use Rattle.silq_tree.specs.declared.node.Spot.{Spot};
ghost use Rattle.silq_tree.specs.Standing.{expressions_of};
ghost use Rattle.silq_tree.specs.Arena.{Forest, IsArena, expr_at};
ghost use Rattle.silq_grammar.specs.declared.token.Token.{Token};
ghost use Rattle.silq_grammar.specs.declared.token.Token.TheVariants.{Fixed};
ghost use Rattle.silq_grammar.specs.declared.token.Terminal.TheVariants as t;
ghost use Rattle.silq_grammar.specs.Machine.{Symbol, Closing, Expect, CallPart, MoreExprs, InBracket, InIndex, StartBracket, StartIndex, Arguments, an_expr, exprs, nest};
ghost use Rattle.silq_grammar.specs.Outcome.{outcome};
ghost use Rattle.silq_grammar.specs.Spelled.{expr_text, exprs_text, args_text};
ghost use Rattle.silq_grammar.specs.Trees.{expr_tree, exprs_tree, args_tree};
ghost use Rattle.expr_parse.specs.Stops.{StopsAt};
ghost use Rattle.expr_parse.specs.Reads.{ReadsExpr, ReadsPart};
ghost use Rattle.expr_parse.specs.Groups.{group_ids, ReadsGroup, behind_bracket, start_bracket};
ghost use Rattle.expr_parse.specs.declared.stop.Stop.TheVariants as stops;

use crate::expr::expr;
use crate::sign::sign;
use crate::stop::Stop;
use silq_grammar::{Terminal, Token};
use silq_tree::{ExprId, ExprIds, Tree};
use std::alloc::Global;

/// One expression, or several.
#[derive(Drop)]
pub(crate) enum Group {
    One(ExprId),
    Several(ExprIds),
}

/// The expressions as a list.
fn ids_of<'t>(alloc: Global, group: Group) -> Result<ExprIds, Stop<'t>>
    ensures ids { IfOk result (λ ids. ids ≡ group_ids group) }
    ensures memory { IfErr result (λ stop. stop ≡ stops.Memory) }
{
    match group {
        Group::One(id) => {
            let mut ids = ExprIds::new(alloc);
            ids.push(id)?;
            Ok(ids)
        }
        Group::Several(ids) => Ok(ids),
    }
}

/// The tokens behind a comma.
#[tactic(auto, unfolding(silq_grammar::specs::Outcome::outcome))]
fn comma<'t>(tokens: &'t [Token]) -> Option<&'t [Token]>
    ensures more { (k : List Symbol) → MatchOption result (outcome (MoreExprs ∷ k) tokens.now ≡ outcome k tokens.now)
        (λ rest. nest k ≤ 64 → outcome (MoreExprs ∷ k) tokens.now ≡ outcome (exprs k) rest.now) }
    ensures bracket { (k : List Symbol) → MatchOption result (outcome (InBracket ∷ k) tokens.now ≡ outcome (Closing t.RightBracket ∷ InIndex ∷ k) tokens.now)
        (λ rest. nest k ≤ 63 → outcome (InBracket ∷ k) tokens.now ≡ outcome (exprs (Closing t.RightBracket ∷ CallPart ∷ k)) rest.now) }
    ensures start { (k : List Symbol) → MatchOption result (outcome (StartBracket ∷ k) tokens.now ≡ outcome (Closing t.RightBracket ∷ StartIndex ∷ k) tokens.now)
        (λ rest. nest k ≤ 63 → outcome (StartBracket ∷ k) tokens.now ≡ outcome (exprs (Closing t.RightBracket ∷ CallPart ∷ Expect t.Semicolon ∷ k)) rest.now) }
    ensures token { IfSome result (λ rest. (s : Spot) × (tokens.now ≡ Fixed t.Comma s ∷ rest.now)) }
{
    match tokens {
        [Token::Fixed(Terminal::Comma, _), rest @ ..] => Some(rest),
        _ => None,
    }
}

/// Expressions between commas, behind the comma that follows those of the list; where the nest may still grow by `room`.
#[cycle(expression)]
fn exprs<'t>(
    alloc: Global,
    tree: &mut Tree,
    ids: &mut ExprIds,
    tokens: &'t [Token],
    room: u32,
) -> Result<&'t [Token], Stop<'t>>
    requires arena { IsArena tree.old }
    requires nodes { length tree.old.exprs + length tokens.now < 2 ^ 32 - 1 }
    ensures machine { (k : List Symbol) → nest k + room ≡ 64 → MatchResult result (λ rest. outcome (exprs k) tokens.now ≡ outcome k rest.now)
        (λ stop. StopsAt (outcome (exprs k) tokens.now) stop) }
    ensures reads { IfOk result (λ rest. (old : Forest) (ts : List Token) (s : Spot)
        → ReadsPart exprs_text exprs_tree old tree.old ts (expressions_of (expr_at tree.old) ids.old) ids.old [] (Fixed t.Comma s ∷ tokens.now)
        → ReadsPart exprs_text exprs_tree old tree.new ts (expressions_of (expr_at tree.new) ids.new) ids.new [] rest.now) }
    ensures arena { OnOk result (IsArena tree.new) }
    ensures longer { OnOk result (length ids.old < length ids.new) }
    ensures shorter { IfOk result (λ rest. length rest.now < length tokens.now) }
{
    let mut rest = tokens;
    loop {
        let (id, after) = expr(alloc, tree, rest, room)?;
        ids.push(id)?;
        rest = match comma(after) {
            Some(more) => more,
            None => return Ok(after),
        };
    }
}

/// An expression, or several between commas, and the sign that closes them; where the nest may still grow by `room`.
#[cycle(expression)]
pub(crate) fn closed_group<'t>(
    alloc: Global,
    tree: &mut Tree,
    closing: Terminal,
    tokens: &'t [Token],
    room: u32,
) -> Result<(Group, &'t [Token]), Stop<'t>>
    requires arena { IsArena tree.old }
    requires nodes { length tree.old.exprs + length tokens.now < 2 ^ 32 - 1 }
    requires sign { (closing ≡ t.RightParen) ⊎ (closing ≡ t.RightBracket) }
    ensures machine { (k : List Symbol) → nest (Closing closing ∷ k) + room ≡ 64 → MatchResult result (λ p. outcome (exprs (Closing closing ∷ k)) tokens.now ≡ outcome k p.1.now)
        (λ stop. StopsAt (outcome (exprs (Closing closing ∷ k)) tokens.now) stop) }
    ensures bracket { closing ≡ t.RightBracket → (k : List Symbol) → nest (InBracket ∷ k) + room ≡ 64
        → MatchResult result (λ p. outcome (an_expr (InBracket ∷ k)) tokens.now ≡ outcome (behind_bracket p.0 k) p.1.now)
        (λ stop. StopsAt (outcome (an_expr (InBracket ∷ k)) tokens.now) stop) }
    ensures start { closing ≡ t.RightBracket → (k : List Symbol) → nest (StartBracket ∷ k) + room ≡ 64
        → MatchResult result (λ p. outcome (an_expr (StartBracket ∷ k)) tokens.now ≡ outcome (start_bracket p.0 k) p.1.now)
        (λ stop. StopsAt (outcome (an_expr (StartBracket ∷ k)) tokens.now) stop) }
    ensures reads { IfOk result (λ p. (r : Spot) × ReadsGroup tree.old tree.new tokens.now p.0 (Fixed closing r ∷ p.1.now)) }
    ensures arena { OnOk result (IsArena tree.new) }
    ensures shorter { IfOk result (λ p. length p.1.now < length tokens.now) }
{
    let (first, rest) = expr(alloc, tree, tokens, room)?;
    let Some(more) = comma(rest) else {
        let (_, rest) = sign(rest, closing)?;
        return Ok((Group::One(first), rest));
    };
    let (ids, rest) = group_rest(alloc, tree, closing, first, more, room)?;
    Ok((Group::Several(ids), rest))
}

/// Several expressions and the sign that closes them, from behind the first one and its comma; where the nest may still grow
/// by `room`.
#[cycle(expression)]
fn group_rest<'t>(
    alloc: Global,
    tree: &mut Tree,
    closing: Terminal,
    first: ExprId,
    tokens: &'t [Token],
    room: u32,
) -> Result<(ExprIds, &'t [Token]), Stop<'t>>
    requires arena { IsArena tree.old }
    requires nodes { length tree.old.exprs + length tokens.now < 2 ^ 32 - 1 }
    ensures machine { (k : List Symbol) → nest (Closing closing ∷ k) + room ≡ 64 → MatchResult result (λ p. outcome (exprs (Closing closing ∷ k)) tokens.now ≡ outcome k p.1.now)
        (λ stop. StopsAt (outcome (exprs (Closing closing ∷ k)) tokens.now) stop) }
    ensures reads { IfOk result (λ p. (old : Forest) (ts : List Token) (s : Spot) → ReadsExpr expr_text expr_tree old tree.old ts first (Fixed t.Comma s ∷ tokens.now)
        → (r : Spot) × ReadsPart exprs_text exprs_tree old tree.new ts (expressions_of (expr_at tree.new) p.0) p.0 [] (Fixed closing r ∷ p.1.now)) }
    ensures several { IfOk result (λ p. 2 ≤ length p.0) }
    ensures arena { OnOk result (IsArena tree.new) }
    ensures shorter { IfOk result (λ p. length p.1.now < length tokens.now) }
{
    let mut ids = ExprIds::new(alloc);
    ids.push(first)?;
    let rest = exprs(alloc, tree, &mut ids, tokens, room)?;
    let (_, rest) = sign(rest, closing)?;
    Ok((ids, rest))
}

/// The tokens behind the parenthesis that closes no arguments.
#[tactic(auto, unfolding(silq_grammar::specs::Outcome::outcome))]
fn no_arguments<'t>(tokens: &'t [Token]) -> Option<&'t [Token]>
    ensures machine { (k : List Symbol) → MatchOption result (outcome (Arguments ∷ Closing t.RightParen ∷ k) tokens.now ≡ outcome (exprs (Closing t.RightParen ∷ k)) tokens.now)
        (λ rest. nest k ≤ 64 → outcome (Arguments ∷ Closing t.RightParen ∷ k) tokens.now ≡ outcome k rest.now) }
    ensures token { IfSome result (λ rest. (s : Spot) × (tokens.now ≡ Fixed t.RightParen s ∷ rest.now)) }
{
    match tokens {
        [Token::Fixed(Terminal::RightParen, _), rest @ ..] => Some(rest),
        _ => None,
    }
}

/// Arguments and the parenthesis behind them, where the nest may still grow by `room`.
#[cycle(expression)]
pub(crate) fn arguments<'t>(
    alloc: Global,
    tree: &mut Tree,
    tokens: &'t [Token],
    room: u32,
) -> Result<(ExprIds, &'t [Token]), Stop<'t>>
    requires arena { IsArena tree.old }
    requires nodes { length tree.old.exprs + length tokens.now < 2 ^ 32 - 1 }
    ensures machine { (k : List Symbol) → nest (Closing t.RightParen ∷ k) + room ≡ 64 → MatchResult result (λ p. outcome (Arguments ∷ Closing t.RightParen ∷ k) tokens.now ≡ outcome k p.1.now)
        (λ stop. StopsAt (outcome (Arguments ∷ Closing t.RightParen ∷ k) tokens.now) stop) }
    ensures reads { IfOk result (λ p. (r : Spot) × ReadsPart args_text args_tree tree.old tree.new tokens.now (expressions_of (expr_at tree.new) p.0) p.0 [] (Fixed t.RightParen r ∷ p.1.now)) }
    ensures arena { OnOk result (IsArena tree.new) }
    ensures shorter { IfOk result (λ p. length p.1.now < length tokens.now) }
{
    if let Some(rest) = no_arguments(tokens) {
        return Ok((ExprIds::new(alloc), rest));
    }
    let (several, rest) = closed_group(alloc, tree, Terminal::RightParen, tokens, room)?;
    Ok((ids_of(alloc, several)?, rest))
}
