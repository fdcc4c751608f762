//! Types.

ghost use Rattle.std.specs.Prelude.{◌≡◌, ◌+◌, ◌-◌, ◌^◌, ◌<◌, ◌≤◌, ℕ, List, [], ◌∷◌, ◌++◌, Option, Some, None, length, map, flat_map, IfOk, IfErr, OnOk, OnErr, MatchResult, MatchOption};
ghost use Rattle.silq_tree.specs.declared.node.Spot.{Spot};
ghost use Rattle.silq_tree.specs.Arena.{IsArena, expr_at};
ghost use Rattle.silq_tree.specs.Standing.{type_of};
ghost use Rattle.silq_tree.specs.Children.{listed, type_exprs};
ghost use Rattle.silq_grammar.specs.Tokens.{first_spot};
ghost use Rattle.silq_grammar.specs.declared.token.Token.TheVariants.{Fixed};
ghost use Rattle.silq_grammar.specs.declared.token.Terminal.TheVariants as t;
ghost use Rattle.silq_grammar.specs.Machine.{Symbol, Closing, AType, AScalar, SizePart, ASize, MoreResults, nest};
ghost use Rattle.silq_grammar.specs.Outcome.{outcome};
ghost use Rattle.silq_grammar.specs.Spelled.{size_text, type_text, result_text};
ghost use Rattle.silq_grammar.specs.Trees.{type_tree, result_tree};
ghost use Rattle.expr_parse.specs.Stops.{StopsAt};
ghost use Rattle.silq_parse.specs.Parts.{maybe, size_tree, sized_text, sized_node_tree};
ghost use Rattle.expr_parse.specs.Reads.{ReadsPart};

use expr_parse::expr::expr;
use expr_parse::node::{add, first_spot};
use expr_parse::scalar::scalar;
use expr_parse::sign::{optional, sign};
use expr_parse::stop::{Stop, deeper};
use silq_grammar::{Terminal, Token};
use silq_tree::{Expr, ExprId, PlaceNode, ScalarNode, Spot, Tree, TypeNode, TypeNodes};
use std::alloc::Global;

/// The size of an array, from behind its sign.
#[tactic(auto, unfolding(silq_grammar::specs::Outcome::outcome))]
fn size_value<'t>(
    alloc: Global,
    tree: &mut Tree,
    tokens: &'t [Token],
    room: u32,
) -> Result<(ExprId, &'t [Token]), Stop<'t>>
    requires arena { IsArena tree.old }
    requires exprs { length tree.old.exprs + length tokens.now < 2 ^ 32 - 1 }
    ensures machine { (k : List Symbol) → nest k + room ≡ 64 → MatchResult result (λ p. outcome (ASize ∷ k) tokens.now ≡ outcome k p.1.now)
        (λ stop. StopsAt (outcome (ASize ∷ k) tokens.now) stop) }
    ensures reads { (c : Spot) → IfOk result (λ p. ReadsPart size_text size_tree tree.old tree.new (Fixed t.Caret c ∷ tokens.now) (Some (expr_at tree.new p.0)) (p.0 ∷ []) [] p.1.now) }
    ensures arena { OnOk result (IsArena tree.new) }
    ensures shorter { IfOk result (λ p. length p.1.now < length tokens.now) }
{
    match tokens {
        [Token::Name(name, at), rest @ ..] => {
            let place = PlaceNode {
                name: *name,
                first: None,
                second: None,
            };
            let id = add(tree, Expr::Place { place, at: *at })?;
            Ok((id, rest))
        }
        [Token::Number(value, at), rest @ ..] => {
            let id = add(
                tree,
                Expr::Number {
                    value: *value,
                    ty: None,
                    at: *at,
                },
            )?;
            Ok((id, rest))
        }
        [Token::Fixed(Terminal::LeftParen, _open), rest @ ..] => {
            let inside = deeper(tokens, room)?;
            let (id, rest) = expr(alloc, tree, rest, inside)?;
            let (_, rest) = sign(rest, Terminal::RightParen)?;
            Ok((id, rest))
        }
        _ => Err(Stop::Syntax(tokens)),
    }
}

/// The size of an array, or none.
#[tactic(auto, unfolding(silq_grammar::specs::Outcome::outcome))]
fn size<'t>(
    alloc: Global,
    tree: &mut Tree,
    tokens: &'t [Token],
    room: u32,
) -> Result<(Option<ExprId>, &'t [Token]), Stop<'t>>
    requires arena { IsArena tree.old }
    requires exprs { length tree.old.exprs + length tokens.now < 2 ^ 32 - 1 }
    ensures machine { (k : List Symbol) → nest k + room ≡ 64 → MatchResult result (λ p. outcome (SizePart ∷ k) tokens.now ≡ outcome k p.1.now)
        (λ stop. StopsAt (outcome (SizePart ∷ k) tokens.now) stop) }
    ensures reads { IfOk result (λ p. ReadsPart size_text size_tree tree.old tree.new tokens.now (maybe (expr_at tree.new) p.0) (listed p.0) [] p.1.now) }
    ensures arena { OnOk result (IsArena tree.new) }
    ensures no_longer { IfOk result (λ p. length p.1.now ≤ length tokens.now) }
{
    match tokens {
        [Token::Fixed(Terminal::Caret, _caret), rest @ ..] => {
            let (id, rest) = size_value(alloc, tree, rest, room)?;
            Ok((Some(id), rest))
        }
        _ => Ok((None, tokens)),
    }
}

/// A type behind its sign `!`, or without one; `at` is where it begins.
fn sized<'t>(
    alloc: Global,
    tree: &mut Tree,
    tokens: &'t [Token],
    classical: bool,
    at: Spot,
    room: u32,
) -> Result<(TypeNode, &'t [Token]), Stop<'t>>
    requires arena { IsArena tree.old }
    requires exprs { length tree.old.exprs + length tokens.now < 2 ^ 32 - 1 }
    ensures machine { (k : List Symbol) → nest k + room ≡ 64 → MatchResult result (λ p. outcome (AScalar ∷ SizePart ∷ k) tokens.now ≡ outcome k p.1.now)
        (λ stop. StopsAt (outcome (AScalar ∷ SizePart ∷ k) tokens.now) stop) }
    ensures reads { IfOk result (λ p. ReadsPart sized_text (sized_node_tree classical at) tree.old tree.new tokens.now (type_of (expr_at tree.new) p.0) (type_exprs p.0) [] p.1.now) }
    ensures arena { OnOk result (IsArena tree.new) }
    ensures shorter { IfOk result (λ p. length p.1.now < length tokens.now) }
{
    let (scalar, rest) = scalar(alloc, tree, tokens, room)?;
    let (size, rest) = size(alloc, tree, rest, room)?;
    Ok((
        TypeNode {
            classical,
            scalar,
            size,
            at,
        },
        rest,
    ))
}

/// A type.
#[tactic(auto, unfolding(silq_grammar::specs::Outcome::outcome))]
pub(crate) fn written_type<'t>(
    alloc: Global,
    tree: &mut Tree,
    tokens: &'t [Token],
    room: u32,
) -> Result<(TypeNode, &'t [Token]), Stop<'t>>
    requires arena { IsArena tree.old }
    requires exprs { length tree.old.exprs + length tokens.now < 2 ^ 32 - 1 }
    ensures machine { (k : List Symbol) → nest k + room ≡ 64 → MatchResult result (λ p. outcome (AType ∷ k) tokens.now ≡ outcome k p.1.now)
        (λ stop. StopsAt (outcome (AType ∷ k) tokens.now) stop) }
    ensures reads { IfOk result (λ p. ReadsPart type_text type_tree tree.old tree.new tokens.now (type_of (expr_at tree.new) p.0) (type_exprs p.0) [] p.1.now) }
    ensures arena { OnOk result (IsArena tree.new) }
    ensures shorter { IfOk result (λ p. length p.1.now < length tokens.now) }
{
    match optional(tokens, Terminal::Bang) {
        Some((at, rest)) => {
            let (ty, rest) = sized(alloc, tree, rest, true, at, room)?;
            Ok((ty, rest))
        }
        None => {
            let at = first_spot(tokens);
            let (ty, rest) = sized(alloc, tree, tokens, false, at, room)?;
            Ok((ty, rest))
        }
    }
}

/// Types between the signs `×`.
#[tactic(auto, unfolding(silq_grammar::specs::Outcome::outcome))]
pub(crate) fn results<'t>(
    alloc: Global,
    tree: &mut Tree,
    tokens: &'t [Token],
    room: u32,
) -> Result<(TypeNodes, &'t [Token]), Stop<'t>>
    requires arena { IsArena tree.old }
    requires exprs { length tree.old.exprs + length tokens.now < 2 ^ 32 - 1 }
    ensures machine { (k : List Symbol) → nest k + room ≡ 64 → MatchResult result (λ p. outcome (AType ∷ MoreResults ∷ k) tokens.now ≡ outcome k p.1.now)
        (λ stop. StopsAt (outcome (AType ∷ MoreResults ∷ k) tokens.now) stop) }
    ensures reads { IfOk result (λ p. ReadsPart result_text result_tree tree.old tree.new tokens.now (map (type_of (expr_at tree.new)) p.0) (flat_map type_exprs p.0) [] p.1.now) }
    ensures arena { OnOk result (IsArena tree.new) }
    ensures shorter { IfOk result (λ p. length p.1.now < length tokens.now) }
{
    let (first, rest) = written_type(alloc, tree, tokens, room)?;
    let mut types = TypeNodes::new(alloc);
    types.push(first)?;
    let mut rest = rest;
    while let [Token::Fixed(Terminal::Times, _times), more @ ..] = rest {
        let (next, more) = written_type(alloc, tree, more, room)?;
        types.push(next)?;
        rest = more;
    }
    Ok((types, rest))
}
