//! Places and calls, behind the name with which they begin.

ghost use Rattle.std.specs.Prelude.{◌≡◌, ◌+◌, ◌-◌, ◌^◌, ◌<◌, ◌≤◌, List, [], ◌∷◌, length, IfOk, OnOk, MatchResult};
ghost use Rattle.silq_tree.specs.declared.node.Spot.{Spot};
ghost use Rattle.silq_tree.specs.Arena.{Forest, IsArena};
ghost use Rattle.silq_grammar.specs.declared.token.Token.{Token};
ghost use Rattle.silq_grammar.specs.declared.token.Token.TheVariants.{Name, Fixed};
ghost use Rattle.silq_grammar.specs.declared.token.Terminal.TheVariants as t;
ghost use Rattle.silq_grammar.specs.Machine.{Symbol, InName, InBracket, InIndex, StartName, StartBracket, StartIndex, an_expr, nest};
ghost use Rattle.silq_grammar.specs.Spelled.{expr_text};
ghost use Rattle.silq_grammar.specs.Trees.{expr_tree};
ghost use Rattle.silq_grammar.specs.Outcome.{outcome};
ghost use Rattle.expr_parse.specs.Stops.{StopsAt};
ghost use Rattle.expr_parse.specs.Reads.{ReadsExpr};
ghost use Rattle.expr_parse.specs.Added.{AreFree};
ghost use Rattle.expr_parse.specs.Targets.{ReadsTarget, behind_target};

use crate::expr::expr;
use crate::list::{Group, arguments, closed_group};
use crate::node::add_call;
use crate::open::{Open, call_paren, opened};
use crate::sign::sign;
use crate::stop::{Stop, deeper};
use silq_grammar::{Terminal, Token};
use silq_tree::{ExprId, ExprIds, NameId, PlaceNode, Spot, Tree};
use std::alloc::Global;

/// What begins with a name.
#[derive(Drop)]
pub enum Target {
    Place(PlaceNode),
    Call(ExprId),
}

/// A place or a call behind its name and its first index, where the nest may still grow by `room` inside a bracket.
#[cycle(expression)]
fn indexed<'t>(
    alloc: Global,
    tree: &mut Tree,
    name: NameId,
    first: ExprId,
    at: Spot,
    tokens: &'t [Token],
    room: u32,
) -> Result<(Target, &'t [Token]), Stop<'t>>
    requires arena { IsArena tree.old }
    requires free { AreFree tree.old (first ∷ []) }
    requires nodes { length tree.old.exprs + length tokens.now < 2 ^ 32 - 1 }
    ensures machine { (k : List Symbol) → nest k + 1 + room ≡ 64 → MatchResult result (λ p. outcome (InIndex ∷ k) tokens.now ≡ outcome k p.1.now)
        (λ stop. StopsAt (outcome (InIndex ∷ k) tokens.now) stop) }
    ensures start { (k : List Symbol) → nest k + 1 + room ≡ 64 → MatchResult result (λ p. outcome (StartIndex ∷ k) tokens.now ≡ outcome (behind_target p.0 k) p.1.now)
        (λ stop. StopsAt (outcome (StartIndex ∷ k) tokens.now) stop) }
    ensures reads { IfOk result (λ p. (old : Forest) (ts : List Token) (l r : Spot) → ReadsExpr expr_text expr_tree old tree.old ts first (Fixed t.RightBracket r ∷ tokens.now)
        → ReadsTarget old tree.new (Name name at) (Fixed t.LeftBracket l ∷ ts) p.0 p.1.now) }
    ensures arena { OnOk result (IsArena tree.new) }
    ensures no_longer { IfOk result (λ p. length p.1.now ≤ length tokens.now) }
{
    match opened(tokens) {
        Open::Nothing => {
            let place = PlaceNode {
                name,
                first: Some(first),
                second: None,
            };
            Ok((Target::Place(place), tokens))
        }
        Open::Bracket(rest) => {
            let (second, rest) = expr(alloc, tree, rest, room)?;
            let (_, rest) = sign(rest, Terminal::RightBracket)?;
            let place = PlaceNode {
                name,
                first: Some(first),
                second: Some(second),
            };
            Ok((Target::Place(place), rest))
        }
        Open::Paren(rest) => {
            let mut statics = ExprIds::new(alloc);
            statics.push(first)?;
            let (args, rest) = arguments(alloc, tree, rest, room)?;
            let id = add_call(tree, name, statics, args, at)?;
            Ok((Target::Call(id), rest))
        }
    }
}

/// A place or a call behind its name and a bracket, where the nest may still grow by `room` inside the bracket.
#[cycle(expression)]
fn bracketed<'t>(
    alloc: Global,
    tree: &mut Tree,
    name: NameId,
    at: Spot,
    tokens: &'t [Token],
    room: u32,
) -> Result<(Target, &'t [Token]), Stop<'t>>
    requires arena { IsArena tree.old }
    requires nodes { length tree.old.exprs + length tokens.now < 2 ^ 32 - 1 }
    ensures machine { (k : List Symbol) → nest k + 1 + room ≡ 64 → MatchResult result (λ p. outcome (an_expr (InBracket ∷ k)) tokens.now ≡ outcome k p.1.now)
        (λ stop. StopsAt (outcome (an_expr (InBracket ∷ k)) tokens.now) stop) }
    ensures start { (k : List Symbol) → nest k + 1 + room ≡ 64
        → MatchResult result (λ p. outcome (an_expr (StartBracket ∷ k)) tokens.now ≡ outcome (behind_target p.0 k) p.1.now)
        (λ stop. StopsAt (outcome (an_expr (StartBracket ∷ k)) tokens.now) stop) }
    ensures reads { IfOk result (λ p. (l : Spot) → ReadsTarget tree.old tree.new (Name name at) (Fixed t.LeftBracket l ∷ tokens.now) p.0 p.1.now) }
    ensures arena { OnOk result (IsArena tree.new) }
    ensures shorter { IfOk result (λ p. length p.1.now < length tokens.now) }
{
    let (group, rest) = closed_group(alloc, tree, Terminal::RightBracket, tokens, room)?;
    match group {
        Group::One(first) => indexed(alloc, tree, name, first, at, rest, room),
        Group::Several(statics) => {
            let rest = call_paren(rest)?;
            let (args, rest) = arguments(alloc, tree, rest, room)?;
            let id = add_call(tree, name, statics, args, at)?;
            Ok((Target::Call(id), rest))
        }
    }
}

/// A place or a call whose name stands before these tokens, where the nest may still grow by `room`.
#[cycle(expression)]
pub fn behind_name<'t>(
    alloc: Global,
    tree: &mut Tree,
    name: NameId,
    at: Spot,
    tokens: &'t [Token],
    room: u32,
) -> Result<(Target, &'t [Token]), Stop<'t>>
    requires arena { IsArena tree.old }
    requires nodes { length tree.old.exprs + length tokens.now < 2 ^ 32 - 1 }
    ensures machine { (k : List Symbol) → nest k + room ≡ 64 → MatchResult result (λ p. outcome (InName ∷ k) tokens.now ≡ outcome k p.1.now)
        (λ stop. StopsAt (outcome (InName ∷ k) tokens.now) stop) }
    ensures start { (k : List Symbol) → nest k + room ≡ 64 → MatchResult result (λ p. outcome (StartName ∷ k) tokens.now ≡ outcome (behind_target p.0 k) p.1.now)
        (λ stop. StopsAt (outcome (StartName ∷ k) tokens.now) stop) }
    ensures reads { IfOk result (λ p. ReadsTarget tree.old tree.new (Name name at) tokens.now p.0 p.1.now) }
    ensures arena { OnOk result (IsArena tree.new) }
    ensures no_longer { IfOk result (λ p. length p.1.now ≤ length tokens.now) }
{
    match opened(tokens) {
        Open::Nothing => {
            let place = PlaceNode {
                name,
                first: None,
                second: None,
            };
            Ok((Target::Place(place), tokens))
        }
        Open::Bracket(rest) => bracketed(alloc, tree, name, at, rest, deeper(tokens, room)?),
        Open::Paren(rest) => {
            let (args, rest) = arguments(alloc, tree, rest, deeper(tokens, room)?)?;
            let id = add_call(tree, name, ExprIds::new(alloc), args, at)?;
            Ok((Target::Call(id), rest))
        }
    }
}
