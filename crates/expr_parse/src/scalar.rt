//! Scalar types.

ghost use Rattle.std.specs.Prelude.{◌≡◌, ◌+◌, ◌-◌, ◌^◌, ◌<◌, ◌≤◌, List, [], ◌∷◌, Some, length, IfOk, OnOk, MatchResult};
ghost use Rattle.silq_tree.specs.declared.node.Spot.{Spot};
ghost use Rattle.silq_tree.specs.Arena.{IsArena, expr_at};
ghost use Rattle.silq_tree.specs.Standing.{scalar_of};
ghost use Rattle.silq_tree.specs.Children.{scalar_exprs};
ghost use Rattle.silq_grammar.specs.declared.token.Token.TheVariants.{Fixed};
ghost use Rattle.silq_grammar.specs.declared.token.Terminal.TheVariants as t;
ghost use Rattle.silq_grammar.specs.Machine.{Symbol, AScalar, Width, Closing, an_expr, nest};
ghost use Rattle.silq_grammar.specs.Outcome.{outcome, outcome_at};
ghost use Rattle.silq_grammar.specs.Spelled.{scalar_text};
ghost use Rattle.silq_grammar.specs.Trees.{scalar_tree};
ghost use Rattle.expr_parse.specs.Stops.{StopsAt};
ghost use Rattle.expr_parse.specs.Reads.{ReadsPart};
ghost use Rattle.expr_parse.specs.Scalars.{word_of, behind_word, wide_node};

use crate::expr::expr;
use crate::sign::sign;
use crate::stop::{Stop, deeper};
use silq_grammar::{Terminal, Token};
use silq_tree::{ExprId, ScalarNode, Tree};
use std::alloc::Global;

/// A scalar type that has a width.
#[derive(Clone, Copy)]
pub(crate) enum Wide {
    UInt,
    Int,
}

/// The type with its width.
fn node(wide: Wide, width: ExprId) -> ScalarNode
    ensures { result ≡ wide_node wide width }
{
    match wide {
        Wide::UInt => ScalarNode::UInt(width),
        Wide::Int => ScalarNode::Int(width),
    }
}

/// The word of a scalar type; `None` is `B`.
#[tactic(auto, unfolding(silq_grammar::specs::Outcome::outcome))]
fn word<'t>(tokens: &'t [Token]) -> Result<(Option<Wide>, &'t [Token]), Stop<'t>>
    ensures machine { (k : List Symbol) → nest k ≤ 64 → MatchResult result (λ p. outcome (AScalar ∷ k) tokens.now ≡ outcome (behind_word p.0 k) p.1.now)
        (λ stop. StopsAt (outcome (AScalar ∷ k) tokens.now) stop) }
    ensures token { IfOk result (λ p. (s : Spot) × (tokens.now ≡ Fixed (word_of p.0) s ∷ p.1.now)) }
{
    let [Token::Fixed(word, _), rest @ ..] = tokens else {
        return Err(Stop::Syntax(tokens));
    };
    match word {
        Terminal::Bit => Ok((None, rest)),
        Terminal::UInt => Ok((Some(Wide::UInt), rest)),
        Terminal::Int => Ok((Some(Wide::Int), rest)),
        _ => Err(Stop::Syntax(tokens)),
    }
}

/// The tokens behind the bracket that opens a width.
#[tactic(auto, unfolding(silq_grammar::specs::Outcome::outcome))]
fn width<'t>(tokens: &'t [Token]) -> Result<&'t [Token], Stop<'t>>
    ensures machine { (k : List Symbol) → MatchResult result
        (λ rest. outcome (Width ∷ k) tokens.now ≡ outcome_at (Some (an_expr (Closing t.RightBracket ∷ k))) tokens.now (λ ys. outcome ys rest.now))
        (λ stop. StopsAt (outcome (Width ∷ k) tokens.now) stop) }
    ensures token { IfOk result (λ rest. (s : Spot) × (tokens.now ≡ Fixed t.LeftBracket s ∷ rest.now)) }
{
    match tokens {
        [Token::Fixed(Terminal::LeftBracket, _), rest @ ..] => Ok(rest),
        _ => Err(Stop::Syntax(tokens)),
    }
}

/// A scalar type, where the nest may still grow by `room`.
#[cycle(expression)]
pub fn scalar<'t>(
    alloc: Global,
    tree: &mut Tree,
    tokens: &'t [Token],
    room: u32,
) -> Result<(ScalarNode, &'t [Token]), Stop<'t>>
    requires arena { IsArena tree.old }
    requires nodes { length tree.old.exprs + length tokens.now < 2 ^ 32 - 1 }
    ensures machine { (k : List Symbol) → nest k + room ≡ 64 → MatchResult result (λ p. outcome (AScalar ∷ k) tokens.now ≡ outcome k p.1.now)
        (λ stop. StopsAt (outcome (AScalar ∷ k) tokens.now) stop) }
    ensures reads { IfOk result (λ p. ReadsPart scalar_text scalar_tree tree.old tree.new tokens.now (scalar_of (expr_at tree.new) p.0) (scalar_exprs p.0) [] p.1.now) }
    ensures arena { OnOk result (IsArena tree.new) }
    ensures shorter { IfOk result (λ p. length p.1.now < length tokens.now) }
{
    let (wide, rest) = word(tokens)?;
    let Some(wide) = wide else {
        return Ok((ScalarNode::Bit, rest));
    };
    let inner_tokens = width(rest)?;
    let (id, rest) = expr(alloc, tree, inner_tokens, deeper(rest, room)?)?;
    let (_, rest) = sign(rest, Terminal::RightBracket)?;
    Ok((node(wide, id), rest))
}
