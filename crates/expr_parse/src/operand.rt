//! The first token of an operand.

ghost use Rattle.std.specs.Prelude.{◌≡◌, ◌+◌, ◌≤◌, List, [], ◌∷◌, Some, MatchOption, IfSome};
ghost use Rattle.silq_tree.specs.declared.node.Spot.{Spot};
ghost use Rattle.silq_grammar.specs.declared.token.Token.TheVariants.{Fixed};
ghost use Rattle.silq_grammar.specs.declared.token.Terminal.TheVariants as t;
ghost use Rattle.silq_grammar.specs.Machine.{Symbol, AUnary, NumberType, AScalar, nest};
ghost use Rattle.silq_grammar.specs.Outcome.{outcome};
ghost use Rattle.expr_parse.specs.Operands.{BeginsWith, operand_outcome};

use silq_grammar::{Terminal, Token};
use silq_tree::{NameId, Spot, UnaryOp};

/// What an operand begins with, with the tokens behind it.
#[derive(Drop)]
pub(crate) enum Operand<'t> {
    Name(NameId, Spot, &'t [Token]),
    Number(i64, Spot, &'t [Token]),
    Truth(bool, Spot, &'t [Token]),
    Pi(Spot, &'t [Token]),
    Paren(Spot, &'t [Token]),
    Sign(UnaryOp, Spot, &'t [Token]),
    /// The tokens begin no operand.
    Nothing,
}

/// What the tokens begin with.
#[tactic(auto, unfolding(silq_grammar::specs::Outcome::outcome))]
pub(crate) fn begun<'t>(tokens: &'t [Token]) -> Operand<'t>
    ensures machine { (k : List Symbol) → nest k ≤ 64 → outcome (AUnary ∷ k) tokens.now ≡ operand_outcome k tokens.now result }
    ensures token { BeginsWith tokens.now result }
{
    match tokens {
        [Token::Name(name, at), rest @ ..] => Operand::Name(*name, *at, rest),
        [Token::Number(value, at), rest @ ..] => Operand::Number(*value, *at, rest),
        [Token::Fixed(word, at), rest @ ..] => match word {
            Terminal::True => Operand::Truth(true, *at, rest),
            Terminal::False => Operand::Truth(false, *at, rest),
            Terminal::Pi => Operand::Pi(*at, rest),
            Terminal::LeftParen => Operand::Paren(*at, rest),
            Terminal::Bang => Operand::Sign(UnaryOp::Not, *at, rest),
            Terminal::Minus => Operand::Sign(UnaryOp::Neg, *at, rest),
            _ => Operand::Nothing,
        },
        [] => Operand::Nothing,
    }
}

/// The tokens behind the colon before a number's type.
#[tactic(auto, unfolding(silq_grammar::specs::Outcome::outcome))]
pub(crate) fn colon<'t>(tokens: &'t [Token]) -> Option<&'t [Token]>
    ensures machine { (k : List Symbol) → MatchOption result (outcome (NumberType ∷ k) tokens.now ≡ outcome k tokens.now)
        (λ rest. nest k ≤ 64 → outcome (NumberType ∷ k) tokens.now ≡ outcome (AScalar ∷ k) rest.now) }
    ensures token { IfSome result (λ rest. (s : Spot) × (tokens.now ≡ Fixed t.Colon s ∷ rest.now)) }
{
    match tokens {
        [Token::Fixed(Terminal::Colon, _), rest @ ..] => Some(rest),
        _ => None,
    }
}
