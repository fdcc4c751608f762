//! Operators between operands.

ghost use Rattle.std.specs.Prelude.{◌≡◌, ℕ, ◌+◌, ◌<◌, ◌≤◌, ◌⊎◌, List, [], ◌∷◌, Some, length, IfSome, MatchOption};
ghost use Rattle.silq_tree.specs.declared.node.Spot.{Spot};
ghost use Rattle.silq_tree.specs.declared.node.BinaryOp.TheVariants as ops;
ghost use Rattle.silq_grammar.specs.declared.token.Token.TheVariants.{Fixed};
ghost use Rattle.silq_grammar.specs.Grammar.{Comparison};
ghost use Rattle.silq_grammar.specs.Trees.{comparison_op};
ghost use Rattle.silq_grammar.specs.Machine.{Symbol, AUnary, Prods, Sums, Compare, Ands, Ors, Ends};
ghost use Rattle.silq_grammar.specs.Outcome.{outcome, outcome_at};
ghost use Rattle.expr_parse.specs.Added.{sign_of};

use silq_grammar::{Terminal, Token};
use silq_tree::BinaryOp;

/// `*` or `/`, and the tokens behind it.
#[tactic(auto, unfolding(silq_grammar::specs::Outcome::outcome))]
pub(crate) fn prod_operator<'t>(tokens: &'t [Token]) -> Option<(BinaryOp, &'t [Token])>
    ensures machine { (k : List Symbol) (n : ℕ) → MatchOption result (outcome (Prods n ∷ k) tokens.now ≡ outcome k tokens.now)
        (λ p. outcome (Prods n ∷ k) tokens.now ≡ outcome_at (Some (AUnary ∷ Prods (n + 1) ∷ k)) tokens.now (λ ys. outcome ys p.1.now)) }
    ensures token { IfSome result (λ p. (s : Spot) × (tokens.now ≡ Fixed (sign_of p.0) s ∷ p.1.now)) }
    ensures level { IfSome result (λ p. (p.0 ≡ ops.Mul) ⊎ (p.0 ≡ ops.Div)) }
{
    let [Token::Fixed(sign, _), rest @ ..] = tokens else {
        return None;
    };
    match sign {
        Terminal::Star => Some((BinaryOp::Mul, rest)),
        Terminal::Slash => Some((BinaryOp::Div, rest)),
        _ => None,
    }
}

/// `+` or `-`, and the tokens behind it.
#[tactic(auto, unfolding(silq_grammar::specs::Outcome::outcome))]
pub(crate) fn sum_operator<'t>(tokens: &'t [Token]) -> Option<(BinaryOp, &'t [Token])>
    ensures machine { (k : List Symbol) (n : ℕ) → MatchOption result (outcome (Sums n ∷ k) tokens.now ≡ outcome k tokens.now)
        (λ p. outcome (Sums n ∷ k) tokens.now ≡ outcome_at (Some (AUnary ∷ Prods 0 ∷ Sums (n + 1) ∷ k)) tokens.now (λ ys. outcome ys p.1.now)) }
    ensures token { IfSome result (λ p. (s : Spot) × (tokens.now ≡ Fixed (sign_of p.0) s ∷ p.1.now)) }
    ensures level { IfSome result (λ p. (p.0 ≡ ops.Add) ⊎ (p.0 ≡ ops.Sub)) }
{
    let [Token::Fixed(sign, _), rest @ ..] = tokens else {
        return None;
    };
    match sign {
        Terminal::Plus => Some((BinaryOp::Add, rest)),
        Terminal::Minus => Some((BinaryOp::Sub, rest)),
        _ => None,
    }
}

/// A comparison, and the tokens behind it.
#[tactic(auto, unfolding(silq_grammar::specs::Outcome::outcome))]
pub(crate) fn comparison_operator<'t>(tokens: &'t [Token]) -> Option<(BinaryOp, &'t [Token])>
    ensures machine { (k : List Symbol) → MatchOption result (outcome (Compare ∷ k) tokens.now ≡ outcome k tokens.now)
        (λ p. outcome (Compare ∷ k) tokens.now ≡ outcome_at (Some (AUnary ∷ Prods 0 ∷ Sums 0 ∷ Ends ∷ k)) tokens.now (λ ys. outcome ys p.1.now)) }
    ensures token { IfSome result (λ p. (s : Spot) × (tokens.now ≡ Fixed (sign_of p.0) s ∷ p.1.now)) }
    ensures level { IfSome result (λ p. (c : Comparison) × (p.0 ≡ comparison_op c)) }
{
    let [Token::Fixed(sign, _), rest @ ..] = tokens else {
        return None;
    };
    match sign {
        Terminal::Equal => Some((BinaryOp::Eq, rest)),
        Terminal::NotEqual => Some((BinaryOp::Ne, rest)),
        Terminal::Below => Some((BinaryOp::Lt, rest)),
        Terminal::AtMost => Some((BinaryOp::Le, rest)),
        Terminal::Above => Some((BinaryOp::Gt, rest)),
        Terminal::AtLeast => Some((BinaryOp::Ge, rest)),
        _ => None,
    }
}

/// `&&`, and the tokens behind it.
#[tactic(auto, unfolding(silq_grammar::specs::Outcome::outcome))]
pub(crate) fn and_operator<'t>(tokens: &'t [Token]) -> Option<(BinaryOp, &'t [Token])>
    ensures machine { (k : List Symbol) (n : ℕ) → MatchOption result (outcome (Ands n ∷ k) tokens.now ≡ outcome k tokens.now)
        (λ p. outcome (Ands n ∷ k) tokens.now ≡ outcome_at (Some (AUnary ∷ Prods 0 ∷ Sums 0 ∷ Compare ∷ Ands (n + 1) ∷ k)) tokens.now (λ ys. outcome ys p.1.now)) }
    ensures token { IfSome result (λ p. (s : Spot) × (tokens.now ≡ Fixed (sign_of p.0) s ∷ p.1.now)) }
    ensures level { IfSome result (λ p. p.0 ≡ ops.And) }
{
    match tokens {
        [Token::Fixed(Terminal::And, _), rest @ ..] => Some((BinaryOp::And, rest)),
        _ => None,
    }
}

/// `||`, and the tokens behind it.
#[tactic(auto, unfolding(silq_grammar::specs::Outcome::outcome))]
pub(crate) fn or_operator<'t>(tokens: &'t [Token]) -> Option<(BinaryOp, &'t [Token])>
    ensures machine { (k : List Symbol) (n : ℕ) → MatchOption result (outcome (Ors n ∷ k) tokens.now ≡ outcome k tokens.now)
        (λ p. outcome (Ors n ∷ k) tokens.now ≡ outcome_at (Some (AUnary ∷ Prods 0 ∷ Sums 0 ∷ Compare ∷ Ands 0 ∷ Ors (n + 1) ∷ k)) tokens.now (λ ys. outcome ys p.1.now)) }
    ensures token { IfSome result (λ p. (s : Spot) × (tokens.now ≡ Fixed (sign_of p.0) s ∷ p.1.now)) }
    ensures level { IfSome result (λ p. p.0 ≡ ops.Or) }
{
    match tokens {
        [Token::Fixed(Terminal::Or, _), rest @ ..] => Some((BinaryOp::Or, rest)),
        _ => None,
    }
}
