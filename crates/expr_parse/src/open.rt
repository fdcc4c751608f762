//! What may stand behind a name, or behind an index.

ghost use Rattle.std.specs.Prelude.{◌≡◌, ◌+◌, ◌≤◌, List, [], ◌∷◌, Some, MatchResult, IfOk};
ghost use Rattle.silq_tree.specs.declared.node.Spot.{Spot};
ghost use Rattle.silq_grammar.specs.declared.token.Token.TheVariants.{Fixed};
ghost use Rattle.silq_grammar.specs.declared.token.Terminal.TheVariants as t;
ghost use Rattle.silq_grammar.specs.Machine.{Symbol, InName, InBracket, InIndex, StartName, StartBracket, StartIndex, Assigns, CallPart, Arguments, Closing, Expect, an_expr, nest};
ghost use Rattle.silq_grammar.specs.Outcome.{outcome, outcome_at};
ghost use Rattle.expr_parse.specs.Stops.{StopsAt};
ghost use Rattle.expr_parse.specs.Opens.{MatchOpen};

use crate::stop::Stop;
use silq_grammar::{Terminal, Token};

/// What opens, with the tokens behind it.
#[derive(Drop)]
pub(crate) enum Open<'t> {
    Nothing,
    Bracket(&'t [Token]),
    Paren(&'t [Token]),
}

/// The bracket or the parenthesis with which the tokens begin.
#[tactic(auto, unfolding(silq_grammar::specs::Outcome::outcome))]
pub(crate) fn opened<'t>(tokens: &'t [Token]) -> Open<'t>
    ensures name { (k : List Symbol) → MatchOpen result (outcome (InName ∷ k) tokens.now ≡ outcome k tokens.now)
        (λ rest. outcome (InName ∷ k) tokens.now ≡ outcome_at (Some (an_expr (InBracket ∷ k))) tokens.now (λ ys. outcome ys rest))
        (λ rest. outcome (InName ∷ k) tokens.now ≡ outcome_at (Some (Arguments ∷ Closing t.RightParen ∷ k)) tokens.now (λ ys. outcome ys rest)) }
    ensures start { (k : List Symbol) → MatchOpen result (outcome (StartName ∷ k) tokens.now ≡ outcome (Assigns ∷ k) tokens.now)
        (λ rest. outcome (StartName ∷ k) tokens.now ≡ outcome_at (Some (an_expr (StartBracket ∷ k))) tokens.now (λ ys. outcome ys rest))
        (λ rest. outcome (StartName ∷ k) tokens.now ≡ outcome_at (Some (Arguments ∷ Closing t.RightParen ∷ Expect t.Semicolon ∷ k)) tokens.now (λ ys. outcome ys rest)) }
    ensures index { (k : List Symbol) → nest k ≤ 63 → MatchOpen result (outcome (InIndex ∷ k) tokens.now ≡ outcome k tokens.now)
        (λ rest. outcome (InIndex ∷ k) tokens.now ≡ outcome (an_expr (Closing t.RightBracket ∷ k)) rest)
        (λ rest. outcome (InIndex ∷ k) tokens.now ≡ outcome (Arguments ∷ Closing t.RightParen ∷ k) rest) }
    ensures start_index { (k : List Symbol) → nest k ≤ 63 → MatchOpen result (outcome (StartIndex ∷ k) tokens.now ≡ outcome (Assigns ∷ k) tokens.now)
        (λ rest. outcome (StartIndex ∷ k) tokens.now ≡ outcome (an_expr (Closing t.RightBracket ∷ Assigns ∷ k)) rest)
        (λ rest. outcome (StartIndex ∷ k) tokens.now ≡ outcome (Arguments ∷ Closing t.RightParen ∷ Expect t.Semicolon ∷ k) rest) }
    ensures token { MatchOpen result (Unit {0}) (λ rest. (s : Spot) × (tokens.now ≡ Fixed t.LeftBracket s ∷ rest)) (λ rest. (s : Spot) × (tokens.now ≡ Fixed t.LeftParen s ∷ rest)) }
{
    let [Token::Fixed(sign, _), rest @ ..] = tokens else {
        return Open::Nothing;
    };
    match sign {
        Terminal::LeftBracket => Open::Bracket(rest),
        Terminal::LeftParen => Open::Paren(rest),
        _ => Open::Nothing,
    }
}

/// The tokens behind the parenthesis that has to stand behind static arguments.
#[tactic(auto, unfolding(silq_grammar::specs::Outcome::outcome))]
pub(crate) fn call_paren<'t>(tokens: &'t [Token]) -> Result<&'t [Token], Stop<'t>>
    ensures machine { (k : List Symbol) → nest k ≤ 63 → MatchResult result (λ rest. outcome (CallPart ∷ k) tokens.now ≡ outcome (Arguments ∷ Closing t.RightParen ∷ k) rest.now)
        (λ stop. StopsAt (outcome (CallPart ∷ k) tokens.now) stop) }
    ensures token { IfOk result (λ rest. (s : Spot) × (tokens.now ≡ Fixed t.LeftParen s ∷ rest.now)) }
{
    match tokens {
        [Token::Fixed(Terminal::LeftParen, _), rest @ ..] => Ok(rest),
        _ => Err(Stop::Syntax(tokens)),
    }
}
