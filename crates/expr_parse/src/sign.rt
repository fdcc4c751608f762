//! Single tokens.

ghost use Rattle.std.specs.Prelude.{◌≡◌, ◌+◌, ◌<◌, ◌≤◌, List, [], ◌∷◌, length, IfOk, MatchResult, MatchOption, false};
ghost use Rattle.silq_grammar.specs.declared.token.Token.TheVariants.{Name, Fixed};
ghost use Rattle.silq_grammar.specs.Terminals.{same_terminal};
ghost use Rattle.silq_grammar.specs.Machine.{Symbol, Expect, Closing, AnyName, nest};
ghost use Rattle.silq_grammar.specs.Outcome.{outcome};
ghost use Rattle.expr_parse.specs.Stops.{StopsAt};
ghost use Rattle.expr_parse.specs.Begins.{begins_with};

use crate::stop::Stop;
use silq_grammar::{Terminal, Token};
use silq_tree::{NameId, Spot};

/// Whether two words or signs are the same.
fn is(found: Terminal, wanted: Terminal) -> bool
    ensures { result ≡ same_terminal found wanted }
{
    found == wanted
}

/// Whether the first token is a word or a sign.
pub fn begins(tokens: &[Token], wanted: Terminal) -> bool
    ensures { result ≡ begins_with wanted tokens.now }
{
    match tokens {
        [Token::Fixed(found, _), ..] => is(*found, wanted),
        _ => false,
    }
}

/// Takes a word or a sign, if it is the first token.
pub fn optional<'t>(tokens: &'t [Token], wanted: Terminal) -> Option<(Spot, &'t [Token])>
    ensures { MatchOption result (begins_with wanted tokens.now ≡ false) (λ p. tokens.now ≡ Fixed wanted p.0 ∷ p.1.now) }
{
    let [Token::Fixed(found, at), rest @ ..] = tokens else {
        return None;
    };
    if is(*found, wanted) {
        Some((*at, rest))
    } else {
        None
    }
}

/// Takes a word or a sign.
#[tactic(auto, unfolding(silq_grammar::specs::Outcome::outcome))]
pub fn sign<'t>(tokens: &'t [Token], wanted: Terminal) -> Result<(Spot, &'t [Token]), Stop<'t>>
    ensures machine { (k : List Symbol) → nest k ≤ 64 → MatchResult result (λ p. outcome (Expect wanted ∷ k) tokens.now ≡ outcome k p.1.now)
        (λ stop. StopsAt (outcome (Expect wanted ∷ k) tokens.now) stop) }
    ensures closing { (k : List Symbol) → nest k ≤ 64 → MatchResult result (λ p. outcome (Closing wanted ∷ k) tokens.now ≡ outcome k p.1.now)
        (λ stop. StopsAt (outcome (Closing wanted ∷ k) tokens.now) stop) }
    ensures token { IfOk result (λ p. tokens.now ≡ Fixed wanted p.0 ∷ p.1.now) }
{
    let [Token::Fixed(found, at), rest @ ..] = tokens else {
        return Err(Stop::Syntax(tokens));
    };
    if is(*found, wanted) {
        Ok((*at, rest))
    } else {
        Err(Stop::Syntax(tokens))
    }
}

/// Takes a name.
#[tactic(auto, unfolding(silq_grammar::specs::Outcome::outcome))]
pub fn name<'t>(tokens: &'t [Token]) -> Result<(NameId, Spot, &'t [Token]), Stop<'t>>
    ensures machine { (k : List Symbol) → nest k ≤ 64 → MatchResult result (λ p. outcome (AnyName ∷ k) tokens.now ≡ outcome k p.2.now)
        (λ stop. StopsAt (outcome (AnyName ∷ k) tokens.now) stop) }
    ensures token { IfOk result (λ p. tokens.now ≡ Name p.0 p.1 ∷ p.2.now) }
{
    match tokens {
        [Token::Name(name, at), rest @ ..] => Ok((*name, *at, rest)),
        _ => Err(Stop::Syntax(tokens)),
    }
}
