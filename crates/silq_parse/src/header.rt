//! Headers of functions.

ghost use Rattle.std.specs.Prelude.{◌≡◌, ◌+◌, ◌-◌, ◌^◌, ◌<◌, ◌≤◌, ℕ, List, [], ◌∷◌, ◌++◌, Option, Some, None, length, map, flat_map, IfOk, IfErr, OnOk, OnErr, MatchResult, MatchOption};
ghost use Rattle.silq_tree.specs.declared.node.Spot.{Spot};
ghost use Rattle.silq_tree.specs.Arena.{IsArena, expr_at};
ghost use Rattle.silq_tree.specs.Standing.{type_of, param_of};
ghost use Rattle.silq_tree.specs.Children.{type_exprs, param_exprs};
ghost use Rattle.silq_grammar.specs.declared.token.Token.TheVariants.{Name, Fixed};
ghost use Rattle.silq_grammar.specs.declared.token.Terminal.TheVariants as t;
ghost use Rattle.silq_grammar.specs.Machine.{Symbol, Expect, Closing, AnyName, AType, OneParam, MoreParams, Params, ParamPart, StaticPart, MoreStatics, MarkPart, ResultPart, nest};
ghost use Rattle.silq_grammar.specs.Outcome.{outcome};
ghost use Rattle.silq_grammar.specs.Spelled.{param_text, params_text, param_part_text, mark_text, result_part_text};
ghost use Rattle.silq_grammar.specs.Trees.{param_tree, params_tree, param_part_tree, mark_tree, result_part_tree};
ghost use Rattle.expr_parse.specs.Stops.{StopsAt};
ghost use Rattle.silq_parse.specs.Parts.{SpellsStatic, SpellsStatics, SpellsStaticPart, SpellsMark, typed_text, typed_tree};
ghost use Rattle.expr_parse.specs.Reads.{ReadsPart};

use crate::types::{results, written_type};
use expr_parse::sign::{name, optional, sign};
use expr_parse::stop::{Stop, deeper};
use silq_grammar::{Terminal, Token};
use silq_tree::{Mark, NameId, NameIds, ParamNode, ParamNodes, Spot, Tree, TypeNodes};
use std::alloc::Global;

/// A static parameter.
fn static_param<'t>(tokens: &'t [Token]) -> Result<(NameId, &'t [Token]), Stop<'t>>
    ensures machine { (k : List Symbol) → nest k ≤ 64 → MatchResult result (λ p. outcome (AnyName ∷ Expect t.Colon ∷ Expect t.Bang ∷ Expect t.Natural ∷ k) tokens.now ≡ outcome k p.1.now)
        (λ stop. StopsAt (outcome (AnyName ∷ Expect t.Colon ∷ Expect t.Bang ∷ Expect t.Natural ∷ k) tokens.now) stop) }
    ensures reads { IfOk result (λ p. SpellsStatic p.0 tokens.now p.1.now) }
    ensures shorter { IfOk result (λ p. length p.1.now < length tokens.now) }
{
    let (id, _, rest) = name(tokens)?;
    let (_, rest) = sign(rest, Terminal::Colon)?;
    let (_, rest) = sign(rest, Terminal::Bang)?;
    let (_, rest) = sign(rest, Terminal::Natural)?;
    Ok((id, rest))
}

/// Static parameters between commas.
#[tactic(auto, unfolding(silq_grammar::specs::Outcome::outcome))]
fn static_params<'t>(alloc: Global, tokens: &'t [Token]) -> Result<(NameIds, &'t [Token]), Stop<'t>>
    ensures machine { (k : List Symbol) → nest k ≤ 64 → MatchResult result (λ p. outcome (AnyName ∷ Expect t.Colon ∷ Expect t.Bang ∷ Expect t.Natural ∷ MoreStatics ∷ k) tokens.now ≡ outcome k p.1.now)
        (λ stop. StopsAt (outcome (AnyName ∷ Expect t.Colon ∷ Expect t.Bang ∷ Expect t.Natural ∷ MoreStatics ∷ k) tokens.now) stop) }
    ensures reads { IfOk result (λ p. SpellsStatics p.0 tokens.now p.1.now) }
    ensures shorter { IfOk result (λ p. length p.1.now < length tokens.now) }
{
    let (first, rest) = static_param(tokens)?;
    let mut names = NameIds::new(alloc);
    names.push(first)?;
    let mut rest = rest;
    while let [Token::Fixed(Terminal::Comma, _comma), more @ ..] = rest {
        let (next, more) = static_param(more)?;
        names.push(next)?;
        rest = more;
    }
    Ok((names, rest))
}

/// The static parameters of a function, with their brackets, or none.
#[tactic(auto, unfolding(silq_grammar::specs::Outcome::outcome))]
pub(crate) fn static_part<'t>(
    alloc: Global,
    tokens: &'t [Token],
    room: u32,
) -> Result<(NameIds, &'t [Token]), Stop<'t>>
    ensures machine { (k : List Symbol) → nest k + room ≡ 64 → MatchResult result (λ p. outcome (StaticPart ∷ k) tokens.now ≡ outcome k p.1.now)
        (λ stop. StopsAt (outcome (StaticPart ∷ k) tokens.now) stop) }
    ensures reads { IfOk result (λ p. SpellsStaticPart p.0 tokens.now p.1.now) }
    ensures no_longer { IfOk result (λ p. length p.1.now ≤ length tokens.now) }
{
    match tokens {
        [Token::Fixed(Terminal::LeftBracket, _open), rest @ ..] => {
            let _inside = deeper(tokens, room)?;
            let (names, rest) = static_params(alloc, rest)?;
            let (_, rest) = sign(rest, Terminal::RightBracket)?;
            Ok((names, rest))
        }
        _ => {
            let names = NameIds::new(alloc);
            Ok((names, tokens))
        }
    }
}

/// The type of a parameter, with the sign before it.
fn typed<'t>(
    alloc: Global,
    tree: &mut Tree,
    tokens: &'t [Token],
    held: bool,
    name: NameId,
    at: Spot,
    room: u32,
) -> Result<(ParamNode, &'t [Token]), Stop<'t>>
    requires arena { IsArena tree.old }
    requires exprs { length tree.old.exprs + length tokens.now < 2 ^ 32 - 1 }
    ensures machine { (k : List Symbol) → nest k + room ≡ 64 → MatchResult result (λ p. outcome (Expect t.Colon ∷ AType ∷ k) tokens.now ≡ outcome k p.1.now)
        (λ stop. StopsAt (outcome (Expect t.Colon ∷ AType ∷ k) tokens.now) stop) }
    ensures reads { IfOk result (λ p. ReadsPart typed_text (typed_tree held name at) tree.old tree.new tokens.now (param_of (expr_at tree.new) p.0) (param_exprs p.0) [] p.1.now) }
    ensures arena { OnOk result (IsArena tree.new) }
    ensures shorter { IfOk result (λ p. length p.1.now < length tokens.now) }
{
    let (_, rest) = sign(tokens, Terminal::Colon)?;
    let (ty, rest) = written_type(alloc, tree, rest, room)?;
    Ok((ParamNode { held, name, ty, at }, rest))
}

/// A parameter.
#[tactic(auto, unfolding(silq_grammar::specs::Outcome::outcome))]
fn param<'t>(
    alloc: Global,
    tree: &mut Tree,
    tokens: &'t [Token],
    room: u32,
) -> Result<(ParamNode, &'t [Token]), Stop<'t>>
    requires arena { IsArena tree.old }
    requires exprs { length tree.old.exprs + length tokens.now < 2 ^ 32 - 1 }
    ensures machine { (k : List Symbol) → nest k + room ≡ 64 → MatchResult result (λ p. outcome (OneParam ∷ k) tokens.now ≡ outcome k p.1.now)
        (λ stop. StopsAt (outcome (OneParam ∷ k) tokens.now) stop) }
    ensures reads { IfOk result (λ p. ReadsPart param_text param_tree tree.old tree.new tokens.now (param_of (expr_at tree.new) p.0) (param_exprs p.0) [] p.1.now) }
    ensures arena { OnOk result (IsArena tree.new) }
    ensures shorter { IfOk result (λ p. length p.1.now < length tokens.now) }
{
    match tokens {
        [Token::Name(id, at), rest @ ..] => {
            let (param, rest) = typed(alloc, tree, rest, false, *id, *at, room)?;
            Ok((param, rest))
        }
        [Token::Fixed(Terminal::Const, at), rest @ ..] => {
            let (id, _, rest) = name(rest)?;
            let (param, rest) = typed(alloc, tree, rest, true, id, *at, room)?;
            Ok((param, rest))
        }
        _ => Err(Stop::Syntax(tokens)),
    }
}

/// Parameters between commas.
#[tactic(auto, unfolding(silq_grammar::specs::Outcome::outcome))]
fn params<'t>(
    alloc: Global,
    tree: &mut Tree,
    tokens: &'t [Token],
    room: u32,
) -> Result<(ParamNodes, &'t [Token]), Stop<'t>>
    requires arena { IsArena tree.old }
    requires exprs { length tree.old.exprs + length tokens.now < 2 ^ 32 - 1 }
    ensures machine { (k : List Symbol) → nest k + room ≡ 64 → MatchResult result (λ p. outcome (OneParam ∷ MoreParams ∷ k) tokens.now ≡ outcome k p.1.now)
        (λ stop. StopsAt (outcome (OneParam ∷ MoreParams ∷ k) tokens.now) stop) }
    ensures reads { IfOk result (λ p. ReadsPart params_text params_tree tree.old tree.new tokens.now (map (param_of (expr_at tree.new)) p.0) (flat_map param_exprs p.0) [] p.1.now) }
    ensures arena { OnOk result (IsArena tree.new) }
    ensures shorter { IfOk result (λ p. length p.1.now < length tokens.now) }
{
    let (first, rest) = param(alloc, tree, tokens, room)?;
    let mut params = ParamNodes::new(alloc);
    params.push(first)?;
    let mut rest = rest;
    while let [Token::Fixed(Terminal::Comma, _comma), more @ ..] = rest {
        let (next, more) = param(alloc, tree, more, room)?;
        params.push(next)?;
        rest = more;
    }
    Ok((params, rest))
}

/// Parameters, or none, and the parenthesis behind them; `open_at` is the one before them.
#[tactic(auto, unfolding(silq_grammar::specs::Outcome::outcome))]
fn params_end<'t>(
    alloc: Global,
    tree: &mut Tree,
    tokens: &'t [Token],
    open_at: Spot,
    room: u32,
) -> Result<(ParamNodes, &'t [Token]), Stop<'t>>
    requires arena { IsArena tree.old }
    requires exprs { length tree.old.exprs + length tokens.now < 2 ^ 32 - 1 }
    ensures machine { (k : List Symbol) → nest k + 1 + room ≡ 64 → MatchResult result (λ p. outcome (Params ∷ Closing t.RightParen ∷ k) tokens.now ≡ outcome k p.1.now)
        (λ stop. StopsAt (outcome (Params ∷ Closing t.RightParen ∷ k) tokens.now) stop) }
    ensures reads { IfOk result (λ p. ReadsPart param_part_text param_part_tree tree.old tree.new (Fixed t.LeftParen open_at ∷ tokens.now) (map (param_of (expr_at tree.new)) p.0) (flat_map param_exprs p.0) [] p.1.now) }
    ensures arena { OnOk result (IsArena tree.new) }
    ensures shorter { IfOk result (λ p. length p.1.now < length tokens.now) }
{
    match optional(tokens, Terminal::RightParen) {
        Some((_end, rest)) => {
            let params = ParamNodes::new(alloc);
            Ok((params, rest))
        }
        None => {
            let (params, rest) = params(alloc, tree, tokens, room)?;
            let (_, rest) = sign(rest, Terminal::RightParen)?;
            Ok((params, rest))
        }
    }
}

/// The parameters of a function, with their parentheses.
#[tactic(auto, unfolding(silq_grammar::specs::Outcome::outcome))]
pub(crate) fn param_part<'t>(
    alloc: Global,
    tree: &mut Tree,
    tokens: &'t [Token],
    room: u32,
) -> Result<(ParamNodes, &'t [Token]), Stop<'t>>
    requires arena { IsArena tree.old }
    requires exprs { length tree.old.exprs + length tokens.now < 2 ^ 32 - 1 }
    ensures machine { (k : List Symbol) → nest k + room ≡ 64 → MatchResult result (λ p. outcome (ParamPart ∷ k) tokens.now ≡ outcome k p.1.now)
        (λ stop. StopsAt (outcome (ParamPart ∷ k) tokens.now) stop) }
    ensures reads { IfOk result (λ p. ReadsPart param_part_text param_part_tree tree.old tree.new tokens.now (map (param_of (expr_at tree.new)) p.0) (flat_map param_exprs p.0) [] p.1.now) }
    ensures arena { OnOk result (IsArena tree.new) }
    ensures shorter { IfOk result (λ p. length p.1.now < length tokens.now) }
{
    let [Token::Fixed(Terminal::LeftParen, open), rest @ ..] = tokens else {
        return Err(Stop::Syntax(tokens));
    };
    let inside = deeper(tokens, room)?;
    let (params, rest) = params_end(alloc, tree, rest, *open, inside)?;
    Ok((params, rest))
}

/// The mark of a function, or none.
#[tactic(auto, unfolding(silq_grammar::specs::Outcome::outcome))]
pub(crate) fn mark<'t>(tokens: &'t [Token]) -> (Mark, &'t [Token])
    ensures machine { (k : List Symbol) → nest k ≤ 64 → outcome (MarkPart ∷ k) tokens.now ≡ outcome k result.1.now }
    ensures reads { SpellsMark result.0 tokens.now result.1.now }
    ensures no_longer { length result.1.now ≤ length tokens.now }
{
    let [Token::Fixed(word, _at), rest @ ..] = tokens else {
        return (Mark::Plain, tokens);
    };
    match word {
        Terminal::Lifted => (Mark::Lifted, rest),
        Terminal::Qfree => (Mark::Qfree, rest),
        Terminal::Mfree => (Mark::Mfree, rest),
        _ => (Mark::Plain, tokens),
    }
}

/// The types of a function's results, or none.
#[tactic(auto, unfolding(silq_grammar::specs::Outcome::outcome))]
pub(crate) fn result_part<'t>(
    alloc: Global,
    tree: &mut Tree,
    tokens: &'t [Token],
    room: u32,
) -> Result<(TypeNodes, &'t [Token]), Stop<'t>>
    requires arena { IsArena tree.old }
    requires exprs { length tree.old.exprs + length tokens.now < 2 ^ 32 - 1 }
    ensures machine { (k : List Symbol) → nest k + room ≡ 64 → MatchResult result (λ p. outcome (ResultPart ∷ k) tokens.now ≡ outcome k p.1.now)
        (λ stop. StopsAt (outcome (ResultPart ∷ k) tokens.now) stop) }
    ensures reads { IfOk result (λ p. ReadsPart result_part_text result_part_tree tree.old tree.new tokens.now (map (type_of (expr_at tree.new)) p.0) (flat_map type_exprs p.0) [] p.1.now) }
    ensures arena { OnOk result (IsArena tree.new) }
    ensures no_longer { IfOk result (λ p. length p.1.now ≤ length tokens.now) }
{
    match tokens {
        [Token::Fixed(Terminal::Colon, _colon), rest @ ..] => {
            let (types, rest) = results(alloc, tree, rest, room)?;
            Ok((types, rest))
        }
        _ => {
            let types = TypeNodes::new(alloc);
            Ok((types, tokens))
        }
    }
}
