//! Statements that begin with a word or a parenthesis and hold no block.

ghost use Rattle.std.specs.Prelude.{◌≡◌, ◌+◌, ◌-◌, ◌^◌, ◌<◌, ◌≤◌, ℕ, List, [], ◌∷◌, ◌++◌, Option, Some, None, length, map, flat_map, IfOk, IfErr, OnOk, OnErr, MatchResult, MatchOption};
ghost use Rattle.silq_tree.specs.Arena.{IsArena, expr_at};
ghost use Rattle.silq_tree.specs.Children.{listed};
ghost use Rattle.silq_grammar.specs.declared.token.Token.TheVariants.{Name, Fixed};
ghost use Rattle.silq_grammar.specs.declared.token.Terminal.TheVariants as t;
ghost use Rattle.silq_grammar.specs.Machine.{Symbol, Expect, Closing, AnyName, MoreNames, ForgetPart, ForgetValue, PhasePart, ReturnValue, value, an_expr, nest};
ghost use Rattle.silq_grammar.specs.Outcome.{outcome};
ghost use Rattle.silq_grammar.specs.Spelled.{stmt_text, expr_text, names_text};
ghost use Rattle.silq_grammar.specs.Trees.{stmt_tree, expr_tree, names_tree};
ghost use Rattle.expr_parse.specs.Stops.{StopsAt};
ghost use Rattle.silq_parse.specs.Parts.{SpellsTuple, forget_part_text, forget_part_tree, return_part_text, return_part_tree, maybe};
ghost use Rattle.expr_parse.specs.Reads.{ReadsExpr, ReadsStmt, ReadsPart};

use crate::statement::add_statement;
use expr_parse::expr::expr;
use expr_parse::sign::{begins, name, sign};
use expr_parse::stop::{Stop, deeper};
use silq_grammar::{Terminal, Token};
use silq_tree::{ExprId, NameId, NameIds, Spot, Stmt, StmtId, Tree};
use std::alloc::Global;

/// The names of a tuple from behind its parenthesis, which is closed behind them.
#[tactic(auto, unfolding(silq_grammar::specs::Outcome::outcome))]
fn tuple_names<'t>(alloc: Global, tokens: &'t [Token]) -> Result<(NameIds, &'t [Token]), Stop<'t>>
    ensures machine { (k : List Symbol) → nest k ≤ 63 → MatchResult result (λ p. outcome (AnyName ∷ Expect t.Comma ∷ AnyName ∷ MoreNames ∷ Closing t.RightParen ∷ k) tokens.now ≡ outcome k p.1.now)
        (λ stop. StopsAt (outcome (AnyName ∷ Expect t.Comma ∷ AnyName ∷ MoreNames ∷ Closing t.RightParen ∷ k) tokens.now) stop) }
    ensures reads { IfOk result (λ p. SpellsTuple p.0 tokens.now p.1.now) }
    ensures shorter { IfOk result (λ p. length p.1.now < length tokens.now) }
{
    let mut names = NameIds::new(alloc);
    let (first, _, rest) = name(tokens)?;
    names.push(first)?;
    let (_, rest) = sign(rest, Terminal::Comma)?;
    let (second, _, rest) = name(rest)?;
    names.push(second)?;
    let mut rest = rest;
    while let [Token::Fixed(Terminal::Comma, _comma), more @ ..] = rest {
        let (next, _, more) = name(more)?;
        names.push(next)?;
        rest = more;
    }
    let (_, rest) = sign(rest, Terminal::RightParen)?;
    Ok((names, rest))
}

/// An assignment to a tuple, from behind its parenthesis.
pub(crate) fn spread<'t>(
    alloc: Global,
    tree: &mut Tree,
    tokens: &'t [Token],
    at: Spot,
    room: u32,
) -> Result<(StmtId, &'t [Token]), Stop<'t>>
    requires arena { IsArena tree.old }
    requires exprs { length tree.old.exprs + length tokens.now < 2 ^ 32 - 1 }
    requires stmts { length tree.old.stmts + length tokens.now < 2 ^ 32 - 1 }
    requires inside { 1 ≤ room }
    ensures machine { (k : List Symbol) → nest k + room ≡ 64 → MatchResult result (λ p. outcome (AnyName ∷ Expect t.Comma ∷ AnyName ∷ MoreNames ∷ Closing t.RightParen ∷ Expect t.Becomes ∷ value k) tokens.now ≡ outcome k p.1.now)
        (λ stop. StopsAt (outcome (AnyName ∷ Expect t.Comma ∷ AnyName ∷ MoreNames ∷ Closing t.RightParen ∷ Expect t.Becomes ∷ value k) tokens.now) stop) }
    ensures reads { IfOk result (λ p. ReadsStmt stmt_text stmt_tree tree.old tree.new (Fixed t.LeftParen at ∷ tokens.now) p.0 p.1.now) }
    ensures arena { OnOk result (IsArena tree.new) }
    ensures shorter { IfOk result (λ p. length p.1.now < length tokens.now) }
{
    let (names, rest) = tuple_names(alloc, tokens)?;
    let (_, rest) = sign(rest, Terminal::Becomes)?;
    let (value, rest) = expr(alloc, tree, rest, room)?;
    let (_, rest) = sign(rest, Terminal::Semicolon)?;
    let id = add_statement(tree, Stmt::Spread { names, value, at })?;
    Ok((id, rest))
}

/// What stands in the parentheses of a forget.
#[tactic(auto, unfolding(silq_grammar::specs::Outcome::outcome))]
fn forget_value<'t>(
    alloc: Global,
    tree: &mut Tree,
    tokens: &'t [Token],
    room: u32,
) -> Result<(Option<ExprId>, &'t [Token]), Stop<'t>>
    requires arena { IsArena tree.old }
    requires exprs { length tree.old.exprs + length tokens.now < 2 ^ 32 - 1 }
    ensures machine { (k : List Symbol) → nest k + room ≡ 64 → MatchResult result (λ p. outcome (ForgetValue ∷ k) tokens.now ≡ outcome k p.1.now)
        (λ stop. StopsAt (outcome (ForgetValue ∷ k) tokens.now) stop) }
    ensures reads { IfOk result (λ p. ReadsPart forget_part_text forget_part_tree tree.old tree.new tokens.now (maybe (expr_at tree.new) p.0) (listed p.0) [] p.1.now) }
    ensures arena { OnOk result (IsArena tree.new) }
    ensures no_longer { IfOk result (λ p. length p.1.now ≤ length tokens.now) }
{
    match tokens {
        [Token::Fixed(Terminal::Is, _is), rest @ ..] => {
            let (value, rest) = expr(alloc, tree, rest, room)?;
            Ok((Some(value), rest))
        }
        _ => Ok((None, tokens)),
    }
}

/// A forget, from behind its word.
#[tactic(auto, unfolding(silq_grammar::specs::Outcome::outcome))]
pub(crate) fn forget<'t>(
    alloc: Global,
    tree: &mut Tree,
    tokens: &'t [Token],
    at: Spot,
    room: u32,
) -> Result<(StmtId, &'t [Token]), Stop<'t>>
    requires arena { IsArena tree.old }
    requires exprs { length tree.old.exprs + length tokens.now < 2 ^ 32 - 1 }
    requires stmts { length tree.old.stmts + length tokens.now < 2 ^ 32 - 1 }
    ensures machine { (k : List Symbol) → nest k + room ≡ 64 → MatchResult result (λ p. outcome (ForgetPart ∷ Expect t.Semicolon ∷ k) tokens.now ≡ outcome k p.1.now)
        (λ stop. StopsAt (outcome (ForgetPart ∷ Expect t.Semicolon ∷ k) tokens.now) stop) }
    ensures reads { IfOk result (λ p. ReadsStmt stmt_text stmt_tree tree.old tree.new (Fixed t.Forget at ∷ tokens.now) p.0 p.1.now) }
    ensures arena { OnOk result (IsArena tree.new) }
    ensures shorter { IfOk result (λ p. length p.1.now < length tokens.now) }
{
    let [Token::Fixed(Terminal::LeftParen, _open), rest @ ..] = tokens else {
        return Err(Stop::Syntax(tokens));
    };
    let inside = deeper(tokens, room)?;
    let (name, _, rest) = name(rest)?;
    let (value, rest) = forget_value(alloc, tree, rest, inside)?;
    let (_, rest) = sign(rest, Terminal::RightParen)?;
    let (_, rest) = sign(rest, Terminal::Semicolon)?;
    let id = add_statement(tree, Stmt::Forget { name, value, at })?;
    Ok((id, rest))
}

/// A phase, from behind its word.
#[tactic(auto, unfolding(silq_grammar::specs::Outcome::outcome))]
pub(crate) fn phase<'t>(
    alloc: Global,
    tree: &mut Tree,
    tokens: &'t [Token],
    at: Spot,
    room: u32,
) -> Result<(StmtId, &'t [Token]), Stop<'t>>
    requires arena { IsArena tree.old }
    requires exprs { length tree.old.exprs + length tokens.now < 2 ^ 32 - 1 }
    requires stmts { length tree.old.stmts + length tokens.now < 2 ^ 32 - 1 }
    ensures machine { (k : List Symbol) → nest k + room ≡ 64 → MatchResult result (λ p. outcome (PhasePart ∷ Expect t.Semicolon ∷ k) tokens.now ≡ outcome k p.1.now)
        (λ stop. StopsAt (outcome (PhasePart ∷ Expect t.Semicolon ∷ k) tokens.now) stop) }
    ensures reads { IfOk result (λ p. ReadsStmt stmt_text stmt_tree tree.old tree.new (Fixed t.Phase at ∷ tokens.now) p.0 p.1.now) }
    ensures arena { OnOk result (IsArena tree.new) }
    ensures shorter { IfOk result (λ p. length p.1.now < length tokens.now) }
{
    let [Token::Fixed(Terminal::LeftParen, _open), rest @ ..] = tokens else {
        return Err(Stop::Syntax(tokens));
    };
    let inside = deeper(tokens, room)?;
    let (angle, rest) = expr(alloc, tree, rest, inside)?;
    let (_, rest) = sign(rest, Terminal::RightParen)?;
    let (_, rest) = sign(rest, Terminal::Semicolon)?;
    let id = add_statement(tree, Stmt::Phase { angle, at })?;
    Ok((id, rest))
}

/// The value of a return, or none where the semicolon follows.
#[tactic(auto, unfolding(silq_grammar::specs::Outcome::outcome))]
fn return_value<'t>(
    alloc: Global,
    tree: &mut Tree,
    tokens: &'t [Token],
    room: u32,
) -> Result<(Option<ExprId>, &'t [Token]), Stop<'t>>
    requires arena { IsArena tree.old }
    requires exprs { length tree.old.exprs + length tokens.now < 2 ^ 32 - 1 }
    ensures machine { (k : List Symbol) → nest k + room ≡ 64 → MatchResult result (λ p. outcome (ReturnValue ∷ Expect t.Semicolon ∷ k) tokens.now ≡ outcome (Expect t.Semicolon ∷ k) p.1.now)
        (λ stop. StopsAt (outcome (ReturnValue ∷ Expect t.Semicolon ∷ k) tokens.now) stop) }
    ensures reads { IfOk result (λ p. ReadsPart return_part_text return_part_tree tree.old tree.new tokens.now (maybe (expr_at tree.new) p.0) (listed p.0) [] p.1.now) }
    ensures arena { OnOk result (IsArena tree.new) }
    ensures no_longer { IfOk result (λ p. length p.1.now ≤ length tokens.now) }
{
    if begins(tokens, Terminal::Semicolon) {
        return Ok((None, tokens));
    }
    let (value, rest) = expr(alloc, tree, tokens, room)?;
    Ok((Some(value), rest))
}

/// A return, from behind its word.
pub(crate) fn return_rest<'t>(
    alloc: Global,
    tree: &mut Tree,
    tokens: &'t [Token],
    at: Spot,
    room: u32,
) -> Result<(StmtId, &'t [Token]), Stop<'t>>
    requires arena { IsArena tree.old }
    requires exprs { length tree.old.exprs + length tokens.now < 2 ^ 32 - 1 }
    requires stmts { length tree.old.stmts + length tokens.now < 2 ^ 32 - 1 }
    ensures machine { (k : List Symbol) → nest k + room ≡ 64 → MatchResult result (λ p. outcome (ReturnValue ∷ Expect t.Semicolon ∷ k) tokens.now ≡ outcome k p.1.now)
        (λ stop. StopsAt (outcome (ReturnValue ∷ Expect t.Semicolon ∷ k) tokens.now) stop) }
    ensures reads { IfOk result (λ p. ReadsStmt stmt_text stmt_tree tree.old tree.new (Fixed t.Return at ∷ tokens.now) p.0 p.1.now) }
    ensures arena { OnOk result (IsArena tree.new) }
    ensures shorter { IfOk result (λ p. length p.1.now < length tokens.now) }
{
    let (value, rest) = return_value(alloc, tree, tokens, room)?;
    let (_, rest) = sign(rest, Terminal::Semicolon)?;
    let id = add_statement(tree, Stmt::Return { value, at })?;
    Ok((id, rest))
}
