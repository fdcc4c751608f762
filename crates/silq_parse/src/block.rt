//! Blocks, and the statements that hold them.

ghost use Rattle.std.specs.Prelude.{◌≡◌, ◌+◌, ◌-◌, ◌^◌, ◌<◌, ◌≤◌, ℕ, List, [], ◌∷◌, ◌++◌, Option, Some, None, length, map, flat_map, IfOk, IfErr, OnOk, OnErr, MatchResult, MatchOption, ⊤};
ghost use Rattle.silq_tree.specs.declared.node.Spot.{Spot};
ghost use Rattle.silq_tree.specs.Arena.{IsArena, expr_at, stmt_at};
ghost use Rattle.silq_tree.specs.Standing.{statements_of, block_of, otherwise_of};
ghost use Rattle.silq_tree.specs.Children.{else_stmts};
ghost use Rattle.silq_grammar.specs.declared.token.Token.TheVariants.{Name, Fixed};
ghost use Rattle.silq_grammar.specs.declared.token.Terminal.TheVariants as t;
ghost use Rattle.silq_grammar.specs.Machine.{Symbol, Expect, Closing, AnyName, ABlock, Statements, Bounds, ElseRest, ElseBody, value, an_expr, nest};
ghost use Rattle.silq_grammar.specs.Outcome.{outcome};
ghost use Rattle.silq_grammar.specs.Spelled.{stmt_text, stmts_text, block_text, choice_text};
ghost use Rattle.silq_grammar.specs.Trees.{stmt_tree, stmts_tree, block_tree, choice_tree};
ghost use Rattle.expr_parse.specs.Stops.{StopsAt};
ghost use Rattle.silq_parse.specs.Parts.{Between, between_text, between_tree, rest_text, rest_tree};
ghost use Rattle.expr_parse.specs.Reads.{ReadsExpr, ReadsStmt, ReadsPart};

use crate::assign::named;
use crate::simple::{forget, phase, return_rest, spread};
use crate::statement::add_statement;
use expr_parse::expr::expr;
use expr_parse::sign::{name, sign};
use expr_parse::stop::{Stop, deeper};
use silq_grammar::{Terminal, Token};
use silq_tree::{Block, Else, ExprId, Spot, Stmt, StmtId, StmtIds, Tree};
use std::alloc::Global;

/// Statements up to a token with which none begins.
#[cycle(statement)]
fn statements<'t>(
    alloc: Global,
    tree: &mut Tree,
    tokens: &'t [Token],
    room: u32,
) -> Result<(StmtIds, &'t [Token]), Stop<'t>>
    requires arena { IsArena tree.old }
    requires exprs { length tree.old.exprs + length tokens.now < 2 ^ 32 - 1 }
    requires stmts { length tree.old.stmts + length tokens.now < 2 ^ 32 - 1 }
    ensures machine { (k : List Symbol) → nest k + room ≡ 64 → MatchResult result (λ p. outcome (Statements ∷ k) tokens.now ≡ outcome k p.1.now)
        (λ stop. StopsAt (outcome (Statements ∷ k) tokens.now) stop) }
    ensures reads { IfOk result (λ p. ReadsPart stmts_text stmts_tree tree.old tree.new tokens.now (statements_of (expr_at tree.new) (stmt_at tree.new) p.0) [] p.0 p.1.now) }
    ensures arena { OnOk result (IsArena tree.new) }
    ensures no_longer { IfOk result (λ p. length p.1.now ≤ length tokens.now) }
{
    let mut items = StmtIds::new(alloc);
    let mut rest = tokens;
    while let Some((id, more)) = statement(alloc, tree, rest, room)? {
        items.push(id)?;
        rest = more;
    }
    Ok((items, rest))
}

/// A statement, or none where none begins.
#[cycle(statement)]
#[tactic(auto, unfolding(silq_grammar::specs::Outcome::outcome))]
fn statement<'t>(
    alloc: Global,
    tree: &mut Tree,
    tokens: &'t [Token],
    room: u32,
) -> Result<Option<(StmtId, &'t [Token])>, Stop<'t>>
    requires arena { IsArena tree.old }
    requires exprs { length tree.old.exprs + length tokens.now < 2 ^ 32 - 1 }
    requires stmts { length tree.old.stmts + length tokens.now < 2 ^ 32 - 1 }
    ensures machine { (k : List Symbol) → nest k + room ≡ 64 → MatchResult result (λ o. MatchOption o (outcome (Statements ∷ k) tokens.now ≡ outcome k tokens.now)
        (λ p. outcome (Statements ∷ k) tokens.now ≡ outcome (Statements ∷ k) p.1.now)) (λ stop. StopsAt (outcome (Statements ∷ k) tokens.now) stop) }
    ensures reads { IfOk result (λ o. MatchOption o (tree.new ≡ tree.old) (λ p. ReadsStmt stmt_text stmt_tree tree.old tree.new tokens.now p.0 p.1.now)) }
    ensures shorter { IfOk result (λ o. MatchOption o ⊤ (λ p. length p.1.now < length tokens.now)) }
    ensures arena { OnOk result (IsArena tree.new) }
{
    match tokens {
        [Token::Name(name, at), rest @ ..] => {
            let p = named(alloc, tree, rest, *name, *at, room)?;
            Ok(Some(p))
        }
        [Token::Fixed(word, at), rest @ ..] => match word {
            Terminal::LeftParen => {
                let _inside = deeper(tokens, room)?;
                let p = spread(alloc, tree, rest, *at, room)?;
                Ok(Some(p))
            }
            Terminal::Forget => {
                let p = forget(alloc, tree, rest, *at, room)?;
                Ok(Some(p))
            }
            Terminal::Phase => {
                let p = phase(alloc, tree, rest, *at, room)?;
                Ok(Some(p))
            }
            Terminal::If => {
                let p = choice(alloc, tree, rest, *at, room)?;
                Ok(Some(p))
            }
            Terminal::For => {
                let p = loop_rest(alloc, tree, rest, *at, room)?;
                Ok(Some(p))
            }
            Terminal::Return => {
                let p = return_rest(alloc, tree, rest, *at, room)?;
                Ok(Some(p))
            }
            _ => Ok(None),
        },
        _ => Ok(None),
    }
}

/// Statements and the brace that closes them.
#[cycle(statement)]
fn inner<'t>(
    alloc: Global,
    tree: &mut Tree,
    tokens: &'t [Token],
    room: u32,
) -> Result<(Block, &'t [Token]), Stop<'t>>
    requires arena { IsArena tree.old }
    requires exprs { length tree.old.exprs + length tokens.now < 2 ^ 32 - 1 }
    requires stmts { length tree.old.stmts + length tokens.now < 2 ^ 32 - 1 }
    ensures machine { (k : List Symbol) → nest k + 1 + room ≡ 64 → MatchResult result (λ p. outcome (Statements ∷ Closing t.RightBrace ∷ k) tokens.now ≡ outcome k p.1.now)
        (λ stop. StopsAt (outcome (Statements ∷ Closing t.RightBrace ∷ k) tokens.now) stop) }
    ensures reads { (l : Spot) → IfOk result (λ p. ReadsPart block_text block_tree tree.old tree.new (Fixed t.LeftBrace l ∷ tokens.now) (block_of (expr_at tree.new) (stmt_at tree.new) p.0) [] p.0.items p.1.now) }
    ensures arena { OnOk result (IsArena tree.new) }
    ensures shorter { IfOk result (λ p. length p.1.now < length tokens.now) }
{
    let (items, rest) = statements(alloc, tree, tokens, room)?;
    let (end, rest) = sign(rest, Terminal::RightBrace)?;
    Ok((Block { items, end }, rest))
}

/// A block.
#[cycle(statement)]
#[tactic(auto, unfolding(silq_grammar::specs::Outcome::outcome))]
pub(crate) fn block<'t>(
    alloc: Global,
    tree: &mut Tree,
    tokens: &'t [Token],
    room: u32,
) -> Result<(Block, &'t [Token]), Stop<'t>>
    requires arena { IsArena tree.old }
    requires exprs { length tree.old.exprs + length tokens.now < 2 ^ 32 - 1 }
    requires stmts { length tree.old.stmts + length tokens.now < 2 ^ 32 - 1 }
    ensures machine { (k : List Symbol) → nest k + room ≡ 64 → MatchResult result (λ p. outcome (ABlock ∷ k) tokens.now ≡ outcome k p.1.now)
        (λ stop. StopsAt (outcome (ABlock ∷ k) tokens.now) stop) }
    ensures reads { IfOk result (λ p. ReadsPart block_text block_tree tree.old tree.new tokens.now (block_of (expr_at tree.new) (stmt_at tree.new) p.0) [] p.0.items p.1.now) }
    ensures arena { OnOk result (IsArena tree.new) }
    ensures shorter { IfOk result (λ p. length p.1.now < length tokens.now) }
{
    let [Token::Fixed(Terminal::LeftBrace, _open), rest @ ..] = tokens else {
        return Err(Stop::Syntax(tokens));
    };
    let inside = deeper(tokens, room)?;
    inner(alloc, tree, rest, inside)
}

/// A choice, from behind its `if`.
#[cycle(statement)]
fn choice<'t>(
    alloc: Global,
    tree: &mut Tree,
    tokens: &'t [Token],
    at: Spot,
    room: u32,
) -> Result<(StmtId, &'t [Token]), Stop<'t>>
    requires arena { IsArena tree.old }
    requires exprs { length tree.old.exprs + length tokens.now < 2 ^ 32 - 1 }
    requires stmts { length tree.old.stmts + length tokens.now < 2 ^ 32 - 1 }
    ensures machine { (k : List Symbol) → nest k + room ≡ 64 → MatchResult result (λ p. outcome (an_expr (ABlock ∷ ElseRest ∷ k)) tokens.now ≡ outcome k p.1.now)
        (λ stop. StopsAt (outcome (an_expr (ABlock ∷ ElseRest ∷ k)) tokens.now) stop) }
    ensures reads { IfOk result (λ p. ReadsStmt choice_text choice_tree tree.old tree.new (Fixed t.If at ∷ tokens.now) p.0 p.1.now) }
    ensures arena { OnOk result (IsArena tree.new) }
    ensures shorter { IfOk result (λ p. length p.1.now < length tokens.now) }
{
    let (cond, rest) = expr(alloc, tree, tokens, room)?;
    let (then, rest) = block(alloc, tree, rest, room)?;
    let (other, rest) = else_rest(alloc, tree, rest, then.end, room)?;
    let id = add_statement(
        tree,
        Stmt::If {
            cond,
            then,
            other,
            at,
        },
    )?;
    Ok((id, rest))
}

/// What may stand behind the first block of a choice, which ends at `end`.
#[cycle(statement)]
#[tactic(auto, unfolding(silq_grammar::specs::Outcome::outcome))]
fn else_rest<'t>(
    alloc: Global,
    tree: &mut Tree,
    tokens: &'t [Token],
    end: Spot,
    room: u32,
) -> Result<(Else, &'t [Token]), Stop<'t>>
    requires arena { IsArena tree.old }
    requires exprs { length tree.old.exprs + length tokens.now < 2 ^ 32 - 1 }
    requires stmts { length tree.old.stmts + length tokens.now < 2 ^ 32 - 1 }
    ensures machine { (k : List Symbol) → nest k + room ≡ 64 → MatchResult result (λ p. outcome (ElseRest ∷ k) tokens.now ≡ outcome k p.1.now)
        (λ stop. StopsAt (outcome (ElseRest ∷ k) tokens.now) stop) }
    ensures reads { IfOk result (λ p. ReadsPart rest_text (rest_tree end) tree.old tree.new tokens.now (otherwise_of (expr_at tree.new) (stmt_at tree.new) p.0) [] (else_stmts p.0) p.1.now) }
    ensures arena { OnOk result (IsArena tree.new) }
    ensures no_longer { IfOk result (λ p. length p.1.now ≤ length tokens.now) }
{
    match tokens {
        [Token::Fixed(Terminal::Else, at), rest @ ..] => else_body(
            alloc, tree, rest, *at, end, room,
        ),
        _ => {
            let items = StmtIds::new(alloc);
            Ok((Else::Block(Block { items, end }), tokens))
        }
    }
}

/// What stands behind an `else`; `end` is where the block before it ends.
#[cycle(statement)]
#[tactic(auto, unfolding(silq_grammar::specs::Outcome::outcome))]
fn else_body<'t>(
    alloc: Global,
    tree: &mut Tree,
    tokens: &'t [Token],
    at: Spot,
    end: Spot,
    room: u32,
) -> Result<(Else, &'t [Token]), Stop<'t>>
    requires arena { IsArena tree.old }
    requires exprs { length tree.old.exprs + length tokens.now < 2 ^ 32 - 1 }
    requires stmts { length tree.old.stmts + length tokens.now < 2 ^ 32 - 1 }
    ensures machine { (k : List Symbol) → nest k + room ≡ 64 → MatchResult result (λ p. outcome (ElseBody ∷ k) tokens.now ≡ outcome k p.1.now)
        (λ stop. StopsAt (outcome (ElseBody ∷ k) tokens.now) stop) }
    ensures reads { IfOk result (λ p. ReadsPart rest_text (rest_tree end) tree.old tree.new (Fixed t.Else at ∷ tokens.now) (otherwise_of (expr_at tree.new) (stmt_at tree.new) p.0) [] (else_stmts p.0) p.1.now) }
    ensures arena { OnOk result (IsArena tree.new) }
    ensures shorter { IfOk result (λ p. length p.1.now < length tokens.now) }
{
    let [Token::Fixed(word, at), rest @ ..] = tokens else {
        return Err(Stop::Syntax(tokens));
    };
    match word {
        Terminal::LeftBrace => {
            let inside = deeper(tokens, room)?;
            let (body, rest) = inner(alloc, tree, rest, inside)?;
            Ok((Else::Block(body), rest))
        }
        Terminal::If => {
            let inside = deeper(tokens, room)?;
            let (id, rest) = choice(alloc, tree, rest, *at, inside)?;
            Ok((Else::Choice(id), rest))
        }
        _ => Err(Stop::Syntax(tokens)),
    }
}

/// The bounds of a loop.
#[tactic(auto, unfolding(silq_grammar::specs::Outcome::outcome))]
fn bounds<'t>(
    alloc: Global,
    tree: &mut Tree,
    tokens: &'t [Token],
    room: u32,
) -> Result<(ExprId, ExprId, &'t [Token]), Stop<'t>>
    requires arena { IsArena tree.old }
    requires exprs { length tree.old.exprs + length tokens.now < 2 ^ 32 - 1 }
    ensures machine { (k : List Symbol) → nest k + room ≡ 64 → MatchResult result (λ p. outcome (Bounds ∷ k) tokens.now ≡ outcome k p.2.now)
        (λ stop. StopsAt (outcome (Bounds ∷ k) tokens.now) stop) }
    ensures reads { IfOk result (λ p. ReadsPart between_text between_tree tree.old tree.new tokens.now (record { low = expr_at tree.new p.0; high = expr_at tree.new p.1 }) (p.0 ∷ p.1 ∷ []) [] p.2.now) }
    ensures arena { OnOk result (IsArena tree.new) }
    ensures shorter { IfOk result (λ p. length p.2.now < length tokens.now) }
{
    let [Token::Fixed(Terminal::LeftBracket, _open), rest @ ..] = tokens else {
        return Err(Stop::Syntax(tokens));
    };
    let inside = deeper(tokens, room)?;
    let (low, rest) = expr(alloc, tree, rest, inside)?;
    let (_, rest) = sign(rest, Terminal::Dots)?;
    let (high, rest) = expr(alloc, tree, rest, inside)?;
    let (_, rest) = sign(rest, Terminal::RightParen)?;
    Ok((low, high, rest))
}

/// A loop, from behind its `for`.
#[cycle(statement)]
fn loop_rest<'t>(
    alloc: Global,
    tree: &mut Tree,
    tokens: &'t [Token],
    at: Spot,
    room: u32,
) -> Result<(StmtId, &'t [Token]), Stop<'t>>
    requires arena { IsArena tree.old }
    requires exprs { length tree.old.exprs + length tokens.now < 2 ^ 32 - 1 }
    requires stmts { length tree.old.stmts + length tokens.now < 2 ^ 32 - 1 }
    ensures machine { (k : List Symbol) → nest k + room ≡ 64 → MatchResult result (λ p. outcome (AnyName ∷ Expect t.In ∷ Bounds ∷ ABlock ∷ k) tokens.now ≡ outcome k p.1.now)
        (λ stop. StopsAt (outcome (AnyName ∷ Expect t.In ∷ Bounds ∷ ABlock ∷ k) tokens.now) stop) }
    ensures reads { IfOk result (λ p. ReadsStmt stmt_text stmt_tree tree.old tree.new (Fixed t.For at ∷ tokens.now) p.0 p.1.now) }
    ensures arena { OnOk result (IsArena tree.new) }
    ensures shorter { IfOk result (λ p. length p.1.now < length tokens.now) }
{
    let (name, _, rest) = name(tokens)?;
    let (_, rest) = sign(rest, Terminal::In)?;
    let (low, high, rest) = bounds(alloc, tree, rest, room)?;
    let (body, rest) = block(alloc, tree, rest, room)?;
    let id = add_statement(
        tree,
        Stmt::For {
            name,
            low,
            high,
            body,
            at,
        },
    )?;
    Ok((id, rest))
}
