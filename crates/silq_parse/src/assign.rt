//! Statements that begin with a name.

ghost use Rattle.std.specs.Prelude.{◌≡◌, ◌+◌, ◌-◌, ◌^◌, ◌<◌, ◌≤◌, ℕ, List, [], ◌∷◌, ◌++◌, Option, Some, None, length, map, flat_map, IfOk, IfErr, OnOk, OnErr, MatchResult, MatchOption};
ghost use Rattle.silq_tree.specs.Arena.{IsArena, expr_at, stmt_at};
ghost use Rattle.silq_tree.specs.Standing.{expressions_of, place_of};
ghost use Rattle.silq_tree.specs.Children.{place_exprs};
ghost use Rattle.silq_grammar.specs.declared.token.Token.TheVariants.{Name, Fixed};
ghost use Rattle.silq_grammar.specs.declared.token.Terminal.TheVariants as t;
ghost use Rattle.silq_grammar.specs.Machine.{Symbol, StartName, Assigns, value, nest};
ghost use Rattle.silq_grammar.specs.Outcome.{outcome};
ghost use Rattle.silq_grammar.specs.Spelled.{stmt_text};
ghost use Rattle.silq_grammar.specs.Trees.{stmt_tree};
ghost use Rattle.expr_parse.specs.Stops.{StopsAt};
ghost use Rattle.silq_parse.specs.Parts.{change_sign, change_text, change_tree, changed_node};
ghost use Rattle.expr_parse.specs.Reads.{ReadsExpr, ReadsStmt, ReadsPart};

use crate::statement::add_statement;
use expr_parse::expr::expr;
use expr_parse::sign::sign;
use expr_parse::stop::Stop;
use expr_parse::target::{Target, behind_name};
use silq_grammar::{Terminal, Token};
use silq_tree::{ExprId, NameId, PlaceNode, Spot, Stmt, StmtId, Tree, UpdateOp};
use std::alloc::Global;

/// The sign of an assignment or an update.
#[tactic(auto, unfolding(silq_grammar::specs::Outcome::outcome))]
fn change_sign<'t>(tokens: &'t [Token]) -> Result<(Option<UpdateOp>, Spot, &'t [Token]), Stop<'t>>
    ensures machine { (k : List Symbol) → nest k ≤ 64 → MatchResult result (λ p. outcome (Assigns ∷ k) tokens.now ≡ outcome (value k) p.2.now)
        (λ stop. StopsAt (outcome (Assigns ∷ k) tokens.now) stop) }
    ensures token { IfOk result (λ p. tokens.now ≡ Fixed (change_sign p.0) p.1 ∷ p.2.now) }
{
    let [Token::Fixed(sign, at), rest @ ..] = tokens else {
        return Err(Stop::Syntax(tokens));
    };
    match sign {
        Terminal::Becomes => Ok((None, *at, rest)),
        Terminal::AddTo => Ok((Some(UpdateOp::Add), *at, rest)),
        Terminal::SubtractFrom => Ok((Some(UpdateOp::Sub), *at, rest)),
        Terminal::XorTo => Ok((Some(UpdateOp::Xor), *at, rest)),
        _ => Err(Stop::Syntax(tokens)),
    }
}

/// An assignment or an update up to its semicolon.
fn change<'t>(
    alloc: Global,
    tree: &mut Tree,
    tokens: &'t [Token],
    room: u32,
) -> Result<(Option<UpdateOp>, ExprId, &'t [Token]), Stop<'t>>
    requires arena { IsArena tree.old }
    requires exprs { length tree.old.exprs + length tokens.now < 2 ^ 32 - 1 }
    ensures machine { (k : List Symbol) → nest k + room ≡ 64 → MatchResult result (λ p. outcome (Assigns ∷ k) tokens.now ≡ outcome k p.2.now)
        (λ stop. StopsAt (outcome (Assigns ∷ k) tokens.now) stop) }
    ensures reads { IfOk result (λ p. ReadsPart change_text change_tree tree.old tree.new tokens.now (record { op = p.0; value = expr_at tree.new p.1 }) (p.1 ∷ []) [] p.2.now) }
    ensures arena { OnOk result (IsArena tree.new) }
    ensures shorter { IfOk result (λ p. length p.2.now < length tokens.now) }
{
    let (op, _, rest) = change_sign(tokens)?;
    let (value, rest) = expr(alloc, tree, rest, room)?;
    let (_, rest) = sign(rest, Terminal::Semicolon)?;
    Ok((op, value, rest))
}

/// The node of an assignment, or of an update.
fn changed(target: PlaceNode, op: Option<UpdateOp>, value: ExprId, at: Spot) -> Stmt
    ensures { result ≡ changed_node target op value at }
{
    match op {
        None => Stmt::Assign { target, value, at },
        Some(op) => Stmt::Update {
            target,
            op,
            value,
            at,
        },
    }
}

/// A statement that begins with a name, from behind it.
pub(crate) fn named<'t>(
    alloc: Global,
    tree: &mut Tree,
    tokens: &'t [Token],
    name: NameId,
    at: Spot,
    room: u32,
) -> Result<(StmtId, &'t [Token]), Stop<'t>>
    requires arena { IsArena tree.old }
    requires exprs { length tree.old.exprs + length tokens.now < 2 ^ 32 - 1 }
    requires stmts { length tree.old.stmts + length tokens.now < 2 ^ 32 - 1 }
    ensures machine { (k : List Symbol) → nest k + room ≡ 64 → MatchResult result (λ p. outcome (StartName ∷ k) tokens.now ≡ outcome k p.1.now)
        (λ stop. StopsAt (outcome (StartName ∷ k) tokens.now) stop) }
    ensures reads { IfOk result (λ p. ReadsStmt stmt_text stmt_tree tree.old tree.new (Name name at ∷ tokens.now) p.0 p.1.now) }
    ensures arena { OnOk result (IsArena tree.new) }
    ensures shorter { IfOk result (λ p. length p.1.now < length tokens.now) }
{
    let (target, rest) = behind_name(alloc, tree, name, at, tokens, room)?;
    match target {
        Target::Place(place) => {
            let (op, value, rest) = change(alloc, tree, rest, room)?;
            let id = add_statement(tree, changed(place, op, value, at))?;
            Ok((id, rest))
        }
        Target::Call(call) => {
            let (_, rest) = sign(rest, Terminal::Semicolon)?;
            let id = add_statement(tree, Stmt::Call { call, at })?;
            Ok((id, rest))
        }
    }
}
