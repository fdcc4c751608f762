//! The body of a function.

ghost use Rattle.std.specs.Prelude.{◌≡◌, ◌<◌, ◌≤◌, ◌==◌, ◌∷◌, [], Some, None, not, length, IfOk, IfErr, OnOk, IfSome, option_map};
ghost use Rattle.silq_tree.specs.Arena.{expr_at, stmt_at};
ghost use Rattle.silq_tree.specs.Children.{AreStmtsBelow};
ghost use Rattle.silq_tree.specs.Standing.{block_of, statements_of};
ghost use Rattle.check_fun.specs.Counting.{Runs, Fails, checker_at};
ghost use Rattle.check_scope.specs.State.{State, scope_in};
ghost use Rattle.check_fun.specs.Statement.{whole_body as body_of, body as body_stmts, results_or_fault as results_of};
ghost use Rattle.check_scope.specs.Context.{Scope};
ghost use Rattle.check_fun.specs.Stepping.{last_step, last_of, ended_step, has_count};
ghost use Rattle.check_scope.specs.Walk.{Checker, Counts};

use crate::block::statements;
use crate::ends::end_from;
use crate::plain::obeyed;
use crate::returns::returned;
use crate::statement::statement;
use crate::tally::Tally;
use check_expr::expr::ValueList;
use check_scope::context::Context;
use check_scope::fault::CheckFault;
use check_scope::library::Library;
use check_scope::rule;
use silq_tree::{Block, ExprId, Spot, Stmt, StmtId};
use silq_types::Value;

/// Checks the statements of a function, of which the last may return, and gives the values that are returned.
#[cycle(statement)]
pub(crate) fn whole_body(
    library: &Library,
    cx: &mut Context,
    tally: &mut Tally,
    body: &Block,
) -> Result<ValueList, CheckFault>
    requires body { AreStmtsBelow (length library.now.nodes.stmts) body.now.items }
    requires this { cx.old.this < length library.now.funs }
    requires depth { cx.old.depth ≤ 64 }
    ensures runs { IfOk result (λ vs. Runs (checker_at library.now cx.old) (body_of (block_of (expr_at library.now.nodes) (stmt_at library.now.nodes) body.now) (scope_in library.now cx.old)) cx.old tally.old vs cx.new tally.new) }
    ensures fails { IfErr result (λ f. Fails (checker_at library.now cx.old) (body_of (block_of (expr_at library.now.nodes) (stmt_at library.now.nodes) body.now) (scope_in library.now cx.old)) cx.old tally.old f) }
{
    match body_values(library, cx, tally, body.items.as_slice()) {
        Ok(found) => match end_from(cx, 0, body.end) {
            Ok(()) => results_or_fault(library, cx, body.end, found),
            Err(fault) => Err(fault),
        },
        Err(fault) => Err(fault),
    }
}

/// As many values as the results.
fn counted(cx: &Context, found: &[Value], at: Spot) -> Result<(), CheckFault>
    ensures runs { (check : Checker) (s : State) (c : Counts) → OnOk result (Runs check (has_count at (length cx.now.results) found.now) s c tt s c) }
    ensures fails { (check : Checker) (s : State) (c : Counts) → IfErr result (λ f. Fails check (has_count at (length cx.now.results) found.now) s c f) }
{
    let results = cx.results().len();
    obeyed(at, &[(found.len() != results, rule::BAD_RETURN)])
}

/// The values of a `return` without a count of them.
#[cycle(statement)]
fn given(
    library: &Library,
    cx: &mut Context,
    tally: &mut Tally,
    e: ExprId,
    at: Spot,
) -> Result<ValueList, CheckFault>
    requires id { e.number < length library.now.nodes.exprs }
    requires this { cx.old.this < length library.now.funs }
    requires depth { cx.old.depth ≤ 64 }
    ensures runs { IfOk result (λ vs. Runs (checker_at library.now cx.old) (ended_step (Some (expr_at library.now.nodes e)) at (scope_in library.now cx.old)) cx.old tally.old (Some vs) cx.new tally.new) }
    ensures fails { IfErr result (λ f. Fails (checker_at library.now cx.old) (ended_step (Some (expr_at library.now.nodes e)) at (scope_in library.now cx.old)) cx.old tally.old f) }
{
    match returned(library, cx, tally, e) {
        Ok(found) => match counted(cx, found.as_slice(), at) {
            Ok(()) => Ok(found),
            Err(fault) => Err(fault),
        },
        Err(fault) => Err(fault),
    }
}

/// No values, where there are no results.
fn nothing(library: &Library, cx: &Context, at: Spot) -> Result<ValueList, CheckFault>
    ensures runs { (check : Checker) (c : Counts) → IfOk result (λ vs. Runs check (ended_step None at (scope_in library.now cx.now)) cx.now c (Some vs) cx.now c) }
    ensures fails { (check : Checker) (c : Counts) → IfErr result (λ f. Fails check (ended_step None at (scope_in library.now cx.now)) cx.now c f) }
{
    match counted(cx, &[], at) {
        Ok(()) => Ok(ValueList::new(library.alloc())),
        Err(fault) => Err(fault),
    }
}

/// The values of a `return` at the end, behind its count: as many as the results.
#[cycle(statement)]
fn ended(
    library: &Library,
    cx: &mut Context,
    tally: &mut Tally,
    value: Option<ExprId>,
    at: Spot,
) -> Result<ValueList, CheckFault>
    requires id { IfSome value (λ e. e.number < length library.now.nodes.exprs) }
    requires this { cx.old.this < length library.now.funs }
    requires depth { cx.old.depth ≤ 64 }
    ensures runs { IfOk result (λ vs. Runs (checker_at library.now cx.old) (ended_step (option_map (expr_at library.now.nodes) value) at (scope_in library.now cx.old)) cx.old tally.old (Some vs) cx.new tally.new) }
    ensures fails { IfErr result (λ f. Fails (checker_at library.now cx.old) (ended_step (option_map (expr_at library.now.nodes) value) at (scope_in library.now cx.old)) cx.old tally.old f) }
{
    match value {
        Some(e) => given(library, cx, tally, e, at),
        None => nothing(library, cx, at),
    }
}

/// The value and the place of a statement that is a `return`.
fn return_of(library: &Library, id: StmtId) -> Option<(Option<ExprId>, Spot)>
    requires { id.number < length library.now.nodes.stmts }
    ensures step { (sc : Scope) → last_of (stmt_at library.now.nodes id) sc ≡ last_step (expr_at library.now.nodes) result (stmt_at library.now.nodes id) sc }
    ensures value { IfSome result (λ r. IfSome r.0 (λ e. e.number < length library.now.nodes.exprs)) }
{
    match library.tree().stmt(id) {
        Stmt::Return { value, at } => Some((*value, *at)),
        _ => None,
    }
}

/// The values that the last statement returns, if it is a `return`.
#[cycle(statement)]
fn last_values(
    library: &Library,
    cx: &mut Context,
    tally: &mut Tally,
    id: StmtId,
) -> Result<Option<ValueList>, CheckFault>
    requires id { id.number < length library.now.nodes.stmts }
    requires this { cx.old.this < length library.now.funs }
    requires depth { cx.old.depth ≤ 64 }
    ensures runs { IfOk result (λ vs. Runs (checker_at library.now cx.old) (last_of (stmt_at library.now.nodes id) (scope_in library.now cx.old)) cx.old tally.old vs cx.new tally.new) }
    ensures fails { IfErr result (λ f. Fails (checker_at library.now cx.old) (last_of (stmt_at library.now.nodes id) (scope_in library.now cx.old)) cx.old tally.old f) }
{
    match return_of(library, id) {
        Some((value, at)) => match tally.count() {
            Ok(()) => match ended(library, cx, tally, value, at) {
                Ok(found) => Ok(Some(found)),
                Err(fault) => Err(fault),
            },
            Err(fault) => Err(fault),
        },
        None => match statement(library, cx, tally, id) {
            Ok(()) => Ok(None),
            Err(fault) => Err(fault),
        },
    }
}

/// Checks statements in turn, of which the last may return.
#[cycle(statement)]
fn body_values(
    library: &Library,
    cx: &mut Context,
    tally: &mut Tally,
    ids: &[StmtId],
) -> Result<Option<ValueList>, CheckFault>
    requires ids { AreStmtsBelow (length library.now.nodes.stmts) ids.now }
    requires this { cx.old.this < length library.now.funs }
    requires depth { cx.old.depth ≤ 64 }
    ensures runs { IfOk result (λ vs. Runs (checker_at library.now cx.old) (body_stmts (statements_of (expr_at library.now.nodes) (stmt_at library.now.nodes) ids.now) (scope_in library.now cx.old)) cx.old tally.old vs cx.new tally.new) }
    ensures fails { IfErr result (λ f. Fails (checker_at library.now cx.old) (body_stmts (statements_of (expr_at library.now.nodes) (stmt_at library.now.nodes) ids.now) (scope_in library.now cx.old)) cx.old tally.old f) }
{
    match ids {
        [] => Ok(None),
        [before @ .., last] => match statements(library, cx, tally, before) {
            Ok(()) => last_values(library, cx, tally, *last),
            Err(fault) => Err(fault),
        },
    }
}

/// Without a `return` there is no result to give.
fn results_or_fault(
    library: &Library,
    cx: &Context,
    end: Spot,
    found: Option<ValueList>,
) -> Result<ValueList, CheckFault>
    ensures runs { (check : Checker) (s : State) (c : Counts) → IfOk result (λ vs. Runs check (results_of end cx.now.results found) s c vs s c) }
    ensures fails { (check : Checker) (s : State) (c : Counts) → IfErr result (λ f. Fails check (results_of end cx.now.results found) s c f) }
{
    match found {
        Some(values) => Ok(values),
        None => match cx.results() {
            [] => Ok(ValueList::new(library.alloc())),
            [_, ..] => Err(CheckFault::Broken {
                rule: rule::BAD_RETURN,
                at: end,
            }),
        },
    }
}
