//! Statements.

ghost use Rattle.std.specs.Prelude.{◌<◌, ◌≤◌, length, Some, IfErr, IfSome, OnOk, option_map};
ghost use Rattle.silq_tree.specs.Arena.{expr_at, stmt_at};
ghost use Rattle.silq_tree.specs.Children.{place_exprs, AreExprsBelow, HasFirst};
ghost use Rattle.silq_tree.specs.Standing.{place_of};
ghost use Rattle.check_fun.specs.Counting.{Runs, Fails, checker_at};
ghost use Rattle.check_scope.specs.State.{scope_in};
ghost use Rattle.check_fun.specs.Statement.{stmt as stmt_of, assign_to};
ghost use Rattle.check_fun.specs.Stepping.{forget_step, stmt_step, misplaced_step, unused_step};

use crate::asking::values;
use crate::assign::{assign_name, assign_part, spread};
use crate::block::{choose, unroll};
use crate::forget::{forget_as, forget_name, phase};
use crate::plain::obeyed;
use crate::returns::returned;
use crate::tally::Tally;
use crate::update::update_part;
use check_scope::context::Context;
use check_scope::fault::CheckFault;
use check_scope::library::Library;
use check_scope::rule;
use silq_tree::node::PlaceNode;
use silq_tree::{ExprId, NameId, Spot, Stmt, StmtId};
use silq_types::Need;

/// Counts and checks a statement.
#[cycle(statement)]
pub(crate) fn statement(
    library: &Library,
    cx: &mut Context,
    tally: &mut Tally,
    id: StmtId,
) -> Result<(), CheckFault>
    requires id { id.number < length library.now.nodes.stmts }
    requires this { cx.old.this < length library.now.funs }
    requires depth { cx.old.depth ≤ 64 }
    ensures runs { OnOk result (Runs (checker_at library.now cx.old) (stmt_of (stmt_at library.now.nodes id) (scope_in library.now cx.old)) cx.old tally.old tt cx.new tally.new) }
    ensures fails { IfErr result (λ f. Fails (checker_at library.now cx.old) (stmt_of (stmt_at library.now.nodes id) (scope_in library.now cx.old)) cx.old tally.old f) }
{
    tally.count()?;
    step(library, cx, tally, id)?;
    Ok(())
}

/// Checks a statement behind its count.
#[cycle(statement)]
#[tactic(auto, using(silq_tree::proofs::Lists::ids))]
fn step(
    library: &Library,
    cx: &mut Context,
    tally: &mut Tally,
    id: StmtId,
) -> Result<(), CheckFault>
    requires id { id.number < length library.now.nodes.stmts }
    requires this { cx.old.this < length library.now.funs }
    requires depth { cx.old.depth ≤ 64 }
    ensures runs { OnOk result (Runs (checker_at library.now cx.old) (stmt_step (stmt_at library.now.nodes id) (scope_in library.now cx.old)) cx.old tally.old tt cx.new tally.new) }
    ensures fails { IfErr result (λ f. Fails (checker_at library.now cx.old) (stmt_step (stmt_at library.now.nodes id) (scope_in library.now cx.old)) cx.old tally.old f) }
{
    match library.tree().stmt(id) {
        Stmt::Assign { target, value, at } => assign(library, cx, tally, *target, *value, *at),
        Stmt::Spread { names, value, at } => spread(
            library,
            cx,
            tally,
            names.as_slice(),
            *value,
            *at,
        ),
        Stmt::Update {
            target,
            op,
            value,
            at,
        } => update_part(library, cx, tally, *target, *op, *value, *at),
        Stmt::Forget { name, value, at } => forget(library, cx, tally, *name, *value, *at),
        Stmt::Phase { angle, at } => phase(library, cx, *angle, *at),
        Stmt::If {
            cond,
            then,
            other,
            ..
        } => choose(library, cx, tally, *cond, then, other),
        Stmt::For {
            name,
            low,
            high,
            body,
            at,
        } => unroll(library, cx, tally, *name, *low, *high, body, *at),
        Stmt::Return { value, at } => misplaced(library, cx, tally, *value, *at),
        Stmt::Call { call, at } => unused(library, cx, tally, *call, *at),
    }
}

/// Drops a variable, or ends it by the value that it has.
#[cycle(statement)]
fn forget(
    library: &Library,
    cx: &mut Context,
    tally: &mut Tally,
    name: NameId,
    value: Option<ExprId>,
    at: Spot,
) -> Result<(), CheckFault>
    requires id { IfSome value (λ e. e.number < length library.now.nodes.exprs) }
    requires this { cx.old.this < length library.now.funs }
    requires depth { cx.old.depth ≤ 64 }
    ensures runs { OnOk result (Runs (checker_at library.now cx.old) (forget_step (scope_in library.now cx.old) name (option_map (expr_at library.now.nodes) value) at) cx.old tally.old tt cx.new tally.new) }
    ensures fails { IfErr result (λ f. Fails (checker_at library.now cx.old) (forget_step (scope_in library.now cx.old) name (option_map (expr_at library.now.nodes) value) at) cx.old tally.old f) }
{
    match value {
        None => forget_name(library, cx, name, at),
        Some(e) => forget_as(library, cx, tally, name, e, at),
    }
}

/// Assigns to a name or to a part.
#[cycle(statement)]
fn assign(
    library: &Library,
    cx: &mut Context,
    tally: &mut Tally,
    target: PlaceNode,
    value: ExprId,
    at: Spot,
) -> Result<(), CheckFault>
    requires parts { AreExprsBelow (length library.now.nodes.exprs) (place_exprs target) }
    requires first { HasFirst target }
    requires id { value.number < length library.now.nodes.exprs }
    requires this { cx.old.this < length library.now.funs }
    requires depth { cx.old.depth ≤ 64 }
    ensures runs { OnOk result (Runs (checker_at library.now cx.old) (assign_to (scope_in library.now cx.old) (place_of (expr_at library.now.nodes) target) (expr_at library.now.nodes value) at) cx.old tally.old tt cx.new tally.new) }
    ensures fails { IfErr result (λ f. Fails (checker_at library.now cx.old) (assign_to (scope_in library.now cx.old) (place_of (expr_at library.now.nodes) target) (expr_at library.now.nodes value) at) cx.old tally.old f) }
{
    match target.first {
        None => assign_name(library, cx, tally, target.name, value, at),
        Some(_) => assign_part(library, cx, tally, target, value, at),
    }
}

/// A `return` that is not the last statement of its function.
#[cycle(statement)]
fn misplaced(
    library: &Library,
    cx: &mut Context,
    tally: &mut Tally,
    value: Option<ExprId>,
    at: Spot,
) -> Result<(), CheckFault>
    requires id { IfSome value (λ e. e.number < length library.now.nodes.exprs) }
    requires this { cx.old.this < length library.now.funs }
    requires depth { cx.old.depth ≤ 64 }
    ensures runs { OnOk result (Runs (checker_at library.now cx.old) (misplaced_step (option_map (expr_at library.now.nodes) value) at (scope_in library.now cx.old)) cx.old tally.old tt cx.new tally.new) }
    ensures fails { IfErr result (λ f. Fails (checker_at library.now cx.old) (misplaced_step (option_map (expr_at library.now.nodes) value) at (scope_in library.now cx.old)) cx.old tally.old f) }
{
    match value {
        None => Err(CheckFault::Broken {
            rule: rule::BAD_RETURN,
            at,
        }),
        Some(e) => misplaced_value(library, cx, tally, e, at),
    }
}

/// A `return` of values that is not the last statement of its function.
#[cycle(statement)]
fn misplaced_value(
    library: &Library,
    cx: &mut Context,
    tally: &mut Tally,
    e: ExprId,
    at: Spot,
) -> Result<(), CheckFault>
    requires id { e.number < length library.now.nodes.exprs }
    requires this { cx.old.this < length library.now.funs }
    requires depth { cx.old.depth ≤ 64 }
    ensures runs { OnOk result (Runs (checker_at library.now cx.old) (misplaced_step (Some (expr_at library.now.nodes e)) at (scope_in library.now cx.old)) cx.old tally.old tt cx.new tally.new) }
    ensures fails { IfErr result (λ f. Fails (checker_at library.now cx.old) (misplaced_step (Some (expr_at library.now.nodes e)) at (scope_in library.now cx.old)) cx.old tally.old f) }
{
    returned(library, cx, tally, e)?;
    Err(CheckFault::Broken {
        rule: rule::BAD_RETURN,
        at,
    })
}

/// A call as a statement gives no values.
#[cycle(statement)]
fn unused(
    library: &Library,
    cx: &mut Context,
    tally: &mut Tally,
    call: ExprId,
    at: Spot,
) -> Result<(), CheckFault>
    requires id { call.number < length library.now.nodes.exprs }
    requires this { cx.old.this < length library.now.funs }
    requires depth { cx.old.depth ≤ 64 }
    ensures runs { OnOk result (Runs (checker_at library.now cx.old) (unused_step (expr_at library.now.nodes call) at (scope_in library.now cx.old)) cx.old tally.old tt cx.new tally.new) }
    ensures fails { IfErr result (λ f. Fails (checker_at library.now cx.old) (unused_step (expr_at library.now.nodes call) at (scope_in library.now cx.old)) cx.old tally.old f) }
{
    match values(library, cx, tally, call, Need::Consumed, &[]) {
        Ok(found) => obeyed(at, &[(found.len() != 0, rule::RESULT_COUNT)]),
        Err(fault) => Err(fault),
    }
}
