//! Blocks, choices and loops.

ghost use Rattle.std.specs.Prelude.{true, ◌≡◌, ◌<◌, ◌≤◌, ◌&&◌, ◌||◌, length, IfOk, IfErr, OnOk};
ghost use Rattle.silq_tree.specs.Arena.{expr_at, stmt_at};
ghost use Rattle.silq_tree.specs.Children.{AreStmtsBelow, else_stmts};
ghost use Rattle.silq_tree.specs.Standing.{statements_of, block_of, otherwise_of};
ghost use Rattle.check_fun.specs.Counting.{Runs, Fails, checker_at, choice_step, loop_step};
ghost use Rattle.check_scope.specs.Library.{function_at};
ghost use Rattle.check_scope.specs.State.{scope_in};
ghost use Rattle.check_fun.specs.Statement.{stmts as stmts_of, plain_block, branch as branch_of, both as both_of, otherwise, otherwise_end, condition as condition_of, any_name, is_static_param};
ghost use Rattle.check_fun.specs.Branches.{run_time_choice, taken_branch};
ghost use Rattle.check_fun.specs.Leaving.{leave_all};
ghost use Rattle.check_scope.specs.Context.{is_variable};
ghost use Rattle.check_scope.specs.Uses.{uses, parts_of};
ghost use Rattle.check_scope.specs.declared.fault.CheckFault.TheVariants as checks;
ghost use Rattle.silq_types.specs.declared.need.Need.TheVariants as needs;
ghost use Rattle.silq_types.specs.Rules.{not_static};
ghost use Rattle.silq_types.specs.Types.{at as spot_at, is_bit as is_bit_shape, same_name};
ghost use Rattle.static_num.specs.Static.{is_true};

use crate::asking::values;
use crate::branch::{copied, end_branch, end_of_else, items_of, joined};
use crate::ends::end_from;
use crate::leaving::all_leave;
use crate::rounds::rounds;
use crate::statement::statement;
use crate::steps_of_block::{needed_now, obey_now, single_now};
use crate::tally::Tally;
use check_scope::context::{Context, PartList};
use check_scope::fault::CheckFault;
use check_scope::library::Library;
use check_scope::rule;
use check_scope::spots::spot_of;
use check_scope::uses::uses_of;
use silq_tree::{Block, Else, ExprId, NameId, Spot, StmtId};
use silq_types::{Need, Part, Shape, Ty};
use static_num::{StaticFault, eval};

/// Checks statements in turn.
#[cycle(statement)]
pub(crate) fn statements(
    library: &Library,
    cx: &mut Context,
    tally: &mut Tally,
    ids: &[StmtId],
) -> Result<(), CheckFault>
    requires ids { AreStmtsBelow (length library.now.nodes.stmts) ids.now }
    requires this { cx.old.this < length library.now.funs }
    requires depth { cx.old.depth ≤ 64 }
    ensures runs { OnOk result (Runs (checker_at library.now cx.old) (stmts_of (statements_of (expr_at library.now.nodes) (stmt_at library.now.nodes) ids.now) (scope_in library.now cx.old)) cx.old tally.old tt cx.new tally.new) }
    ensures fails { IfErr result (λ f. Fails (checker_at library.now cx.old) (stmts_of (statements_of (expr_at library.now.nodes) (stmt_at library.now.nodes) ids.now) (scope_in library.now cx.old)) cx.old tally.old f) }
{
    for id in ids {
        statement(library, cx, tally, *id)?;
    }
    Ok(())
}

/// Checks a block, whose variables end with it.
#[cycle(statement)]
#[tactic(auto, using(crate::proofs::BlockBranches::runs_plain, crate::proofs::BlockBranches::fails_plain, crate::proofs::BlockBranches::fails_plain_end))]
pub(crate) fn plain(
    library: &Library,
    cx: &mut Context,
    tally: &mut Tally,
    ids: &[StmtId],
    end: Spot,
) -> Result<(), CheckFault>
    requires ids { AreStmtsBelow (length library.now.nodes.stmts) ids.now }
    requires this { cx.old.this < length library.now.funs }
    requires depth { cx.old.depth ≤ 64 }
    ensures runs { OnOk result (Runs (checker_at library.now cx.old) (plain_block (stmts_of (statements_of (expr_at library.now.nodes) (stmt_at library.now.nodes) ids.now) (scope_in library.now cx.old)) end) cx.old tally.old tt cx.new tally.new) }
    ensures fails { IfErr result (λ f. Fails (checker_at library.now cx.old) (plain_block (stmts_of (statements_of (expr_at library.now.nodes) (stmt_at library.now.nodes) ids.now) (scope_in library.now cx.old)) end) cx.old tally.old f) }
{
    let len = cx.len();
    statements(library, cx, tally, ids)?;
    end_from(cx, len, end)?;
    Ok(())
}

/// Checks a branch under a run-time condition, which leaves the outer variables as they are.
#[cycle(statement)]
#[tactic(auto, using(crate::proofs::BlockBranches::runs_branch, crate::proofs::BlockBranches::fails_branch, crate::proofs::BlockBranches::fails_branch_end))]
fn branch(
    library: &Library,
    cx: &mut Context,
    tally: &mut Tally,
    ids: &[StmtId],
    end: Spot,
) -> Result<(), CheckFault>
    requires ids { AreStmtsBelow (length library.now.nodes.stmts) ids.now }
    requires this { cx.old.this < length library.now.funs }
    requires depth { cx.old.depth ≤ 64 }
    ensures runs { OnOk result (Runs (checker_at library.now cx.old) (branch_of (stmts_of (statements_of (expr_at library.now.nodes) (stmt_at library.now.nodes) ids.now) (scope_in library.now cx.old)) end) cx.old tally.old tt cx.new tally.new) }
    ensures fails { IfErr result (λ f. Fails (checker_at library.now cx.old) (branch_of (stmts_of (statements_of (expr_at library.now.nodes) (stmt_at library.now.nodes) ids.now) (scope_in library.now cx.old)) end) cx.old tally.old f) }
{
    let before = copied(library.alloc(), cx.vars())?;
    statements(library, cx, tally, ids)?;
    end_branch(cx, before.as_slice(), end)?;
    Ok(())
}

/// Checks both branches under a run-time condition that is held: the second begins with the variables of the first.
#[cycle(statement)]
fn apart(
    library: &Library,
    cx: &mut Context,
    tally: &mut Tally,
    then: &Block,
    other: &Else,
) -> Result<(), CheckFault>
    requires then { AreStmtsBelow (length library.now.nodes.stmts) then.now.items }
    requires other { AreStmtsBelow (length library.now.nodes.stmts) (else_stmts other.now) }
    requires this { cx.old.this < length library.now.funs }
    requires depth { cx.old.depth ≤ 64 }
    ensures runs { OnOk result (Runs (checker_at library.now cx.old) (both_of (branch_of (stmts_of (statements_of (expr_at library.now.nodes) (stmt_at library.now.nodes) then.now.items) (scope_in library.now cx.old)) then.now.end) (branch_of (otherwise (otherwise_of (expr_at library.now.nodes) (stmt_at library.now.nodes) other.now) (scope_in library.now cx.old)) (otherwise_end (otherwise_of (expr_at library.now.nodes) (stmt_at library.now.nodes) other.now)))) cx.old tally.old tt cx.new tally.new) }
    ensures fails { IfErr result (λ f. Fails (checker_at library.now cx.old) (both_of (branch_of (stmts_of (statements_of (expr_at library.now.nodes) (stmt_at library.now.nodes) then.now.items) (scope_in library.now cx.old)) then.now.end) (branch_of (otherwise (otherwise_of (expr_at library.now.nodes) (stmt_at library.now.nodes) other.now) (scope_in library.now cx.old)) (otherwise_end (otherwise_of (expr_at library.now.nodes) (stmt_at library.now.nodes) other.now)))) cx.old tally.old f) }
{
    let start = copied(library.alloc(), cx.vars())?;
    branch(library, cx, tally, then.items.as_slice(), then.end)?;
    let one = copied(library.alloc(), cx.vars())?;
    cx.put(start)?;
    branch(
        library,
        cx,
        tally,
        items_of(other),
        end_of_else(library, other),
    )?;
    let vars = joined(library.alloc(), one.as_slice(), cx.vars())?;
    cx.put(vars)?;
    Ok(())
}

/// Whether both branches by their form leave the variables as they are.
fn both_leave(library: &Library, then: &Block, other: &Else) -> bool
    requires then { AreStmtsBelow (length library.now.nodes.stmts) then.now.items }
    requires other { AreStmtsBelow (length library.now.nodes.stmts) (else_stmts other.now) }
    ensures { result ≡ (leave_all (statements_of (expr_at library.now.nodes) (stmt_at library.now.nodes) then.now.items) && leave_all (statements_of (expr_at library.now.nodes) (stmt_at library.now.nodes) (else_stmts other.now))) }
{
    all_leave(library, then.items.as_slice()) && all_leave(library, items_of(other))
}

/// Checks both branches in turn over the same variables, which each of them by its form leaves as they are.
#[cycle(statement)]
fn in_turn(
    library: &Library,
    cx: &mut Context,
    tally: &mut Tally,
    then: &Block,
    other: &Else,
) -> Result<(), CheckFault>
    requires then { AreStmtsBelow (length library.now.nodes.stmts) then.now.items }
    requires other { AreStmtsBelow (length library.now.nodes.stmts) (else_stmts other.now) }
    requires shared { (leave_all (statements_of (expr_at library.now.nodes) (stmt_at library.now.nodes) then.now.items) && leave_all (statements_of (expr_at library.now.nodes) (stmt_at library.now.nodes) (else_stmts other.now))) ≡ true }
    requires this { cx.old.this < length library.now.funs }
    requires depth { cx.old.depth ≤ 64 }
    ensures runs { OnOk result (Runs (checker_at library.now cx.old) (both_of (branch_of (stmts_of (statements_of (expr_at library.now.nodes) (stmt_at library.now.nodes) then.now.items) (scope_in library.now cx.old)) then.now.end) (branch_of (otherwise (otherwise_of (expr_at library.now.nodes) (stmt_at library.now.nodes) other.now) (scope_in library.now cx.old)) (otherwise_end (otherwise_of (expr_at library.now.nodes) (stmt_at library.now.nodes) other.now)))) cx.old tally.old tt cx.new tally.new) }
    ensures fails { IfErr result (λ f. Fails (checker_at library.now cx.old) (both_of (branch_of (stmts_of (statements_of (expr_at library.now.nodes) (stmt_at library.now.nodes) then.now.items) (scope_in library.now cx.old)) then.now.end) (branch_of (otherwise (otherwise_of (expr_at library.now.nodes) (stmt_at library.now.nodes) other.now) (scope_in library.now cx.old)) (otherwise_end (otherwise_of (expr_at library.now.nodes) (stmt_at library.now.nodes) other.now)))) cx.old tally.old f) }
{
    statements(library, cx, tally, then.items.as_slice())?;
    statements(library, cx, tally, items_of(other))?;
    Ok(())
}

/// Checks both branches under a run-time condition that is held, without copies of the variables where both leave them as they are.
#[cycle(statement)]
fn both(
    library: &Library,
    cx: &mut Context,
    tally: &mut Tally,
    then: &Block,
    other: &Else,
) -> Result<(), CheckFault>
    requires then { AreStmtsBelow (length library.now.nodes.stmts) then.now.items }
    requires other { AreStmtsBelow (length library.now.nodes.stmts) (else_stmts other.now) }
    requires this { cx.old.this < length library.now.funs }
    requires depth { cx.old.depth ≤ 64 }
    ensures runs { OnOk result (Runs (checker_at library.now cx.old) (both_of (branch_of (stmts_of (statements_of (expr_at library.now.nodes) (stmt_at library.now.nodes) then.now.items) (scope_in library.now cx.old)) then.now.end) (branch_of (otherwise (otherwise_of (expr_at library.now.nodes) (stmt_at library.now.nodes) other.now) (scope_in library.now cx.old)) (otherwise_end (otherwise_of (expr_at library.now.nodes) (stmt_at library.now.nodes) other.now)))) cx.old tally.old tt cx.new tally.new) }
    ensures fails { IfErr result (λ f. Fails (checker_at library.now cx.old) (both_of (branch_of (stmts_of (statements_of (expr_at library.now.nodes) (stmt_at library.now.nodes) then.now.items) (scope_in library.now cx.old)) then.now.end) (branch_of (otherwise (otherwise_of (expr_at library.now.nodes) (stmt_at library.now.nodes) other.now) (scope_in library.now cx.old)) (otherwise_end (otherwise_of (expr_at library.now.nodes) (stmt_at library.now.nodes) other.now)))) cx.old tally.old f) }
{
    if both_leave(library, then, other) {
        in_turn(library, cx, tally, then, other)
    } else {
        apart(library, cx, tally, then, other)
    }
}

/// The parts that a condition names, under which its branches stand.
fn named_parts(library: &Library, cx: &Context, cond: ExprId) -> Result<PartList, CheckFault>
    requires { cond.number < length library.now.nodes.exprs }
    ensures ok { IfOk result (λ ps. ps ≡ parts_of (uses (expr_at library.now.nodes cond) (scope_in library.now cx.now) cx.now.vars needs.Held)) }
    ensures err { IfErr result (λ f. f ≡ checks.Memory) }
{
    let Ok(named) = uses_of(library, cx, cond, Need::Held) else {
        return Err(CheckFault::Memory);
    };
    let mut parts = PartList::new(library.alloc());
    for one in named.as_slice() {
        let Ok(()) = parts.push(one.part) else {
            return Err(CheckFault::Memory);
        };
    }
    Ok(parts)
}

/// Whether a type is that of one bit.
fn is_bit(ty: &Ty) -> bool
    ensures { result ≡ is_bit_shape ty.now.shape }
{
    match ty.shape {
        Shape::Bit => true,
        _ => false,
    }
}

/// Checks a run-time condition, and gives the parts that it names.
#[cycle(statement)]
fn condition(
    library: &Library,
    cx: &mut Context,
    tally: &mut Tally,
    cond: ExprId,
) -> Result<PartList, CheckFault>
    requires cond { cond.number < length library.now.nodes.exprs }
    requires this { cx.old.this < length library.now.funs }
    requires depth { cx.old.depth ≤ 64 }
    ensures runs { IfOk result (λ ps. Runs (checker_at library.now cx.old) (condition_of (scope_in library.now cx.old) (expr_at library.now.nodes cond)) cx.old tally.old ps cx.new tally.new) }
    ensures fails { IfErr result (λ f. Fails (checker_at library.now cx.old) (condition_of (scope_in library.now cx.old) (expr_at library.now.nodes cond)) cx.old tally.old f) }
{
    let found = values(library, cx, tally, cond, Need::Held, &[])?;
    let value = single_now(library, cond, found.as_slice())?;
    obey_now(spot_of(library, cond), !is_bit(&value.ty), rule::WRONG_TYPE)?;
    let parts = named_parts(library, cx, cond)?;
    Ok(parts)
}

/// Checks a choice whose condition is not static: both branches, under the parts that it names.
#[cycle(statement)]
fn run_time(
    library: &Library,
    cx: &mut Context,
    tally: &mut Tally,
    cond: ExprId,
    then: &Block,
    other: &Else,
) -> Result<(), CheckFault>
    requires cond { cond.number < length library.now.nodes.exprs }
    requires then { AreStmtsBelow (length library.now.nodes.stmts) then.now.items }
    requires other { AreStmtsBelow (length library.now.nodes.stmts) (else_stmts other.now) }
    requires this { cx.old.this < length library.now.funs }
    requires depth { cx.old.depth ≤ 64 }
    ensures runs { OnOk result (Runs (checker_at library.now cx.old) (run_time_choice (scope_in library.now cx.old) (expr_at library.now.nodes cond) (block_of (expr_at library.now.nodes) (stmt_at library.now.nodes) then.now) (otherwise_of (expr_at library.now.nodes) (stmt_at library.now.nodes) other.now)) cx.old tally.old tt cx.new tally.new) }
    ensures fails { IfErr result (λ f. Fails (checker_at library.now cx.old) (run_time_choice (scope_in library.now cx.old) (expr_at library.now.nodes cond) (block_of (expr_at library.now.nodes) (stmt_at library.now.nodes) then.now) (otherwise_of (expr_at library.now.nodes) (stmt_at library.now.nodes) other.now)) cx.old tally.old f) }
{
    let parts = condition(library, cx, tally, cond)?;
    let Ok(()) = cx.hold(parts) else {
        return Err(CheckFault::Memory);
    };
    both(library, cx, tally, then, other)?;
    cx.release();
    Ok(())
}

/// Checks the branch of a static choice that is taken.
#[cycle(statement)]
fn taken(
    library: &Library,
    cx: &mut Context,
    tally: &mut Tally,
    first: bool,
    then: &Block,
    other: &Else,
) -> Result<(), CheckFault>
    requires then { AreStmtsBelow (length library.now.nodes.stmts) then.now.items }
    requires other { AreStmtsBelow (length library.now.nodes.stmts) (else_stmts other.now) }
    requires this { cx.old.this < length library.now.funs }
    requires depth { cx.old.depth ≤ 64 }
    ensures runs { OnOk result (Runs (checker_at library.now cx.old) (taken_branch (scope_in library.now cx.old) first (block_of (expr_at library.now.nodes) (stmt_at library.now.nodes) then.now) (otherwise_of (expr_at library.now.nodes) (stmt_at library.now.nodes) other.now)) cx.old tally.old tt cx.new tally.new) }
    ensures fails { IfErr result (λ f. Fails (checker_at library.now cx.old) (taken_branch (scope_in library.now cx.old) first (block_of (expr_at library.now.nodes) (stmt_at library.now.nodes) then.now) (otherwise_of (expr_at library.now.nodes) (stmt_at library.now.nodes) other.now)) cx.old tally.old f) }
{
    if first {
        plain(library, cx, tally, then.items.as_slice(), then.end)
    } else {
        plain(
            library,
            cx,
            tally,
            items_of(other),
            end_of_else(library, other),
        )
    }
}

/// Whether a static number counts as true.
fn is_truth(value: i64) -> bool
    ensures { result ≡ is_true value }
{
    value != 0
}

/// The fault of a static condition whose computation fails.
fn no_value(library: &Library, cond: ExprId) -> CheckFault
    requires { cond.number < length library.now.nodes.exprs }
    ensures { result ≡ checks.Broken not_static (spot_at (expr_at library.now.nodes cond)) }
{
    CheckFault::Broken {
        rule: rule::NOT_STATIC,
        at: spot_of(library, cond),
    }
}

/// Checks a choice, behind its count: where the condition is static the branch that is taken, else both.
#[cycle(statement)]
pub(crate) fn choose(
    library: &Library,
    cx: &mut Context,
    tally: &mut Tally,
    cond: ExprId,
    then: &Block,
    other: &Else,
) -> Result<(), CheckFault>
    requires cond { cond.number < length library.now.nodes.exprs }
    requires then { AreStmtsBelow (length library.now.nodes.stmts) then.now.items }
    requires other { AreStmtsBelow (length library.now.nodes.stmts) (else_stmts other.now) }
    requires this { cx.old.this < length library.now.funs }
    requires depth { cx.old.depth ≤ 64 }
    ensures runs { OnOk result (Runs (checker_at library.now cx.old) (choice_step (scope_in library.now cx.old) (expr_at library.now.nodes cond) (block_of (expr_at library.now.nodes) (stmt_at library.now.nodes) then.now) (otherwise_of (expr_at library.now.nodes) (stmt_at library.now.nodes) other.now)) cx.old tally.old tt cx.new tally.new) }
    ensures fails { IfErr result (λ f. Fails (checker_at library.now cx.old) (choice_step (scope_in library.now cx.old) (expr_at library.now.nodes cond) (block_of (expr_at library.now.nodes) (stmt_at library.now.nodes) then.now) (otherwise_of (expr_at library.now.nodes) (stmt_at library.now.nodes) other.now)) cx.old tally.old f) }
{
    match eval(library.tree(), cond, cx.statics()) {
        Ok(value) => taken(library, cx, tally, is_truth(value), then, other),
        Err(StaticFault::NotStatic) => run_time(library, cx, tally, cond, then, other),
        Err(StaticFault::ZeroDivisor) => Err(no_value(library, cond)),
        Err(StaticFault::Overflow) => Err(no_value(library, cond)),
    }
}

/// Whether a function has a static parameter of this name.
fn has_static(library: &Library, fun: u32, name: NameId) -> bool
    requires { fun < length library.now.funs }
    ensures { result ≡ any_name (λ y. same_name y name) (function_at library.now fun).statics }
{
    for param in library.fun(fun).statics.as_slice() {
        if param.number == name.number {
            return true;
        }
    }
    false
}

/// Whether a loop's variable has the name of a variable in reach or of a static parameter.
fn is_taken(library: &Library, cx: &Context, name: NameId) -> bool
    requires { cx.now.this < length library.now.funs }
    ensures { result ≡ (is_variable cx.now.vars name || is_static_param (scope_in library.now cx.now) name) }
{
    let part = Part {
        name,
        first: None,
        second: None,
    };
    cx.find(part).is_some() || has_static(library, cx.this(), name)
}

/// Checks the rounds of a loop in turn, behind its count. A round of an empty body counts nothing and changes nothing, so it is left out.
#[cycle(statement)]
pub(crate) fn unroll(
    library: &Library,
    cx: &mut Context,
    tally: &mut Tally,
    name: NameId,
    low: ExprId,
    high: ExprId,
    body: &Block,
    at: Spot,
) -> Result<(), CheckFault>
    requires low { low.number < length library.now.nodes.exprs }
    requires high { high.number < length library.now.nodes.exprs }
    requires body { AreStmtsBelow (length library.now.nodes.stmts) body.now.items }
    requires this { cx.old.this < length library.now.funs }
    requires depth { cx.old.depth ≤ 64 }
    ensures runs { OnOk result (Runs (checker_at library.now cx.old) (loop_step (scope_in library.now cx.old) name (expr_at library.now.nodes low) (expr_at library.now.nodes high) (block_of (expr_at library.now.nodes) (stmt_at library.now.nodes) body.now) at) cx.old tally.old tt cx.new tally.new) }
    ensures fails { IfErr result (λ f. Fails (checker_at library.now cx.old) (loop_step (scope_in library.now cx.old) name (expr_at library.now.nodes low) (expr_at library.now.nodes high) (block_of (expr_at library.now.nodes) (stmt_at library.now.nodes) body.now) at) cx.old tally.old f) }
{
    let first = needed_now(library, cx, low)?;
    let past = needed_now(library, cx, high)?;
    obey_now(at, is_taken(library, cx, name), rule::NAME_TAKEN)?;
    if body.items.len() == 0 {
        return Ok(());
    }
    rounds(library, cx, tally, name, first, past, body)?;
    Ok(())
}
