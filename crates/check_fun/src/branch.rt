//! Branches under a run-time condition.

ghost use Rattle.std.specs.Prelude.{◌≡◌, length, IfOk, IfErr, OnOk, OnErr};
ghost use Rattle.silq_tree.specs.Arena.{expr_at, stmt_at};
ghost use Rattle.silq_tree.specs.Children.{AreStmtsBelow, else_stmts};
ghost use Rattle.silq_tree.specs.Standing.{otherwise_of};
ghost use Rattle.check_fun.specs.Branches.{ended_branch, joined_one};
ghost use Rattle.check_fun.specs.Counting.{Runs, Fails};
ghost use Rattle.check_scope.specs.State.{State};
ghost use Rattle.check_fun.specs.Statement.{is_changed as is_changed_var, none_changed as none_changed_of, joined as joined_of, otherwise_end};
ghost use Rattle.check_scope.specs.Walk.{Checker, Counts};
ghost use Rattle.check_scope.specs.declared.fault.CheckFault.TheVariants as checks;

use crate::ends::end_from;
use crate::steps_of_block::obey_now;
use check_scope::context::Context;
use check_scope::fault::CheckFault;
use check_scope::library::Library;
use check_scope::rule;
use silq_tree::{Else, Spot, Stmt, StmtId};
use silq_types::{Origin, Var};
use std::alloc::Global;

// ---- the variables of two moments

/// A copy of variables.
pub(crate) fn copied(alloc: Global, vars: &[Var]) -> Result<Vec<Var>, CheckFault>
    ensures ok { IfOk result (λ copy. copy.items ≡ vars.now) }
    ensures err { IfErr result (λ f. f ≡ checks.Memory) }
{
    match Vec::from_slice(alloc, vars) {
        Ok(copy) => Ok(copy),
        Err(_) => Err(CheckFault::Memory),
    }
}

/// Whether a branch changed an outer variable: it is consumed, or has another type or place.
fn is_changed(before: &Var, after: &Var) -> bool
    ensures { result ≡ is_changed_var before.now after.now }
{
    after.consumed && !before.consumed || before.ty != after.ty || before.place != after.place
}

/// No outer variable is changed.
fn none_changed(before: &[Var], after: &[Var], at: Spot) -> Result<(), CheckFault>
    ensures runs { (check : Checker) (s : State) (c : Counts) → OnOk result (Runs check (none_changed_of before.now after.now at) s c tt s c) }
    ensures fails { (check : Checker) (s : State) (c : Counts) → IfErr result (λ f. Fails check (none_changed_of before.now after.now at) s c f) }
{
    for (i, old) in before.iter().enumerate() {
        let Some(new) = after.get(i) else {
            return Ok(());
        };
        obey_now(at, is_changed(old, new), rule::OUTER_CHANGED)?;
    }
    Ok(())
}

/// Ends a branch that began with these variables.
#[tactic(auto, using(crate::proofs::Counted::runs_then, crate::proofs::Counted::fails_then, crate::proofs::Counted::fails_after))]
pub(crate) fn end_branch(cx: &mut Context, before: &[Var], at: Spot) -> Result<(), CheckFault>
    ensures runs { (check : Checker) (c : Counts) → OnOk result (Runs check (ended_branch before.now cx.old.vars at) cx.old c tt cx.new c) }
    ensures fails { (check : Checker) (c : Counts) → IfErr result (λ f. Fails check (ended_branch before.now cx.old.vars at) cx.old c f) }
{
    none_changed(before, cx.vars(), at)?;
    end_from(cx, before.len(), at)?;
    Ok(())
}

/// An outer variable after both branches: it is Linear where one of them left it Linear.
fn joined_var(one: &Var, other: &Var) -> Var
    ensures { result ≡ joined_one one.now other.now }
{
    match one.origin {
        Origin::Linear => Var {
            origin: Origin::Linear,
            ..*other
        },
        _ => *other,
    }
}

/// The outer variables after both branches.
pub(crate) fn joined(alloc: Global, one: &[Var], other: &[Var]) -> Result<Vec<Var>, CheckFault>
    ensures ok { IfOk result (λ vars. vars.items ≡ joined_of one.now other.now) }
    ensures err { IfErr result (λ f. f ≡ checks.Memory) }
{
    let mut vars = Vec::new(alloc);
    for (i, first) in one.iter().enumerate() {
        let Some(second) = other.get(i) else {
            return Ok(vars);
        };
        let Ok(()) = vars.push(joined_var(first, second)) else {
            return Err(CheckFault::Memory);
        };
    }
    Ok(vars)
}

// ---- what stands behind `else`

/// Its statements.
pub(crate) fn items_of(other: &Else) -> &[StmtId]
    ensures { result.now ≡ else_stmts other.now }
{
    match other {
        Else::Block(block) => block.items.as_slice(),
        Else::Choice(id) => std::slice::from_ref(id),
    }
}

/// Its end: that of a block, or of the choice's last block.
pub(crate) fn end_of_else(library: &Library, other: &Else) -> Spot
    requires { AreStmtsBelow (length library.now.nodes.stmts) (else_stmts other.now) }
    ensures { result ≡ otherwise_end (otherwise_of (expr_at library.now.nodes) (stmt_at library.now.nodes) other.now) }
{
    match other {
        Else::Block(block) => block.end,
        Else::Choice(id) => match library.tree().stmt(*id) {
            Stmt::If { other, .. } => end_of_else(library, other),
            Stmt::Assign { at, .. } => *at,
            Stmt::Spread { at, .. } => *at,
            Stmt::Update { at, .. } => *at,
            Stmt::Forget { at, .. } => *at,
            Stmt::Phase { at, .. } => *at,
            Stmt::For { at, .. } => *at,
            Stmt::Return { at, .. } => *at,
            Stmt::Call { at, .. } => *at,
        },
    }
}
