//! Ends of blocks.

ghost use Rattle.std.specs.Prelude.{◌≡◌, drop, IfErr, OnOk};
ghost use Rattle.check_fun.specs.Counting.{Runs, Fails};
ghost use Rattle.check_scope.specs.State.{State};
ghost use Rattle.check_fun.specs.Statement.{is_live_linear as live_linear, none_left as none_left_of, end_from as end_of};
ghost use Rattle.check_scope.specs.Walk.{Checker, Counts};

use crate::steps_of_block::obey_now;
use check_scope::context::Context;
use check_scope::fault::CheckFault;
use check_scope::rule;
use silq_tree::Spot;
use silq_types::{Origin, Var};

/// Whether a variable is Linear and not consumed.
fn is_live_linear(var: &Var) -> bool
    ensures { result ≡ live_linear var.now }
{
    let linear = match var.origin {
        Origin::Linear => true,
        _ => false,
    };
    linear && !var.consumed
}

/// No Linear value is left.
fn none_left(vars: &[Var], at: Spot) -> Result<(), CheckFault>
    ensures runs { (check : Checker) (s : State) (c : Counts) → OnOk result (Runs check (none_left_of vars.now at) s c tt s c) }
    ensures fails { (check : Checker) (s : State) (c : Counts) → IfErr result (λ f. Fails check (none_left_of vars.now at) s c f) }
{
    for var in vars {
        obey_now(at, is_live_linear(var), rule::LINEAR_LEFT)?;
    }
    Ok(())
}

/// The variables from the n-th on.
fn vars_from(vars: &[Var], n: usize) -> &[Var]
    ensures { result.now ≡ drop n vars.now }
{
    if n < vars.len() { &vars[n..] } else { &[] }
}

/// The variables from the n-th on end.
#[tactic(auto, using(crate::proofs::BlockEnds::runs_end, crate::proofs::BlockEnds::fails_end))]
pub(crate) fn end_from(cx: &mut Context, n: usize, at: Spot) -> Result<(), CheckFault>
    ensures runs { (check : Checker) (c : Counts) → OnOk result (Runs check (end_of n at) cx.old c tt cx.new c) }
    ensures fails { (check : Checker) (c : Counts) → IfErr result (λ f. Fails check (end_of n at) cx.old c f) }
{
    none_left(vars_from(cx.vars(), n), at)?;
    cx.cut(n);
    Ok(())
}
