//! Steps of blocks that count nothing, with their faults.

ghost use Rattle.std.specs.Prelude.{◌≡◌, ◌<◌, [], ◌∷◌, length, Ok, Err, IfOk, IfErr, OnOk};
ghost use Rattle.silq_tree.specs.Arena.{expr_at};
ghost use Rattle.silq_types.specs.declared.signature.InstanceKey.{InstanceKey};
ghost use Rattle.check_scope.specs.Context.{needed, rules};
ghost use Rattle.check_fun.specs.Counting.{Runs, Fails};
ghost use Rattle.check_expr.specs.Expression.{single};
ghost use Rattle.check_scope.specs.State.{State, scope_in};
ghost use Rattle.check_scope.specs.Walk.{Checker, Counts};
ghost use Rattle.check_scope.specs.declared.fault.ExprFault.TheVariants as stops;

use check_expr::values::is_tuple;
use check_scope::context::Context;
use check_scope::fault::{CheckFault, ExprFault};
use check_scope::library::Library;
use check_scope::places::needed as needed_value;
use check_scope::rule;
use check_scope::spots::spot_of;
use silq_tree::{ExprId, Spot};
use silq_types::Value;

/// The result of a step that asks for no instance.
fn told<T>(step: Result<T, ExprFault>) -> Result<T, CheckFault>
    requires { (key : InstanceKey) → step ≡ Err (stops.Wanted key) → ⊥ }
    ensures ok { IfOk result (λ a. step ≡ Ok a) }
    ensures err { IfErr result (λ f. step ≡ Err (stops.Fault f)) }
{
    match step {
        Ok(value) => Ok(value),
        Err(ExprFault::Fault(fault)) => Err(fault),
        Err(ExprFault::Wanted(_)) => unreachable!(),
    }
}

/// The value of an expression that has to be static.
#[tactic(auto, using(crate::proofs::BlockSteps::runs_read, crate::proofs::BlockSteps::fails_read, crate::proofs::BlockSteps::silent_needed))]
pub(crate) fn needed_now(library: &Library, cx: &Context, e: ExprId) -> Result<i64, CheckFault>
    requires { e.number < length library.now.nodes.exprs }
    ensures runs { (check : Checker) (c : Counts) → IfOk result (λ z. Runs check (needed (scope_in library.now cx.now) (expr_at library.now.nodes e)) cx.now c z cx.now c) }
    ensures fails { (check : Checker) (c : Counts) → IfErr result (λ f. Fails check (needed (scope_in library.now cx.now) (expr_at library.now.nodes e)) cx.now c f) }
{
    told(needed_value(library, cx, e))
}

/// Breaks a rule where its test holds.
#[tactic(auto, using(crate::proofs::BlockSteps::runs_rule, crate::proofs::BlockSteps::fails_rule))]
pub(crate) fn obey_now(at: Spot, broken: bool, rule: u8) -> Result<(), CheckFault>
    ensures runs { (check : Checker) (s : State) (c : Counts) → OnOk result (Runs check (rules at ((broken, rule) ∷ [])) s c tt s c) }
    ensures fails { (check : Checker) (s : State) (c : Counts) → IfErr result (λ f. Fails check (rules at ((broken, rule) ∷ [])) s c f) }
{
    if broken {
        Err(CheckFault::Broken { rule, at })
    } else {
        Ok(())
    }
}

/// One value, where just one may stand.
pub(crate) fn single_now(
    library: &Library,
    e: ExprId,
    values: &[Value],
) -> Result<Value, CheckFault>
    requires { e.number < length library.now.nodes.exprs }
    ensures runs { (check : Checker) (s : State) (c : Counts) → IfOk result (λ v. Runs check (single (expr_at library.now.nodes e) values.now) s c v s c) }
    ensures fails { (check : Checker) (s : State) (c : Counts) → IfErr result (λ f. Fails check (single (expr_at library.now.nodes e) values.now) s c f) }
{
    if is_tuple(library, e) {
        return Err(CheckFault::Broken {
            rule: rule::WRONG_TYPE,
            at: spot_of(library, e),
        });
    }
    match values {
        [value] => Ok(*value),
        _ => Err(CheckFault::Broken {
            rule: rule::RESULT_COUNT,
            at: spot_of(library, e),
        }),
    }
}
