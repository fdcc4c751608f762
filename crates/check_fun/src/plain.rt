//! Checks that count no statement and ask for no instance, as steps of statements.

ghost use Rattle.std.specs.Prelude.{◌≡◌, ◌<◌, length, IfOk, IfErr, OnOk};
ghost use Rattle.silq_tree.specs.Arena.{expr_at};
ghost use Rattle.silq_tree.specs.Children.{place_exprs, AreExprsBelow, HasFirst};
ghost use Rattle.silq_tree.specs.Standing.{place_of};
ghost use Rattle.silq_types.specs.Types.{place_indices};
ghost use Rattle.check_expr.specs.Asks.{types_of};
ghost use Rattle.check_scope.specs.Context.{rules, known_names as names_known, new_place, all_needed, indices, part_at};
ghost use Rattle.check_fun.specs.Counting.{Runs, Fails};
ghost use Rattle.check_expr.specs.Expression.{suits as value_suits};
ghost use Rattle.check_scope.specs.State.{State, scope_in};
ghost use Rattle.check_fun.specs.Stepping.{fault_in};
ghost use Rattle.check_scope.specs.declared.fault.CheckFault.TheVariants as checks;
ghost use Rattle.check_scope.specs.Walk.{Checker, Counts};

use check_expr::values;
use check_scope::context::Context;
use check_scope::fault::{CheckFault, ExprFault};
use check_scope::library::Library;
use check_scope::obey::obey;
use check_scope::places;
use silq_tree::node::PlaceNode;
use silq_tree::{ExprId, Spot};
use silq_types::{Part, Ty, Value};

/// The fault; none of these checks wants an instance.
fn fault_of(fault: ExprFault) -> CheckFault
    ensures { result ≡ fault_in fault }
{
    match fault {
        ExprFault::Fault(fault) => fault,
        ExprFault::Wanted(_) => CheckFault::Memory,
    }
}

/// Breaks the first rule whose test holds.
pub(crate) fn obeyed(at: Spot, tests: &[(bool, u8)]) -> Result<(), CheckFault>
    ensures runs { (check : Checker) (s : State) (c : Counts) → OnOk result (Runs check (rules at tests.now) s c tt s c) }
    ensures fails { (check : Checker) (s : State) (c : Counts) → IfErr result (λ f. Fails check (rules at tests.now) s c f) }
{
    match obey(at, tests) {
        Ok(()) => Ok(()),
        Err(fault) => Err(fault_of(fault)),
    }
}

/// The value has the type that is asked.
pub(crate) fn suits_now(
    library: &Library,
    e: ExprId,
    want: Option<Ty>,
    value: Value,
) -> Result<(), CheckFault>
    requires { e.number < length library.now.nodes.exprs }
    ensures runs { (check : Checker) (s : State) (c : Counts) → OnOk result (Runs check (value_suits (expr_at library.now.nodes e) (types_of want) value) s c tt s c) }
    ensures fails { (check : Checker) (s : State) (c : Counts) → IfErr result (λ f. Fails check (value_suits (expr_at library.now.nodes e) (types_of want) value) s c f) }
{
    match values::suits(library, e, want, value) {
        Ok(()) => Ok(()),
        Err(fault) => Err(fault_of(fault)),
    }
}

/// Each name in an expression is known.
pub(crate) fn known_now(library: &Library, cx: &Context, e: ExprId) -> Result<(), CheckFault>
    requires { e.number < length library.now.nodes.exprs }
    ensures runs { (check : Checker) (c : Counts) → OnOk result (Runs check (names_known (scope_in library.now cx.now) (expr_at library.now.nodes e)) cx.now c tt cx.now c) }
    ensures fails { (check : Checker) (c : Counts) → IfErr result (λ f. Fails check (names_known (scope_in library.now cx.now) (expr_at library.now.nodes e)) cx.now c f) }
{
    match places::known_names(library, cx, e) {
        Ok(()) => Ok(()),
        Err(fault) => Err(fault_of(fault)),
    }
}

/// The part that a place names.
pub(crate) fn part_now(
    library: &Library,
    cx: &Context,
    place: PlaceNode,
) -> Result<Part, CheckFault>
    requires parts { AreExprsBelow (length library.now.nodes.exprs) (place_exprs place) }
    requires first { HasFirst place }
    ensures part { IfOk result (λ part. part ≡ part_at place.name (indices part)) }
    ensures runs { (check : Checker) (c : Counts) → IfOk result (λ part. Runs check (all_needed (place_indices (place_of (expr_at library.now.nodes) place)) (scope_in library.now cx.now)) cx.now c (indices part) cx.now c) }
    ensures fails { (check : Checker) (c : Counts) → IfErr result (λ f. Fails check (all_needed (place_indices (place_of (expr_at library.now.nodes) place)) (scope_in library.now cx.now)) cx.now c f) }
{
    match places::part_of(library, cx, place) {
        Ok(part) => Ok(part),
        Err(fault) => Err(fault_of(fault)),
    }
}

/// The next new place.
pub(crate) fn fresh_now(cx: &mut Context) -> Result<u128, CheckFault>
    ensures runs { (check : Checker) (c : Counts) → IfOk result (λ p. Runs check new_place cx.old c p cx.new c) }
    ensures vars { OnOk result (cx.new.vars ≡ cx.old.vars) }
    ensures memory { IfErr result (λ f. f ≡ checks.Memory) }
{
    match cx.fresh() {
        Ok(place) => Ok(place),
        Err(fault) => Err(fault_of(fault)),
    }
}
