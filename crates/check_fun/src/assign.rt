//! Assignments.

ghost use Rattle.std.specs.Prelude.{◌≡◌, ◌<◌, ◌≤◌, ◌∷◌, ◌++◌, ◌==◌, ◌&&◌, [], not, true, false, length, take, IfOk, IfErr, OnOk, if◌then◌else◌};
ghost use Rattle.silq_tree.specs.Arena.{expr_at};
ghost use Rattle.silq_tree.specs.Children.{place_exprs, AreExprsBelow, HasFirst};
ghost use Rattle.silq_tree.specs.Standing.{place_of};
ghost use Rattle.silq_types.specs.Rules.{held_changed, condition_changed, result_count, bad_part, wrong_type};
ghost use Rattle.silq_types.specs.Types.{at as spot_at, is_held as held_origin};
ghost use Rattle.check_scope.specs.Context.{rules, is_in_condition, put_variables};
ghost use Rattle.check_fun.specs.Counting.{Runs, Fails, checker_at};
ghost use Rattle.check_expr.specs.Expression.{is_tuple as tuple_is, some_linear as linear_some};
ghost use Rattle.check_scope.specs.State.{State, scope_in};
ghost use Rattle.check_fun.specs.Statement.{consumed_there as consumed_at, all_at as all_there, one_suits as suits_one, with_origin, made_linear, assign_name as name_assigned, assign_part as part_assigned, taken_out};
ghost use Rattle.check_fun.specs.Stepping.{put_back as back_put, spread_to};
ghost use Rattle.check_scope.specs.Walk.{Checker, Counts};
ghost use Rattle.check_scope.specs.declared.fault.CheckFault.TheVariants as checks;
ghost use Rattle.silq_types.specs.declared.need.Need.TheVariants as needs;

use crate::asking::values;
use crate::bind::{assigned, is_held, is_linear};
use crate::plain::{fresh_now, obeyed, suits_now};
use crate::tally::Tally;
use crate::target::{Target, target_at};
use crate::update::consumed_there;
use check_expr::values::is_tuple;
use check_scope::context::Context;
use check_scope::fault::CheckFault;
use check_scope::library::Library;
use check_scope::rule;
use check_scope::spots::spot_of;
use silq_tree::node::PlaceNode;
use silq_tree::{ExprId, NameId, Spot};
use silq_types::{Need, Origin, Part, Ty, Value, Var};

/// How one value is used, where a tuple is misplaced.
pub(crate) fn lone_consumed(is_tuple: bool) -> Need
    ensures { result ≡ (if is_tuple then needs.Held else needs.Consumed) }
{
    if is_tuple { Need::Held } else { Need::Consumed }
}

/// Whether one of the values is Linear.
fn some_linear(values: &[Value]) -> bool
    ensures { result ≡ linear_some values.now }
{
    for value in values {
        if is_linear(value.origin) {
            return true;
        }
    }
    false
}

/// Whether all values have this place.
fn all_at(place: u128, values: &[Value]) -> bool
    ensures { result ≡ all_there place values.now }
{
    for value in values {
        if value.place != place {
            return false;
        }
    }
    true
}

/// One value has the type that is asked; another number of them is told later.
fn one_suits(library: &Library, e: ExprId, ty: Ty, values: &[Value]) -> Result<(), CheckFault>
    requires { e.number < length library.now.nodes.exprs }
    ensures runs { (check : Checker) (s : State) (c : Counts) → OnOk result (Runs check (suits_one (expr_at library.now.nodes e) ty values.now) s c tt s c) }
    ensures fails { (check : Checker) (s : State) (c : Counts) → IfErr result (λ f. Fails check (suits_one (expr_at library.now.nodes e) ty values.now) s c f) }
{
    match values {
        [value] => suits_now(library, e, Some(ty), *value),
        _ => Ok(()),
    }
}

/// The variable with this part is Linear from here on.
fn make_linear(cx: &mut Context, part: Part)
    ensures { (check : Checker) (c : Counts) → Runs check (put_variables (made_linear cx.old.vars part)) cx.old c tt cx.new c }
{
    if let Some(var) = cx.find(part) {
        cx.replace(Var {
            part: var.part,
            ty: var.ty,
            origin: Origin::Linear,
            place: var.place,
            consumed: var.consumed,
        });
    }
}

/// Adds a part as a variable of its own, with this place.
fn add_part(cx: &mut Context, target: Target, place: u128) -> Result<(), CheckFault>
    ensures runs { (check : Checker) (c : Counts) → OnOk result (Runs check (put_variables (cx.old.vars ++ taken_out (record { part = target.part; owner = target.owner; ty = target.ty }) place ∷ [])) cx.old c tt cx.new c) }
    ensures memory { IfErr result (λ f. f ≡ checks.Memory) }
{
    let part = Var {
        part: target.part,
        ty: target.ty,
        origin: target.owner.origin,
        place,
        consumed: target.owner.consumed,
    };
    match cx.add(part) {
        Ok(()) => Ok(()),
        Err(_) => Err(CheckFault::Memory),
    }
}

/// The rules of a part that is put back.
fn may_put_back(
    cx: &Context,
    target: Target,
    place: u128,
    values: &[Value],
    at: Spot,
) -> Result<(), CheckFault>
    ensures runs { (check : Checker) (s : State) (c : Counts) → OnOk result (Runs check (rules at ((held_origin target.owner.origin, held_changed) ∷ (is_in_condition cx.now.held target.part, condition_changed) ∷ (not (length values.now == 1), result_count) ∷ (not (consumed_at cx.now.vars target.part && all_there place values.now), bad_part) ∷ [])) s c tt s c) }
    ensures fails { (check : Checker) (s : State) (c : Counts) → IfErr result (λ f. Fails check (rules at ((held_origin target.owner.origin, held_changed) ∷ (is_in_condition cx.now.held target.part, condition_changed) ∷ (not (length values.now == 1), result_count) ∷ (not (consumed_at cx.now.vars target.part && all_there place values.now), bad_part) ∷ [])) s c f) }
{
    let is_held = is_held(target.owner.origin);
    let is_in_condition = cx.holds(target.part);
    let is_back = consumed_there(cx, target.part) && all_at(place, values);
    obeyed(
        at,
        &[
            (is_held, rule::HELD_CHANGED),
            (is_in_condition, rule::CONDITION_CHANGED),
            (values.len() != 1, rule::RESULT_COUNT),
            (!is_back, rule::BAD_PART),
        ],
    )
}

/// Cuts the part away, and keeps that its variable is Linear where the values are.
fn cut_part(cx: &mut Context, count: usize, linear: bool, owner: Part)
    ensures { (check : Checker) (c : Counts) → Runs check (put_variables (with_origin linear (take count cx.old.vars) owner)) cx.old c tt cx.new c }
{
    cx.cut(count);
    if linear {
        make_linear(cx, owner);
    }
}

/// Puts the values of an assignment to a part where it was taken out.
fn put_back(
    library: &Library,
    cx: &mut Context,
    target: Target,
    count: usize,
    place: u128,
    e: ExprId,
    values: &[Value],
    at: Spot,
) -> Result<(), CheckFault>
    requires { e.number < length library.now.nodes.exprs }
    ensures runs { (check : Checker) (c : Counts) → OnOk result (Runs check (back_put cx.old.held (record { part = target.part; owner = target.owner; ty = target.ty }) count place (expr_at library.now.nodes e) values.now at) cx.old c tt cx.new c) }
    ensures fails { (check : Checker) (c : Counts) → IfErr result (λ f. Fails check (back_put cx.old.held (record { part = target.part; owner = target.owner; ty = target.ty }) count place (expr_at library.now.nodes e) values.now at) cx.old c f) }
{
    let is_tuple = is_tuple(library, e);
    obeyed(spot_of(library, e), &[(is_tuple, rule::WRONG_TYPE)])?;
    one_suits(library, e, target.ty, values)?;
    may_put_back(cx, target, place, values, at)?;
    let linear = some_linear(values);
    cut_part(cx, count, linear, target.owner.part);
    Ok(())
}

/// Assigns a value to a name, behind the statement's count.
#[cycle(statement)]
pub(crate) fn assign_name(
    library: &Library,
    cx: &mut Context,
    tally: &mut Tally,
    name: NameId,
    e: ExprId,
    at: Spot,
) -> Result<(), CheckFault>
    requires id { e.number < length library.now.nodes.exprs }
    requires this { cx.old.this < length library.now.funs }
    requires depth { cx.old.depth ≤ 64 }
    ensures runs { OnOk result (Runs (checker_at library.now cx.old) (name_assigned (scope_in library.now cx.old) name (expr_at library.now.nodes e) at) cx.old tally.old tt cx.new tally.new) }
    ensures fails { IfErr result (λ f. Fails (checker_at library.now cx.old) (name_assigned (scope_in library.now cx.old) name (expr_at library.now.nodes e) at) cx.old tally.old f) }
{
    let is_tuple = is_tuple(library, e);
    let found = values(library, cx, tally, e, lone_consumed(is_tuple), &[])?;
    obeyed(spot_of(library, e), &[(is_tuple, rule::WRONG_TYPE)])?;
    assigned(cx, at, &[name], found.as_slice())?;
    Ok(())
}

/// Assigns the values of an expression to names, behind the statement's count.
#[cycle(statement)]
pub(crate) fn spread(
    library: &Library,
    cx: &mut Context,
    tally: &mut Tally,
    names: &[NameId],
    e: ExprId,
    at: Spot,
) -> Result<(), CheckFault>
    requires id { e.number < length library.now.nodes.exprs }
    requires this { cx.old.this < length library.now.funs }
    requires depth { cx.old.depth ≤ 64 }
    ensures runs { OnOk result (Runs (checker_at library.now cx.old) (spread_to (scope_in library.now cx.old) names.now (expr_at library.now.nodes e) at) cx.old tally.old tt cx.new tally.new) }
    ensures fails { IfErr result (λ f. Fails (checker_at library.now cx.old) (spread_to (scope_in library.now cx.old) names.now (expr_at library.now.nodes e) at) cx.old tally.old f) }
{
    let found = values(library, cx, tally, e, Need::Consumed, &[])?;
    assigned(cx, at, names, found.as_slice())?;
    Ok(())
}

/// Assigns a value to a part, behind the statement's count: the part is taken out with a new place, and has to come back.
#[cycle(statement)]
pub(crate) fn assign_part(
    library: &Library,
    cx: &mut Context,
    tally: &mut Tally,
    place: PlaceNode,
    e: ExprId,
    at: Spot,
) -> Result<(), CheckFault>
    requires parts { AreExprsBelow (length library.now.nodes.exprs) (place_exprs place) }
    requires first { HasFirst place }
    requires id { e.number < length library.now.nodes.exprs }
    requires this { cx.old.this < length library.now.funs }
    requires depth { cx.old.depth ≤ 64 }
    ensures runs { OnOk result (Runs (checker_at library.now cx.old) (part_assigned (scope_in library.now cx.old) (place_of (expr_at library.now.nodes) place) (expr_at library.now.nodes e) at) cx.old tally.old tt cx.new tally.new) }
    ensures fails { IfErr result (λ f. Fails (checker_at library.now cx.old) (part_assigned (scope_in library.now cx.old) (place_of (expr_at library.now.nodes) place) (expr_at library.now.nodes e) at) cx.old tally.old f) }
{
    let target = target_at(library, cx, place, at, rule::BAD_PART)?;
    let count = cx.len();
    let fresh = fresh_now(cx)?;
    add_part(cx, target, fresh)?;
    let is_tuple = is_tuple(library, e);
    let found = values(library, cx, tally, e, lone_consumed(is_tuple), &[])?;
    put_back(library, cx, target, count, fresh, e, found.as_slice(), at)?;
    Ok(())
}
