//! `forget` and `phase`.

ghost use Rattle.std.specs.Prelude.{◌≡◌, ◌<◌, ◌≤◌, ◌∷◌, [], ◌||◌, not, true, false, length, IfErr, OnOk};
ghost use Rattle.silq_tree.specs.Arena.{expr_at};
ghost use Rattle.silq_types.specs.Rules.{used_after_move, held_changed, condition_changed, not_droppable, bad_forget};
ghost use Rattle.silq_types.specs.Types.{at as spot_at, is_held as held_origin, shape_eq, names as names_in};
ghost use Rattle.static_num.specs.Angle.{angle_of};
ghost use Rattle.check_scope.specs.Context.{rules, is_in_condition, find_var};
ghost use Rattle.check_fun.specs.Counting.{Runs, Fails, checker_at};
ghost use Rattle.check_expr.specs.Expression.{is_qfree as qfree_mark};
ghost use Rattle.check_scope.specs.State.{State, scope_in};
ghost use Rattle.check_fun.specs.Statement.{Target as Targets, angle_rule as rule_of_angle, phase_of, forget_name as name_forgotten, forget_as as forgotten_as, consumed_there as consumed_at, is_droppable as droppable_origin, has_name, end_var as var_ended};
ghost use Rattle.check_scope.specs.Walk.{Checker, Counts};

use crate::asking::values;
use crate::bind::is_held;
use crate::ending::end_var;
use crate::named::is_named;
use crate::plain::{known_now, obeyed};
use crate::steps_of_block::single_now;
use crate::tally::Tally;
use crate::target::{Target, target_at};
use crate::update::{consumed_there, lone_wants};
use check_expr::values::{is_same_shape, is_tuple};
use check_scope::context::Context;
use check_scope::fault::CheckFault;
use check_scope::library::Library;
use check_scope::rule;
use check_scope::spots::spot_of;
use silq_io::What;
use silq_tree::node::PlaceNode;
use silq_tree::{ExprId, Mark, NameId, Spot};
use silq_types::{Need, Origin, Part, Value};
use static_num::{AngleFault, angle};

/// Whether a value may be dropped.
fn is_droppable(origin: Origin) -> bool
    ensures { result ≡ droppable_origin origin }
{
    match origin {
        Origin::Lifted => true,
        Origin::Classical => true,
        Origin::Held => false,
        Origin::Linear => false,
    }
}

/// The rules of a variable that is dropped.
fn may_drop(cx: &Context, target: Target, at: Spot) -> Result<(), CheckFault>
    ensures runs { (check : Checker) (s : State) (c : Counts) → OnOk result (Runs check (rules at ((held_origin target.owner.origin, held_changed) ∷ (is_in_condition cx.now.held target.part, condition_changed) ∷ (not (droppable_origin target.owner.origin), not_droppable) ∷ [])) s c tt s c) }
    ensures fails { (check : Checker) (s : State) (c : Counts) → IfErr result (λ f. Fails check (rules at ((held_origin target.owner.origin, held_changed) ∷ (is_in_condition cx.now.held target.part, condition_changed) ∷ (not (droppable_origin target.owner.origin), not_droppable) ∷ [])) s c f) }
{
    let is_held = is_held(target.owner.origin);
    let is_in_condition = cx.holds(target.part);
    let is_droppable = is_droppable(target.owner.origin);
    obeyed(
        at,
        &[
            (is_held, rule::HELD_CHANGED),
            (is_in_condition, rule::CONDITION_CHANGED),
            (!is_droppable, rule::NOT_DROPPABLE),
        ],
    )
}

/// Drops the variable with a name, behind the statement's count.
pub(crate) fn forget_name(
    library: &Library,
    cx: &mut Context,
    name: NameId,
    at: Spot,
) -> Result<(), CheckFault>
    ensures runs { (check : Checker) (c : Counts) → OnOk result (Runs check (name_forgotten (scope_in library.now cx.old) name at) cx.old c tt cx.new c) }
    ensures fails { (check : Checker) (c : Counts) → IfErr result (λ f. Fails check (name_forgotten (scope_in library.now cx.old) name at) cx.old c f) }
{
    let place = PlaceNode {
        name,
        first: None,
        second: None,
    };
    let target = target_at(library, cx, place, at, rule::NOT_DROPPABLE)?;
    may_drop(cx, target, at)?;
    end_var(cx, target.owner);
    Ok(())
}

/// The angle of a `phase` is a multiple of pi/4.
fn angle_now(library: &Library, cx: &Context, e: ExprId) -> Result<(), CheckFault>
    requires { e.number < length library.now.nodes.exprs }
    ensures runs { (check : Checker) (s : State) (c : Counts) → OnOk result (Runs check (rule_of_angle (spot_at (expr_at library.now.nodes e)) (angle_of cx.now.statics (expr_at library.now.nodes e))) s c tt s c) }
    ensures fails { (check : Checker) (s : State) (c : Counts) → IfErr result (λ f. Fails check (rule_of_angle (spot_at (expr_at library.now.nodes e)) (angle_of cx.now.statics (expr_at library.now.nodes e))) s c f) }
{
    match angle(library.tree(), e, cx.statics()) {
        Ok(_) => Ok(()),
        Err(AngleFault::NotEighth) => Err(CheckFault::Unsupported {
            what: What::Angle,
            at: spot_of(library, e),
        }),
        Err(AngleFault::Static(_)) => Err(CheckFault::Broken {
            rule: rule::NOT_STATIC,
            at: spot_of(library, e),
        }),
    }
}

/// Whether a function with this mark permutes basis states.
fn is_qfree(mark: Mark) -> bool
    ensures { result ≡ qfree_mark mark }
{
    match mark {
        Mark::Plain => false,
        Mark::Mfree => false,
        Mark::Qfree => true,
        Mark::Lifted => true,
    }
}

/// Checks a `phase`, behind its count.
pub(crate) fn phase(library: &Library, cx: &Context, e: ExprId, at: Spot) -> Result<(), CheckFault>
    requires id { e.number < length library.now.nodes.exprs }
    requires this { cx.now.this < length library.now.funs }
    ensures runs { (check : Checker) (c : Counts) → OnOk result (Runs check (phase_of (scope_in library.now cx.now) (expr_at library.now.nodes e) at) cx.now c tt cx.now c) }
    ensures fails { (check : Checker) (c : Counts) → IfErr result (λ f. Fails check (phase_of (scope_in library.now cx.now) (expr_at library.now.nodes e) at) cx.now c f) }
{
    known_now(library, cx, e)?;
    angle_now(library, cx, e)?;
    let is_qfree = is_qfree(library.fun(cx.this()).mark);
    obeyed(at, &[(is_qfree, rule::AGAINST_MARK)])?;
    Ok(())
}

/// The rules of a variable that is forgotten by another value.
fn may_forget(
    library: &Library,
    cx: &Context,
    target: Target,
    name: NameId,
    e: ExprId,
    value: Value,
    at: Spot,
) -> Result<(), CheckFault>
    requires { e.number < length library.now.nodes.exprs }
    ensures runs { (check : Checker) (s : State) (c : Counts) → OnOk result (Runs check (rules at ((consumed_at cx.now.vars target.owner.part, used_after_move) ∷ (held_origin target.owner.origin, held_changed) ∷ (is_in_condition cx.now.held target.part, condition_changed) ∷ (target.ty.classical || has_name name (names_in (expr_at library.now.nodes e)) || not (shape_eq target.ty.shape value.ty.shape), bad_forget) ∷ [])) s c tt s c) }
    ensures fails { (check : Checker) (s : State) (c : Counts) → IfErr result (λ f. Fails check (rules at ((consumed_at cx.now.vars target.owner.part, used_after_move) ∷ (held_origin target.owner.origin, held_changed) ∷ (is_in_condition cx.now.held target.part, condition_changed) ∷ (target.ty.classical || has_name name (names_in (expr_at library.now.nodes e)) || not (shape_eq target.ty.shape value.ty.shape), bad_forget) ∷ [])) s c f) }
{
    let is_consumed = consumed_there(cx, target.owner.part);
    let is_held = is_held(target.owner.origin);
    let is_in_condition = cx.holds(target.part);
    let is_named = is_named(library, e, name);
    let is_same = is_same_shape(target.ty.shape, value.ty.shape);
    obeyed(
        at,
        &[
            (is_consumed, rule::USED_AFTER_MOVE),
            (is_held, rule::HELD_CHANGED),
            (is_in_condition, rule::CONDITION_CHANGED),
            (
                target.ty.classical || is_named || !is_same,
                rule::BAD_FORGET,
            ),
        ],
    )
}

/// Ends the variable with a name by the value that it has, behind the statement's count.
#[cycle(statement)]
pub(crate) fn forget_as(
    library: &Library,
    cx: &mut Context,
    tally: &mut Tally,
    name: NameId,
    e: ExprId,
    at: Spot,
) -> Result<(), CheckFault>
    requires id { e.number < length library.now.nodes.exprs }
    requires this { cx.old.this < length library.now.funs }
    requires depth { cx.old.depth ≤ 64 }
    ensures runs { OnOk result (Runs (checker_at library.now cx.old) (forgotten_as (scope_in library.now cx.old) name (expr_at library.now.nodes e) at) cx.old tally.old tt cx.new tally.new) }
    ensures fails { IfErr result (λ f. Fails (checker_at library.now cx.old) (forgotten_as (scope_in library.now cx.old) name (expr_at library.now.nodes e) at) cx.old tally.old f) }
{
    let place = PlaceNode {
        name,
        first: None,
        second: None,
    };
    let target = target_at(library, cx, place, at, rule::BAD_FORGET)?;
    let is_tuple = is_tuple(library, e);
    let found = values(
        library,
        cx,
        tally,
        e,
        Need::Held,
        lone_wants(is_tuple, &[target.ty]),
    )?;
    let value = single_now(library, e, found.as_slice())?;
    may_forget(library, cx, target, name, e, value, at)?;
    end_var(cx, target.owner);
    Ok(())
}
