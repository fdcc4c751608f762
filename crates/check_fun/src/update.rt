//! Updates.

ghost use Rattle.std.specs.Prelude.{◌≡◌, ◌<◌, ◌≤◌, ◌∷◌, [], ◌&&◌, ◌||◌, not, length, IfErr, OnOk, if◌then◌else◌};
ghost use Rattle.silq_tree.specs.Arena.{expr_at};
ghost use Rattle.silq_tree.specs.Syntax.{Expression};
ghost use Rattle.silq_tree.specs.declared.node.ExprId.{ExprId as ExprIds};
ghost use Rattle.silq_tree.specs.Children.{place_exprs, AreExprsBelow, HasFirst};
ghost use Rattle.silq_tree.specs.Standing.{place_of};
ghost use Rattle.silq_types.specs.Rules.{used_after_move, held_changed, condition_changed, bad_update};
ghost use Rattle.silq_types.specs.Types.{is_held as held_origin, is_number as number_shape, shape_eq, names as names_in};
ghost use Rattle.check_scope.specs.Context.{rules, is_in_condition, find_var};
ghost use Rattle.check_fun.specs.Counting.{Runs, Fails, checker_at};
ghost use Rattle.check_scope.specs.State.{State, scope_in};
ghost use Rattle.check_fun.specs.Statement.{consumed_there as consumed_at, has_name, needs_number as number_needed, static_updated as updated_static, update_part as part_updated};
ghost use Rattle.check_scope.specs.Walk.{Checker, Counts};

use crate::asking::values;
use crate::bind::is_held;
use crate::named::is_named;
use crate::plain::obeyed;
use crate::steps_of_block::single_now;
use crate::tally::Tally;
use crate::target::{Target, target_at};
use check_expr::values::{is_same_shape, is_tuple};
use check_scope::context::Context;
use check_scope::fault::CheckFault;
use check_scope::library::Library;
use check_scope::rule;
use check_scope::spots::spot_of;
use silq_tree::node::PlaceNode;
use silq_tree::{ExprId, NameId, Spot, UpdateOp};
use silq_types::{Need, Part, Shape, Ty, Value};

/// Whether the variable with this part is consumed.
pub(crate) fn consumed_there(cx: &Context, part: Part) -> bool
    ensures { result ≡ consumed_at cx.now.vars part }
{
    match cx.find(part) {
        Some(var) => var.consumed,
        None => false,
    }
}

/// The types that are asked of one value: none where a tuple stands.
pub(crate) fn lone_wants(is_tuple: bool, wants: &[Ty]) -> &[Ty]
    ensures { result.now ≡ (if is_tuple then [] else wants.now) }
{
    if is_tuple { &wants[..0] } else { wants }
}

/// Whether the update changes numbers alone.
fn needs_number(op: UpdateOp) -> bool
    ensures { result ≡ number_needed op }
{
    match op {
        UpdateOp::Add => true,
        UpdateOp::Sub => true,
        UpdateOp::Xor => false,
    }
}

/// Whether values of this shape are numbers.
fn is_number(shape: Shape) -> bool
    ensures { result ≡ number_shape shape }
{
    match shape {
        Shape::UInt(_) => true,
        Shape::Int(_) => true,
        Shape::Bit => false,
        Shape::Array(..) => false,
    }
}

/// The rule that the update of a static name breaks.
pub(crate) fn static_updated(place: PlaceNode) -> u8
    ensures { (at : ExprIds → Expression) → result ≡ updated_static (place_of at place) }
{
    match place.first {
        None => rule::BAD_UPDATE,
        Some(_) => match place.second {
            None => rule::BAD_PART,
            Some(_) => rule::BAD_PART,
        },
    }
}

/// The rules of an update, behind the values.
pub(crate) fn may_update(
    library: &Library,
    cx: &Context,
    target: Target,
    name: NameId,
    op: UpdateOp,
    e: ExprId,
    at: Spot,
) -> Result<(), CheckFault>
    requires { e.number < length library.now.nodes.exprs }
    ensures runs { (check : Checker) (s : State) (c : Counts) → OnOk result (Runs check (rules at ((consumed_at cx.now.vars target.owner.part, used_after_move) ∷ (held_origin target.owner.origin, held_changed) ∷ (is_in_condition cx.now.held target.part, condition_changed) ∷ (target.ty.classical || has_name name (names_in (expr_at library.now.nodes e)) || (number_needed op && not (number_shape target.ty.shape)), bad_update) ∷ [])) s c tt s c) }
    ensures fails { (check : Checker) (s : State) (c : Counts) → IfErr result (λ f. Fails check (rules at ((consumed_at cx.now.vars target.owner.part, used_after_move) ∷ (held_origin target.owner.origin, held_changed) ∷ (is_in_condition cx.now.held target.part, condition_changed) ∷ (target.ty.classical || has_name name (names_in (expr_at library.now.nodes e)) || (number_needed op && not (number_shape target.ty.shape)), bad_update) ∷ [])) s c f) }
{
    let is_consumed = consumed_there(cx, target.owner.part);
    let is_held = is_held(target.owner.origin);
    let is_in_condition = cx.holds(target.part);
    let is_named = is_named(library, e, name);
    let is_number = is_number(target.ty.shape);
    let needs_number = needs_number(op);
    obeyed(
        at,
        &[
            (is_consumed, rule::USED_AFTER_MOVE),
            (is_held, rule::HELD_CHANGED),
            (is_in_condition, rule::CONDITION_CHANGED),
            (
                target.ty.classical || is_named || (needs_number && !is_number),
                rule::BAD_UPDATE,
            ),
        ],
    )
}

/// Updates a part, behind the statement's count. The right side may consume the target.
#[cycle(statement)]
pub(crate) fn update_part(
    library: &Library,
    cx: &mut Context,
    tally: &mut Tally,
    place: PlaceNode,
    op: UpdateOp,
    e: ExprId,
    at: Spot,
) -> Result<(), CheckFault>
    requires parts { AreExprsBelow (length library.now.nodes.exprs) (place_exprs place) }
    requires first { HasFirst place }
    requires id { e.number < length library.now.nodes.exprs }
    requires this { cx.old.this < length library.now.funs }
    requires depth { cx.old.depth ≤ 64 }
    ensures runs { OnOk result (Runs (checker_at library.now cx.old) (part_updated (scope_in library.now cx.old) (place_of (expr_at library.now.nodes) place) op (expr_at library.now.nodes e) at) cx.old tally.old tt cx.new tally.new) }
    ensures fails { IfErr result (λ f. Fails (checker_at library.now cx.old) (part_updated (scope_in library.now cx.old) (place_of (expr_at library.now.nodes) place) op (expr_at library.now.nodes e) at) cx.old tally.old f) }
{
    let target = target_at(library, cx, place, at, static_updated(place))?;
    let is_tuple = is_tuple(library, e);
    let found = values(
        library,
        cx,
        tally,
        e,
        Need::Held,
        lone_wants(is_tuple, &[target.ty]),
    )?;
    let value = single_now(library, e, found.as_slice())?;
    let is_same = is_same_shape(target.ty.shape, value.ty.shape);
    obeyed(spot_of(library, e), &[(!is_same, rule::WRONG_TYPE)])?;
    may_update(library, cx, target, place.name, op, e, at)?;
    Ok(())
}
