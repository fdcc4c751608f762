//! Uses of variables and of their parts.

ghost use Rattle.std.specs.Prelude.{◌≡◌, ◌&&◌, ◌||◌, not, if◌then◌else◌, Some, IfOk, IfErr};
ghost use Rattle.silq_types.specs.Known.{Signatures};
ghost use Rattle.silq_mean.specs.Written.{is_empty};
ghost use Rattle.silq_types.specs.Types.{is_held as held_origin};
ghost use Rattle.check_scope.specs.Context.{find_var, indices, overlaps as overlap_of, same_part as equal_part, part_type as part_type_of, variable as variable_of};
ghost use Rattle.check_scope.specs.Places.{is_moved as moved_by, disturbs as disturb, move as move_of, unmoved as unmoved_of, use_rules as rules_of_use, use_part as use_of_part, use_found as use_of_found};
ghost use Rattle.check_scope.specs.Library.{Shelf};
ghost use Rattle.check_scope.specs.State.{scope_in};
ghost use Rattle.check_scope.specs.Steps.{Reads, Stops};

use crate::context::Context;
use crate::fault::{CheckFault, ExprFault};
use crate::obey::obey;
use crate::part_types::part_type;
use crate::rule;
use crate::unknown::variable;
use silq_tree::Spot;
use silq_types::{Need, Origin, Part, Ty, Value, Var};

/// Whether a use of this type moves the value: a classical one is copied.
fn is_moved(need: Need, ty: Ty) -> bool
    ensures { result ≡ moved_by need ty }
{
    match need {
        Need::Held => false,
        Need::Consumed => !ty.classical,
    }
}

fn is_held(origin: Origin) -> bool
    ensures { result ≡ held_origin origin }
{
    match origin {
        Origin::Held => true,
        Origin::Lifted => false,
        Origin::Linear => false,
        Origin::Classical => false,
    }
}

/// The value of a variable, which is consumed.
#[tactic(auto, using(crate::proofs::PlaceSteps::moved))]
fn move_out(cx: &mut Context, ty: Ty, var: Var) -> Result<Value, ExprFault>
    requires { find_var cx.old.vars var.part ≡ Some var }
    ensures reads { (met : Signatures) → IfOk result (λ v. Reads met (move_of ty var) cx.old v cx.new) }
    ensures stops { (met : Signatures) → IfErr result (λ f. Stops met (move_of ty var) cx.old f cx.new) }
{
    match cx.consume(var) {
        Ok(()) => Ok(Value {
            ty,
            origin: var.origin,
            place: var.place,
        }),
        Err(_) => Err(ExprFault::Fault(CheckFault::Memory)),
    }
}

/// The value of a variable that is left there: itself where it is held, else a copy, which is classical.
fn leave(cx: &mut Context, need: Need, ty: Ty, var: Var) -> Result<Value, ExprFault>
    ensures reads { (met : Signatures) → IfOk result (λ v. Reads met (unmoved_of need ty var) cx.old v cx.new) }
    ensures stops { (met : Signatures) → IfErr result (λ f. Stops met (unmoved_of need ty var) cx.old f cx.new) }
{
    match need {
        Need::Held => Ok(Value {
            ty,
            origin: var.origin,
            place: var.place,
        }),
        Need::Consumed => {
            let place = cx.fresh()?;
            Ok(Value {
                ty,
                origin: Origin::Classical,
                place,
            })
        }
    }
}

/// The value of a variable, moved or not.
fn take(cx: &mut Context, need: Need, var: Var) -> Result<Value, ExprFault>
    requires { find_var cx.old.vars var.part ≡ Some var }
    ensures reads { (met : Signatures) → IfOk result (λ v. Reads met (if moved_by need var.ty then move_of var.ty var else unmoved_of need var.ty var) cx.old v cx.new) }
    ensures stops { (met : Signatures) → IfErr result (λ f. Stops met (if moved_by need var.ty then move_of var.ty var else unmoved_of need var.ty var) cx.old f cx.new) }
{
    if is_moved(need, var.ty) {
        move_out(cx, var.ty, var)
    } else {
        leave(cx, need, var.ty, var)
    }
}

/// Whether a part of a variable can't be used so.
fn is_blocked(cx: &Context, need: Need, part: Part, var: Var) -> bool
    ensures { result ≡ (disturb cx.now.vars part || moved_by need var.ty) }
{
    cx.is_disturbed(part) || is_moved(need, var.ty)
}

/// The rules of a use of a part by its variable.
fn obey_use(
    cx: &Context,
    at: Spot,
    need: Need,
    part: Part,
    var: Var,
    bad: bool,
) -> Result<(), ExprFault>
    ensures reads { (met : Signatures) (l : Shelf) → IfOk result (λ u. Reads met (rules_of_use (scope_in l cx.now) at need part var bad) cx.now u cx.now) }
    ensures stops { (met : Signatures) (l : Shelf) → IfErr result (λ f. Stops met (rules_of_use (scope_in l cx.now) at need part var bad) cx.now f cx.now) }
{
    let moved = is_moved(need, var.ty);
    let held = moved && is_held(var.origin);
    let in_condition = moved && cx.holds(part);
    obey(
        at,
        &[
            (var.consumed, rule::USED_AFTER_MOVE),
            (held, rule::HELD_CHANGED),
            (in_condition, rule::CONDITION_CHANGED),
            (bad, rule::BAD_PART),
        ],
    )
}

/// The value of a part of a variable that is not taken out.
fn use_part(
    cx: &mut Context,
    at: Spot,
    need: Need,
    part: Part,
    var: Var,
) -> Result<Value, ExprFault>
    ensures reads { (met : Signatures) (l : Shelf) → IfOk result (λ v. Reads met (use_of_part (scope_in l cx.old) at need part var cx.old.vars (part_type_of var.ty.classical var.ty.shape (indices part))) cx.old v cx.new) }
    ensures stops { (met : Signatures) (l : Shelf) → IfErr result (λ f. Stops met (use_of_part (scope_in l cx.old) at need part var cx.old.vars (part_type_of var.ty.classical var.ty.shape (indices part))) cx.old f cx.new) }
{
    match part_type(var.ty, part) {
        None => {
            obey_use(cx, at, need, part, var, true)?;
            Err(ExprFault::Fault(CheckFault::Broken {
                rule: rule::BAD_PART,
                at,
            }))
        }
        Some(ty) => {
            let bad = is_blocked(cx, need, part, var);
            obey_use(cx, at, need, part, var, bad)?;
            leave(cx, need, ty, var)
        }
    }
}

/// The value of a variable, or of a part that was taken out.
fn use_whole(
    cx: &mut Context,
    at: Spot,
    need: Need,
    part: Part,
    var: Var,
) -> Result<Value, ExprFault>
    requires { find_var cx.old.vars part ≡ Some var }
    ensures reads { (met : Signatures) (l : Shelf) → IfOk result (λ v. Reads met (use_of_found (scope_in l cx.old) at need part cx.old.vars (Some var) (find_var cx.old.vars (variable_of part.name))) cx.old v cx.new) }
    ensures stops { (met : Signatures) (l : Shelf) → IfErr result (λ f. Stops met (use_of_found (scope_in l cx.old) at need part cx.old.vars (Some var) (find_var cx.old.vars (variable_of part.name))) cx.old f cx.new) }
{
    let bad = cx.is_disturbed(part);
    obey_use(cx, at, need, part, var, bad)?;
    take(cx, need, var)
}

/// The value of a part.
pub(crate) fn use_found(
    cx: &mut Context,
    at: Spot,
    need: Need,
    part: Part,
) -> Result<Value, ExprFault>
    ensures reads { (met : Signatures) (l : Shelf) → IfOk result (λ v. Reads met (use_of_found (scope_in l cx.old) at need part cx.old.vars (find_var cx.old.vars part) (find_var cx.old.vars (variable_of part.name))) cx.old v cx.new) }
    ensures stops { (met : Signatures) (l : Shelf) → IfErr result (λ f. Stops met (use_of_found (scope_in l cx.old) at need part cx.old.vars (find_var cx.old.vars part) (find_var cx.old.vars (variable_of part.name))) cx.old f cx.new) }
{
    if let Some(var) = cx.find(part) {
        return use_whole(cx, at, need, part, var);
    }
    match cx.find(variable(part.name)) {
        Some(var) => use_part(cx, at, need, part, var),
        None => Err(ExprFault::Fault(CheckFault::Broken {
            rule: rule::BAD_PART,
            at,
        })),
    }
}
