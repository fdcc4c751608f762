//! Places: a variable, or a part of one.

ghost use Rattle.std.specs.Prelude.{◌≡◌, ◌<◌, length, IfOk, IfErr};
ghost use Rattle.silq_tree.specs.Arena.{expr_at};
ghost use Rattle.silq_tree.specs.Children.{place_exprs, AreExprsBelow, HasFirst};
ghost use Rattle.silq_tree.specs.Standing.{place_of};
ghost use Rattle.silq_types.specs.Known.{Signatures};
ghost use Rattle.silq_types.specs.Types.{place_indices};
ghost use Rattle.check_scope.specs.Context.{known_names as names_known, needed as needed_value, all_needed, indices, part_at};
ghost use Rattle.check_scope.specs.Places.{use_place as use_of_place};
ghost use Rattle.check_scope.specs.State.{scope_in};
ghost use Rattle.check_scope.specs.Steps.{Reads, Stops};

use crate::context::Context;
use crate::fault::{CheckFault, ExprFault};
use crate::library::Library;
use crate::obey::obey;
pub use crate::part_types::part_type;
use crate::part_uses::use_found;
use crate::rule;
use crate::spots::spot_of;
use crate::unknown::first_unknown;
pub use crate::unknown::is_known_name;
use silq_tree::node::PlaceNode;
use silq_tree::{ExprId, Spot};
use silq_types::{Need, Part, Value};
use static_num::eval;

/// Each name in an expression is known; else the first that is not breaks its rule at its own place.
pub fn known_names(library: &Library, cx: &Context, e: ExprId) -> Result<(), ExprFault>
    requires { e.number < length library.now.nodes.exprs }
    ensures reads { (met : Signatures) → IfOk result (λ u. Reads met (names_known (scope_in library.now cx.now) (expr_at library.now.nodes e)) cx.now u cx.now) }
    ensures stops { (met : Signatures) → IfErr result (λ f. Stops met (names_known (scope_in library.now cx.now) (expr_at library.now.nodes e)) cx.now f cx.now) }
{
    match first_unknown(library, cx, e) {
        None => Ok(()),
        Some(at) => Err(ExprFault::Fault(CheckFault::Broken {
            rule: rule::UNKNOWN_NAME,
            at,
        })),
    }
}

/// The value of an expression that has to be static.
pub fn needed(library: &Library, cx: &Context, e: ExprId) -> Result<i64, ExprFault>
    requires { e.number < length library.now.nodes.exprs }
    ensures reads { (met : Signatures) → IfOk result (λ z. Reads met (needed_value (scope_in library.now cx.now) (expr_at library.now.nodes e)) cx.now z cx.now) }
    ensures stops { (met : Signatures) → IfErr result (λ f. Stops met (needed_value (scope_in library.now cx.now) (expr_at library.now.nodes e)) cx.now f cx.now) }
{
    known_names(library, cx, e)?;
    match eval(library.tree(), e, cx.statics()) {
        Ok(value) => Ok(value),
        Err(_) => Err(ExprFault::Fault(CheckFault::Broken {
            rule: rule::NOT_STATIC,
            at: spot_of(library, e),
        })),
    }
}

/// The part that a place names, by the values of its indices.
pub fn part_of(library: &Library, cx: &Context, place: PlaceNode) -> Result<Part, ExprFault>
    requires parts { AreExprsBelow (length library.now.nodes.exprs) (place_exprs place) }
    requires first { HasFirst place }
    ensures part { IfOk result (λ part. part ≡ part_at place.name (indices part)) }
    ensures reads { (met : Signatures) → IfOk result (λ part. Reads met (all_needed (place_indices (place_of (expr_at library.now.nodes) place)) (scope_in library.now cx.now)) cx.now (indices part) cx.now) }
    ensures stops { (met : Signatures) → IfErr result (λ f. Stops met (all_needed (place_indices (place_of (expr_at library.now.nodes) place)) (scope_in library.now cx.now)) cx.now f cx.now) }
{
    let name = place.name;
    let Some(i) = place.first else {
        return Ok(Part {
            name,
            first: None,
            second: None,
        });
    };
    let first = needed(library, cx, i)?;
    let Some(j) = place.second else {
        return Ok(Part {
            name,
            first: Some(first),
            second: None,
        });
    };
    let second = needed(library, cx, j)?;
    Ok(Part {
        name,
        first: Some(first),
        second: Some(second),
    })
}

/// The value of a place: moved where it is consumed and quantum, copied where it is classical.
pub fn use_place(
    library: &Library,
    cx: &mut Context,
    place: PlaceNode,
    at: Spot,
    need: Need,
) -> Result<Value, ExprFault>
    requires parts { AreExprsBelow (length library.now.nodes.exprs) (place_exprs place) }
    requires first { HasFirst place }
    ensures reads { (met : Signatures) → IfOk result (λ v. Reads met (use_of_place (scope_in library.now cx.old) (place_of (expr_at library.now.nodes) place) at need) cx.old v cx.new) }
    ensures stops { (met : Signatures) → IfErr result (λ f. Stops met (use_of_place (scope_in library.now cx.old) (place_of (expr_at library.now.nodes) place) at need) cx.old f cx.new) }
{
    let part = part_of(library, cx, place)?;
    let unknown = !is_known_name(library, cx, place.name);
    obey(at, &[(unknown, rule::UNKNOWN_NAME)])?;
    use_found(cx, at, need, part)
}
