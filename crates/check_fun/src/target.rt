//! Targets of statements.

ghost use Rattle.std.specs.Prelude.{◌≡◌, ◌<◌, length, IfOk, IfErr};
ghost use Rattle.silq_tree.specs.Arena.{expr_at};
ghost use Rattle.silq_tree.specs.Children.{place_exprs, AreExprsBelow, HasFirst};
ghost use Rattle.silq_tree.specs.Standing.{place_of};
ghost use Rattle.check_scope.specs.Context.{find_var, variable, part_type as part_type_of, indices};
ghost use Rattle.check_fun.specs.Counting.{Runs, Fails};
ghost use Rattle.check_scope.specs.State.{State, scope_in};
ghost use Rattle.check_fun.specs.Statement.{target as target_told, target_of, target_type};
ghost use Rattle.check_scope.specs.Walk.{Checker, Counts};

use crate::plain::{obeyed, part_now};
use check_scope::context::Context;
use check_scope::fault::CheckFault;
use check_scope::library::Library;
use check_scope::part_types::part_type;
use check_scope::rule;
use check_scope::unknown::is_known_name;
use silq_tree::node::PlaceNode;
use silq_tree::{NameId, Spot};
use silq_types::{Part, Ty, Var};

/// A target in reach: its part, its variable and the part's type.
#[derive(Clone, Copy, PartialEq, Eq)]
pub(crate) struct Target {
    pub part: Part,
    pub owner: Var,
    pub ty: Ty,
}

/// The whole of the variable with a name.
pub(crate) fn variable_part(name: NameId) -> Part
    ensures { result ≡ variable name }
{
    Part {
        name,
        first: None,
        second: None,
    }
}

/// The part of a variable, with its type where it has that part.
fn typed_target(at: Spot, part: Part, owner: Var) -> Result<Target, CheckFault>
    ensures runs { (check : Checker) (s : State) (c : Counts) → IfOk result (λ t. Runs check (target_type at part owner (part_type_of owner.ty.classical owner.ty.shape (indices part))) s c (record { part = t.part; owner = t.owner; ty = t.ty }) s c) }
    ensures fails { (check : Checker) (s : State) (c : Counts) → IfErr result (λ f. Fails check (target_type at part owner (part_type_of owner.ty.classical owner.ty.shape (indices part))) s c f) }
{
    match part_type(owner.ty, part) {
        Some(ty) => Ok(Target { part, owner, ty }),
        None => Err(CheckFault::Broken {
            rule: rule::BAD_PART,
            at,
        }),
    }
}

/// The target, where the name is that of a variable; a static name is no target, and `other` is the rule that it breaks.
fn owned_target(
    cx: &Context,
    name: NameId,
    part: Part,
    at: Spot,
    other: u8,
) -> Result<Target, CheckFault>
    ensures runs { (check : Checker) (c : Counts) → IfOk result (λ t. Runs check (target_of at other part (find_var cx.now.vars (variable name))) cx.now c (record { part = t.part; owner = t.owner; ty = t.ty }) cx.now c) }
    ensures fails { (check : Checker) (c : Counts) → IfErr result (λ f. Fails check (target_of at other part (find_var cx.now.vars (variable name))) cx.now c f) }
{
    match cx.find(variable_part(name)) {
        Some(owner) => {
            obeyed(at, &[(owner.consumed, rule::USED_AFTER_MOVE)])?;
            let target = typed_target(at, part, owner)?;
            Ok(target)
        }
        None => Err(CheckFault::Broken { rule: other, at }),
    }
}

/// The target that a place names: the values of its indices come first, then its name, its variable and its type.
pub(crate) fn target_at(
    library: &Library,
    cx: &Context,
    place: PlaceNode,
    at: Spot,
    other: u8,
) -> Result<Target, CheckFault>
    requires parts { AreExprsBelow (length library.now.nodes.exprs) (place_exprs place) }
    requires first { HasFirst place }
    ensures runs { (check : Checker) (c : Counts) → IfOk result (λ t. Runs check (target_told (scope_in library.now cx.now) (place_of (expr_at library.now.nodes) place) at other) cx.now c (record { part = t.part; owner = t.owner; ty = t.ty }) cx.now c) }
    ensures fails { (check : Checker) (c : Counts) → IfErr result (λ f. Fails check (target_told (scope_in library.now cx.now) (place_of (expr_at library.now.nodes) place) at other) cx.now c f) }
{
    let part = part_now(library, cx, place)?;
    let is_known = is_known_name(library, cx, place.name);
    obeyed(at, &[(!is_known, rule::UNKNOWN_NAME)])?;
    let target = owned_target(cx, place.name, part, at, other)?;
    Ok(target)
}
