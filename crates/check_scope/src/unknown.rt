//! The names in an expression that are not known.

ghost use Rattle.std.specs.Prelude.{◌≡◌, ◌<◌, length};
ghost use Rattle.silq_tree.specs.Arena.{expr_at};
ghost use Rattle.silq_tree.specs.Children.{place_exprs, scalar_exprs, AreExprsBelow, HasFirst};
ghost use Rattle.silq_tree.specs.Standing.{expressions_of, place_of, scalar_of};
ghost use Rattle.silq_tree.specs.Syntax.{place as place_tree};
ghost use Rattle.silq_mean.specs.Written.{value_of as value_of_static};
ghost use Rattle.silq_types.specs.Types.{first_unknown as unknown_of, names, all_names, scalar_names};
ghost use Rattle.check_scope.specs.Context.{is_known_name as is_known, variable as variable_of};
ghost use Rattle.check_scope.specs.State.{scope_in};

use crate::context::Context;
use crate::library::Library;
use silq_tree::node::{PlaceNode, ScalarNode};
use silq_tree::{Expr, ExprId, NameId, Spot};
use silq_types::Part;

/// A whole variable.
pub fn variable(name: NameId) -> Part
    ensures { result ≡ variable_of name }
{
    Part {
        name,
        first: None,
        second: None,
    }
}

/// The value of a static name: the last one.
fn value_of(pairs: &[(NameId, i64)], name: NameId) -> Option<i64>
    ensures { result ≡ value_of_static pairs.now name }
{
    let mut found = None;
    for (key, value) in pairs {
        if key.number == name.number {
            found = Some(*value);
        }
    }
    found
}

/// Whether a name has a static value or is a variable in reach.
pub fn is_known_name(library: &Library, cx: &Context, name: NameId) -> bool
    ensures { result ≡ is_known (scope_in library.now cx.now) cx.now.vars name }
{
    value_of(cx.statics().as_slice(), name).is_some() || cx.find(variable(name)).is_some()
}

/// The place of the first name in an expression that is not known.
#[cycle(unknown)]
#[tactic(auto, using(silq_tree::proofs::Lists::ids, crate::proofs::UnknownNames::unknowns))]
pub(crate) fn first_unknown(library: &Library, cx: &Context, e: ExprId) -> Option<Spot>
    requires { e.number < length library.now.nodes.exprs }
    ensures { result ≡ unknown_of (is_known (scope_in library.now cx.now) cx.now.vars) (names (expr_at library.now.nodes e)) }
{
    match library.tree().expr(e) {
        Expr::Number { ty, .. } => match ty {
            None => None,
            Some(ty) => unknown_in_width(library, cx, *ty),
        },
        Expr::Truth { .. } => None,
        Expr::Pi { .. } => None,
        Expr::Place { place, at } => unknown_in_place(library, cx, *place, *at),
        Expr::Call { statics, args, .. } => match unknown_among(library, cx, statics.as_slice()) {
            Some(at) => Some(at),
            None => unknown_among(library, cx, args.as_slice()),
        },
        Expr::Tuple { items, .. } => unknown_among(library, cx, items.as_slice()),
        Expr::Unary { arg, .. } => first_unknown(library, cx, *arg),
        Expr::Binary { left, right, .. } => match first_unknown(library, cx, *left) {
            Some(at) => Some(at),
            None => first_unknown(library, cx, *right),
        },
    }
}

/// The same in the width of a type.
#[cycle(unknown)]
#[tactic(auto, using(silq_tree::proofs::Lists::ids, crate::proofs::UnknownNames::unknowns))]
pub(crate) fn unknown_in_width(library: &Library, cx: &Context, ty: ScalarNode) -> Option<Spot>
    requires { AreExprsBelow (length library.now.nodes.exprs) (scalar_exprs ty) }
    ensures { result ≡ unknown_of (is_known (scope_in library.now cx.now) cx.now.vars) (scalar_names (scalar_of (expr_at library.now.nodes) ty)) }
{
    match ty {
        ScalarNode::Bit => None,
        ScalarNode::UInt(width) => first_unknown(library, cx, width),
        ScalarNode::Int(width) => first_unknown(library, cx, width),
    }
}

/// The same in a place that begins there.
#[cycle(unknown)]
#[tactic(auto, using(silq_tree::proofs::Lists::ids, crate::proofs::UnknownNames::unknowns))]
fn unknown_in_place(library: &Library, cx: &Context, place: PlaceNode, at: Spot) -> Option<Spot>
    requires parts { AreExprsBelow (length library.now.nodes.exprs) (place_exprs place) }
    requires first { HasFirst place }
    ensures { result ≡ unknown_of (is_known (scope_in library.now cx.now) cx.now.vars) (names (place_tree (place_of (expr_at library.now.nodes) place) at)) }
{
    if !is_known_name(library, cx, place.name) {
        return Some(at);
    }
    match place.first {
        None => None,
        Some(i) => match first_unknown(library, cx, i) {
            Some(at) => Some(at),
            None => match place.second {
                None => None,
                Some(j) => first_unknown(library, cx, j),
            },
        },
    }
}

/// The same in expressions from left to right.
#[cycle(unknown)]
#[tactic(auto, using(silq_tree::proofs::Lists::ids, crate::proofs::UnknownNames::unknowns))]
pub(crate) fn unknown_among(library: &Library, cx: &Context, items: &[ExprId]) -> Option<Spot>
    requires { AreExprsBelow (length library.now.nodes.exprs) items.now }
    ensures { result ≡ unknown_of (is_known (scope_in library.now cx.now) cx.now.vars) (all_names (expressions_of (expr_at library.now.nodes) items.now)) }
{
    for item in items {
        if let Some(at) = first_unknown(library, cx, *item) {
            return Some(at);
        }
    }
    None
}
