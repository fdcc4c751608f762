//! The names in an expression of a header that are not in reach: no variable is.

ghost use Rattle.std.specs.Prelude.{◌≡◌, ◌<◌, [], None, length};
ghost use Rattle.silq_tree.specs.Arena.{expr_at};
ghost use Rattle.silq_tree.specs.Children.{place_exprs, scalar_exprs, AreExprsBelow};
ghost use Rattle.silq_tree.specs.Standing.{expressions_of, place_of, scalar_of};
ghost use Rattle.silq_tree.specs.Syntax.{place as placed};
ghost use Rattle.silq_mean.specs.Written.{value_of as value_of_name};
ghost use Rattle.silq_types.specs.Types.{first_unknown as first_of, names, all_names, scalar_names};
ghost use Rattle.check_scope.specs.Reach.{is_in_reach as reached};

use silq_tree::Tree;
use silq_tree::node::{Expr, ExprId, NameId, PlaceNode, ScalarNode, Spot};
use static_num::Statics;

/// The last value of a name.
fn value_of(pairs: &[(NameId, i64)], name: NameId) -> Option<i64>
    ensures { result ≡ value_of_name pairs.now name }
{
    let mut found = None;
    for (key, value) in pairs {
        if key.number == name.number {
            found = Some(*value);
        }
    }
    found
}

/// Whether a name has a value.
fn is_in_reach(statics: &Statics, name: NameId) -> bool
    ensures { result ≡ reached statics.now [] name }
{
    value_of(statics.as_slice(), name).is_some()
}

/// The first name in a place, which stands there, that is not in reach.
#[cycle(reach)]
#[tactic(auto, using(silq_tree::proofs::Lists::ids, crate::proofs::Reached::first_unknown_in_both))]
fn unknown_in_place(tree: &Tree, statics: &Statics, place: PlaceNode, at: Spot) -> Option<Spot>
    requires { AreExprsBelow (length tree.now.exprs) (place_exprs place) }
    ensures { result ≡ first_of (reached statics.now []) (names (placed (place_of (expr_at tree.now) place) at)) }
{
    if !is_in_reach(statics, place.name) {
        return Some(at);
    }
    let Some(i) = place.first else {
        return None;
    };
    if let Some(spot) = first_unknown(tree, statics, i) {
        return Some(spot);
    }
    match place.second {
        None => None,
        Some(j) => first_unknown(tree, statics, j),
    }
}

/// The first name in the width of a type that is not in reach.
#[cycle(reach)]
#[tactic(auto, using(silq_tree::proofs::Lists::ids, crate::proofs::Reached::first_unknown_in_both))]
pub(crate) fn unknown_in_width(tree: &Tree, statics: &Statics, ty: ScalarNode) -> Option<Spot>
    requires { AreExprsBelow (length tree.now.exprs) (scalar_exprs ty) }
    ensures { result ≡ first_of (reached statics.now []) (scalar_names (scalar_of (expr_at tree.now) ty)) }
{
    match ty {
        ScalarNode::Bit => None,
        ScalarNode::UInt(width) => first_unknown(tree, statics, width),
        ScalarNode::Int(width) => first_unknown(tree, statics, width),
    }
}

/// The first name in expressions that is not in reach.
#[cycle(reach)]
#[tactic(auto, using(silq_tree::proofs::Lists::ids, crate::proofs::Reached::first_unknown_in_both))]
fn unknown_in_all(tree: &Tree, statics: &Statics, items: &[ExprId]) -> Option<Spot>
    requires { AreExprsBelow (length tree.now.exprs) items.now }
    ensures { result ≡ first_of (reached statics.now []) (all_names (expressions_of (expr_at tree.now) items.now)) }
{
    for item in items {
        if let Some(spot) = first_unknown(tree, statics, *item) {
            return Some(spot);
        }
    }
    None
}

/// The place of the first name in an expression, from left to right, that has no value.
#[cycle(reach)]
#[tactic(auto, using(silq_tree::proofs::Lists::ids, crate::proofs::Reached::first_unknown_in_both))]
pub(crate) fn first_unknown(tree: &Tree, statics: &Statics, e: ExprId) -> Option<Spot>
    requires { e.number < length tree.now.exprs }
    ensures { result ≡ first_of (reached statics.now []) (names (expr_at tree.now e)) }
{
    match tree.expr(e) {
        Expr::Number { ty, .. } => match ty {
            None => None,
            Some(ty) => unknown_in_width(tree, statics, *ty),
        },
        Expr::Truth { .. } => None,
        Expr::Pi { .. } => None,
        Expr::Place { place, at } => unknown_in_place(tree, statics, *place, *at),
        Expr::Call {
            statics: given,
            args,
            ..
        } => {
            if let Some(spot) = unknown_in_all(tree, statics, given.as_slice()) {
                return Some(spot);
            }
            unknown_in_all(tree, statics, args.as_slice())
        }
        Expr::Tuple { items, .. } => unknown_in_all(tree, statics, items.as_slice()),
        Expr::Unary { arg, .. } => first_unknown(tree, statics, *arg),
        Expr::Binary { left, right, .. } => {
            if let Some(spot) = first_unknown(tree, statics, *left) {
                return Some(spot);
            }
            first_unknown(tree, statics, *right)
        }
    }
}
