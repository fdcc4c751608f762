//! The names in an expression.

ghost use Rattle.std.specs.Prelude.{◌≡◌, ◌<◌, length};
ghost use Rattle.silq_tree.specs.Arena.{expr_at};
ghost use Rattle.silq_tree.specs.Children.{AreExprsBelow, listed};
ghost use Rattle.silq_tree.specs.Standing.{expressions_of};
ghost use Rattle.silq_types.specs.Types.{names as names_in, all_names};
ghost use Rattle.check_fun.specs.Statement.{has_name};

use check_scope::library::Library;
use silq_tree::node::ScalarNode;
use silq_tree::{Expr, ExprId, NameId, Tree};

/// Whether one of the expressions names it.
#[cycle(naming)]
#[tactic(auto, using(silq_tree::proofs::Lists::ids, crate::proofs::Naming::naming))]
fn is_named_in(tree: &Tree, items: &[ExprId], name: NameId) -> bool
    requires { AreExprsBelow (length tree.now.exprs) items.now }
    ensures { result ≡ has_name name (all_names (expressions_of (expr_at tree.now) items.now)) }
{
    for item in items {
        if is_named_at(tree, *item, name) {
            return true;
        }
    }
    false
}

/// Whether the index, if there is one, names it.
#[cycle(naming)]
#[tactic(auto, using(silq_tree::proofs::Lists::ids, crate::proofs::Naming::naming))]
fn is_index_named(tree: &Tree, index: Option<ExprId>, name: NameId) -> bool
    requires { AreExprsBelow (length tree.now.exprs) (listed index) }
    ensures { result ≡ has_name name (all_names (expressions_of (expr_at tree.now) (listed index))) }
{
    match index {
        Some(index) => is_named_at(tree, index, name),
        None => false,
    }
}

/// Whether the expression names it.
#[cycle(naming)]
#[tactic(auto, using(silq_tree::proofs::Lists::ids, crate::proofs::Naming::naming))]
fn is_named_at(tree: &Tree, e: ExprId, name: NameId) -> bool
    requires { e.number < length tree.now.exprs }
    ensures { result ≡ has_name name (names_in (expr_at tree.now e)) }
{
    match tree.expr(e) {
        Expr::Number { ty, .. } => match ty {
            Some(ScalarNode::UInt(width)) => is_named_at(tree, *width, name),
            Some(ScalarNode::Int(width)) => is_named_at(tree, *width, name),
            _ => false,
        },
        Expr::Truth { .. } => false,
        Expr::Pi { .. } => false,
        Expr::Place { place, .. } => {
            place.name.number == name.number
                || is_index_named(tree, place.first, name)
                || is_index_named(tree, place.second, name)
        }
        Expr::Call { statics, args, .. } => {
            is_named_in(tree, statics.as_slice(), name) || is_named_in(tree, args.as_slice(), name)
        }
        Expr::Tuple { items, .. } => is_named_in(tree, items.as_slice(), name),
        Expr::Unary { arg, .. } => is_named_at(tree, *arg, name),
        Expr::Binary { left, right, .. } => {
            is_named_at(tree, *left, name) || is_named_at(tree, *right, name)
        }
    }
}

/// Whether an expression names a variable or a static value.
pub(crate) fn is_named(library: &Library, e: ExprId, name: NameId) -> bool
    requires { e.number < length library.now.nodes.exprs }
    ensures { result ≡ has_name name (names_in (expr_at library.now.nodes e)) }
{
    is_named_at(library.tree(), e, name)
}
