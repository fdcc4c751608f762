//! Where expressions begin.

ghost use Rattle.std.specs.Prelude.{◌≡◌, ◌<◌, length};
ghost use Rattle.silq_tree.specs.Arena.{expr_at};
ghost use Rattle.silq_types.specs.Types.{at as spot_of_expression};

use crate::library::Library;
use silq_tree::Tree;
use silq_tree::node::{Expr, ExprId, Spot};

/// The place of the first token of an expression in a tree.
pub(crate) fn spot_in(tree: &Tree, e: ExprId) -> Spot
    requires { e.number < length tree.now.exprs }
    ensures { result ≡ spot_of_expression (expr_at tree.now e) }
{
    match tree.expr(e) {
        Expr::Number { at, .. } => *at,
        Expr::Truth { at, .. } => *at,
        Expr::Pi { at } => *at,
        Expr::Place { at, .. } => *at,
        Expr::Call { at, .. } => *at,
        Expr::Tuple { at, .. } => *at,
        Expr::Unary { at, .. } => *at,
        Expr::Binary { at, .. } => *at,
    }
}

/// The place of an expression's first token.
pub fn spot_of(library: &Library, e: ExprId) -> Spot
    requires { e.number < length library.now.nodes.exprs }
    ensures { result ≡ spot_of_expression (expr_at library.now.nodes e) }
{
    spot_in(library.tree(), e)
}
