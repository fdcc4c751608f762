//! Statements that by their form leave the variables as they are.

ghost use Rattle.std.specs.Prelude.{◌≡◌, ◌<◌, length};
ghost use Rattle.silq_tree.specs.Arena.{expr_at, stmt_at};
ghost use Rattle.silq_tree.specs.Children.{AreStmtsBelow};
ghost use Rattle.silq_tree.specs.Standing.{statements_of};
ghost use Rattle.check_fun.specs.Leaving.{leaves as leaves_of, leave_all as leave_all_of};

use check_scope::library::Library;
use silq_tree::{Stmt, StmtId};

/// Whether the statement by its form leaves the variables as they are.
fn leaves(library: &Library, id: StmtId) -> bool
    requires { id.number < length library.now.nodes.stmts }
    ensures { result ≡ leaves_of (stmt_at library.now.nodes id) }
{
    match library.tree().stmt(id) {
        Stmt::Phase { .. } => true,
        _ => false,
    }
}

/// Whether all of these statements do.
#[tactic(auto, using(silq_tree::proofs::Lists::ids, crate::proofs::InTurn::leave_more, crate::proofs::InTurn::leave_not, crate::proofs::InTurn::leave_end))]
pub(crate) fn all_leave(library: &Library, ids: &[StmtId]) -> bool
    requires { AreStmtsBelow (length library.now.nodes.stmts) ids.now }
    ensures { result ≡ leave_all_of (statements_of (expr_at library.now.nodes) (stmt_at library.now.nodes) ids.now) }
{
    for id in ids {
        if !leaves(library, *id) {
            return false;
        }
    }
    true
}
