//! Statements.

ghost use Rattle.std.specs.Prelude.{◌≡◌, ◌+◌, ◌-◌, ◌^◌, ◌<◌, ◌≤◌, ℕ, List, [], ◌∷◌, ◌++◌, Option, Some, None, length, IfOk, IfErr, OnOk, OnErr, MatchResult, MatchOption};
ghost use Rattle.silq_tree.specs.Arena.{IsArena};
ghost use Rattle.silq_tree.specs.Children.{stmt_exprs, stmt_stmts, StmtHasFirst};
ghost use Rattle.expr_parse.specs.Added.{AreFree};
ghost use Rattle.silq_parse.specs.AddedStatement.{AreFreeStmts, IsAddedStmt};
ghost use Rattle.expr_parse.specs.declared.stop.Stop.TheVariants as stops;

use expr_parse::stop::Stop;
use silq_tree::{Stmt, StmtId, Tree};

/// Adds a statement.
pub(crate) fn add_statement<'t>(tree: &mut Tree, s: Stmt) -> Result<StmtId, Stop<'t>>
    requires arena { IsArena tree.old }
    requires exprs { AreFree tree.old (stmt_exprs s) }
    requires stmts { AreFreeStmts tree.old (stmt_stmts s) }
    requires first { StmtHasFirst s }
    requires room { length tree.old.stmts < 2 ^ 32 - 1 }
    ensures added { IfOk result (λ id. IsAddedStmt tree.old tree.new s id) }
    ensures arena { OnOk result (IsArena tree.new) }
    ensures memory { IfErr result (λ stop. stop ≡ stops.Memory) }
{
    Ok(tree.add_stmt(s)?)
}
