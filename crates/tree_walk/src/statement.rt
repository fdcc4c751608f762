//! Statements.

ghost use Rattle.std.specs.Prelude.{◌≡◌, map, IfOk};
ghost use Rattle.silq_tree.specs.declared.node.ExprId.{ExprId as Id};
ghost use Rattle.silq_tree.specs.declared.node.StmtId.{StmtId as StatementId};
ghost use Rattle.silq_tree.specs.Standing.{stmt_grown};
ghost use Rattle.silq_tree.specs.Syntax.{Expression, Statement};
ghost use Rattle.silq_mean.specs.Meaning.{stmt, Scope};
ghost use Rattle.silq_mean.specs.declared.receiver.Receiver.TheVariants.{Variable};
ghost use Rattle.tree_walk.specs.Seen.{line_in};

use silq_mean::Receiver;
use silq_tree::{NameId, Stmt};
use silq_types::List;
use std::alloc::{AllocError, Global};

/// The line of a statement.
pub fn line_of(node: &Stmt) -> u32
    ensures { (at : Id → Expression) (stmts : StatementId → Statement) (sc : Scope) → result ≡ line_in (stmt (stmt_grown at stmts node.now) sc) }
{
    match node {
        Stmt::Assign { at, .. } => at.line,
        Stmt::Spread { at, .. } => at.line,
        Stmt::Update { at, .. } => at.line,
        Stmt::Forget { at, .. } => at.line,
        Stmt::Phase { at, .. } => at.line,
        Stmt::If { at, .. } => at.line,
        Stmt::For { at, .. } => at.line,
        Stmt::Return { at, .. } => at.line,
        Stmt::Call { at, .. } => at.line,
    }
}

/// A variable for each name.
pub fn variables(alloc: Global, names: &[NameId]) -> Result<List<Receiver>, AllocError>
    ensures { IfOk result (λ takers. takers ≡ map (λ x. Variable) names.now) }
{
    let mut takers = List::new(alloc);
    for _name in names {
        takers.push(Receiver::Variable)?;
    }
    Ok(takers)
}
