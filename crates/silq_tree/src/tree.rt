//! The arena.

ghost use Rattle.std.specs.Prelude.{◌≡◌, ℕ, ◌+◌, ◌-◌, ◌^◌, ◌<◌, ◌≤◌, [], length, slice_get, Some, IfOk, OnOk, OnErr};
ghost use Rattle.silq_tree.specs.declared.node.ExprId.{ExprId};
ghost use Rattle.silq_tree.specs.declared.node.StmtId.{StmtId};
ghost use Rattle.silq_tree.specs.Standing.{expr_grown, stmt_grown, fun_grown};
ghost use Rattle.silq_tree.specs.Children.{expr_exprs, stmt_exprs, fun_exprs, stmt_stmts, fun_stmts, AreExprsBelow, AreStmtsBelow, expr_count, stmt_count, ExprHasFirst, StmtHasFirst};
ghost use Rattle.silq_tree.specs.Arena.{expr_at, stmt_at, fun_at, expr_parents, stmt_parents, IsArena, with_expr, with_stmt, with_fun, KeepsTrees};

use crate::node::{Expr, ExprId, Fun, FunId, Stmt, StmtId};
use std::alloc::{AllocError, Global};
use std::marker::Model;

/// The nodes of a program, each kind under its own numbers.
///
/// Each number that a node names is that of a node, a smaller one of the same kind; no node has two parents; and a second index
/// of a part stands only behind a first.
#[derive(Drop)]
pub struct Tree {
    exprs: Vec<Expr>,
    stmts: Vec<Stmt>,
    funs: Vec<Fun>,
}

impl Model for Tree {
    ghost use Rattle.silq_tree.specs.Arena.{Forest, IsArena};

    ghost Value = { Forest };

    ghost view = { λ a. record { exprs = a.exprs.items; stmts = a.stmts.items; funs = a.funs.items } };

    ghost invariant = { λ a. IsArena (record { exprs = a.exprs.items; stmts = a.stmts.items; funs = a.funs.items }) };
}

impl Tree {
    /// No nodes. Takes no memory.
    pub fn new(alloc: Global) -> Tree
        ensures exprs { result.exprs ≡ [] }
        ensures stmts { result.stmts ≡ [] }
        ensures funs { result.funs ≡ [] }
        ensures arena { IsArena result }
    {
        Tree {
            exprs: Vec::new(alloc),
            stmts: Vec::new(alloc),
            funs: Vec::new(alloc),
        }
    }

    /// How many expressions.
    pub fn exprs(&self) -> usize
        ensures { result ≡ length self.now.exprs }
    {
        self.exprs.len()
    }

    /// How many statements.
    pub fn stmts(&self) -> usize
        ensures { result ≡ length self.now.stmts }
    {
        self.stmts.len()
    }

    /// How many functions.
    pub fn funs(&self) -> usize
        ensures { result ≡ length self.now.funs }
    {
        self.funs.len()
    }

    /// The expression with a number.
    pub fn expr(&self, id: ExprId) -> &Expr
        requires { id.number < length self.now.exprs }
        ensures node { slice_get self.now.exprs id.number ≡ Some result.now }
        ensures smaller { AreExprsBelow id.number (expr_exprs result.now) }
        ensures first { ExprHasFirst result.now }
        ensures tree { expr_at self.now id ≡ expr_grown (expr_at self.now) result.now }
    {
        &self.exprs[id.number as usize]
    }

    /// The statement with a number.
    pub fn stmt(&self, id: StmtId) -> &Stmt
        requires { id.number < length self.now.stmts }
        ensures node { slice_get self.now.stmts id.number ≡ Some result.now }
        ensures parts { AreExprsBelow (length self.now.exprs) (stmt_exprs result.now) }
        ensures smaller { AreStmtsBelow id.number (stmt_stmts result.now) }
        ensures first { StmtHasFirst result.now }
        ensures tree { stmt_at self.now id ≡ stmt_grown (expr_at self.now) (stmt_at self.now) result.now }
    {
        &self.stmts[id.number as usize]
    }

    /// The function with a number.
    pub fn fun(&self, id: FunId) -> &Fun
        requires { id.number < length self.now.funs }
        ensures node { slice_get self.now.funs id.number ≡ Some result.now }
        ensures parts { AreExprsBelow (length self.now.exprs) (fun_exprs result.now) }
        ensures body { AreStmtsBelow (length self.now.stmts) (fun_stmts result.now) }
        ensures tree { fun_at self.now id ≡ fun_grown (expr_at self.now) (stmt_at self.now) result.now }
    {
        &self.funs[id.number as usize]
    }

    /// Adds an expression whose parts are there, differ and have no parent yet.
    pub fn add_expr(&mut self, e: Expr) -> Result<ExprId, AllocError>
        requires parts { AreExprsBelow (length self.old.exprs) (expr_exprs e) }
        requires parents { (id : ExprId) → expr_parents self.old id + expr_count id (expr_exprs e) ≤ 1 }
        requires first { ExprHasFirst e }
        requires room { length self.old.exprs < 2 ^ 32 - 1 }

        ensures id { IfOk result (λ id. id.number ≡ length self.old.exprs) }
        ensures added { OnOk result (self.new ≡ with_expr self.old e) }
        ensures made { IfOk result (λ id. expr_at self.new id ≡ expr_grown (expr_at self.old) e) }
        ensures kept { OnOk result (KeepsTrees self.old self.new) }
        ensures err { OnErr result (self.new ≡ self.old) }
        ensures arena { IsArena self.new }
    {
        let number = self.exprs.len() as u32;
        self.exprs.push(e)?;
        Ok(ExprId { number })
    }

    /// Adds a statement whose parts are there, differ and have no parent yet.
    pub fn add_stmt(&mut self, s: Stmt) -> Result<StmtId, AllocError>
        requires expr_parts { AreExprsBelow (length self.old.exprs) (stmt_exprs s) }
        requires stmt_parts { AreStmtsBelow (length self.old.stmts) (stmt_stmts s) }
        requires expr_parents { (id : ExprId) → expr_parents self.old id + expr_count id (stmt_exprs s) ≤ 1 }
        requires stmt_parents { (id : StmtId) → stmt_parents self.old id + stmt_count id (stmt_stmts s) ≤ 1 }
        requires first { StmtHasFirst s }
        requires room { length self.old.stmts < 2 ^ 32 - 1 }

        ensures id { IfOk result (λ id. id.number ≡ length self.old.stmts) }
        ensures added { OnOk result (self.new ≡ with_stmt self.old s) }
        ensures made { IfOk result (λ id. stmt_at self.new id ≡ stmt_grown (expr_at self.old) (stmt_at self.old) s) }
        ensures kept { OnOk result (KeepsTrees self.old self.new) }
        ensures err { OnErr result (self.new ≡ self.old) }
        ensures arena { IsArena self.new }
    {
        let number = self.stmts.len() as u32;
        self.stmts.push(s)?;
        Ok(StmtId { number })
    }

    /// Adds a function whose parts are there, differ and have no parent yet.
    pub fn add_fun(&mut self, f: Fun) -> Result<FunId, AllocError>
        requires expr_parts { AreExprsBelow (length self.old.exprs) (fun_exprs f) }
        requires stmt_parts { AreStmtsBelow (length self.old.stmts) (fun_stmts f) }
        requires expr_parents { (id : ExprId) → expr_parents self.old id + expr_count id (fun_exprs f) ≤ 1 }
        requires stmt_parents { (id : StmtId) → stmt_parents self.old id + stmt_count id (fun_stmts f) ≤ 1 }
        requires room { length self.old.funs < 2 ^ 32 - 1 }

        ensures id { IfOk result (λ id. id.number ≡ length self.old.funs) }
        ensures added { OnOk result (self.new ≡ with_fun self.old f) }
        ensures made { IfOk result (λ id. fun_at self.new id ≡ fun_grown (expr_at self.old) (stmt_at self.old) f) }
        ensures kept { OnOk result (KeepsTrees self.old self.new) }
        ensures err { OnErr result (self.new ≡ self.old) }
        ensures arena { IsArena self.new }
    {
        let number = self.funs.len() as u32;
        self.funs.push(f)?;
        Ok(FunId { number })
    }
}
