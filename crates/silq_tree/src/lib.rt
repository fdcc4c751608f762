#![tactic(auto)]
//! Names and syntax trees of Silq programs.
//!
//! The nodes of a tree lie in an arena and name each other by numbers. Contracts see such a node as the inductive tree that it
//! stands for.

pub mod items;
pub mod names;
pub mod node;
pub mod program;
pub mod tree;

pub use items::{ExprIds, FunIds, Items, NameIds, ParamNodes, StmtIds, TypeNodes};
pub use names::Names;
pub use node::{
    BinaryOp, Block, Else, Expr, ExprId, Fun, FunId, Mark, NameId, ParamNode, PlaceNode,
    ScalarNode, Spot, Stmt, StmtId, TypeNode, UnaryOp, UpdateOp,
};
pub use program::Program;
pub use tree::Tree;
