#![tactic(auto)]
//! Expressions of Silq: the nodes for which the tokens of one stand, or why they are none.
//!
//! Each function reads the first of the tokens, and answers what is left. `expr` has the operators by their levels, `unary`
//! what stands between them, `operand` and `operator` the tokens with which these begin, `target` places and calls, `list`
//! what stands between commas, `scalar` the types of numbers; `sign` reads single tokens, `node` makes nodes, and `stop` says
//! why a function stops.

pub mod expr;
mod list;
pub mod node;
mod open;
mod operand;
mod operator;
pub mod scalar;
pub mod sign;
pub mod stop;
pub mod target;
mod unary;
