#![tactic(auto)]
//! The rules of typing on one expression.
//!
//! The definition of the walk of an expression stands in `specs/Expression`, over that of `check_scope`.

mod asked;
mod built_in;
mod calls;
pub mod expr;
pub mod laws;
mod operators;
mod own;
pub mod shape;
mod signatures;
pub mod values;

pub use expr::ValueList;
