#![tactic(auto)]
//! Rows of steps that do arithmetic on operands: the flat form's table of constructs, as calls of a builder.

pub mod builder;
mod compare;
mod conjunction;
mod copies;
pub mod laws;
mod made;
pub mod operand;
mod product;
mod sums;

pub use builder::Builder;
pub use operand::Operand;
