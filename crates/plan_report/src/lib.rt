#![tactic(auto)]
//! What is told of a compiled program: the sizes of its flat form, of its moves and of its circuit.

pub(crate) mod gates;
pub mod put;
pub mod report;

pub use put::put_report;
pub use report::{Report, report_of};
