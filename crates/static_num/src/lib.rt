#![tactic(auto)]
//! Values of static expressions, and angles.

pub mod angles;
mod fraction;
pub mod laws;
pub mod statics;
pub mod values;

pub use angles::{AngleFault, angle};
pub use statics::Statics;
pub use values::{StaticFault, eval};
