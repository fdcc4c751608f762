#![tactic(auto)]
//! Lists of moves over a flat form: the steps done and undone, and the wires freed.

pub mod laws;
pub mod moves;
pub mod orders;
pub mod rows;
mod track;

pub use moves::{Move, MoveList, Plan};
pub use orders::move_of;
pub use rows::Rows;
