#![tactic(auto)]
//! From placed moves to the gates of a circuit, and the proof that the circuit gives what the paths of the flat form give.

pub mod laws;
pub mod lists;
pub mod next_gates;
pub mod placed_gates;
pub mod plan_ends;

pub use lists::qubit_lists;
pub use next_gates::emit_next;
pub use placed_gates::{emit_placed, placed_move};
pub use plan_ends::{PlanLists, plan_lists};
