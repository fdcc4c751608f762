#![tactic(auto)]
//! The stages of a run of a program: a walk through its tree carries each leaf of its effect out on one stage.
//!
//! A run is defined by `run_job` (`silq_mean/specs/Table`): the counts of the whole effect come first, then the lengths of the input and of
//! the outcome, and then all terms at once. So a run is three walks, each with a stage of its own: one that counts, one that carries a term
//! which tells the number of outcomes, and one that carries all terms. `carried` (`specs/Stages`) says what an effect does to a stage.
//!
//! A choice is begun by `begin_choice`, whose answer says how it goes on: one way alone, where one term is carried, or both ways in turn.

mod choice;
pub mod laws;
mod stage;
mod stop;

pub use choice::Choice;
pub use stage::Stage;
pub use stop::WalkStop;
