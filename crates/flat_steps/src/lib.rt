#![tactic(auto)]
//! The state of flattening, and its steps.
//!
//! `Flattening` holds what is built so far and what is known of names and values. Each of its calls carries one step of a program's effect
//! out, exactly as the definition of the flat form (`flat_form/specs/Flat`) says.

mod blocks;
mod branches;
mod copying;
mod ends;
mod gates;
mod names;
mod operators;
mod outputs;
mod parts;
mod stack;
mod state;
mod statements;
mod take;
mod taking;
mod typed;
mod updates;
mod uses;
mod variables;
mod wires;

pub use branches::Choice;
pub use state::Flattening;
