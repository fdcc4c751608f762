#![tactic(auto)]
//! The flat form of a program, as a definition.
//!
//! It is read off what the program does (`silq_mean`'s effect), step by step in the order of the text (`specs/Flat`): a value is the operands
//! that show its bits, and each step makes its row of steps on wires. `specs/Fine` and `specs/Jobs` say what the rules of typing give of a
//! program, `specs/Good` what each state keeps. The laws stand in `flat_laws`, the code in `flat_steps`.

pub mod known;

pub use crate::known::{Known, TypedBits};
