#![tactic(auto)]
//! What a program of Silq means, by names and numbers.
//!
//! A program's meaning is an effect (`specs/Effect`, told from the syntax tree by `specs/Meaning`): what it does to terms, with calls
//! inlined, loops unrolled and static conditions chosen. A term is an environment of numbers with a factor, a power of the eighth root
//! of 1 over a power of the square root of 2. The effect is read in several ways: `follow` gives the terms that follow one term, `run`
//! carries all terms along at once, as a program would do that is given the input bits.

pub mod laws;
pub mod receiver;

pub use receiver::Receiver;
