#![tactic(auto)]
//! The source's own exact table: all terms of a program carried along at once.
//!
//! A program's effect is told from its syntax tree (`silq_mean/specs/Meaning`), and `run` (`silq_mean/specs/Effect`) says what an effect does
//! to all terms. The effect is not built. `Running` holds the terms under way, and each of its calls carries one leaf of an effect out, on
//! each term, exactly as `run` says: a step, H, a measurement, the claim of a forget. A choice is carried out in three calls: the terms
//! where the condition is 1 go the first way while the others wait, then the others go the second way while those of the first wait, and
//! then both are joined. So a walk through the tree in the order of the text, which makes these calls, gives what `run` gives. `Counts` and
//! `Sample` are told the same leaves in the same order, and give what `counts` and `sample` give.
//!
//! Numbers and factors are kept in words of 64 bits. Where a number has no room there the answer is that of want of memory. In an accepted
//! program types have at most 64 bits, an index of a number is below its width, and a digit is 0 or 1, so that none has such a number; that
//! is not proved here.

mod bits;
mod counts;
mod fault;
pub mod laws;
mod number;
mod numbers;
mod outcome;
mod parts;
mod rows;
mod running;
mod sample;
mod stack;
mod start;
mod step;
mod term;
mod terms;
mod updates;
mod value;
mod variables;

pub use counts::{Counts, Excess};
pub use fault::Stop;
pub use running::{FirstWay, Running, SecondWay};
pub use sample::Sample;
pub use step::Step;
