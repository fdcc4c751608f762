#![tactic(auto)]
//! Tests of files, sinks and words: each call once with ample memory, and what the system gives and takes.

#[cfg(test)]
mod disk;
#[cfg(test)]
mod memory;
#[cfg(test)]
mod reads;
#[cfg(test)]
mod sure;
#[cfg(test)]
mod words;
