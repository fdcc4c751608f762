#![tactic(auto)]
//! Tests of names, syntax trees, static values, types and signatures: each call once with ample memory.

#[cfg(test)]
mod signatures;
#[cfg(test)]
mod trees;
