#![tactic(auto)]
//! Tests of flat forms: what a draft and a form tell of themselves, the values and weights of paths, and the rows of steps that a builder
//! makes. The steps of flattening are tested by whole programs in `test_flatten`.

#[cfg(test)]
mod builder;
#[cfg(test)]
mod paths;
#[cfg(test)]
mod reads;
