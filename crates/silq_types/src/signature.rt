//! Instances of functions, and their signatures.

use crate::lists::{ParamList, ResultList, StaticList};
use crate::types::Ty;
use silq_tree::node::{FunId, Mark};

/// A parameter.
#[derive(Clone, Copy, PartialEq, Eq)]
pub struct Param {
    pub ty: Ty,
    /// Whether it is const, or the function is `lifted`.
    pub held: bool,
}

/// A result.
#[derive(Clone, Copy, PartialEq, Eq)]
pub struct Returned {
    pub ty: Ty,
    /// The consumed parameter whose place it has, counted from 0.
    pub from: Option<u32>,
}

/// What callers know of an instance.
#[derive(Drop)]
pub struct Signature {
    pub params: ParamList,
    pub results: ResultList,
    pub mark: Mark,
    /// One more than the greatest height of an instance that it calls.
    pub height: u32,
}

/// A function with values for its static parameters.
#[derive(Drop, PartialEq, Eq, Hash)]
pub struct InstanceKey {
    pub fun: FunId,
    pub statics: StaticList,
}
