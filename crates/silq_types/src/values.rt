//! Values, and the variables that own them.

use crate::types::Ty;
use silq_tree::node::NameId;

/// Where a value comes from.
#[derive(Clone, Copy, PartialEq, Eq)]
pub enum Origin {
    /// A const parameter.
    Held,
    /// A quantum value that can be computed again, and so may be dropped.
    Lifted,
    /// Any other quantum value. It is never dropped.
    Linear,
    Classical,
}

/// A checked value.
#[derive(Clone, Copy, PartialEq, Eq)]
pub struct Value {
    pub ty: Ty,
    pub origin: Origin,
    /// Each quantum value has a place of its own. A move keeps it.
    pub place: u128,
}

/// A variable with up to two index values; a second one only behind a first.
#[derive(Clone, Copy, PartialEq, Eq)]
pub struct Part {
    pub name: NameId,
    pub first: Option<i64>,
    pub second: Option<i64>,
}

/// A variable, or a part that an element assignment has taken out.
#[derive(Clone, Copy, PartialEq, Eq)]
pub struct Var {
    pub part: Part,
    pub ty: Ty,
    pub origin: Origin,
    pub place: u128,
    pub consumed: bool,
}
