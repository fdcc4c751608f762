//! The uses of a value.

/// How an expression's value is used where it stands.
#[derive(Clone, Copy, PartialEq, Eq)]
pub enum Need {
    /// It is read: operands, const arguments, conditions, the right sides of updates and forgets.
    Held,
    /// It is moved away: right sides of `:=`, other arguments, returned values.
    Consumed,
}
