//! How expressions are written.

/// How an expression is written.
#[derive(Clone, Copy)]
pub(crate) enum Style {
    /// With the fewest parentheses, or tight: with those with which it is least deep.
    Given { tight: bool },
    /// With the fewest parentheses where that is within the nest of 64 with this nest around, else tight.
    Around { nest: u64 },
}
