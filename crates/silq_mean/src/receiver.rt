//! What takes values over.

use silq_types::{Need, Ty};

/// What takes a value over.
#[derive(Clone, Copy, PartialEq, Eq)]
pub enum Receiver {
    /// A variable, by `:=`.
    Variable,
    /// A parameter, which uses the argument so.
    Argument(Need, Ty),
    /// A result of a called function.
    CallResult(Ty),
    /// A result of the entry.
    EntryOutput(Ty),
}
