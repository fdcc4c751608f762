//! What is asked of an argument or of a returned value.

use silq_types::{Need, Ty};

/// How a value is used, and its type where one is fixed.
#[derive(Clone, Copy, PartialEq, Eq)]
pub struct Ask {
    pub need: Need,
    pub want: Option<Ty>,
}
