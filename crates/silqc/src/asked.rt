//! What is asked of a source.

use flat_compile::Output;

/// What is asked of a source.
#[derive(Clone, Copy)]
pub enum Asked<'a> {
    /// Whether all rules hold.
    Check,
    /// The text or the report of its circuit, with at most so many qubits: 1 to 100,000.
    Compile {
        output: Output,
        budget: u32,
    },
    /// The exact table of what it means on these input bits and for these outcomes.
    Mean {
        input: &'a [bool],
        outcome: &'a [bool],
    },
}
