//! Why an entry is not compiled.

ghost use Rattle.std.specs.Prelude.{◌≡◌};
ghost use Rattle.flat_compile.specs.declared.fault.CompileFault.TheVariants.{Limit, Memory};
ghost use Rattle.silq_io.specs.declared.limit.LimitFault.TheVariants as limits;

use crate::cycle::CyclePlaces;
use silq_io::{LimitFault, OverLimit};
use std::alloc::AllocError;

/// Why an entry is not compiled.
#[derive(Drop)]
pub enum CompileFault {
    /// No memory. Nothing was put.
    Memory,
    /// A count of the flat form goes above its limit.
    Limit(OverLimit),
    /// The circuit graph of the flat form has a cycle.
    Cycle(CyclePlaces),
    /// The moves need more qubits than the budget has.
    OverBudget {
        /// How many they need.
        least: usize,
    },
    /// The sink failed. A proper front of the text was put.
    Failed,
}

impl From<AllocError> for CompileFault {
    ghost from_gives = { λ _ fault. fault ≡ Memory };

    fn from(_: AllocError) -> Self {
        CompileFault::Memory
    }
}
