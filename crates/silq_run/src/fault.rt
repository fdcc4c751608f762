//! Why a run stops.

ghost use Rattle.std.specs.Prelude.{◌≡◌};
ghost use Rattle.silq_run.specs.declared.fault.Stop.TheVariants.{Memory};

use std::alloc::AllocError;

/// Why a run stops.
#[derive(Clone, Copy, PartialEq, Eq)]
pub enum Stop {
    /// No memory; or no room in a word of 64 bits for a number.
    Memory,
    /// More than 1,048,576 terms.
    TooManyTerms,
    /// On this line a forget is false on a term.
    ForgetFalse { line: u32 },
}

impl From<AllocError> for Stop {
    ghost from_gives = { λ _ stop. stop ≡ Memory };

    fn from(_: AllocError) -> Self {
        Stop::Memory
    }
}
