//! Why a walk stops.

ghost use Rattle.std.specs.Prelude.{◌≡◌};
ghost use Rattle.run_stage.specs.declared.stop.WalkStop.TheVariants.{Memory, TooMany};
ghost use Rattle.run_stage.specs.Stops.{stopped};

use silq_run::{Excess, Stop};
use std::alloc::AllocError;

/// Why a walk stops.
#[derive(Clone, Copy, PartialEq, Eq)]
pub enum WalkStop {
    /// No memory; or no room in a word of 64 bits for a number.
    Memory,
    /// A count is too high.
    TooMany(Excess),
    /// More than 1,048,576 terms.
    TooManyTerms,
    /// On this line a forget is false on a term.
    ForgetFalse { line: u32 },
}

impl From<AllocError> for WalkStop {
    ghost from_gives = { λ _ stop. stop ≡ Memory };

    fn from(_: AllocError) -> Self {
        WalkStop::Memory
    }
}

impl From<Excess> for WalkStop {
    ghost from_gives = { λ excess stop. stop ≡ TooMany excess };

    fn from(excess: Excess) -> Self {
        WalkStop::TooMany(excess)
    }
}

impl From<Stop> for WalkStop {
    ghost from_gives = { λ refusal stop. stop ≡ stopped refusal };

    fn from(refusal: Stop) -> Self {
        match refusal {
            Stop::Memory => WalkStop::Memory,
            Stop::TooManyTerms => WalkStop::TooManyTerms,
            Stop::ForgetFalse { line } => WalkStop::ForgetFalse { line },
        }
    }
}
