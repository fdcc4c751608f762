//! Why no table of a text is put, and why a run gives none.

ghost use Rattle.std.specs.Prelude.{◌≡◌, ◌+◌};
ghost use Rattle.source_table.specs.declared.fault.RunFault.TheVariants.{Memory, Limit};
ghost use Rattle.source_table.specs.Faults.{fault_at};

use check_scope::CheckFault;
use run_stage::WalkStop;
use silq_io::{LimitKind, OverLimit};
use silq_parse::ParseFault;
use silq_run::Excess;
use std::alloc::AllocError;

/// Why no table of a text is put.
#[derive(Drop)]
pub enum SourceFault {
    /// It is no program.
    Parse(ParseFault),
    /// It breaks a rule, has something that is not supported, or passes a limit of the walk.
    Check(CheckFault),
    /// Its entry is not run to its end.
    Run(RunFault),
    /// The sink failed.
    Failed,
}

/// Why a run gives no table.
#[derive(Clone, Copy, PartialEq, Eq)]
pub enum RunFault {
    /// There is not enough memory; or a number has no room in a word of 64 bits.
    Memory,
    /// The first count that went above its limit: Inlined, HGates or Terms.
    Limit(OverLimit),
    /// The input, or else the outcome, has so many bits in place of as many as are wanted.
    Bits { given: u64, wanted: u64 },
    /// On this line a forget is false on a term.
    FalseForget { line: u32 },
}

impl From<AllocError> for RunFault {
    ghost from_gives = { λ _ fault. fault ≡ Memory };

    fn from(_: AllocError) -> Self {
        RunFault::Memory
    }
}

impl From<WalkStop> for RunFault {
    ghost from_gives = { λ stop fault. fault ≡ fault_at stop };

    fn from(stop: WalkStop) -> Self {
        match stop {
            WalkStop::Memory => RunFault::Memory,
            WalkStop::TooMany(Excess::Inlined) => above(LimitKind::Inlined, 1_000_000),
            WalkStop::TooMany(Excess::HGates) => above(LimitKind::HGates, 50),
            WalkStop::TooManyTerms => above(LimitKind::Terms, 1_048_576),
            WalkStop::ForgetFalse { line } => RunFault::FalseForget { line },
        }
    }
}

/// The first count above a limit.
fn above(which: LimitKind, most: u32) -> RunFault
    ensures { result ≡ Limit (record { which = which; count = most + 1 }) }
{
    RunFault::Limit(OverLimit {
        which,
        count: most as u64 + 1,
    })
}
