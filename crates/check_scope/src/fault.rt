//! The faults of a check.

ghost use Rattle.std.specs.Prelude.{◌≡◌};
ghost use Rattle.check_scope.specs.declared.fault.CheckFault.TheVariants as checks;
ghost use Rattle.check_scope.specs.declared.fault.ExprFault.TheVariants as stops;

use silq_io::{LimitKind, What};
use silq_tree::Spot;
use silq_types::InstanceKey;
use std::alloc::AllocError;

/// Why a program is refused. Of several faults the first in the order of the walk is told.
#[derive(Clone, Copy, PartialEq, Eq)]
pub enum CheckFault {
    /// A rule is broken at this place; its number is 1 to 23.
    Broken { rule: u8, at: Spot },
    /// Something that is not supported stands there.
    Unsupported { what: What, at: Spot },
    /// A limit is passed.
    Limit(LimitKind),
    /// There is no memory.
    Memory,
}

/// Why an expression has no values.
#[derive(Drop)]
pub enum ExprFault {
    Fault(CheckFault),
    /// The walk reaches a call of this instance, whose signature is not known, before any fault.
    Wanted(InstanceKey),
}

impl From<AllocError> for CheckFault {
    ghost from_gives = { λ _ fault. fault ≡ checks.Memory };

    fn from(_: AllocError) -> CheckFault {
        CheckFault::Memory
    }
}

impl From<AllocError> for ExprFault {
    ghost from_gives = { λ _ e. e ≡ stops.Fault checks.Memory };

    fn from(_: AllocError) -> ExprFault {
        ExprFault::Fault(CheckFault::Memory)
    }
}
