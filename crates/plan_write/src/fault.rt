//! Why a text is not whole.

ghost use Rattle.std.specs.Prelude.{◌≡◌};
ghost use Rattle.plan_write.specs.declared.fault.WriteFault.TheVariants.{Memory, Failed as SinkFailed};

use silq_io::Failed;
use std::alloc::AllocError;

/// Why the text of a plan was not put whole.
#[derive(Clone, Copy, PartialEq, Eq)]
pub enum WriteFault {
    /// No memory. Nothing was put.
    Memory,
    /// The sink failed. A proper front of the text was put.
    Failed,
}

impl From<AllocError> for WriteFault {
    ghost from_gives = { λ _ fault. fault ≡ Memory };

    fn from(_: AllocError) -> Self {
        WriteFault::Memory
    }
}

impl From<Failed> for WriteFault {
    ghost from_gives = { λ _ fault. fault ≡ SinkFailed };

    fn from(_: Failed) -> Self {
        WriteFault::Failed
    }
}
