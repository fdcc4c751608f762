//! Counted limits.

ghost use Rattle.std.specs.Prelude.{◌≡◌};
ghost use Rattle.silq_io.specs.Names.{limit_name};
ghost use Rattle.silq_io.specs.declared.limit.LimitFault.TheVariants.{Memory};

use std::alloc::{AllocError, AllocFailed};

/// What is counted.
#[derive(Clone, Copy, PartialEq, Eq)]
pub enum LimitKind {
    /// Statements walked by the checker, loops unrolled, each instance once.
    Walked,
    /// Instances: functions with their static arguments.
    Instances,
    /// Open calls.
    Depth,
    /// Statements run with calls inlined.
    Inlined,
    /// Steps of the flat form.
    Steps,
    /// Wires of the flat form.
    Wires,
    /// Outcome bits.
    Outcomes,
    /// Terms of the source's meaning.
    Terms,
    /// Hadamard gates.
    HGates,
    /// Qubits of a circuit.
    Qubits,
    /// Statements of a circuit.
    Gates,
    /// Bytes of a text.
    Text,
}

impl LimitKind {
    /// The word by which the kind is printed.
    pub fn name(&self) -> &'static str
        ensures { result.now ≡ limit_name self.now }
    {
        match self {
            LimitKind::Walked => "walked",
            LimitKind::Instances => "instances",
            LimitKind::Depth => "depth",
            LimitKind::Inlined => "inlined",
            LimitKind::Steps => "steps",
            LimitKind::Wires => "wires",
            LimitKind::Outcomes => "outcomes",
            LimitKind::Terms => "terms",
            LimitKind::HGates => "hgates",
            LimitKind::Qubits => "qubits",
            LimitKind::Gates => "gates",
            LimitKind::Text => "text",
        }
    }
}

/// A count that went above its limit.
#[derive(Clone, Copy, PartialEq, Eq)]
pub struct OverLimit {
    /// What was counted.
    pub which: LimitKind,
    /// The limit plus one: the count at which the work stopped.
    pub count: u64,
}

/// Why a counted call was refused.
#[derive(Clone, Copy, PartialEq, Eq)]
pub enum LimitFault {
    /// No memory.
    Memory,
    /// A count went above its limit.
    Limit(OverLimit),
}

impl From<AllocError> for LimitFault {
    ghost from_gives = { λ _ fault. fault ≡ Memory };

    fn from(_: AllocError) -> Self {
        LimitFault::Memory
    }
}

impl<T: Drop> From<AllocFailed<T>> for LimitFault {
    ghost from_gives = { λ _ fault. fault ≡ Memory };

    fn from(_: AllocFailed<T>) -> Self {
        LimitFault::Memory
    }
}
