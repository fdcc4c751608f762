//! Wires and steps.

ghost use Rattle.std.specs.Prelude.{◌≡◌};
ghost use Rattle.flat_core.specs.Label.{main_wire, first_wire, second_wire, wire_of};
ghost use Rattle.flat_core.specs.Sound.{is_m};

/// The number of a wire: wires count from 0 in the order in which they were made.
#[derive(Clone, Copy, PartialEq, Eq, PartialOrd, Ord)]
pub struct WireId {
    pub number: u32,
}

/// The number of a step: steps count from 0 in their order.
#[derive(Clone, Copy, PartialEq, Eq, PartialOrd, Ord)]
pub struct StepId {
    pub number: u32,
}

/// A control: a wire that has to have the value 1 where it is positive, and 0 where it is not.
#[derive(Clone, Copy, PartialEq, Eq)]
pub struct Lit {
    pub wire: WireId,
    pub positive: bool,
}

/// One step of the flat form.
#[derive(Clone, Copy, PartialEq, Eq)]
pub enum Step {
    /// Flips the target where all controls hold.
    X {
        target: WireId,
        first: Option<Lit>,
        second: Option<Lit>,
    },
    /// A Hadamard gate on the target where the control holds.
    H {
        target: WireId,
        control: Option<Lit>,
    },
    /// A phase of some eighths of a full turn where the control holds.
    P {
        eighths: u8,
        control: Lit,
    },
    /// Measures a wire into the outcome bit of this number.
    M {
        wire: WireId,
        number: u32,
    },
}

/// What becomes of a wire at the end.
#[derive(Clone, Copy, PartialEq, Eq)]
pub enum End {
    /// It is a result.
    Output,
    /// It is brought back to 0 by undoing its steps.
    Dropped,
    /// It is measured, and cleared by its outcome bit.
    Measured,
    /// It is known to be 0.
    Zeroed,
}

impl Step {
    /// The wire that the step changes or measures: none for a P.
    pub fn main_wire(self) -> Option<WireId>
        ensures { result ≡ main_wire self }
    {
        match self {
            Step::X { target, .. } | Step::H { target, .. } => Some(target),
            Step::P { .. } => None,
            Step::M { wire, .. } => Some(wire),
        }
    }

    /// Whether the step measures.
    pub fn is_measure(self) -> bool
        ensures { result ≡ is_m self }
    {
        matches!(self, Step::M { .. })
    }

    /// The wire of the first control.
    pub fn first_wire(self) -> Option<WireId>
        ensures { result ≡ first_wire self }
    {
        match self {
            Step::X { first, .. } => wire_of(first),
            Step::H { control, .. } => wire_of(control),
            Step::P { control, .. } => Some(control.wire),
            Step::M { .. } => None,
        }
    }

    /// The wire of the second control.
    pub fn second_wire(self) -> Option<WireId>
        ensures { result ≡ second_wire self }
    {
        match self {
            Step::X { second, .. } => wire_of(second),
            Step::H { .. } | Step::P { .. } | Step::M { .. } => None,
        }
    }
}

// The wire of a control.
fn wire_of(control: Option<Lit>) -> Option<WireId>
    ensures { result ≡ wire_of control }
{
    control.map(|l| l.wire)
}
