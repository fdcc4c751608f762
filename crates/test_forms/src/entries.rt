//! The rows of a table.

ghost use Rattle.std.specs.Prelude.{◌≡◌, true, false, Some};
ghost use Rattle.flat_core.specs.Label.{wire_id};
ghost use Rattle.flat_core.specs.declared.step.Step.TheVariants.{X, H, P, M};

use flat_core::{End, Lit, Step, WireId};

/// A wire: whether it is an input, and what becomes of it.
#[derive(Clone, Copy, PartialEq, Eq)]
pub struct WireEntry {
    pub input: bool,
    pub end: End,
}

/// A step and its source line.
#[derive(Clone, Copy, PartialEq, Eq)]
pub struct StepEntry {
    pub line: u32,
    pub step: Step,
}

/// An input wire with this end.
pub fn input(end: End) -> WireEntry
    ensures { result ≡ record { input = true; end = end } }
{
    WireEntry { input: true, end }
}

/// A new wire with this end.
pub fn new(end: End) -> WireEntry
    ensures { result ≡ record { input = false; end = end } }
{
    WireEntry { input: false, end }
}

/// A step on this source line.
pub fn at(line: u32, step: Step) -> StepEntry
    ensures { result ≡ record { line = line; step = step } }
{
    StepEntry { line, step }
}

// The wire with a number.
fn wire(number: u32) -> WireId
    ensures { result ≡ wire_id number }
{
    WireId { number }
}

/// A control that holds where the wire is 1.
pub fn on(number: u32) -> Option<Lit>
    ensures { result ≡ Some (record { wire = wire_id number; positive = true }) }
{
    Some(Lit {
        wire: wire(number),
        positive: true,
    })
}

/// A control that holds where the wire is 0.
pub fn off(number: u32) -> Option<Lit>
    ensures { result ≡ Some (record { wire = wire_id number; positive = false }) }
{
    Some(Lit {
        wire: wire(number),
        positive: false,
    })
}

/// Flips a wire under two controls, where there are any.
pub fn flip(target: u32, first: Option<Lit>, second: Option<Lit>) -> Step
    ensures { result ≡ X (wire_id target) first second }
{
    Step::X {
        target: wire(target),
        first,
        second,
    }
}

/// A Hadamard gate on a wire under a control, where there is one.
pub fn hadamard(target: u32, control: Option<Lit>) -> Step
    ensures { result ≡ H (wire_id target) control }
{
    Step::H {
        target: wire(target),
        control,
    }
}

/// A phase of some eighths of a full turn where the wire is 1.
pub fn phase(eighths: u8, number: u32) -> Step
    ensures { result ≡ P eighths (record { wire = wire_id number; positive = true }) }
{
    let control = Lit {
        wire: wire(number),
        positive: true,
    };
    Step::P { eighths, control }
}

/// Measures a wire into the outcome bit of this number.
pub fn measure(target: u32, number: u32) -> Step
    ensures { result ≡ M (wire_id target) number }
{
    Step::M {
        wire: wire(target),
        number,
    }
}
