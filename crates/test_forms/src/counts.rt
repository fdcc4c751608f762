//! How many bits the paths of a flat form take.

ghost use Rattle.std.specs.Prelude.{◌≡◌};
ghost use Rattle.flat_mean.specs.Path.{count_choices, count_inputs};

use flat_core::{Flat, Step, StepId, WireId};

/// How many input wires there are.
pub fn count_inputs(flat: &Flat) -> usize
    ensures { result ≡ count_inputs flat.now.wires }
{
    let _sound = flat.steps();
    let mut count = 0;
    for i in 0..flat.wires() {
        if flat.is_input(WireId { number: i as u32 }) {
            count += 1;
        }
    }
    count
}

/// How many H steps there are.
pub fn count_hadamards(flat: &Flat) -> usize
    ensures { result ≡ count_choices flat.now.steps }
{
    let mut count = 0;
    for i in 0..flat.steps() {
        if matches!(flat.step(StepId { number: i as u32 }), Step::H { .. }) {
            count += 1;
        }
    }
    count
}
