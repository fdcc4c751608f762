//! The values and weights of paths.

ghost use Rattle.std.specs.Prelude.{◌≡◌, length};

use amp_core::Amp;
use flat_core::Flat;
use flat_mean::path_value;
use std::alloc::Global;
use test_forms::{TableFault, Worked, count_hadamards, count_inputs, worked_form};

// The number (a + b w + c w^2 + d w^3) / root two^k with these a, d and k, and without b and c.
fn amp(a: i128, d: i128, k: u32) -> Amp {
    Amp {
        a,
        b: 0,
        c: 0,
        d,
        k,
    }
}

// Whether a path has this weight and these values at the tops.
fn is_path(alloc: Global, flat: &Flat, path: &Path) -> Result<bool, TableFault> {
    let (input, choice, values, weight) = path;
    let mut out = vec![in alloc; false; flat.wires()]?;
    if count_inputs(flat) != 1 || count_hadamards(flat) != 2 {
        return Ok(false);
    }
    let found = path_value(flat, &[*input], choice, &mut out);
    Ok(found == *weight && out.as_slice() == values.as_slice())
}

// The paths of a form with an input wire, two Hadamard gates and five wires.
type Path = (bool, [bool; 2], [bool; 5], Amp);

const T: bool = true;

const F: bool = false;

// Every path of `EveryKind`. Where the input is 0 the second Hadamard gate keeps its wire, and wire 2 is flipped with
// wire 1; where it is 1 each Hadamard gate halves, and wire 2 is never flipped.
fn every_path() -> [Path; 8] {
    [
        (F, [F, F], [F, F, F, F, F], amp(1, 0, 1)),
        (F, [F, T], [F, F, F, F, F], Amp::ZERO),
        (F, [T, F], [F, T, T, F, F], Amp::ZERO),
        (F, [T, T], [F, T, T, F, F], amp(0, 1, 1)),
        (T, [F, F], [T, F, F, T, F], amp(1, 0, 2)),
        (T, [F, T], [T, T, F, T, F], amp(0, 1, 2)),
        (T, [T, F], [T, F, F, T, F], amp(1, 0, 2)),
        (T, [T, T], [T, T, F, T, F], amp(0, -1, 2)),
    ]
}

// The number of the first path that has another weight or other values, if any.
fn other_path(alloc: Global, flat: &Flat) -> Result<Option<usize>, TableFault> {
    for (number, path) in every_path().iter().enumerate() {
        if !is_path(alloc, flat, path)? {
            return Ok(Some(number));
        }
    }
    Ok(None)
}

// The sum of the weights of the paths with this input on which wire 1 has this value at its top and wire 2 this outcome
// bit.
fn sum_of(
    alloc: Global,
    flat: &Flat,
    input: bool,
    outcome: bool,
    value: bool,
) -> Result<Amp, TableFault> {
    let mut out = vec![in alloc; false; flat.wires()]?;
    let mut sum = Amp::ZERO;
    if count_inputs(flat) != 1 || count_hadamards(flat) != 2 {
        return Ok(sum);
    }
    for choice in [[F, F], [F, T], [T, F], [T, T]] {
        let weight = path_value(flat, &[input], &choice, &mut out);
        let meets = out.get(1) == Some(&value) && out.get(2) == Some(&outcome);
        if meets && sum.is_small() && weight.is_small() {
            sum = sum.add(&weight);
        }
    }
    Ok(sum)
}

// The sums for each input, outcome bit and value of wire 1: under the input 1 two Hadamard gates are none.
fn every_sum() -> [(bool, bool, bool, Amp); 8] {
    [
        (F, F, F, amp(1, 0, 1)),
        (F, F, T, Amp::ZERO),
        (F, T, F, Amp::ZERO),
        (F, T, T, amp(0, 1, 1)),
        (T, F, F, amp(2, 0, 2)),
        (T, F, T, amp(0, 0, 2)),
        (T, T, F, Amp::ZERO),
        (T, T, T, Amp::ZERO),
    ]
}

// The number of the first sum that is another one, if any.
fn other_sum(alloc: Global, flat: &Flat) -> Result<Option<usize>, TableFault> {
    for (number, (input, outcome, value, wanted)) in every_sum().iter().enumerate() {
        if sum_of(alloc, flat, *input, *outcome, *value)? != *wanted {
            return Ok(Some(number));
        }
    }
    Ok(None)
}

// What of the paths and sums of `EveryKind` is not as wanted.
fn others(alloc: Global) -> Result<(Option<usize>, Option<usize>), TableFault> {
    let flat = worked_form(alloc, Worked::EveryKind)?;
    Ok((other_path(alloc, &flat)?, other_sum(alloc, &flat)?))
}

#[test]
fn paths_and_sums_of_every_kind(rt: HostRuntime) {
    let others = others(rt.alloc()).unwrap_or((Some(0), Some(0)));
    assert_eq!(rt; others, (None, None));
}
