//! The bits of values, low bit first.

ghost use Rattle.std.specs.Prelude.{◌≡◌, ◌++◌, flat_map, OnOk};
ghost use Rattle.silq_mean.specs.Value.{bits_of, low_bits};

use crate::value::{Kind, Value};
use std::alloc::AllocError;
use sum_laws::BitList;

impl Value {
    /// Adds the bits of the value behind others, those of an array item by item.
    pub(crate) fn push_bits(&self, bits: &mut BitList) -> Result<(), AllocError>
        ensures { OnOk result (bits.new ≡ bits.old ++ bits_of self.now) }
    {
        match &self.kind {
            Kind::Single(scalar, a) => push_number(bits, scalar.bits(), *a),
            Kind::Array(scalar, items) => push_numbers(bits, scalar.bits(), items.as_slice()),
            Kind::Whole(_) => Ok(()),
            Kind::Gone => Ok(()),
        }
    }
}

/// Adds the low bits of a number.
fn push_number(bits: &mut BitList, width: u64, number: u64) -> Result<(), AllocError>
    ensures { OnOk result (bits.new ≡ bits.old ++ low_bits width number) }
{
    let mut rest = number;
    for _ in 0..width {
        bits.push(rest % 2 == 1)?;
        rest /= 2;
    }
    Ok(())
}

/// Adds the low bits of numbers in turn.
fn push_numbers(bits: &mut BitList, width: u64, numbers: &[u64]) -> Result<(), AllocError>
    ensures { OnOk result (bits.new ≡ bits.old ++ flat_map (low_bits width) numbers.now) }
{
    for number in numbers {
        push_number(bits, width, *number)?;
    }
    Ok(())
}
