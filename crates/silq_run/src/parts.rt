//! Parts of values: an index of an array gives an item, an index of a number a binary digit.

ghost use Rattle.std.specs.Prelude.{◌≡◌, IfOk};
ghost use Rattle.silq_mean.specs.Value.{number_in, digit_part, part, with_digit_part, with_part};

use crate::number;
use crate::value::{Kind, Value};
use silq_types::Scalar;
use std::alloc::{AllocError, Global};

impl Value {
    /// The number, 0 where it is none of a type.
    fn number(&self) -> u64
        ensures { result ≡ number_in self.now }
    {
        match &self.kind {
            Kind::Single(_, a) => *a,
            Kind::Whole(_) => 0,
            Kind::Array(_, _) => 0,
            Kind::Gone => 0,
        }
    }

    /// A part of the value.
    pub(crate) fn part(&self, alloc: Global, indices: &[i64]) -> Result<Value, AllocError>
        ensures { IfOk result (λ v. v ≡ part self.now indices.now) }
    {
        match &self.kind {
            Kind::Single(scalar, a) => Ok(digit_part(*scalar, *a, indices)),
            Kind::Array(scalar, items) => match indices {
                [] => self.copied(alloc),
                [place, inner @ ..] => {
                    let item = items.get_or_zero(place.unsigned_abs());
                    Ok(digit_part(*scalar, item, inner))
                }
            },
            Kind::Whole(_) => self.copied(alloc),
            Kind::Gone => self.copied(alloc),
        }
    }

    /// The value with its part changed.
    pub(crate) fn with_part(self, indices: &[i64], new: Value) -> Result<Value, AllocError>
        ensures { IfOk result (λ v. v ≡ with_part self indices.now new) }
    {
        let [place, inner @ ..] = indices else {
            return Ok(new);
        };
        match self.kind {
            Kind::Single(scalar, a) => {
                let changed = number::with_digit(place.unsigned_abs(), a, new.number())?;
                Ok(Value::single(scalar, changed))
            }
            Kind::Array(scalar, mut items) => {
                let item = items.get_or_zero(place.unsigned_abs());
                let changed = with_digit_part(item, inner, new.number())?;
                items.set(place.unsigned_abs(), changed);
                Ok(Value::array(scalar, items))
            }
            Kind::Whole(number) => Ok(Value::whole(number)),
            Kind::Gone => Ok(Value::gone()),
        }
    }
}

/// A number, or a digit of it.
fn digit_part(scalar: Scalar, a: u64, indices: &[i64]) -> Value
    ensures { result ≡ digit_part scalar a indices.now }
{
    match indices {
        [] => Value::single(scalar, a),
        [place, ..] => Value::single(Scalar::Bit, number::digit(place.unsigned_abs(), a)),
    }
}

/// Another number, or the number with a digit changed.
fn with_digit_part(a: u64, indices: &[i64], b: u64) -> Result<u64, AllocError>
    ensures { IfOk result (λ c. c ≡ with_digit_part a indices.now b) }
{
    match indices {
        [] => Ok(b),
        [place, ..] => number::with_digit(place.unsigned_abs(), a, b),
    }
}
