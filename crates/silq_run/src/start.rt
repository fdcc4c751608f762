//! From the input bits to the first term.

ghost use Rattle.std.specs.Prelude.{◌≡◌, take, drop, reverse, IfOk};
ghost use Rattle.silq_types.specs.Types.{shape_bits, scalar_bits};
ghost use Rattle.silq_mean.specs.Value.{value_of_bits, number_of, numbers_of};
ghost use Rattle.silq_mean.specs.Table.{inputs, begins};

use crate::numbers::Numbers;
use crate::stack::{Callers, Values};
use crate::term::Term;
use crate::value::Value;
use crate::variables::Variables;
use silq_types::{Scalar, Shape};
use std::alloc::{AllocError, Global};

impl Value {
    /// The value of a shape that has these bits.
    pub(crate) fn of_bits(alloc: Global, shape: Shape, bits: &[bool]) -> Result<Value, AllocError>
        ensures { IfOk result (λ v. v ≡ value_of_bits shape bits.now) }
    {
        match shape {
            Shape::Bit => Ok(Value::single(Scalar::Bit, number_of(bits)?)),
            Shape::UInt(width) => Ok(Value::single(Scalar::UInt(width), number_of(bits)?)),
            Shape::Int(width) => Ok(Value::single(Scalar::Int(width), number_of(bits)?)),
            Shape::Array(scalar, count) => {
                let items = numbers_of(alloc, count, width_of(scalar), bits)?;
                Ok(Value::array(scalar, items))
            }
        }
    }
}

impl Term {
    /// The first term: the parameters' values under way, which have these bits.
    pub(crate) fn begin(alloc: Global, shapes: &[Shape], input: &[bool]) -> Result<Term, AllocError>
        ensures { IfOk result (λ t. t ≡ begins (inputs shapes.now input.now)) }
    {
        let values = inputs(alloc, shapes, input)?;
        Ok(Term {
            variables: Variables::new(alloc),
            values,
            callers: Callers::new(alloc),
            eighths: 0,
            halvings: 0,
            measured: 0,
        })
    }
}

/// Values of these shapes, which have the bits in turn.
fn inputs(alloc: Global, shapes: &[Shape], input: &[bool]) -> Result<Values, AllocError>
    ensures { IfOk result (λ vs. vs ≡ reverse (inputs shapes.now input.now)) }
{
    let mut values = Values::new(alloc);
    let mut rest = input;
    for shape in shapes {
        let size = size_of(*shape);
        let value = Value::of_bits(alloc, *shape, front(rest, size))?;
        values.push(value)?;
        rest = behind(rest, size);
    }
    Ok(values)
}

/// The number that has these bits, the low bit first.
fn number_of(bits: &[bool]) -> Result<u64, AllocError>
    ensures { IfOk result (λ n. n ≡ number_of bits.now) }
{
    let [bit, rest @ ..] = bits else {
        return Ok(0);
    };
    let higher = number_of(rest)?;
    let doubled = higher.checked_mul(2).ok_or(AllocError)?;
    doubled.checked_add(u64::from(*bit)).ok_or(AllocError)
}

/// So many numbers of a width in turn.
fn numbers_of(alloc: Global, count: u32, width: u32, bits: &[bool]) -> Result<Numbers, AllocError>
    ensures { IfOk result (λ ns. ns ≡ numbers_of count width bits.now) }
{
    let mut numbers = Numbers::new(alloc);
    let mut rest = bits;
    for _ in 0..count {
        let number = number_of(front(rest, width as usize))?;
        numbers.push(number)?;
        rest = behind(rest, width as usize);
    }
    Ok(numbers)
}

/// The first bits, so many of them or all.
fn front(bits: &[bool], count: usize) -> &[bool]
    ensures { result.now ≡ take count bits.now }
{
    if count < bits.len() {
        &bits[..count]
    } else {
        bits
    }
}

/// What stands behind the first bits.
fn behind(bits: &[bool], count: usize) -> &[bool]
    ensures { result.now ≡ drop count bits.now }
{
    if count < bits.len() {
        &bits[count..]
    } else {
        &[]
    }
}

/// How many bits a value has.
fn size_of(shape: Shape) -> usize
    ensures { result ≡ shape_bits shape }
{
    match shape {
        Shape::Bit => 1,
        Shape::UInt(width) => width as usize,
        Shape::Int(width) => width as usize,
        Shape::Array(element, count) => width_of(element) as usize * count as usize,
    }
}

/// How many bits a value of one bit or one number has.
fn width_of(scalar: Scalar) -> u32
    ensures { result ≡ scalar_bits scalar }
{
    match scalar {
        Scalar::Bit => 1,
        Scalar::UInt(width) => width,
        Scalar::Int(width) => width,
    }
}
