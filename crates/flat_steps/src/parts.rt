//! Parts of values.

ghost use Rattle.std.specs.Prelude.{◌≡◌, ◌<◌, ◌≤◌, ◌+◌, ◌^◌, ℤ, [], ◌∷◌, length, drop};
ghost use Rattle.silq_types.specs.Types.{scalar_bits, shape_bits};
ghost use Rattle.flat_form.specs.State.{part_shape, bit_start, part_start, part_of};

use crate::typed::single_shape;
use bit_arith::Operand;
use silq_types::{Scalar, Shape};

/// What the part to which indices lead is made of: an index of an array gives an item, an index of a number a bit.
pub(crate) fn part_shape(shape: Shape, indices: &[i64]) -> Shape
    ensures { result ≡ part_shape shape indices.now }
{
    match indices {
        [] => shape,
        [_] => item_shape(shape),
        _ => Shape::Bit,
    }
}

/// The operands of the part to which indices lead.
pub(crate) fn part_of<'a>(shape: Shape, indices: &[i64], operands: &'a [Operand]) -> &'a [Operand]
    requires { part_start shape indices.now + shape_bits (part_shape shape indices.now) ≤ length operands.now }
    ensures { result.now ≡ part_of shape indices.now operands.now }
{
    let start = part_start(shape, indices);
    &operands[start..start + bits(part_shape(shape, indices))]
}

// What an item of an array is made of, and a bit of a number.
fn item_shape(shape: Shape) -> Shape
    ensures { (i : ℤ) → result ≡ part_shape shape (i ∷ []) }
{
    match shape {
        Shape::Bit => Shape::Bit,
        Shape::UInt(_) => Shape::Bit,
        Shape::Int(_) => Shape::Bit,
        Shape::Array(element, _) => single_shape(element),
    }
}

// The place of a part's first bit.
pub(crate) fn part_start(shape: Shape, indices: &[i64]) -> usize
    requires { part_start shape indices.now < 2 ^ 64 }
    ensures { result ≡ part_start shape indices.now }
{
    match shape {
        Shape::Bit => index_at(indices, 0),
        Shape::UInt(_) => index_at(indices, 0),
        Shape::Int(_) => index_at(indices, 0),
        Shape::Array(element, _) => {
            index_at(indices, 0) * scalar_bits(element) as usize + index_at(indices, 1)
        }
    }
}

// The index at a place, 0 where there is none.
fn index_at(indices: &[i64], place: usize) -> usize
    ensures { result ≡ bit_start (drop place indices.now) }
{
    match indices.get(place) {
        Some(index) => index.unsigned_abs() as usize,
        None => 0,
    }
}

/// How many bits a value has.
pub(crate) fn bits(shape: Shape) -> usize
    ensures { result ≡ shape_bits shape }
{
    match shape {
        Shape::Bit => 1,
        Shape::UInt(width) => width as usize,
        Shape::Int(width) => width as usize,
        Shape::Array(element, length) => scalar_bits(element) as usize * length as usize,
    }
}

// How many bits a value of one bit or one number has.
fn scalar_bits(scalar: Scalar) -> u32
    ensures { result ≡ scalar_bits scalar }
{
    match scalar {
        Scalar::Bit => 1,
        Scalar::UInt(width) => width,
        Scalar::Int(width) => width,
    }
}
