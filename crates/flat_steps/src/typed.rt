//! Numbers take types.

ghost use Rattle.std.specs.Prelude.{◌≡◌, IfOk, map, ◌^◌};
ghost use Rattle.silq_types.specs.Types.{single_shape as shape_of_single};
ghost use Rattle.silq_mean.specs.Value.{low_bits, modulo};
ghost use Rattle.flat_mean.specs.Row.{flipped};
ghost use Rattle.bit_arith.specs.declared.operand.Operand.TheVariants.{Const};
ghost use Rattle.flat_form.specs.State.{typed, typed_as, typed_like};
ghost use Rattle.flat_form.specs.Flat.{as_operand};

use bit_arith::Operand;
use flat_form::{Known, TypedBits};
use silq_types::{List, Scalar, Shape};
use std::alloc::{AllocError, Global};

/// A number with a type, as constants.
pub(crate) fn typed(
    alloc: Global,
    began: usize,
    scalar: Scalar,
    number: i64,
) -> Result<Known, AllocError>
    ensures { IfOk result (λ k. k ≡ typed began scalar number) }
{
    let operands = number_bits(alloc, scalar.bits(), number)?;
    Ok(Known::Shown(TypedBits {
        classical: false,
        shape: single_shape(scalar),
        operands,
        own: false,
        began,
    }))
}

/// A static value takes the type.
pub(crate) fn typed_as(
    alloc: Global,
    began: usize,
    shape: Shape,
    known: Known,
) -> Result<Known, AllocError>
    ensures { IfOk result (λ k. k ≡ typed_as began shape known) }
{
    let Known::Static(number) = known else {
        return Ok(known);
    };
    match shape {
        Shape::Bit => typed(alloc, began, Scalar::Bit, number),
        Shape::UInt(width) => typed(alloc, began, Scalar::UInt(width), number),
        Shape::Int(width) => typed(alloc, began, Scalar::Int(width), number),
        Shape::Array(_, _) => Ok(Known::Static(number)),
    }
}

/// A static value takes the type of the other.
pub(crate) fn typed_like(
    alloc: Global,
    began: usize,
    other: &Known,
    known: Known,
) -> Result<Known, AllocError>
    ensures { IfOk result (λ k. k ≡ typed_like began other.now known) }
{
    match other {
        Known::Shown(value) => typed_as(alloc, began, value.shape, known),
        _ => Ok(known),
    }
}

/// A static operand takes the type of the other, and counts as no quantum one.
pub(crate) fn as_operand(alloc: Global, other: &Known, known: Known) -> Result<Known, AllocError>
    ensures { IfOk result (λ k. k ≡ as_operand other.now known) }
{
    let Known::Static(number) = known else {
        return Ok(known);
    };
    let Known::Shown(value) = other else {
        return Ok(Known::Static(number));
    };
    match typed_as(alloc, 0, value.shape, Known::Static(number))? {
        Known::Shown(bits) => Ok(Known::Shown(TypedBits {
            classical: value.classical,
            ..bits
        })),
        untyped => Ok(untyped),
    }
}

/// What a single value is made of.
pub(crate) fn single_shape(scalar: Scalar) -> Shape
    ensures { result ≡ shape_of_single scalar }
{
    match scalar {
        Scalar::Bit => Shape::Bit,
        Scalar::UInt(width) => Shape::UInt(width),
        Scalar::Int(width) => Shape::Int(width),
    }
}

/// The low bits of a number in two's complement, as constants.
fn number_bits(alloc: Global, width: u64, number: i64) -> Result<List<Operand>, AllocError>
    ensures { IfOk result (λ ps. ps ≡ map (λ b. Const b) (low_bits width (modulo number (2 ^ width)))) }
{
    let size = number.unsigned_abs();
    if number < 0 {
        // The bits of a number below 0 are those of the number before its size, each the other one.
        return constants(alloc, width, size - 1, true);
    }
    constants(alloc, width, size, false)
}

/// The low bits of a number as constants, or each the other one.
fn constants(
    alloc: Global,
    width: u64,
    number: u64,
    others: bool,
) -> Result<List<Operand>, AllocError>
    ensures { IfOk result (λ ps. ps ≡ map (λ b. Const (flipped b others)) (low_bits width number)) }
{
    let mut operands = List::new(alloc);
    let mut rest = number;
    for _ in 0..width {
        let bit = other_where(others, rest % 2 == 1);
        operands.push(Operand::Const(bit))?;
        rest /= 2;
    }
    Ok(operands)
}

/// The bit, or the other one.
fn other_where(other: bool, bit: bool) -> bool
    ensures { result ≡ flipped bit other }
{
    if other { !bit } else { bit }
}
