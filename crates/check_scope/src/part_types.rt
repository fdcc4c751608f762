//! The types of parts.

ghost use Rattle.std.specs.Prelude.{◌≡◌, ◌∷◌};
ghost use Rattle.silq_types.specs.Types.{single_shape as single_shape_of};
ghost use Rattle.check_scope.specs.Context.{listed, indices, is_below as below_of, bit_at as bit_at_of, scalar_part as scalar_part_of, part_type as part_type_of};

use silq_types::{Part, Scalar, Shape, Ty};

/// Whether an index is 0 to n - 1.
fn is_below(i: i64, n: u32) -> bool
    ensures { result ≡ below_of i n }
{
    0 <= i && i < n as i64
}

/// The type of a bit of a number with so many bits, which has no parts.
fn bit_at(classical: bool, n: u32, i: i64, next: Option<i64>) -> Option<Ty>
    ensures { result ≡ bit_at_of classical n i (listed next) }
{
    if !is_below(i, n) {
        return None;
    }
    match next {
        None => Some(Ty {
            classical,
            shape: Shape::Bit,
        }),
        Some(_) => None,
    }
}

/// The type with the shape of a scalar.
pub(crate) fn single_shape(scalar: Scalar) -> Shape
    ensures { result ≡ single_shape_of scalar }
{
    match scalar {
        Scalar::Bit => Shape::Bit,
        Scalar::UInt(n) => Shape::UInt(n),
        Scalar::Int(n) => Shape::Int(n),
    }
}

/// The type of a scalar, or of its bit with an index.
fn scalar_part(classical: bool, scalar: Scalar, next: Option<i64>) -> Option<Ty>
    ensures { result ≡ scalar_part_of classical scalar (listed next) }
{
    match next {
        None => Some(Ty {
            classical,
            shape: single_shape(scalar),
        }),
        Some(i) => match scalar {
            Scalar::Bit => None,
            Scalar::UInt(n) => bit_at(classical, n, i, None),
            Scalar::Int(n) => bit_at(classical, n, i, None),
        },
    }
}

/// The type of the part with one index, or with one more behind it.
fn indexed(ty: Ty, i: i64, next: Option<i64>) -> Option<Ty>
    ensures { result ≡ part_type_of ty.classical ty.shape (i ∷ listed next) }
{
    match ty.shape {
        Shape::Bit => None,
        Shape::UInt(n) => bit_at(ty.classical, n, i, next),
        Shape::Int(n) => bit_at(ty.classical, n, i, next),
        Shape::Array(scalar, n) => {
            if !is_below(i, n) {
                return None;
            }
            scalar_part(ty.classical, scalar, next)
        }
    }
}

/// The type of a part of a value of a type, where its indices are in range.
pub fn part_type(ty: Ty, part: Part) -> Option<Ty>
    ensures { result ≡ part_type_of ty.classical ty.shape (indices part) }
{
    match part.first {
        None => match part.second {
            None => Some(ty),
            Some(i) => indexed(ty, i, None),
        },
        Some(i) => indexed(ty, i, part.second),
    }
}
