//! Numbers of types: a number of n bits is the number from 0 to 2^n - 1 that is equal to it modulo 2^n.
//!
//! `AllocError` says that a word of 64 bits has no room for the number.

ghost use Rattle.std.specs.Prelude.{◌≡◌, ◌+◌, ◌-◌, ◌*◌, ◌%◌, ◌^◌, ◌<◌, ◌≤◌, IfOk, int_lt};
ghost use Rattle.silq_run.specs.Ordered.{order_place as order_place_of};
ghost use Rattle.silq_types.specs.Types.{scalar_bits};
ghost use Rattle.silq_mean.specs.Value.{modulus, modulo, by_type, exclusive_or as exclusive_or_of, digit as digit_of, with_digit as number_with_digit};

use silq_types::Scalar;
use std::alloc::AllocError;

/// 2^n for numbers of n bits.
fn modulus(scalar: Scalar) -> Result<u128, AllocError>
    ensures value { IfOk result (λ m. m ≡ modulus scalar) }
    ensures some { IfOk result (λ m. 0 < m) }
    ensures room { IfOk result (λ m. m ≤ 2 ^ 64) }
    ensures width { IfOk result (λ _. scalar_bits scalar ≤ 64) }
{
    let bits = scalar.bits();
    if bits > 64 {
        return Err(AllocError);
    }
    Ok(1u128 << bits)
}

/// The number of a type that is equal to a whole number.
pub(crate) fn typed(scalar: Scalar, number: i64) -> Result<u64, AllocError>
    ensures { IfOk result (λ a. a ≡ modulo number (modulus scalar)) }
{
    let m = modulus(scalar)?;
    let size = u128::from(number.unsigned_abs());
    if number < 0 {
        return Ok((m - 1 - (size - 1) % m) as u64);
    }
    Ok((size % m) as u64)
}

/// Where a number stands in the order of its type.
fn order_place(scalar: Scalar, a: u64) -> Result<u128, AllocError>
    ensures { IfOk result (λ n. n ≡ order_place_of scalar a) }
{
    let Scalar::Int(width) = scalar else {
        return Ok(u128::from(a));
    };
    let m = modulus(scalar)?;
    let half = 1u128 << width.saturating_sub(1);
    if u128::from(a) < half {
        return Ok(u128::from(a) + m);
    }
    Ok(u128::from(a))
}

/// Whether the first number is below the second, in two's complement for `int`.
pub(crate) fn is_less(scalar: Scalar, a: u64, b: u64) -> Result<bool, AllocError>
    ensures { IfOk result (λ less. less ≡ int_lt (by_type scalar a) (by_type scalar b)) }
{
    let first = order_place(scalar, a)?;
    let second = order_place(scalar, b)?;
    Ok(first < second)
}

/// The number's negative.
pub(crate) fn negative(scalar: Scalar, a: u64) -> Result<u64, AllocError>
    ensures { IfOk result (λ c. c ≡ (modulus scalar - a) % modulus scalar) }
{
    let m = modulus(scalar)?;
    Ok((m.saturating_sub(u128::from(a)) % m) as u64)
}

/// The sum.
pub(crate) fn sum(scalar: Scalar, a: u64, b: u64) -> Result<u64, AllocError>
    ensures { IfOk result (λ c. c ≡ (a + b) % modulus scalar) }
{
    let m = modulus(scalar)?;
    Ok(((u128::from(a) + u128::from(b)) % m) as u64)
}

/// The difference.
pub(crate) fn difference(scalar: Scalar, a: u64, b: u64) -> Result<u64, AllocError>
    ensures { IfOk result (λ c. c ≡ (a + (modulus scalar - b)) % modulus scalar) }
{
    let m = modulus(scalar)?;
    let negative = m.saturating_sub(u128::from(b));
    Ok(((u128::from(a) + negative) % m) as u64)
}

/// The product.
pub(crate) fn product(scalar: Scalar, a: u64, b: u64) -> Result<u64, AllocError>
    ensures { IfOk result (λ c. c ≡ (a * b) % modulus scalar) }
{
    let m = modulus(scalar)?;
    Ok((u128::from(a) * u128::from(b) % m) as u64)
}

/// The exclusive or of the low bits.
pub(crate) fn exclusive_or(scalar: Scalar, a: u64, b: u64) -> Result<u64, AllocError>
    ensures { IfOk result (λ c. c ≡ exclusive_or_of (scalar_bits scalar) a b) }
{
    let m = modulus(scalar)?;
    Ok((u128::from(a ^ b) % m) as u64)
}

/// A binary digit.
pub(crate) fn digit(place: u64, a: u64) -> u64
    ensures { result ≡ digit_of place a }
{
    if place >= 64 {
        return 0;
    }
    a / (1 << place) % 2
}

/// The number with a binary digit set to another number.
pub(crate) fn with_digit(place: u64, a: u64, b: u64) -> Result<u64, AllocError>
    ensures { IfOk result (λ c. c ≡ number_with_digit place a b) }
{
    if place >= 64 || b > 1 {
        return Err(AllocError);
    }
    let one: u64 = 1 << place;
    if digit(place, a) == b {
        return Ok(a);
    }
    if b == 1 {
        return a.checked_add(one).ok_or(AllocError);
    }
    Ok(a.saturating_sub(one))
}
