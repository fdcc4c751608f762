//! Fractions of pi.

ghost use Rattle.std.specs.Prelude.{◌≡◌, ◌<◌, ◌*◌, IfOk};
ghost use Rattle.std.specs.Int.{IsGcd};
ghost use Rattle.static_num.specs.Angle.{greatest_divisor, bounded, lowest, scaled, shrunk, eighths};

use crate::angles::AngleFault;
use crate::values::StaticFault;

/// A fraction of pi in lowest terms: its sign, its numerator and its denominator, which is above 0.
#[derive(Clone, Copy, PartialEq, Eq)]
pub struct Fraction {
    pub negative: bool,
    pub top: u64,
    pub bottom: u64,
}

/// The greatest common divisor.
fn common_divisor(a: u128, b: u128) -> u128
    ensures value { result ≡ greatest_divisor a b }
    ensures greatest { IsGcd a b result }
    ensures positive { 0 < b → 0 < result }
{
    let mut x = a;
    let mut y = b;
    'steps: while y != 0 {
        let rest = x % y;
        x = y;
        y = rest;
    }
    x
}

/// The fraction, where numerator and denominator are in the range of 64 bits with a sign.
fn fitting(negative: bool, top: u128, bottom: u128) -> Result<Fraction, StaticFault>
    ensures { result ≡ bounded negative top bottom }
{
    let most: u128 = if negative {
        9_223_372_036_854_775_808
    } else {
        9_223_372_036_854_775_807
    };
    if top > most || bottom > 9_223_372_036_854_775_807 {
        return Err(StaticFault::Overflow);
    }
    Ok(Fraction {
        negative,
        top: top as u64,
        bottom: bottom as u64,
    })
}

/// The fraction in lowest terms.
fn reduce(negative: bool, top: u128, bottom: u128) -> Result<Fraction, StaticFault>
    requires { 0 < bottom }
    ensures value { result ≡ lowest negative top bottom }
    ensures positive { IfOk result (λ f. 0 < f.bottom) }
{
    let divisor = common_divisor(top, bottom);
    fitting(negative, top / divisor, bottom / divisor)
}

/// A whole multiple of a fraction.
pub fn scale(f: Fraction, s: i64) -> Result<Fraction, StaticFault>
    requires { 0 < f.bottom }
    ensures value { result ≡ scaled f s }
    ensures positive { IfOk result (λ f. 0 < f.bottom) }
{
    let top = u128::from(f.top) * u128::from(s.unsigned_abs());
    reduce(f.negative != (s < 0), top, u128::from(f.bottom))
}

/// A fraction divided by a whole number.
pub fn shrink(f: Fraction, s: i64) -> Result<Fraction, StaticFault>
    requires { 0 < f.bottom }
    ensures value { result ≡ shrunk f s }
    ensures positive { IfOk result (λ f. 0 < f.bottom) }
{
    if s == 0 {
        return Err(StaticFault::ZeroDivisor);
    }
    let bottom = u128::from(f.bottom) * u128::from(s.unsigned_abs());
    reduce(f.negative != (s < 0), u128::from(f.top), bottom)
}

/// The eighths of a turn, 0 to 7.
pub fn eighths_at(f: Fraction) -> Result<u8, AngleFault>
    requires { 0 < f.bottom }
    ensures { result ≡ eighths f }
{
    let top = 4 * u128::from(f.top);
    let bottom = u128::from(f.bottom);
    if top % bottom != 0 {
        return Err(AngleFault::NotEighth);
    }
    let forward = (top / bottom % 8) as u8;
    if f.negative {
        Ok((8 - forward) % 8)
    } else {
        Ok(forward)
    }
}
