// Sums, products and quotients of numbers, each rounded once.
ghost use Rattle.std.specs.Prelude.{◌≡◌, ◌≢◌, ◌<◌, ◌≤◌, ◌^◌, pos, ◌+ℤ◌, ◌-ℤ◌, ◌<ℤ◌, ◌≤ℤ◌, unsigned_abs};
ghost use Rattle.fix_math.specs.Numbers.{rnd, quotient, product_of};
ghost use Rattle.fix_math.specs.Outcomes.{in_range, divided};

use crate::fix::{Fix, NumFault};

/// The quotient, rounded to the nearest whole number, halves up.
#[inline]
pub fn rounded(dividend: i128, divisor: i128) -> i128
    requires dividend_small { unsigned_abs dividend ≤ 2 ^ 125 }
    requires divisor_positive { pos 0 <ℤ divisor }
    requires divisor_small { unsigned_abs divisor < 2 ^ 125 }
    ensures value { result ≡ rnd dividend divisor }
{
    (dividend + dividend + divisor).div_euclid(divisor + divisor)
}

/// The quotient by 2^bits, rounded to the nearest whole number, halves up.
#[inline]
pub fn rounded_shift(value: i128, bits: u32) -> i128
    requires value_small { unsigned_abs value < 2 ^ 126 }
    requires bits_small { bits ≤ 100 }
    ensures value { result ≡ rnd value (pos (2 ^ bits)) }
{
    if bits == 0 {
        value
    } else {
        (value + power_of_two(bits - 1)) >> bits
    }
}

#[inline]
fn power_of_two(bits: u32) -> i128
    requires { bits ≤ 100 }
    ensures value { result ≡ pos (2 ^ bits) }
    ensures small { 2 ^ bits ≤ 2 ^ 100 }
{
    1 << bits
}

/// The quotient by a divisor of either sign, rounded once: a negative divisor and the dividend
/// are negated first.
#[inline]
pub fn rounded_quotient(dividend: i128, divisor: i128) -> i128
    requires dividend_small { unsigned_abs dividend ≤ 2 ^ 125 }
    requires divisor_some { divisor ≢ pos 0 }
    requires divisor_small { unsigned_abs divisor < 2 ^ 125 }
    ensures value { result ≡ quotient dividend divisor }
{
    if divisor < 0 {
        rounded(-dividend, -divisor)
    } else {
        rounded(dividend, divisor)
    }
}

/// The sum.
#[inline]
pub fn add(a: Fix, b: Fix) -> Result<Fix, NumFault>
    ensures value { result ≡ in_range (a +ℤ b) }
{
    Fix::from_raw(a.wide() + b.wide())
}

/// The difference.
#[inline]
pub fn sub(a: Fix, b: Fix) -> Result<Fix, NumFault>
    ensures value { result ≡ in_range (a -ℤ b) }
{
    Fix::from_raw(a.wide() - b.wide())
}

/// The product, rounded to 16 fraction bits.
#[inline]
pub fn mul(a: Fix, b: Fix) -> Result<Fix, NumFault>
    ensures value { result ≡ in_range (product_of a b) }
{
    Fix::from_raw(rounded(a.wide() * b.wide(), 65536))
}

/// The quotient, rounded to 16 fraction bits.
#[inline]
pub fn div(a: Fix, b: Fix) -> Result<Fix, NumFault>
    ensures value { result ≡ divided a b }
{
    if b.raw() == 0 {
        return Err(NumFault::ZeroDivisor);
    }
    Fix::from_raw(rounded_quotient(a.wide() * 65536, b.wide()))
}
