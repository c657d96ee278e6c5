// Products with 16 fraction bits, each with what it needs and leaves of room.
ghost use Rattle.std.specs.Prelude.{◌≡◌, ◌+◌, ◌≤◌, ◌^◌, pos, ◌-ℤ◌, ◌≤ℤ◌, ◌*ℤ◌, unsigned_abs};
ghost use Rattle.fix_math.specs.Numbers.{rnd, product_of};
ghost use Rattle.scene_model.specs.Amounts.{IsAmount};

use fix_math::{Fix, rounded_shift};

/// A share of a number: it isn't larger.
#[inline(always)]
pub fn share(part: Fix, whole: Fix) -> Fix
    requires part { IsAmount 65536 part }
    requires whole { pos 0 ≤ℤ whole }
    ensures value { result ≡ product_of part whole }
    ensures turned { result ≡ product_of whole part }
    ensures some { pos 0 ≤ℤ result }
    ensures small { unsigned_abs result ≤ unsigned_abs whole }
{
    Fix::from_known(rounded_shift(part.wide() * whole.wide(), 16))
}

/// A colour by a factor up to 2.
#[inline(always)]
pub fn doubled(colour: Fix, factor: Fix) -> Fix
    requires colour { IsAmount (2 ^ 24) colour }
    requires factor { IsAmount (2 ^ 17) factor }
    ensures value { result ≡ product_of colour factor }
    ensures amount { IsAmount (2 ^ 25) result }
{
    Fix::from_known(rounded_shift(colour.wide() * factor.wide(), 16))
}

/// Light by a colour.
#[inline(always)]
pub fn tinted(light: Fix, colour: Fix) -> Fix
    requires light { IsAmount (2 ^ 25) light }
    requires colour { IsAmount (2 ^ 24) colour }
    ensures value { result ≡ product_of light colour }
    ensures amount { IsAmount (2 ^ 33) result }
{
    Fix::from_known(rounded_shift(light.wide() * colour.wide(), 16))
}

/// The same, by one more factor.
#[inline(always)]
pub fn strengthened(light: Fix, factor: Fix) -> Fix
    requires light { IsAmount (2 ^ 33) light }
    requires factor { IsAmount (2 ^ 24) factor }
    ensures value { result ≡ product_of light factor }
    ensures amount { IsAmount (2 ^ 41) result }
{
    Fix::from_known(rounded_shift(light.wide() * factor.wide(), 16))
}

/// The same, by a cosine.
#[inline(always)]
pub fn slanting(light: Fix, cosine: Fix) -> Fix
    requires light { IsAmount (2 ^ 41) light }
    requires cosine { IsAmount (2 ^ 18) cosine }
    ensures value { result ≡ product_of light cosine }
    ensures amount { IsAmount (2 ^ 43) result }
{
    Fix::from_known(rounded_shift(light.wide() * cosine.wide(), 16))
}

/// The product of numbers of any sign, of at most 16 units.
#[inline(always)]
pub fn small_product(a: i64, b: i64) -> i64
    requires a_small { unsigned_abs a ≤ 2 ^ 20 }
    requires b_small { unsigned_abs b ≤ 2 ^ 20 }
    ensures value { result ≡ product_of a b }
    ensures small { unsigned_abs result ≤ 2 ^ 24 }
{
    rounded_product(a, b) as i64
}

/// The product of numbers of any sign, of at most 16,384 units.
#[inline(always)]
pub fn short_product(a: i64, b: i64) -> i64
    requires a_small { unsigned_abs a ≤ 2 ^ 30 }
    requires b_small { unsigned_abs b ≤ 2 ^ 30 }
    ensures value { result ≡ product_of a b }
    ensures small { unsigned_abs result ≤ 2 ^ 44 }
{
    rounded_product(a, b) as i64
}

/// The product of a light's sum and a share of it.
#[inline(always)]
pub fn shared_sum(part: Fix, whole: i64) -> i64
    requires part { IsAmount 65536 part }
    requires whole { IsAmount (2 ^ 52) whole }
    ensures value { result ≡ product_of part whole }
    ensures amount { IsAmount (2 ^ 52) result }
{
    rounded_product(whole, part.raw()) as i64
}

/// The product of a long number and a short one, which may be longer.
#[inline(always)]
pub fn rounded_product(a: i64, b: i64) -> i128
    requires a_small { unsigned_abs a ≤ 2 ^ 52 }
    requires b_small { unsigned_abs b ≤ 2 ^ 30 }
    ensures { result ≡ product_of a b }
{
    rounded_shift(long_product(a, b), 16)
}

/// The product, exactly.
#[inline(always)]
pub fn long_product(a: i64, b: i64) -> i128
    requires a_small { unsigned_abs a ≤ 2 ^ 52 }
    requires b_small { unsigned_abs b ≤ 2 ^ 30 }
    ensures value { result ≡ a *ℤ b }
    ensures small { unsigned_abs result ≤ 2 ^ 82 }
{
    a as i128 * b as i128
}

/// The quotient, rounded to the nearest whole number, halves up.
#[inline(always)]
pub fn short_quotient(dividend: i64, divisor: i64) -> i64
    requires dividend_small { unsigned_abs dividend ≤ 2 ^ 60 }
    requires divisor_some { pos 1 ≤ℤ divisor }
    requires divisor_small { unsigned_abs divisor ≤ 2 ^ 60 }
    ensures { result ≡ rnd dividend divisor }
{
    (dividend + dividend + divisor).div_euclid(divisor + divisor)
}

/// The difference of two numbers.
#[inline(always)]
pub fn less(a: Fix, b: Fix) -> Fix
    requires a_small { unsigned_abs a ≤ 2 ^ 45 }
    requires b_small { unsigned_abs b ≤ 2 ^ 45 }
    ensures value { result ≡ a -ℤ b }
    ensures small { unsigned_abs result ≤ unsigned_abs a + unsigned_abs b }
{
    Fix(a.raw() - b.raw())
}
