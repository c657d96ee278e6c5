// The calls of numbers. (Reference manual, float functions)
ghost use Rattle.std.specs.Prelude.{◌≡◌, ◌≢◌, ◌<◌, ◌≤◌, ◌^◌, pos, int_div, unsigned_abs, Ok};
ghost use Rattle.fix_math.specs.Roots.{root};
ghost use Rattle.scene_expr.specs.Numbers.{
  size_of,
  floor_of,
  ceil_of,
  cut,
  root_of,
  degrees_of,
  radians_of,
  narrowed,
  sine,
  cosine,
  tangent,
  whole_quotient,
  remainder,
  natural_of,
  power_to,
};

use fix_math::{Fix, NumFault, div, isqrt, power, rounded, sincos};

const ONE: i64 = 65536;

/// The number without its sign.
pub fn size(a: Fix) -> Fix
    ensures { Ok result ≡ size_of a }
{
    if a.raw() < 0 { a.negated() } else { a }
}

/// The greatest whole number that isn't greater, in raw.
pub fn floor(a: Fix) -> i128
    ensures { result ≡ floor_of a }
{
    (a.raw().div_euclid(ONE) * ONE) as i128
}

/// The least whole number that isn't less, in raw.
pub fn ceil(a: Fix) -> i128
    ensures { result ≡ ceil_of a }
{
    -floor(a.negated())
}

/// The number cut towards 0 to a whole one.
pub fn cut(a: Fix) -> Fix
    ensures { result ≡ cut a }
{
    Fix(a.raw() / ONE * ONE)
}

fn raw_size(a: Fix) -> u64
    ensures value { result ≡ unsigned_abs a }
    ensures small { result < 2 ^ 47 }
{
    a.raw().unsigned_abs()
}

/// The square root, cut to 16 fraction bits.
pub fn root(a: Fix) -> Result<Fix, NumFault>
    ensures { result ≡ root_of a }
{
    if a.raw() < 0 {
        return Err(NumFault::Range);
    }
    Ok(Fix(short_root(raw_size(a) * 65536) as i64))
}

fn short_root(n: u64) -> u64
    ensures value { result ≡ root n }
    ensures small { result < 2 ^ 32 }
{
    isqrt(n as u128)
}

// Pi with 15 decimals, and half a turn in degrees with as many.
const PI: i128 = 3_141_592_653_589_793;

const HALF_TURN: i128 = 180_000_000_000_000_000;

/// Radians as degrees.
pub fn degrees(a: Fix) -> Result<Fix, NumFault>
    ensures { result ≡ degrees_of a }
{
    Fix::from_raw(rounded(a.wide() * HALF_TURN, PI))
}

/// Degrees as radians.
pub fn radians(a: Fix) -> Result<Fix, NumFault>
    ensures { result ≡ radians_of a }
{
    Fix::from_raw(rounded(a.wide() * PI, HALF_TURN))
}

/// The sine of an angle in radians.
pub fn sine(a: Fix) -> Result<Fix, NumFault>
    ensures { result ≡ sine a }
{
    let deg = degrees(a)?;
    let (sine, _) = sincos(deg);
    Ok(narrowed(sine))
}

/// The cosine of an angle in radians.
pub fn cosine(a: Fix) -> Result<Fix, NumFault>
    ensures { result ≡ cosine a }
{
    let deg = degrees(a)?;
    let (_, cosine) = sincos(deg);
    Ok(narrowed(cosine))
}

/// The tangent of an angle in radians: the quotient of its sine and its cosine.
pub fn tangent(a: Fix) -> Result<Fix, NumFault>
    ensures { result ≡ tangent a }
{
    let deg = degrees(a)?;
    let (sine, cosine) = sincos(deg);
    div(narrowed(sine), narrowed(cosine))
}

// A sine or cosine with 32 fraction bits, rounded to 16.
fn narrowed(share: i64) -> Fix
    requires { unsigned_abs share ≤ 2 ^ 32 }
    ensures { result ≡ narrowed share }
{
    Fix::from_known(rounded(share as i128, 65536))
}

/// The whole part of the quotient, cut towards 0.
pub fn whole_quotient(a: Fix, b: Fix) -> Result<Fix, NumFault>
    ensures { result ≡ whole_quotient a b }
{
    if b.raw() == 0 {
        return Err(NumFault::ZeroDivisor);
    }
    Fix::from_raw(whole_part(a, b) * 65536)
}

fn whole_part(a: Fix, b: Fix) -> i128
    requires { b ≢ pos 0 }
    ensures value { result ≡ int_div a b }
    ensures small { unsigned_abs result < 2 ^ 47 }
{
    (a.raw() / b.raw()) as i128
}

/// What the whole part of the quotient leaves, with the sign of a.
pub fn remainder(a: Fix, b: Fix) -> Result<Fix, NumFault>
    ensures { result ≡ remainder a b }
{
    if b.raw() == 0 {
        return Err(NumFault::ZeroDivisor);
    }
    Ok(Fix(a.raw() % b.raw()))
}

/// The natural that a value is, where it is one and not too great.
pub fn natural(most: u32, a: Fix) -> Option<u32>
    ensures { result ≡ natural_of most a }
{
    let size = raw_size(a);
    if a.raw() >= 0 && size % 65536 == 0 && size / 65536 <= most as u64 {
        Some((size / 65536) as u32)
    } else {
        None
    }
}

/// The power with a natural exponent.
pub fn power_to(x: Fix, n: Fix) -> Result<Fix, NumFault>
    ensures { result ≡ power_to x n }
{
    match natural(65535, n) {
        Some(n) => power(x, n),
        None => Err(NumFault::Range),
    }
}
