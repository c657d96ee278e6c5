// Products and lengths of vectors, exactly, and what rounds them once.
ghost use Rattle.std.specs.Prelude.{◌≡◌, ◌<◌, ◌≤◌, ◌^◌, ◌+ℤ◌, ◌-ℤ◌, ◌*ℤ◌, unsigned_abs};
ghost use Rattle.fix_math.specs.Matrices.{component, along, row_of, image, IsRowWithin};
ghost use Rattle.fix_math.specs.Numbers.{shortened};
ghost use Rattle.fix_math.specs.Vectors.{
  dot,
  cross,
  dot_of,
  cross_of,
  length_of,
  rounded_dot_of,
  rounded_cross_of,
};

use crate::arithmetic::rounded_shift;
use crate::fix::V3;
use crate::roots::isqrt;

/// A matrix of three rows and three columns, row by row.
pub type Rows = [[i64; 3]; 3];

/// The raw numbers of a vector.
#[inline]
pub fn raws(v: &V3) -> [i64; 3]
    ensures value { result ≡ row_of (along v.now) }
    ensures small { IsRowWithin (2 ^ 47) result }
{
    [v.x.raw(), v.y.raw(), v.z.raw()]
}

/// The dot product of two rows, exactly. The first one is small.
#[inline]
pub fn row_dot(a: &[i64; 3], b: &[i64; 3]) -> i128
    requires { IsRowWithin (2 ^ 60) a.now }
    ensures value { result ≡ dot (component a.now) (component b.now) }
    ensures small { unsigned_abs result < 2 ^ 125 }
{
    sum(
        product(a[0], b[0]),
        product(a[1], b[1]),
        product(a[2], b[2]),
    )
}

/// The cross product of two rows, exactly. The first one is small.
#[inline]
pub fn row_cross(a: &[i64; 3], b: &[i64; 3]) -> [i128; 3]
    requires { IsRowWithin (2 ^ 60) a.now }
    ensures { result ≡ row_of (cross (component a.now) (component b.now)) }
{
    [
        minor(a[1], b[2], a[2], b[1]),
        minor(a[2], b[0], a[0], b[2]),
        minor(a[0], b[1], a[1], b[0]),
    ]
}

// a b - c d
#[inline]
fn minor(a: i64, b: i64, c: i64, d: i64) -> i128
    requires a_small { unsigned_abs a ≤ 2 ^ 60 }
    requires c_small { unsigned_abs c ≤ 2 ^ 60 }
    ensures { result ≡ a *ℤ b -ℤ c *ℤ d }
{
    difference(product(a, b), product(c, d))
}

#[inline]
fn product(a: i64, b: i64) -> i128
    requires { unsigned_abs a ≤ 2 ^ 60 }
    ensures value { result ≡ a *ℤ b }
    ensures small { unsigned_abs result ≤ 2 ^ 123 }
{
    a as i128 * b as i128
}

#[inline]
fn sum(a: i128, b: i128, c: i128) -> i128
    requires a_small { unsigned_abs a ≤ 2 ^ 123 }
    requires b_small { unsigned_abs b ≤ 2 ^ 123 }
    requires c_small { unsigned_abs c ≤ 2 ^ 123 }
    ensures value { result ≡ a +ℤ b +ℤ c }
    ensures small { unsigned_abs result < 2 ^ 125 }
{
    a + b + c
}

#[inline]
fn difference(a: i128, b: i128) -> i128
    requires a_small { unsigned_abs a ≤ 2 ^ 123 }
    requires b_small { unsigned_abs b ≤ 2 ^ 123 }
    ensures { result ≡ a -ℤ b }
{
    a - b
}

/// The dot product, exactly: it has 32 fraction bits.
#[inline]
pub fn dot(v: &V3, w: &V3) -> i128
    ensures value { result ≡ dot_of v.now w.now }
    ensures small { unsigned_abs result < 2 ^ 96 }
{
    row_dot(&raws(v), &raws(w))
}

/// The cross product, exactly: its components x, y and z have 32 fraction bits.
#[inline]
pub fn cross(v: &V3, w: &V3) -> [i128; 3]
    ensures value { result ≡ row_of (along (cross_of v.now w.now)) }
    ensures small { IsRowWithin (2 ^ 95) result }
{
    row_cross(&raws(v), &raws(w))
}

/// The floor of the length, as a raw number.
#[inline]
pub fn length(v: &V3) -> u64
    ensures value { result ≡ length_of v.now }
    ensures small { result < 2 ^ 48 }
{
    isqrt(dot(v, v).unsigned_abs())
}

/// The dot product, rounded to 16 fraction bits: it may be larger than a raw number.
#[inline]
pub fn rounded_dot(v: &V3, w: &V3) -> i128
    ensures { result ≡ rounded_dot_of v.now w.now }
{
    rounded_shift(dot(v, w), 16)
}

/// The cross product, each component rounded to 16 fraction bits: they may be larger than raw
/// numbers.
#[inline]
pub fn rounded_cross(v: &V3, w: &V3) -> [i128; 3]
    ensures { result ≡ row_of (along (rounded_cross_of v.now w.now)) }
{
    let [x, y, z] = cross(v, w);
    [
        rounded_shift(x, 16),
        rounded_shift(y, 16),
        rounded_shift(z, 16),
    ]
}

/// The image of a vector by a matrix whose entries have so many fraction bits, each component
/// rounded once to a raw number, or to one that is larger.
#[inline]
pub fn rounded_image(m: &Rows, v: &V3, bits: u32) -> [i128; 3]
    requires { bits ≤ 48 }
    ensures value { result ≡ row_of (λ i. shortened (image m.now v.now i) bits) }
    ensures small { IsRowWithin (2 ^ 125) result }
{
    let v = raws(v);
    [
        rounded_part(&v, &m[0], bits),
        rounded_part(&v, &m[1], bits),
        rounded_part(&v, &m[2], bits),
    ]
}

#[inline]
fn rounded_part(v: &[i64; 3], row: &[i64; 3], bits: u32) -> i128
    requires small { IsRowWithin (2 ^ 47) v.now }
    requires few { bits ≤ 48 }
    ensures value { result ≡ shortened (dot (component row.now) (component v.now)) bits }
    ensures small { unsigned_abs result ≤ 2 ^ 125 }
{
    rounded_shift(row_dot(v, row), bits)
}
