// Vectors of length 1 unit.
ghost use Rattle.std.specs.Prelude.{◌≡◌, ◌+◌, ◌*◌, ◌<◌, ◌≤◌, ◌^◌, unsigned_abs};
ghost use Rattle.fix_math.specs.Directions.{
  long_length_of,
  unit_of,
  greatest_of,
  widest_of,
  are_raw,
  excess_of,
  unit_wide_of,
};
ghost use Rattle.fix_math.specs.Matrices.{component};
ghost use Rattle.fix_math.specs.Numbers.{shortened, is_raw};

use crate::arithmetic::rounded_shift;
use crate::fix::{Fix, V3};
use crate::root_guess::RootGuess;
use crate::roots::root_with_reciprocal;
use crate::shares::Length;

// A vector's length with 16 fraction bits more than a raw number has: 0 for the zero vector alone.
fn long_length(v: &V3) -> RootGuess
    ensures value { result.root ≡ long_length_of v.now }
    ensures x_within { unsigned_abs v.now.x * 2 ^ 16 ≤ result.root }
    ensures y_within { unsigned_abs v.now.y * 2 ^ 16 ≤ result.root }
    ensures z_within { unsigned_abs v.now.z * 2 ^ 16 ≤ result.root }
    ensures short { result.root ≤ greatest_of v.now * 2 ^ 17 }
{
    root_with_reciprocal((square(v.x) + square(v.y) + square(v.z)) << 32)
}

fn square(number: Fix) -> u128
    ensures value { result ≡ unsigned_abs number * unsigned_abs number }
    ensures small { result < 2 ^ 94 }
{
    let size = number.wide().unsigned_abs();
    size * size
}

/// The vector of length 1 unit in the same direction; <0, 0, 1> for the zero vector.
pub fn unit(v: V3) -> V3
    ensures value { result ≡ unit_of v }
    ensures x_small { unsigned_abs result.x ≤ 65536 }
    ensures y_small { unsigned_abs result.y ≤ 65536 }
    ensures z_small { unsigned_abs result.z ≤ 65536 }
    ensures long { 32768 ≤ greatest_of result }
{
    let length = long_length(&v);
    if length.root == 0 {
        return V3 {
            x: Fix(0),
            y: Fix(0),
            z: Fix(65536),
        };
    }
    let length = Length::new(length);
    V3 {
        x: length.share(v.x),
        y: length.share(v.y),
        z: length.share(v.z),
    }
}

/// The vector of length 1 unit in the direction of a vector whose components are larger than a
/// raw number: the last bits of all three are rounded away, as few as need be.
pub fn unit_wide(v: [i128; 3]) -> V3
    requires x_wide { unsigned_abs (component v 0) < 2 ^ 126 }
    requires y_wide { unsigned_abs (component v 1) < 2 ^ 126 }
    requires z_wide { unsigned_abs (component v 2) < 2 ^ 126 }
    ensures value { result ≡ unit_wide_of v }
    ensures x_small { unsigned_abs result.x ≤ 65536 }
    ensures y_small { unsigned_abs result.y ≤ 65536 }
    ensures z_small { unsigned_abs result.z ≤ 65536 }
    ensures long { 32768 ≤ greatest_of result }
{
    let bits = excess(&v);
    unit(V3 {
        x: Fix::from_known(rounded_shift(v[0], bits)),
        y: Fix::from_known(rounded_shift(v[1], bits)),
        z: Fix::from_known(rounded_shift(v[2], bits)),
    })
}

// The least number of bits without which each component is a raw number.
fn excess(v: &[i128; 3]) -> u32
    requires x_wide { unsigned_abs (component v.now 0) < 2 ^ 126 }
    requires y_wide { unsigned_abs (component v.now 1) < 2 ^ 126 }
    requires z_wide { unsigned_abs (component v.now 2) < 2 ^ 126 }
    ensures value { result ≡ excess_of v.now }
    ensures small { result ≤ 80 }
    ensures x_raw { unsigned_abs (shortened (component v.now 0) result) < 2 ^ 47 }
    ensures y_raw { unsigned_abs (shortened (component v.now 1) result) < 2 ^ 47 }
    ensures z_raw { unsigned_abs (shortened (component v.now 2) result) < 2 ^ 47 }
{
    let bits = bits_over(widest(v));
    if are_short(v, bits) { bits } else { bits + 1 }
}

fn widest(v: &[i128; 3]) -> u128
    ensures { result ≡ widest_of v.now }
{
    v[0].unsigned_abs()
        .max(v[1].unsigned_abs())
        .max(v[2].unsigned_abs())
}

fn are_short(v: &[i128; 3], bits: u32) -> bool
    requires x_wide { unsigned_abs (component v.now 0) < 2 ^ 126 }
    requires y_wide { unsigned_abs (component v.now 1) < 2 ^ 126 }
    requires z_wide { unsigned_abs (component v.now 2) < 2 ^ 126 }
    requires bits_small { bits ≤ 80 }
    ensures { result ≡ are_raw v.now bits }
{
    is_short(v[0], bits) && is_short(v[1], bits) && is_short(v[2], bits)
}

fn is_short(component: i128, bits: u32) -> bool
    requires wide { unsigned_abs component < 2 ^ 126 }
    requires bits_small { bits ≤ 80 }
    ensures { result ≡ is_raw (shortened component bits) }
{
    rounded_shift(component, bits).unsigned_abs() < 1 << 47
}

// How many binary digits more than 47 a number has.
fn bits_over(greatest: u128) -> u32
    requires { greatest < 2 ^ 126 }
    ensures above { greatest < 2 ^ (47 + result) }
    ensures needed { 0 < result → 2 ^ (46 + result) ≤ greatest }
    ensures small { result ≤ 79 }
{
    (128 - greatest.leading_zeros()).saturating_sub(47)
}
