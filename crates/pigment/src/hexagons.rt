// Cells of hexagons.
ghost use Rattle.std.specs.Prelude.{◌≡◌, ◌+◌, ◌≤◌, ◌<◌, ◌^◌, pos, ◌+ℤ◌, ◌-ℤ◌, ◌*ℤ◌, unsigned_abs, nat_le, max};
ghost use Rattle.std.specs.Ordering.{int_eq};
ghost use Rattle.fix_math.specs.Matrices.{IsVectorWithin, IsRowWithin, row_of, along};
ghost use Rattle.fix_math.specs.Numbers.{rnd};
ghost use Rattle.pigment.specs.Cells.{across, nearest, error, first_less_second, hexagon_place};

use fix_math::{Fix, V3, rounded_shift};

/// The root of 1/3.
const ROOT: i128 = 37837;

/// How far hexagons are from each other along each direction.
const DISTANCE: i64 = 196608;

/// Where a point lies along a direction: the number of the nearest hexagon, and how far off its middle is.
#[derive(Clone, Copy)]
struct Near {
    number: i64,
    error: u64,
    ghost small: { unsigned_abs number ≤ 2 ^ 30 },
}

/// Which of three colours hexagons show.
pub fn hexagon_place(q: &V3) -> usize
    requires small { IsVectorWithin (2 ^ 43) q.now }
    ensures value { result ≡ hexagon_place q.now }
    ensures few { result < 3 }
{
    let [first, second, third] = across(q);
    let number = first_less_second(nearest(first), nearest(second), nearest(third));
    number.rem_euclid(3) as usize
}

#[inline]
fn across(q: &V3) -> [i64; 3]
    requires small { IsVectorWithin (2 ^ 43) q.now }
    ensures value { result ≡ row_of (along (across q.now)) }
    ensures small { IsRowWithin (2 ^ 46) result }
{
    let (x, three) = (q.x.raw(), three_heights(q.z));
    [twice(x), less(three, x), less(opposite(x), three)]
}

#[inline]
fn twice(number: i64) -> i64
    requires { unsigned_abs number ≤ 2 ^ 43 }
    ensures value { result ≡ pos 2 *ℤ number }
    ensures small { unsigned_abs result ≤ 2 ^ 44 }
{
    2 * number
}

#[inline]
fn opposite(number: i64) -> i64
    requires { unsigned_abs number ≤ 2 ^ 46 }
    ensures value { result ≡ pos 0 -ℤ number }
    ensures small { unsigned_abs result ≡ unsigned_abs number }
{
    -number
}

#[inline]
fn less(a: i64, b: i64) -> i64
    requires a_small { unsigned_abs a ≤ 2 ^ 47 }
    requires b_small { unsigned_abs b ≤ 2 ^ 47 }
    ensures value { result ≡ a -ℤ b }
    ensures small { unsigned_abs result ≤ unsigned_abs a + unsigned_abs b }
{
    a - b
}

#[inline]
fn sum(a: i64, b: i64) -> i64
    requires a_small { unsigned_abs a ≤ 2 ^ 47 }
    requires b_small { unsigned_abs b ≤ 2 ^ 47 }
    ensures value { result ≡ a +ℤ b }
    ensures small { unsigned_abs result ≤ unsigned_abs a + unsigned_abs b }
{
    a + b
}

#[inline]
fn three_heights(z: Fix) -> i64
    requires { unsigned_abs z ≤ 2 ^ 43 }
    ensures value { result ≡ pos 3 *ℤ rnd (z *ℤ pos 37837) (pos 65536) }
    ensures small { unsigned_abs result ≤ 2 ^ 45 }
{
    3 * height(z)
}

#[inline]
fn height(z: Fix) -> i64
    requires { unsigned_abs z ≤ 2 ^ 43 }
    ensures value { result ≡ rnd (z *ℤ pos 37837) (pos 65536) }
    ensures small { unsigned_abs result ≤ 2 ^ 43 }
{
    rounded_shift(z.wide() * ROOT, 16) as i64
}

#[inline]
fn nearest(along: i64) -> Near
    requires { unsigned_abs along ≤ 2 ^ 46 }
    ensures number { result.number ≡ nearest along }
    ensures error { result.error ≡ error along }
{
    let number = (along + along + DISTANCE).div_euclid(2 * DISTANCE);
    Near {
        number,
        error: distance(along, number),
    }
}

/// How far it is from a number to a multiple.
#[inline]
fn distance(along: i64, number: i64) -> u64
    requires along_small { unsigned_abs along ≤ 2 ^ 46 }
    requires number_small { unsigned_abs number ≤ 2 ^ 30 }
    ensures { result ≡ unsigned_abs (along -ℤ number *ℤ pos 196608) }
{
    (along - number * DISTANCE).unsigned_abs()
}

/// The first number less the second, where the one that is off most gives way to the other two.
fn first_less_second(first: Near, second: Near, third: Near) -> i64
    ensures { result ≡ first_less_second first.number second.number third.number first.error second.error third.error }
{
    let (a, b, c) = (first.number, second.number, third.number);
    if is_level(a, b, c) {
        less(a, b)
    } else if is_off_most(&first, &second, &third) {
        less(opposite(sum(b, c)), b)
    } else if third.error <= second.error {
        sum(a, sum(a, c))
    } else {
        less(a, b)
    }
}

/// Whether three numbers sum to 0.
#[inline]
fn is_level(a: i64, b: i64, c: i64) -> bool
    requires a_small { unsigned_abs a ≤ 2 ^ 30 }
    requires b_small { unsigned_abs b ≤ 2 ^ 30 }
    requires c_small { unsigned_abs c ≤ 2 ^ 30 }
    ensures { result ≡ int_eq (a +ℤ b +ℤ c) (pos 0) }
{
    is_zero(sum(sum(a, b), c))
}

#[inline]
fn is_zero(number: i64) -> bool
    ensures { result ≡ int_eq number (pos 0) }
{
    number == 0
}

/// Whether the first is off as much as the others, or more.
#[inline]
fn is_off_most(first: &Near, second: &Near, third: &Near) -> bool
    ensures { result ≡ nat_le (max second.now.error third.now.error) first.now.error }
{
    second.error.max(third.error) <= first.error
}
