// The root of a natural.
ghost use Rattle.std.specs.Prelude.{◌≡◌, ◌+◌, ◌*◌, ◌/◌, ◌<◌, ◌≤◌, ◌^◌, IsTrue};
ghost use Rattle.fix_math.specs.NearRoots.{IsNearRoot};
ghost use Rattle.fix_math.specs.Roots.{root};

use crate::root_guess::{RootGuess, root_guess};

/// The floor of the square root.
#[inline]
pub fn isqrt(n: u128) -> u64
    ensures value { result ≡ root n }
    ensures least { result * result ≤ n }
    ensures most { n < (result + 1) * (result + 1) }
{
    root_with_reciprocal(n).root
}

/// The floor of the square root, with what tells its reciprocal, mostly.
#[inline]
pub fn root_with_reciprocal(n: u128) -> RootGuess
    ensures value { result.root ≡ root n }
    ensures least { result.root * result.root ≤ n }
    ensures most { n < (result.root + 1) * (result.root + 1) }
{
    let guess = root_guess(n);
    if is_root(n, guess.root) {
        return guess;
    }
    RootGuess {
        root: root_by_steps(n),
        reciprocal: guess.reciprocal,
        pairs: guess.pairs,
    }
}

#[inline]
fn is_root(n: u128, root: u64) -> bool
    ensures least { IsTrue result → root * root ≤ n }
    ensures most { IsTrue result → n < (root + 1) * (root + 1) }
{
    let square = root as u128 * root as u128;
    square <= n && n - square <= root as u128 + root as u128
}

/// The same, by four steps of Newton's: each gives twice as many digits.
#[inline(never)]
fn root_by_steps(n: u128) -> u64
    ensures value { result ≡ root n }
    ensures least { result * result ≤ n }
    ensures most { n < (result + 1) * (result + 1) }
{
    if n == 0 {
        return 0;
    }
    let pairs = n.leading_zeros() / 2;
    root_of_long(n << (2 * pairs)) >> pairs
}

// The floor of the root of a number whose first two digits aren't both 0.
fn root_of_long(n: u128) -> u64
    requires { 2 ^ 126 ≤ n }
    ensures least { result * result ≤ n }
    ensures most { n < (result + 1) * (result + 1) }
{
    root_from_near(n, near_root_of_long(n, near_root((n >> 64) as u64)))
}

// The root is the number near it or the one before.
#[inline]
fn root_from_near(n: u128, near: u128) -> u64
    requires near { IsNearRoot n near }
    requires some { 1 ≤ near }
    ensures least { result * result ≤ n }
    ensures most { n < (result + 1) * (result + 1) }
{
    let before = near - 1;
    if n - before * before > 2 * before {
        near as u64
    } else {
        before as u64
    }
}

const HALF_OF_LONG: u128 = 1 << 31;

#[inline]
fn near_root_of_long(n: u128, near: u64) -> u128
    requires near { IsNearRoot (n / 2 ^ 64) near }
    requires coarse { 2 ^ 31 ≤ near }
    requires small { near ≤ 2 ^ 32 }
    ensures near { IsNearRoot n result }
    ensures some { 1 ≤ result }
{
    near as u128 * HALF_OF_LONG + n / (4 * HALF_OF_LONG) / near as u128
}

// A number near the root of a number whose first two digits aren't both 0.
fn near_root(m: u64) -> u64
    requires { 2 ^ 62 ≤ m }
    ensures near { IsNearRoot m result }
    ensures least { 2 ^ 31 ≤ result }
    ensures most { result ≤ 2 ^ 32 }
{
    let four_digits = near_root_of_byte(m >> 56);
    let eight_digits = refined(m >> 48, four_digits, 8);
    let sixteen_digits = refined(m >> 32, eight_digits, 128);
    refined(m, sixteen_digits, 32768)
}

// From a number near the root of the leading digits of m to one near the root of m.
#[inline(always)]
fn refined(m: u64, near: u64, half: u64) -> u64
    requires near { IsNearRoot (m / (4 * half * half)) near }
    requires some { 1 ≤ half }
    requires coarse { half ≤ near }
    requires small { near ≤ 2 ^ 31 }
    ensures { IsNearRoot m result }
{
    near * half + m / (4 * half) / near
}

// A line that stays near the root between 64 and 256.
fn near_root_of_byte(m: u64) -> u64
    requires least { 64 ≤ m }
    requires most { m < 256 }
    ensures { IsNearRoot m result }
{
    (m + 147) / 24
}
