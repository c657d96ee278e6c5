// The sine and the cosine of an angle in degrees, with 32 fraction bits.
ghost use Rattle.std.specs.Prelude.{◌≡◌, ℕ, ◌+◌, ◌*◌, ◌<◌, ◌≤◌, ◌^◌, pos, ◌*ℤ◌, neg_ℤ, unsigned_abs};
ghost use Rattle.fix_math.specs.Angles.{
  radians,
  square,
  alternating,
  sine_term,
  cosine_term,
  small_sine,
  small_cosine,
  first_sine,
  first_cosine,
  by_quarter,
  in_turn,
  sine_of,
  cosine_of,
};
ghost use Rattle.fix_math.specs.Numbers.{rnd};

use crate::arithmetic::rounded;
use crate::fix::Fix;

const TURN: i64 = 360 * 65536;

const QUARTER: u64 = 90 * 65536;

const HALF_QUARTER: u64 = 45 * 65536;

/// The sine and the cosine of an angle in degrees, with 32 fraction bits: 1 is 2^32.
pub fn sincos(deg: Fix) -> (i64, i64)
    ensures sine { result.0 ≡ sine_of deg }
    ensures cosine { result.1 ≡ cosine_of deg }
    ensures sine_small { unsigned_abs result.0 ≤ 2 ^ 32 }
    ensures cosine_small { unsigned_abs result.1 ≤ 2 ^ 32 }
{
    let angle = without_turns(deg);
    let (sine, cosine) = first_quarter(angle % QUARTER);
    turned(angle / QUARTER, sine, cosine)
}

fn without_turns(deg: Fix) -> u64
    ensures value { result ≡ in_turn deg }
    ensures small { result < 360 * 65536 }
{
    deg.raw().rem_euclid(TURN) as u64
}

// The sine and the cosine of an angle so many quarters of a turn further.
fn turned(quarters: u64, sine: i64, cosine: i64) -> (i64, i64)
    requires sine_small { unsigned_abs sine ≤ 2 ^ 32 }
    requires cosine_small { unsigned_abs cosine ≤ 2 ^ 32 }
    ensures sine { result.0 ≡ by_quarter quarters sine cosine (neg_ℤ sine) (neg_ℤ cosine) }
    ensures cosine { result.1 ≡ by_quarter quarters cosine (neg_ℤ sine) (neg_ℤ cosine) sine }
    ensures sine_small { unsigned_abs result.0 ≤ 2 ^ 32 }
    ensures cosine_small { unsigned_abs result.1 ≤ 2 ^ 32 }
{
    match quarters {
        0 => (sine, cosine),
        1 => (cosine, -sine),
        2 => (-sine, -cosine),
        _ => (-cosine, sine),
    }
}

fn first_quarter(u: u64) -> (i64, i64)
    requires { u < 90 * 65536 }
    ensures sine { result.0 ≡ first_sine u }
    ensures cosine { result.1 ≡ first_cosine u }
    ensures sine_small { unsigned_abs result.0 ≤ 2 ^ 32 }
    ensures cosine_small { unsigned_abs result.1 ≤ 2 ^ 32 }
{
    if u <= HALF_QUARTER {
        by_series(u)
    } else {
        let (sine, cosine) = by_series(QUARTER - u);
        (cosine, sine)
    }
}

fn by_series(u: u64) -> (i64, i64)
    requires { u ≤ 45 * 65536 }
    ensures sine { result.0 ≡ small_sine u }
    ensures cosine { result.1 ≡ small_cosine u }
    ensures sine_small { unsigned_abs result.0 ≤ 2 ^ 32 }
    ensures cosine_small { unsigned_abs result.1 ≤ 2 ^ 32 }
{
    let x = radians_of(u);
    let y = square_of(x);
    (sine_series(x, y) as i64, cosine_series(x, y) as i64)
}

// Pi with 15 decimals, to which 16 fraction bits are added.
const PI: i128 = 3_141_592_653_589_793 * 65536;

const HALF_TURN: i128 = 180_000_000_000_000_000;

// An eighth of a turn in radians, and the square of that.
const GREATEST_ANGLE: u64 = 3_373_259_426;

const GREATEST_SQUARE: u64 = 2_649_351_758;

fn radians_of(u: u64) -> u64
    requires { u ≤ 45 * 65536 }
    ensures value { pos result ≡ radians u }
    ensures small { result ≤ GREATEST_ANGLE }
{
    rounded(u as i128 * PI, HALF_TURN) as u64
}

fn square_of(x: u64) -> u64
    requires { x ≤ GREATEST_ANGLE }
    ensures value { pos result ≡ square (pos x) }
    ensures small { result ≤ GREATEST_SQUARE }
{
    (x * x + (1 << 31)) >> 32
}

// The seven terms of the sine's series, which fall.
fn sine_series(x: u64, y: u64) -> u64
    requires x_small { x ≤ GREATEST_ANGLE }
    requires y_small { y ≤ GREATEST_SQUARE }
    requires y_is { pos y ≡ square (pos x) }
    ensures value { pos result ≡ alternating (sine_term (pos x)) 6 }
    ensures small { result ≤ 2 ^ 32 }
{
    let s1 = next_term(x, y, 3);
    let s2 = next_term(s1, y, 10);
    let s3 = next_term(s2, y, 21);
    let s4 = next_term(s3, y, 36);
    let s5 = next_term(s4, y, 55);
    let s6 = next_term(s5, y, 78);
    (x - s1) + (s2 - s3) + (s4 - s5) + s6
}

fn cosine_series(x: u64, y: u64) -> u64
    requires y_small { y ≤ GREATEST_SQUARE }
    requires y_is { pos y ≡ square (pos x) }
    ensures value { pos result ≡ alternating (cosine_term (pos x)) 6 }
    ensures small { result ≤ 2 ^ 32 }
{
    let c1 = next_term(ONE, y, 1);
    let c2 = next_term(c1, y, 6);
    let c3 = next_term(c2, y, 15);
    let c4 = next_term(c3, y, 28);
    let c5 = next_term(c4, y, 45);
    let c6 = next_term(c5, y, 66);
    (ONE - c1) + (c2 - c3) + (c4 - c5) + c6
}

const ONE: u64 = 1 << 32;

// The next term of a series, whose divisor is twice `halves`.
#[inline(always)]
fn next_term(term: u64, y: u64, halves: u64) -> u64
    requires term_small { term ≤ 2 ^ 32 }
    requires y_small { y ≤ GREATEST_SQUARE }
    requires some { 1 ≤ halves }
    requires few { halves ≤ 100 }
    ensures value { pos result ≡ rnd (pos term *ℤ pos y) (pos (2 ^ 32 * (2 * halves))) }
    ensures falls { result ≤ term }
{
    (term * y + (halves << 32)) / (halves << 33)
}
