// Gradients and colour maps.
ghost use Rattle.std.specs.Prelude.{◌≡◌, ◌≤◌, ◌^◌, pos, ◌+ℤ◌, ◌-ℤ◌, ◌*ℤ◌, ◌≤ℤ◌, ◌<ℤ◌, unsigned_abs, int_lt, int_le, true, false, not};
ghost use Rattle.std.specs.List.{All};
ghost use Rattle.fix_math.specs.Matrices.{IsVectorWithin};
ghost use Rattle.fix_math.specs.Numbers.{rnd, product_of};
ghost use Rattle.scene_model.specs.Amounts.{IsAmount, IsRgbft};
ghost use Rattle.scene_model.specs.Looks.{IsMap};
ghost use Rattle.pigment.specs.Maps.{gradient_at, part_way, between, from_entry, map_colour};

use fix_math::{Fix, V3, rounded, rounded_shift};
use scene_model::{Entry, Rgbft};

/// How far along the axis a point is, without whole units.
pub fn gradient_at(axis: &V3, q: &V3) -> Fix
    requires small { IsVectorWithin (2 ^ 43) q.now }
    ensures value { result ≡ gradient_at axis.now q.now }
    ensures low { pos 0 ≤ℤ result }
    ensures high { result <ℤ pos 65536 }
{
    let whole = sum(share(axis.x, q.x), share(axis.y, q.y), share(axis.z, q.z));
    Fix::from_known(whole.rem_euclid(65536))
}

#[inline]
fn share(axis: Fix, along: Fix) -> i128
    requires { unsigned_abs along ≤ 2 ^ 43 }
    ensures value { result ≡ product_of axis along }
    ensures small { unsigned_abs result ≤ 2 ^ 80 }
{
    rounded_shift(axis.wide() * along.wide(), 16)
}

#[inline]
fn sum(a: i128, b: i128, c: i128) -> i128
    requires a_small { unsigned_abs a ≤ 2 ^ 80 }
    requires b_small { unsigned_abs b ≤ 2 ^ 80 }
    requires c_small { unsigned_abs c ≤ 2 ^ 80 }
    ensures { result ≡ a +ℤ b +ℤ c }
{
    a + b + c
}

/// The colour of a map at a place from 0 to 1.
pub fn map_colour(map: &[Entry], at: Fix) -> Rgbft
    requires map { IsMap map.now }
    requires low { pos 0 ≤ℤ at }
    requires high { at <ℤ pos 65536 }
    ensures value { result ≡ map_colour map.now at }
    ensures valid { IsRgbft result }
{
    match map {
        [first, rest @ ..] => {
            if is_before(at, first) {
                first.colour
            } else {
                from_entry(first, rest, at)
            }
        }
        [] => [Fix(0), Fix(0), Fix(0), Fix(0), Fix(0)],
    }
}

/// Whether a place is before an entry.
#[inline]
fn is_before(at: Fix, entry: &Entry) -> bool
    ensures test { result ≡ int_lt at entry.now.at }
    ensures before { result ≡ true → at <ℤ entry.now.at }
    ensures behind { result ≡ false → entry.now.at ≤ℤ at }
    ensures reached { result ≡ not (int_le entry.now.at at) }
{
    at.raw() < entry.at.raw()
}

/// The colour at a place that isn't before the first of these entries.
fn from_entry(first: &Entry, rest: &[Entry], at: Fix) -> Rgbft
    requires first { IsRgbft first.now.colour }
    requires rest { All (λ entry. IsRgbft entry.colour) rest.now }
    requires from { first.now.at ≤ℤ at }
    ensures value { result ≡ from_entry first.now rest.now at }
    ensures valid { IsRgbft result }
{
    let mut entry = first;
    for next in rest {
        if is_before(at, next) {
            return between(entry, next, at);
        }
        entry = next;
    }
    entry.colour
}

/// How far on a way a place is, and how long the way is.
#[derive(Clone, Copy)]
struct Way {
    done: i128,
    whole: i128,
    ghost some: { pos 0 ≤ℤ done },
    ghost within: { done <ℤ whole },
    ghost short: { unsigned_abs whole ≤ 2 ^ 48 },
}

/// The way from one place to another on which a place lies.
#[inline]
fn part_of_way(from: Fix, to: Fix, at: Fix) -> Way
    requires from { from ≤ℤ at }
    requires to { at <ℤ to }
    ensures done { result.done ≡ at -ℤ from }
    ensures whole { result.whole ≡ to -ℤ from }
{
    way_of(less(at, from), less(to, from))
}

#[inline]
fn way_of(done: i128, whole: i128) -> Way
    requires some { pos 0 ≤ℤ done }
    requires within { done <ℤ whole }
    requires short { unsigned_abs whole ≤ 2 ^ 48 }
    ensures done { result.done ≡ done }
    ensures whole { result.whole ≡ whole }
{
    Way { done, whole }
}

#[inline]
fn less(a: Fix, b: Fix) -> i128
    ensures value { result ≡ a -ℤ b }
    ensures small { unsigned_abs result ≤ 2 ^ 48 }
{
    a.wide() - b.wide()
}

/// The colour at a place from one entry on and below the next.
fn between(low: &Entry, high: &Entry, at: Fix) -> Rgbft
    requires low_valid { IsRgbft low.now.colour }
    requires high_valid { IsRgbft high.now.colour }
    requires from { low.now.at ≤ℤ at }
    requires below { at <ℤ high.now.at }
    ensures value { result ≡ between low.now high.now at }
    ensures valid { IsRgbft result }
{
    let way = part_of_way(low.at, high.at, at);
    [
        channel(low.colour[0], high.colour[0], way),
        channel(low.colour[1], high.colour[1], way),
        channel(low.colour[2], high.colour[2], way),
        strength(low.colour[3], high.colour[3], way),
        strength(low.colour[4], high.colour[4], way),
    ]
}

/// Red, green or blue on the way from one colour to another.
#[inline]
fn channel(from: Fix, to: Fix, way: Way) -> Fix
    requires from { IsAmount (2 ^ 24) from }
    requires to { IsAmount (2 ^ 24) to }
    ensures value { result ≡ part_way from to way.done way.whole }
    ensures amount { IsAmount (2 ^ 24) result }
{
    Fix::from_known(part_way(from, to, way))
}

/// Filter or transmit on the way.
#[inline]
fn strength(from: Fix, to: Fix, way: Way) -> Fix
    requires from { IsAmount 65536 from }
    requires to { IsAmount 65536 to }
    ensures value { result ≡ part_way from to way.done way.whole }
    ensures amount { IsAmount 65536 result }
{
    Fix::from_known(part_way(from, to, way))
}

#[inline]
fn part_way(from: Fix, to: Fix, way: Way) -> i128
    requires from { IsAmount (2 ^ 24) from }
    requires to { IsAmount (2 ^ 24) to }
    ensures { result ≡ part_way from to way.done way.whole }
{
    plus(from, climb(less(to, from), way))
}

/// The part of a rise that lies on the way that is done.
#[inline]
fn climb(rise: i128, way: Way) -> i128
    requires { unsigned_abs rise ≤ 2 ^ 48 }
    ensures value { result ≡ rnd (rise *ℤ way.done) way.whole }
    ensures small { unsigned_abs result ≤ 2 ^ 48 }
{
    rounded(product(rise, way.done), way.whole)
}

#[inline]
fn product(a: i128, b: i128) -> i128
    requires a_small { unsigned_abs a ≤ 2 ^ 48 }
    requires b_small { unsigned_abs b ≤ 2 ^ 48 }
    ensures value { result ≡ a *ℤ b }
    ensures small { unsigned_abs result ≤ 2 ^ 96 }
{
    a * b
}

#[inline]
fn plus(a: Fix, b: i128) -> i128
    requires { unsigned_abs b ≤ 2 ^ 48 }
    ensures { result ≡ a +ℤ b }
{
    a.wide() + b
}
