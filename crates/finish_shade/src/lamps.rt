// How strong a lamp's light is.
ghost use Rattle.std.specs.Prelude.{◌≡◌, ◌≤◌, ◌<◌, ◌^◌, ◌*◌, pos, ◌+ℤ◌, ◌-ℤ◌, ◌*ℤ◌, ◌≤ℤ◌, ◌<ℤ◌, unsigned_abs, IfSome, ◌||◌, int_le, false};
ghost use Rattle.fix_math.specs.Matrices.{IsVectorWithin};
ghost use Rattle.std.specs.Int.{int_min};
ghost use Rattle.fix_math.specs.Numbers.{rnd, product_of};
ghost use Rattle.scene_model.specs.Amounts.{IsAmount};
ghost use Rattle.scene_model.specs.Looks.{IsSpotlight, IsFade};
ghost use Rattle.finish_shade.specs.Lamps.{along_axis, smooth, between_cones, cone_of, distances, far_power, fading_of, cone_factor, fading_factor};

use crate::amounts::{ONE, from_0_to_1, unit_power};
use crate::directions::opposite_cosine;
use crate::products::{less, rounded_product, share, short_product, short_quotient, small_product};
use fix_math::{Fix, V3};
use scene_model::{Fade, Spotlight};

/// How strong the light of a spotlight is, from 0 to 1, at a point from which the lamp is in this direction of length
/// 1 unit. (Reference manual, spotlights)
pub fn cone(s: &Spotlight, ld: V3) -> Fix
    requires spot { IsSpotlight s.now }
    requires direction { IsVectorWithin 65537 ld }
    ensures value { result ≡ cone_of s.now ld }
    ensures amount { IsAmount 65536 result }
{
    let g = along_axis(s, &ld);
    if g < s.outer.raw() {
        return Fix(0);
    }
    share(between_cones(s, g), unit_power(from_0_to_1(g), s.tightness))
}

#[inline]
fn along_axis(s: &Spotlight, ld: &V3) -> i64
    requires spot { IsSpotlight s.now }
    requires direction { IsVectorWithin 65537 ld.now }
    ensures value { result ≡ along_axis s.now ld.now }
    ensures small { unsigned_abs result ≤ 2 ^ 18 }
{
    opposite_cosine(ld, &s.axis)
}

/// Between the two cones the light goes smoothly from 0 to 1.
fn between_cones(s: &Spotlight, g: i64) -> Fix
    requires spot { IsSpotlight s.now }
    requires outside { s.now.outer ≤ℤ g }
    requires small { unsigned_abs g ≤ 2 ^ 18 }
    ensures value { result ≡ between_cones s.now g }
    ensures amount { IsAmount 65536 result }
{
    if is_whole(s.inner, s.outer, g) {
        Fix(ONE)
    } else {
        smooth(share_between(s.outer, s.inner, g))
    }
}

/// Whether the light is whole at a cosine that isn't below the outer one.
#[inline]
fn is_whole(inner: Fix, outer: Fix, g: i64) -> bool
    ensures test { result ≡ (int_le inner g || int_le inner outer) }
    ensures below { result ≡ false → g <ℤ inner }
{
    inner.raw() <= g || inner.raw() <= outer.raw()
}

/// How far on the way from the outer cosine to the inner one a cosine is.
#[inline]
fn share_between(outer: Fix, inner: Fix, g: i64) -> i64
    requires outer { IsAmount 65536 outer }
    requires inner { IsAmount 65536 inner }
    requires low { outer ≤ℤ g }
    requires high { g <ℤ inner }
    ensures value { result ≡ rnd ((g -ℤ outer) *ℤ pos 65536) (inner -ℤ outer) }
    ensures low { pos 0 ≤ℤ result }
    ensures high { result ≤ℤ pos 65536 }
{
    part_between(outer, inner, g)
}

#[inline]
fn part_between(outer: Fix, inner: Fix, g: i64) -> i64
    requires outer { IsAmount 65536 outer }
    requires inner { IsAmount 65536 inner }
    requires low { outer ≤ℤ g }
    requires high { g <ℤ inner }
    ensures { result ≡ rnd ((g -ℤ outer) *ℤ pos 65536) (inner -ℤ outer) }
{
    short_quotient(scaled(minus(g, outer)), less(inner, outer).raw())
}

#[inline]
fn minus(g: i64, outer: Fix) -> i64
    requires g { unsigned_abs g ≤ 65536 }
    requires outer { IsAmount 65536 outer }
    ensures value { result ≡ g -ℤ outer }
    ensures small { unsigned_abs result ≤ 2 ^ 18 }
{
    g - outer.raw()
}

#[inline]
fn scaled(number: i64) -> i64
    requires { unsigned_abs number ≤ 2 ^ 18 }
    ensures value { result ≡ number *ℤ pos 65536 }
    ensures small { unsigned_abs result ≤ 2 ^ 34 }
{
    number * ONE
}

#[inline]
fn smooth(v: i64) -> Fix
    requires low { pos 0 ≤ℤ v }
    requires high { v ≤ℤ pos 65536 }
    ensures value { result ≡ smooth v }
    ensures amount { IsAmount 65536 result }
{
    Fix(smooth_number(v))
}

#[inline]
fn smooth_number(v: i64) -> i64
    requires low { pos 0 ≤ℤ v }
    requires high { v ≤ℤ pos 65536 }
    ensures { result ≡ smooth v }
{
    short_product(small_product(v, v), 3 * ONE - 2 * v)
}

/// How strong light is at this distance, which is in raw numbers. (Reference manual, light fading)
pub fn fading(f: &Fade, length: u64) -> Fix
    requires fade { IsFade f.now }
    requires near { length < 2 ^ 40 }
    ensures value { result ≡ fading_of f.now length }
    ensures amount { IsAmount 131072 result }
{
    let q = distances(f, length);
    faded(far_power(q, f.power))
}

#[inline]
fn distances(f: &Fade, length: u64) -> i64
    requires fade { IsFade f.now }
    requires near { length < 2 ^ 40 }
    ensures value { result ≡ distances f.now length }
    ensures amount { IsAmount (2 ^ 30) result }
{
    short_quotient(length as i64 * ONE, f.distance.raw()).min(1 << 30)
}

/// The power of so many distances.
fn far_power(q: i64, exponent: u32) -> i64
    requires q { IsAmount (2 ^ 30) q }
    requires some { 1 ≤ exponent }
    ensures value { result ≡ far_power q exponent }
    ensures amount { IsAmount (2 ^ 46) result }
{
    let mut power = q;
    for step in 1..exponent {
        power = farther(power, q);
    }
    power
}

#[inline]
fn farther(power: i64, q: i64) -> i64
    requires power { IsAmount (2 ^ 46) power }
    requires q { IsAmount (2 ^ 30) q }
    ensures value { result ≡ int_min (pos (2 ^ 46)) (product_of power q) }
    ensures amount { IsAmount (2 ^ 46) result }
{
    cut(rounded_product(power, q))
}

/// The number, or the most that a power of distances is where it is more.
#[inline]
fn cut(power: i128) -> i64
    requires { pos 0 ≤ℤ power }
    ensures value { result ≡ int_min (pos (2 ^ 46)) power }
    ensures amount { IsAmount (2 ^ 46) result }
{
    power.min(1 << 46) as i64
}

#[inline]
fn faded(power: i64) -> Fix
    requires { IsAmount (2 ^ 46) power }
    ensures value { result ≡ rnd (pos (2 ^ 33)) (pos 65536 +ℤ power) }
    ensures amount { IsAmount 131072 result }
{
    Fix(short_quotient(1 << 33, ONE + power))
}

/// The cone of a lamp, 1 where it has none.
#[inline]
pub fn cone_factor(spot: &Option<Spotlight>, ld: &V3) -> Fix
    requires spot { IfSome spot.now IsSpotlight }
    requires direction { IsVectorWithin 65537 ld.now }
    ensures value { result ≡ cone_factor spot.now ld.now }
    ensures amount { IsAmount 65536 result }
{
    match spot {
        Some(s) => cone(s, *ld),
        None => Fix(ONE),
    }
}

/// How a lamp's light fades, 1 where it doesn't.
#[inline]
pub fn fading_factor(fade: &Option<Fade>, length: u64) -> Fix
    requires fade { IfSome fade.now IsFade }
    requires near { length < 2 ^ 40 }
    ensures value { result ≡ fading_factor fade.now length }
    ensures amount { IsAmount 131072 result }
{
    match fade {
        Some(f) => fading(f, length),
        None => Fix(ONE),
    }
}
