// What a surface shows of the light that falls on it.
ghost use Rattle.std.specs.Prelude.{◌≡◌, ◌+◌, ◌≤◌, ◌^◌, pos, ◌≤ℤ◌, ◌+ℤ◌, ◌-ℤ◌, unsigned_abs, true};
ghost use Rattle.std.specs.Int.{int_min, int_max};
ghost use Rattle.fix_math.specs.Matrices.{IsVectorWithin, component, row_of, vector, along};
ghost use Rattle.fix_math.specs.Numbers.{product_of};
ghost use Rattle.scene_model.specs.Amounts.{IsAmount, AreAmounts, IsRgb, IsRgbft};
ghost use Rattle.scene_model.specs.Looks.{IsFinish};
ghost use Rattle.finish_shade.specs.Amounts.{unit_power};
ghost use Rattle.finish_shade.specs.Finishes.{product3, product4, light_of, ambient_part, diffuse_part, brightness, phong_cosine, specular_cosine, highlight, highlights, plus, opacity, shown};

use crate::amounts::{ONE, unit_power};
use crate::directions::{cosine, thrown_back};
use crate::products::{doubled, less, share, shared_sum, slanting, strengthened, tinted};
use fix_math::{Fix, V3, rounded_shift, unit};
use scene_model::{Finish, Rgb, Rgbft};

/// The colour of a lamp's light where it arrives.
pub fn light_of(colour: &Rgb, arriving: &Rgb, cone: Fix, fading: Fix) -> Rgb
    requires colour { IsRgb colour.now }
    requires arriving { AreAmounts 65536 arriving.now }
    requires cone { IsAmount 65536 cone }
    requires fading { IsAmount 131072 fading }
    ensures value { result ≡ light_of colour.now arriving.now cone fading }
    ensures amounts { AreAmounts (2 ^ 25) result }
{
    [
        light_channel(colour[0], arriving[0], cone, fading),
        light_channel(colour[1], arriving[1], cone, fading),
        light_channel(colour[2], arriving[2], cone, fading),
    ]
}

#[inline]
fn light_channel(colour: Fix, arriving: Fix, cone: Fix, fading: Fix) -> Fix
    requires colour { IsAmount (2 ^ 24) colour }
    requires arriving { IsAmount 65536 arriving }
    requires cone { IsAmount 65536 cone }
    requires fading { IsAmount 131072 fading }
    ensures value { result ≡ product4 colour arriving cone fading }
    ensures amount { IsAmount (2 ^ 25) result }
{
    doubled(share(cone, share(arriving, colour)), fading)
}

/// What a surface shows without lamps.
pub fn ambient_part(colour: &Rgbft, ambient: &Rgb, ambient_light: &Rgb) -> Rgb
    requires colour { IsRgbft colour.now }
    requires ambient { AreAmounts (2 ^ 20) ambient.now }
    requires light { IsRgb ambient_light.now }
    ensures value { result ≡ ambient_part colour.now ambient.now ambient_light.now }
    ensures amounts { AreAmounts (2 ^ 41) result }
{
    [
        ambient_channel(colour[0], ambient[0], ambient_light[0]),
        ambient_channel(colour[1], ambient[1], ambient_light[1]),
        ambient_channel(colour[2], ambient[2], ambient_light[2]),
    ]
}

#[inline]
fn ambient_channel(colour: Fix, ambient: Fix, light: Fix) -> Fix
    requires colour { IsAmount (2 ^ 24) colour }
    requires ambient { IsAmount (2 ^ 20) ambient }
    requires light { IsAmount (2 ^ 24) light }
    ensures value { result ≡ product3 colour ambient light }
    ensures amount { IsAmount (2 ^ 41) result }
{
    strengthened(tinted(colour, ambient), light)
}

/// What a surface scatters of a lamp's light.
pub fn diffuse_part(light: &Rgb, colour: &Rgbft, diffuse: Fix, d: Fix) -> Rgb
    requires light { AreAmounts (2 ^ 25) light.now }
    requires colour { IsRgbft colour.now }
    requires diffuse { IsAmount (2 ^ 20) diffuse }
    requires d { IsAmount (2 ^ 18) d }
    ensures value { result ≡ diffuse_part light.now colour.now diffuse d }
    ensures amounts { AreAmounts (2 ^ 43) result }
{
    [
        diffuse_channel(light[0], colour[0], diffuse, d),
        diffuse_channel(light[1], colour[1], diffuse, d),
        diffuse_channel(light[2], colour[2], diffuse, d),
    ]
}

#[inline]
fn diffuse_channel(light: Fix, colour: Fix, diffuse: Fix, d: Fix) -> Fix
    requires light { IsAmount (2 ^ 25) light }
    requires colour { IsAmount (2 ^ 24) colour }
    requires diffuse { IsAmount (2 ^ 20) diffuse }
    requires d { IsAmount (2 ^ 18) d }
    ensures value { result ≡ product4 light colour diffuse d }
    ensures amount { IsAmount (2 ^ 43) result }
{
    slanting(strengthened(tinted(light, colour), diffuse), d)
}

/// The highlights of a lamp.
pub fn highlights(finish: &Finish, d: &V3, n: &V3, ld: &V3, light: &Rgb) -> Rgb
    requires finish { IsFinish finish.now }
    requires d { IsVectorWithin 65537 d.now }
    requires n { IsVectorWithin 65536 n.now }
    requires ld { IsVectorWithin 65536 ld.now }
    requires light { AreAmounts (2 ^ 25) light.now }
    ensures value { result ≡ highlights finish.now d.now n.now ld.now light.now }
    ensures amounts { AreAmounts (2 ^ 34) result }
{
    plus(
        &phong_part(finish, d, n, ld, light),
        &specular_part(finish, d, n, ld, light),
    )
}

/// The highlight about the direction in which the surface throws the ray back.
fn phong_part(finish: &Finish, d: &V3, n: &V3, ld: &V3, light: &Rgb) -> Rgb
    requires finish { IsFinish finish.now }
    requires d { IsVectorWithin 65537 d.now }
    requires n { IsVectorWithin 65536 n.now }
    requires ld { IsVectorWithin 65536 ld.now }
    requires light { AreAmounts (2 ^ 25) light.now }
    ensures value { result ≡ highlight light.now finish.now.phong (brightness (phong_cosine d.now n.now ld.now) finish.now.phong_size) }
    ensures amounts { AreAmounts (2 ^ 33) result }
{
    if is_none(finish.phong) {
        return BLACK;
    }
    let p = cosine(&thrown_back(d, n), ld);
    highlight(light, finish.phong, brightness(p, finish.phong_size))
}

/// The highlight about the direction half way between the ray's and the lamp's.
fn specular_part(finish: &Finish, d: &V3, n: &V3, ld: &V3, light: &Rgb) -> Rgb
    requires finish { IsFinish finish.now }
    requires d { IsVectorWithin 65537 d.now }
    requires n { IsVectorWithin 65536 n.now }
    requires ld { IsVectorWithin 65536 ld.now }
    requires light { AreAmounts (2 ^ 25) light.now }
    ensures value { result ≡ highlight light.now finish.now.specular (brightness (specular_cosine d.now n.now ld.now) finish.now.gloss) }
    ensures amounts { AreAmounts (2 ^ 33) result }
{
    if is_none(finish.specular) {
        return BLACK;
    }
    let h = cosine(n, &unit(difference(ld, d)));
    highlight(light, finish.specular, brightness(h, finish.gloss))
}

#[inline]
fn is_none(amount: Fix) -> bool
    ensures { result ≡ true → amount ≡ pos 0 }
{
    amount.raw() == 0
}

#[inline]
fn difference(v: &V3, w: &V3) -> V3
    requires v { IsVectorWithin 65536 v.now }
    requires w { IsVectorWithin 65537 w.now }
    ensures { result ≡ vector (λ i. along v.now i -ℤ along w.now i) }
{
    V3 {
        x: less(v.x, w.x),
        y: less(v.y, w.y),
        z: less(v.z, w.z),
    }
}

#[inline]
fn brightness(cosine: i64, size: u32) -> Fix
    ensures value { result ≡ brightness cosine size }
    ensures amount { IsAmount 65536 result }
{
    if cosine > 0 {
        unit_power(Fix(cosine.min(ONE)), size)
    } else {
        Fix(0)
    }
}

#[inline]
fn highlight(light: &Rgb, amount: Fix, bright: Fix) -> Rgb
    requires light { AreAmounts (2 ^ 25) light.now }
    requires amount { IsAmount (2 ^ 20) amount }
    requires bright { IsAmount 65536 bright }
    ensures value { result ≡ highlight light.now amount bright }
    ensures amounts { AreAmounts (2 ^ 33) result }
{
    [
        highlight_channel(light[0], amount, bright),
        highlight_channel(light[1], amount, bright),
        highlight_channel(light[2], amount, bright),
    ]
}

#[inline]
fn highlight_channel(light: Fix, amount: Fix, bright: Fix) -> Fix
    requires light { IsAmount (2 ^ 25) light }
    requires amount { IsAmount (2 ^ 20) amount }
    requires bright { IsAmount 65536 bright }
    ensures value { result ≡ product3 light amount bright }
    ensures amount { IsAmount (2 ^ 33) result }
{
    share(bright, tinted(light, amount))
}

/// No light.
pub const BLACK: Rgb = [Fix(0), Fix(0), Fix(0)];

#[inline]
fn plus(a: &Rgb, b: &Rgb) -> Rgb
    requires a { AreAmounts (2 ^ 33) a.now }
    requires b { AreAmounts (2 ^ 33) b.now }
    ensures value { result ≡ plus a.now b.now }
    ensures amounts { AreAmounts (2 ^ 34) result }
{
    [
        plus_channel(a[0], b[0]),
        plus_channel(a[1], b[1]),
        plus_channel(a[2], b[2]),
    ]
}

#[inline]
fn plus_channel(a: Fix, b: Fix) -> Fix
    requires a { IsAmount (2 ^ 33) a }
    requires b { IsAmount (2 ^ 33) b }
    ensures value { result ≡ a +ℤ b }
    ensures amount { IsAmount (2 ^ 34) result }
{
    Fix(a.raw() + b.raw())
}

/// How much of a surface's own light shows.
#[inline]
pub fn opacity(colour: &Rgbft) -> Fix
    requires { IsRgbft colour.now }
    ensures value { result ≡ opacity colour.now }
    ensures amount { IsAmount 65536 result }
{
    at_least_none(rest(colour[3], colour[4]))
}

/// What is left of a unit.
#[inline]
fn rest(filter: Fix, transmit: Fix) -> i64
    requires filter { IsAmount 65536 filter }
    requires transmit { IsAmount 65536 transmit }
    ensures value { result ≡ pos 65536 -ℤ filter -ℤ transmit }
    ensures small { unsigned_abs result ≤ 65536 }
{
    ONE - filter.raw() - transmit.raw()
}

#[inline]
fn at_least_none(number: i64) -> Fix
    requires { unsigned_abs number ≤ 65536 }
    ensures value { result ≡ int_max (pos 0) number }
    ensures amount { IsAmount 65536 result }
{
    Fix(number.max(0))
}

/// All that a surface shows: its own light where it is opaque, the highlights, and the two rays that go on.
pub fn shown(
    opaque: Fix,
    own: &[i64; 3],
    highlights: &[i64; 3],
    reflection: &Rgb,
    thrown: &Rgb,
    through: &Rgb,
    passed: &Rgb,
) -> Rgb
    requires opaque { IsAmount 65536 opaque }
    requires own { AreAmounts (2 ^ 52) own.now }
    requires highlights { AreAmounts (2 ^ 42) highlights.now }
    requires reflection { AreAmounts 65536 reflection.now }
    requires thrown { AreAmounts (2 ^ 30) thrown.now }
    requires through { AreAmounts (2 ^ 25) through.now }
    requires passed { AreAmounts (2 ^ 30) passed.now }
    ensures value { result ≡ shown opaque own.now highlights.now reflection.now thrown.now through.now passed.now }
    ensures amounts { AreAmounts (2 ^ 30) result }
{
    joined(
        &own_part(opaque, own),
        highlights,
        &thrown_part(reflection, thrown),
        &passed_part(through, passed),
    )
}

fn joined(own: &[i64; 3], highlights: &[i64; 3], thrown: &Rgb, passed: &Rgb) -> Rgb
    requires own { AreAmounts (2 ^ 52) own.now }
    requires highlights { AreAmounts (2 ^ 42) highlights.now }
    requires thrown { AreAmounts (2 ^ 30) thrown.now }
    requires passed { AreAmounts (2 ^ 39) passed.now }
    ensures value { result ≡ row_of (λ k. int_min (pos (2 ^ 30)) (component own.now k +ℤ component highlights.now k +ℤ component thrown.now k +ℤ component passed.now k)) }
    ensures amounts { AreAmounts (2 ^ 30) result }
{
    let lit = with_highlights(own, highlights);
    cut(&with_thrown(&lit, thrown), passed)
}

fn with_highlights(own: &[i64; 3], highlights: &[i64; 3]) -> [i64; 3]
    requires own { AreAmounts (2 ^ 52) own.now }
    requires highlights { AreAmounts (2 ^ 42) highlights.now }
    ensures value { result ≡ row_of (λ k. component own.now k +ℤ component highlights.now k) }
    ensures amounts { AreAmounts (2 ^ 53) result }
{
    [
        sum(own[0], highlights[0]),
        sum(own[1], highlights[1]),
        sum(own[2], highlights[2]),
    ]
}

fn with_thrown(lit: &[i64; 3], thrown: &Rgb) -> [i64; 3]
    requires lit { AreAmounts (2 ^ 53) lit.now }
    requires thrown { AreAmounts (2 ^ 30) thrown.now }
    ensures value { result ≡ row_of (λ k. component lit.now k +ℤ component thrown.now k) }
    ensures amounts { AreAmounts (2 ^ 53 + 2 ^ 42) result }
{
    [
        sum(lit[0], thrown[0].raw()),
        sum(lit[1], thrown[1].raw()),
        sum(lit[2], thrown[2].raw()),
    ]
}

/// All light with that of the ray that goes on, up to the most that a ray shows.
fn cut(lit: &[i64; 3], passed: &Rgb) -> Rgb
    requires lit { AreAmounts (2 ^ 53 + 2 ^ 42) lit.now }
    requires passed { AreAmounts (2 ^ 39) passed.now }
    ensures value { result ≡ row_of (λ k. int_min (pos (2 ^ 30)) (component lit.now k +ℤ component passed.now k)) }
    ensures amounts { AreAmounts (2 ^ 30) result }
{
    [
        shown_channel(lit[0], passed[0]),
        shown_channel(lit[1], passed[1]),
        shown_channel(lit[2], passed[2]),
    ]
}

/// What a surface shows of its own light.
fn own_part(opaque: Fix, own: &[i64; 3]) -> [i64; 3]
    requires opaque { IsAmount 65536 opaque }
    requires own { AreAmounts (2 ^ 52) own.now }
    ensures value { result ≡ row_of (λ k. product_of opaque (component own.now k)) }
    ensures amounts { AreAmounts (2 ^ 52) result }
{
    [
        shared_sum(opaque, own[0]),
        shared_sum(opaque, own[1]),
        shared_sum(opaque, own[2]),
    ]
}

/// What a surface shows of the ray that it throws back.
fn thrown_part(reflection: &Rgb, thrown: &Rgb) -> Rgb
    requires reflection { AreAmounts 65536 reflection.now }
    requires thrown { AreAmounts (2 ^ 30) thrown.now }
    ensures value { result ≡ row_of (λ k. product_of (component reflection.now k) (component thrown.now k)) }
    ensures amounts { AreAmounts (2 ^ 30) result }
{
    [
        thrown_channel(reflection[0], thrown[0]),
        thrown_channel(reflection[1], thrown[1]),
        thrown_channel(reflection[2], thrown[2]),
    ]
}

/// What a surface shows of the ray that goes on through it.
fn passed_part(through: &Rgb, passed: &Rgb) -> Rgb
    requires through { AreAmounts (2 ^ 25) through.now }
    requires passed { AreAmounts (2 ^ 30) passed.now }
    ensures value { result ≡ row_of (λ k. product_of (component through.now k) (component passed.now k)) }
    ensures amounts { AreAmounts (2 ^ 39) result }
{
    [
        passed_channel(through[0], passed[0]),
        passed_channel(through[1], passed[1]),
        passed_channel(through[2], passed[2]),
    ]
}

#[inline]
fn thrown_channel(reflection: Fix, thrown: Fix) -> Fix
    requires reflection { IsAmount 65536 reflection }
    requires thrown { IsAmount (2 ^ 30) thrown }
    ensures value { result ≡ product_of reflection thrown }
    ensures amount { IsAmount (2 ^ 30) result }
{
    share(reflection, thrown)
}

#[inline]
fn passed_channel(through: Fix, passed: Fix) -> Fix
    requires through { IsAmount (2 ^ 25) through }
    requires passed { IsAmount (2 ^ 30) passed }
    ensures value { result ≡ product_of through passed }
    ensures amount { IsAmount (2 ^ 39) result }
{
    Fix::from_known(rounded_shift(through.wide() * passed.wide(), 16))
}

#[inline]
fn shown_channel(lit: i64, passed: Fix) -> Fix
    requires lit { IsAmount (2 ^ 53 + 2 ^ 42) lit }
    requires passed { IsAmount (2 ^ 39) passed }
    ensures value { result ≡ int_min (pos (2 ^ 30)) (lit +ℤ passed) }
    ensures amount { IsAmount (2 ^ 30) result }
{
    at_most(sum(lit, passed.raw()))
}

#[inline]
fn sum(a: i64, b: i64) -> i64
    requires a { IsAmount (2 ^ 54) a }
    requires b { IsAmount (2 ^ 42) b }
    ensures value { result ≡ a +ℤ b }
    ensures low { pos 0 ≤ℤ result }
    ensures high { unsigned_abs result ≤ unsigned_abs a + 2 ^ 42 }
{
    a + b
}

/// The number, or the most that a ray shows where it is more.
#[inline]
fn at_most(number: i64) -> Fix
    requires { IsAmount (2 ^ 54) number }
    ensures value { result ≡ int_min (pos (2 ^ 30)) number }
    ensures amount { IsAmount (2 ^ 30) result }
{
    Fix(number.min(1 << 30))
}
