// What rays of a picture show.
ghost use Rattle.std.specs.Prelude.{◌≡◌, ◌<◌, ◌≤◌, ◌^◌, ◌*◌, pos, ◌+ℤ◌, unsigned_abs};
ghost use Rattle.std.specs.Int.{int_min};
ghost use Rattle.csg_hits.specs.Hits.{Fits};
ghost use Rattle.fix_math.specs.Matrices.{component, row_of};
ghost use Rattle.fix_math.specs.Numbers.{rnd};
ghost use Rattle.frame_trace.specs.Pictures.{cut, IsSeen, IsPlain, IsPart, IsSum, IsFine};
ghost use Rattle.frame_trace.specs.Ready.{view_in, IsReady};
ghost use Rattle.scene_model.specs.Amounts.{IsAmount, AreAmounts};
ghost use Rattle.shapes.specs.Rays.{IsRayDirection};

use crate::pixel_rays::{pixel_ray, quotient, sub_ray};
use crate::tracing::Tracing;
use csg_hits::{Scratch, World};
use finish_shade::shade;
use fix_math::Fix;
use scene_model::Rgb;
use shapes::Ray;

/// One unit.
const ONE: i64 = 65536;

/// The plain colour of a pixel.
pub fn plain<W: World>(t: &Tracing<W>, s: &mut Scratch, column: u32, row: u32) -> Rgb
    requires ready { IsReady (view_in W.surfaces t.now) }
    requires column_within { column < t.now.format.width }
    requires row_within { row < t.now.format.height }
    requires fits { Fits (W.surfaces t.now.world) s.old }
    ensures fits { Fits (W.surfaces t.now.world) s.new }
    ensures plain { IsPlain (view_in W.surfaces t.now) column row result }
    ensures amounts { AreAmounts 65536 result }
{
    let ray = pixel_ray(
        &t.scene.camera,
        t.format.width,
        t.format.height,
        column,
        row,
    );
    seen(t, s, &ray)
}

/// The fine colour of a pixel: the mean of n times n parts.
pub fn fine<W: World>(t: &Tracing<W>, s: &mut Scratch, n: u32, column: u32, row: u32) -> Rgb
    requires ready { IsReady (view_in W.surfaces t.now) }
    requires some { 1 ≤ n }
    requires few { n ≤ 9 }
    requires column_within { column < t.now.format.width }
    requires row_within { row < t.now.format.height }
    requires fits { Fits (W.surfaces t.now.world) s.old }
    ensures fits { Fits (W.surfaces t.now.world) s.new }
    ensures fine { IsFine (view_in W.surfaces t.now) n column row result }
    ensures amounts { AreAmounts 65536 result }
{
    let sum = sum_of_parts(t, s, n, column, row);
    mean(&sum, n)
}

fn sum_of_parts<W: World>(t: &Tracing<W>, s: &mut Scratch, n: u32, column: u32, row: u32) -> Rgb
    requires ready { IsReady (view_in W.surfaces t.now) }
    requires few { n ≤ 9 }
    requires column_within { column < t.now.format.width }
    requires row_within { row < t.now.format.height }
    requires fits { Fits (W.surfaces t.now.world) s.old }
    ensures fits { Fits (W.surfaces t.now.world) s.new }
    ensures sum { IsSum (λ k. IsSum (λ j. IsPart (view_in W.surfaces t.now) n column row j k) n) n result }
    ensures amounts { AreAmounts (65536 * n * n) result }
{
    let mut sum = black();
    for k in 0..n {
        let parts = sum_of_row(t, s, n, column, row, k);
        sum = both(&sum, &parts);
    }
    sum
}

/// The sum of a row of parts.
fn sum_of_row<W: World>(
    t: &Tracing<W>,
    s: &mut Scratch,
    n: u32,
    column: u32,
    row: u32,
    k: u32,
) -> Rgb
    requires ready { IsReady (view_in W.surfaces t.now) }
    requires few { n ≤ 9 }
    requires column_within { column < t.now.format.width }
    requires row_within { row < t.now.format.height }
    requires part_within { k < n }
    requires fits { Fits (W.surfaces t.now.world) s.old }
    ensures fits { Fits (W.surfaces t.now.world) s.new }
    ensures sum { IsSum (λ j. IsPart (view_in W.surfaces t.now) n column row j k) n result }
    ensures amounts { AreAmounts (65536 * n) result }
{
    let mut sum = black();
    for j in 0..n {
        let part = part(t, s, n, column, row, j, k);
        sum = both(&sum, &part);
    }
    sum
}

/// The colour of a part.
fn part<W: World>(
    t: &Tracing<W>,
    s: &mut Scratch,
    n: u32,
    column: u32,
    row: u32,
    j: u32,
    k: u32,
) -> Rgb
    requires ready { IsReady (view_in W.surfaces t.now) }
    requires few { n ≤ 9 }
    requires column_within { column < t.now.format.width }
    requires row_within { row < t.now.format.height }
    requires j_within { j < n }
    requires k_within { k < n }
    requires fits { Fits (W.surfaces t.now.world) s.old }
    ensures fits { Fits (W.surfaces t.now.world) s.new }
    ensures part { IsPart (view_in W.surfaces t.now) n column row j k result }
    ensures amounts { AreAmounts 65536 result }
{
    let ray = sub_ray(
        &t.scene.camera,
        t.format.width,
        t.format.height,
        column,
        row,
        n,
        j,
        k,
    );
    seen(t, s, &ray)
}

/// The colour of a ray, cut.
fn seen<W: World>(t: &Tracing<W>, s: &mut Scratch, ray: &Ray) -> Rgb
    requires ready { IsReady (view_in W.surfaces t.now) }
    requires direction { IsRayDirection ray.now.dir }
    requires fits { Fits (W.surfaces t.now.world) s.old }
    ensures fits { Fits (W.surfaces t.now.world) s.new }
    ensures seen { IsSeen (view_in W.surfaces t.now) ray.now result }
    ensures amounts { AreAmounts 65536 result }
{
    let light = shade(&t.world, &t.scene, s, ray, t.scene.levels, Fix(ONE));
    cut(&light)
}

/// The colour with each channel at most 1.
#[inline]
fn cut(light: &Rgb) -> Rgb
    requires { AreAmounts (2 ^ 30) light.now }
    ensures value { result ≡ cut light.now }
    ensures amounts { AreAmounts 65536 result }
{
    [
        at_most_one(light[0]),
        at_most_one(light[1]),
        at_most_one(light[2]),
    ]
}

#[inline]
fn at_most_one(channel: Fix) -> Fix
    requires { IsAmount (2 ^ 30) channel }
    ensures value { result ≡ int_min (pos 65536) channel }
    ensures amount { IsAmount 65536 result }
{
    Fix(channel.raw().min(ONE))
}

#[inline]
fn black() -> Rgb
    ensures value { result ≡ row_of (λ i. pos 0) }
    ensures amounts { AreAmounts 0 result }
{
    [Fix(0), Fix(0), Fix(0)]
}

/// Two colours together.
#[inline]
fn both(a: &Rgb, b: &Rgb) -> Rgb
    requires a { AreAmounts (2 ^ 30) a.now }
    requires b { AreAmounts (2 ^ 30) b.now }
    ensures { result ≡ row_of (λ i. component a.now i +ℤ component b.now i) }
{
    [plus(a[0], b[0]), plus(a[1], b[1]), plus(a[2], b[2])]
}

#[inline]
fn plus(a: Fix, b: Fix) -> Fix
    requires a { IsAmount (2 ^ 30) a }
    requires b { IsAmount (2 ^ 30) b }
    ensures { result ≡ a +ℤ b }
{
    Fix(a.raw() + b.raw())
}

/// The mean of n times n colours, from their sum.
fn mean(sum: &Rgb, n: u32) -> Rgb
    requires some { 1 ≤ n }
    requires few { n ≤ 9 }
    requires sum { AreAmounts (65536 * n * n) sum.now }
    ensures value { result ≡ row_of (λ i. rnd (component sum.now i) (pos (n * n))) }
    ensures amounts { AreAmounts 65536 result }
{
    [
        share(sum[0], n * n),
        share(sum[1], n * n),
        share(sum[2], n * n),
    ]
}

/// A channel's sum among so many colours.
fn share(sum: Fix, count: u32) -> Fix
    requires some { 1 ≤ count }
    requires few { count ≤ 81 }
    requires sum { IsAmount (65536 * count) sum }
    ensures value { result ≡ rnd sum (pos count) }
    ensures amount { IsAmount 65536 result }
{
    Fix(quotient(sum.raw(), count as i64))
}
