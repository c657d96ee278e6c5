// The rays of pixels. (Reference manual, camera)
ghost use Rattle.std.specs.Prelude.{◌≡◌, ◌≤◌, ◌<◌, ◌^◌, ◌*◌, pos, ◌+ℤ◌, ◌*ℤ◌, ◌≤ℤ◌, unsigned_abs};
ghost use Rattle.fix_math.specs.Matrices.{IsVectorWithin};
ghost use Rattle.fix_math.specs.Numbers.{rnd};
ghost use Rattle.scene_model.specs.Looks.{IsCamera};
ghost use Rattle.shapes.specs.Rays.{IsRayDirection};
ghost use Rattle.frame_trace.specs.PixelRays.{offset, sum, ray_at, along_row, up_column, pixel_ray_of, sub_ray_of};

use fix_math::{Fix, V3, rounded, unit};
use scene_model::Camera;
use shapes::Ray;

/// How many parts there may be for their middles to be found in 64 bits.
const FEW: u64 = 1 << 25;

/// The ray through the middle of a pixel, by its column and row from the left and from the top.
pub fn pixel_ray(c: &Camera, w: u32, h: u32, col: u32, row: u32) -> Ray
    requires camera { IsCamera c.now }
    requires column_within { col < w }
    requires row_within { row < h }
    ensures value { result ≡ pixel_ray_of c.now w h col row }
    ensures direction { IsRayDirection result.dir }
{
    let a = offset(&c.right, along_row(w, col), w as u64);
    let b = offset(&c.up, up_column(h, row), h as u64);
    ray_at(c, &a, &b)
}

/// The ray through the middle of one of n times n parts of a pixel: part j along the row, and k down the column.
pub fn sub_ray(c: &Camera, w: u32, h: u32, col: u32, row: u32, n: u32, j: u32, k: u32) -> Ray
    requires camera { IsCamera c.now }
    requires column_within { col < w }
    requires row_within { row < h }
    requires few { n ≤ 9 }
    requires j_within { j < n }
    requires k_within { k < n }
    ensures value { result ≡ sub_ray_of c.now w h col row n j k }
    ensures direction { IsRayDirection result.dir }
{
    let a = offset(&c.right, part_along_row(w, col, n, j), parts_of(w, n));
    let b = offset(&c.up, part_up_column(h, row, n, k), parts_of(h, n));
    ray_at(c, &a, &b)
}

#[inline]
fn along_row(width: u32, column: u32) -> i64
    requires within { column < width }
    ensures value { result ≡ along_row width column }
    ensures small { unsigned_abs result < width }
{
    2 * column as i64 + 1 - width as i64
}

#[inline]
fn up_column(height: u32, row: u32) -> i64
    requires within { row < height }
    ensures value { result ≡ up_column height row }
    ensures small { unsigned_abs result < height }
{
    height as i64 - (2 * row as i64 + 1)
}

/// The place of a pixel's part: the pixel's place is in halves of a pixel.
#[inline]
fn finer(pixel: i64, size: u32, n: u32, part: i64) -> i64
    requires pixel_small { unsigned_abs pixel < size }
    requires few { n ≤ 9 }
    requires part_small { unsigned_abs part < n }
    ensures value { result ≡ pixel *ℤ pos n +ℤ part }
    ensures small { unsigned_abs result < size * n }
{
    plus_part(times(pixel, n), part)
}

#[inline]
fn times(pixel: i64, n: u32) -> i64
    requires pixel_small { unsigned_abs pixel < 2 ^ 32 }
    requires few { n ≤ 9 }
    ensures value { result ≡ pixel *ℤ pos n }
    ensures small { unsigned_abs result ≤ 2 ^ 36 }
{
    pixel * n as i64
}

#[inline]
fn plus_part(pixel: i64, part: i64) -> i64
    requires pixel_small { unsigned_abs pixel ≤ 2 ^ 36 }
    requires part_small { unsigned_abs part < 9 }
    ensures { result ≡ pixel +ℤ part }
{
    pixel + part
}

/// The place of a part of a pixel, in halves of a part.
#[inline]
fn part_along_row(width: u32, column: u32, n: u32, j: u32) -> i64
    requires column_within { column < width }
    requires few { n ≤ 9 }
    requires j_within { j < n }
    ensures value { result ≡ along_row width column *ℤ pos n +ℤ along_row n j }
    ensures small { unsigned_abs result < width * n }
{
    finer(along_row(width, column), width, n, along_row(n, j))
}

#[inline]
fn part_up_column(height: u32, row: u32, n: u32, k: u32) -> i64
    requires row_within { row < height }
    requires few { n ≤ 9 }
    requires k_within { k < n }
    ensures value { result ≡ up_column height row *ℤ pos n +ℤ up_column n k }
    ensures small { unsigned_abs result < height * n }
{
    finer(up_column(height, row), height, n, up_column(n, k))
}

#[inline]
fn parts_of(size: u32, n: u32) -> u64
    requires few { n ≤ 9 }
    ensures value { result ≡ size * n }
    ensures small { result ≤ 2 ^ 36 }
{
    size as u64 * n as u64
}

/// The middle of a part along a side of the picture, from the picture's middle.
fn offset(side: &V3, place: i64, parts: u64) -> V3
    requires side { IsVectorWithin (2 ^ 36) side.now }
    requires place { unsigned_abs place < parts }
    requires parts { parts ≤ 2 ^ 36 }
    ensures value { result ≡ offset side.now place parts }
    ensures small { IsVectorWithin (2 ^ 36) result }
{
    V3 {
        x: share(side.x, place, parts),
        y: share(side.y, place, parts),
        z: share(side.z, place, parts),
    }
}

#[inline]
fn share(side: Fix, place: i64, parts: u64) -> Fix
    requires side { unsigned_abs side ≤ 2 ^ 36 }
    requires place { unsigned_abs place < parts }
    requires parts { parts ≤ 2 ^ 36 }
    ensures value { result ≡ rnd (side *ℤ place) (pos (2 * parts)) }
    ensures small { unsigned_abs result ≤ 2 ^ 36 }
{
    if parts <= FEW {
        near_share(side, place, parts)
    } else {
        far_share(side, place, parts)
    }
}

/// The same in 128 bits.
fn far_share(side: Fix, place: i64, parts: u64) -> Fix
    requires side { unsigned_abs side ≤ 2 ^ 36 }
    requires place { unsigned_abs place < parts }
    requires parts { parts ≤ 2 ^ 36 }
    ensures value { result ≡ rnd (side *ℤ place) (pos (2 * parts)) }
    ensures small { unsigned_abs result ≤ 2 ^ 36 }
{
    Fix::from_known(far_quotient(side, place, parts))
}

fn far_quotient(side: Fix, place: i64, parts: u64) -> i128
    requires side { unsigned_abs side ≤ 2 ^ 36 }
    requires place { unsigned_abs place < parts }
    requires parts { parts ≤ 2 ^ 36 }
    ensures { result ≡ rnd (side *ℤ place) (pos (2 * parts)) }
{
    rounded(product(side.raw(), place), twice(parts))
}

#[inline]
fn product(a: i64, b: i64) -> i128
    requires a_small { unsigned_abs a ≤ 2 ^ 36 }
    requires b_small { unsigned_abs b ≤ 2 ^ 36 }
    ensures value { result ≡ a *ℤ b }
    ensures small { unsigned_abs result ≤ 2 ^ 72 }
{
    a as i128 * b as i128
}

#[inline]
fn twice(parts: u64) -> i128
    requires { parts ≤ 2 ^ 36 }
    ensures value { result ≡ pos (2 * parts) }
    ensures small { unsigned_abs result ≤ 2 ^ 37 }
{
    2 * parts as i128
}

/// The same in 64 bits.
#[inline]
fn near_share(side: Fix, place: i64, parts: u64) -> Fix
    requires side { unsigned_abs side ≤ 2 ^ 36 }
    requires place { unsigned_abs place < parts }
    requires few { parts ≤ FEW }
    ensures value { result ≡ rnd (side *ℤ place) (pos (2 * parts)) }
    ensures small { unsigned_abs result ≤ 2 ^ 36 }
{
    Fix(near_quotient(side, place, parts))
}

#[inline]
fn near_quotient(side: Fix, place: i64, parts: u64) -> i64
    requires side { unsigned_abs side ≤ 2 ^ 36 }
    requires place { unsigned_abs place < parts }
    requires few { parts ≤ FEW }
    ensures { result ≡ rnd (side *ℤ place) (pos (2 * parts)) }
{
    quotient(near_product(side.raw(), place), near_twice(parts))
}

#[inline]
pub(crate) fn quotient(dividend: i64, divisor: i64) -> i64
    requires dividend_small { unsigned_abs dividend ≤ 2 ^ 61 }
    requires divisor_some { pos 1 ≤ℤ divisor }
    requires divisor_small { unsigned_abs divisor ≤ 2 ^ 26 }
    ensures { result ≡ rnd dividend divisor }
{
    (dividend + dividend + divisor).div_euclid(divisor + divisor)
}

#[inline]
fn near_product(a: i64, b: i64) -> i64
    requires a_small { unsigned_abs a ≤ 2 ^ 36 }
    requires b_small { unsigned_abs b ≤ 2 ^ 25 }
    ensures value { result ≡ a *ℤ b }
    ensures small { unsigned_abs result ≤ 2 ^ 61 }
{
    a * b
}

#[inline]
fn near_twice(parts: u64) -> i64
    requires { parts ≤ 2 ^ 25 }
    ensures value { result ≡ pos (2 * parts) }
    ensures small { unsigned_abs result ≤ 2 ^ 26 }
{
    2 * parts as i64
}

fn ray_at(c: &Camera, a: &V3, b: &V3) -> Ray
    requires camera { IsCamera c.now }
    requires a { IsVectorWithin (2 ^ 36) a.now }
    requires b { IsVectorWithin (2 ^ 36) b.now }
    ensures value { result ≡ ray_at c.now a.now b.now }
    ensures direction { IsRayDirection result.dir }
{
    if c.orthographic {
        Ray {
            origin: sum(&sum(&c.location, a), b),
            dir: unit(c.direction),
        }
    } else {
        Ray {
            origin: c.location,
            dir: unit(sum(&sum(&c.direction, a), b)),
        }
    }
}

#[inline]
fn sum(v: &V3, w: &V3) -> V3
    requires v { IsVectorWithin (2 ^ 40) v.now }
    requires w { IsVectorWithin (2 ^ 40) w.now }
    ensures value { result ≡ sum v.now w.now }
    ensures small { IsVectorWithin (2 ^ 41) result }
{
    V3 {
        x: plus(v.x, w.x),
        y: plus(v.y, w.y),
        z: plus(v.z, w.z),
    }
}

#[inline]
fn plus(a: Fix, b: Fix) -> Fix
    requires a { unsigned_abs a ≤ 2 ^ 40 }
    requires b { unsigned_abs b ≤ 2 ^ 40 }
    ensures value { result ≡ a +ℤ b }
    ensures small { unsigned_abs result ≤ 2 ^ 41 }
{
    Fix::from_known(a.wide() + b.wide())
}
