// Placing an object in the world, with bits enough for its extent.
ghost use Rattle.std.specs.Prelude.{◌≡◌, ℕ, ◌+◌, ◌*◌, ◌≤◌, ◌<◌, ◌^◌, pos, ◌-ℤ◌, ◌≤ℤ◌, unsigned_abs, IfOk};
ghost use Rattle.fix_math.specs.Directions.{unit_of};
ghost use Rattle.fix_math.specs.Matrices.{
  component,
  along,
  vector,
  row_at,
  row_of,
  IsRowWithin,
  IsMatrixWithin,
  IsVectorWithin,
};
ghost use Rattle.fix_math.specs.Vectors.{dot, cross_of};
ghost use Rattle.xform.specs.Placing.{
  exponent_of,
  to_object,
  to_world,
  residual_of,
  residual_entry,
  in_world,
  spot_at,
  spot_of,
  least_axis,
  axis_frame_of,
  IsSpot,
};
ghost use Rattle.xform.specs.Transforms.{identity, IsPlaced};

use crate::rows::{WideRows, flipped, is_small, known_vector, narrow, product, product_by_flipped};
use crate::steps::point;
use crate::transform::{Frame, Spot, Xform, XformFault};
use fix_math::{Fix, Rows, V3, cross, raws, row_dot, unit};

/// The axes of the world.
pub fn identity_frame() -> Frame
    ensures value { result ≡ identity (pos 65536) }
    ensures small { IsMatrixWithin 65537 result }
{
    [[65536, 0, 0], [0, 65536, 0], [0, 0, 65536]]
}

/// The place of an object with this frame, middle and extent. The only fault is AnchorRange.
pub fn spot(x: &Xform, frame: &Frame, c: V3, extent: i64) -> Result<Spot, XformFault>
    requires placed { IsPlaced x.now }
    requires frame_small { IsMatrixWithin 65537 frame.now }
    requires extent_low { pos 0 ≤ℤ extent }
    requires extent_high { extent ≤ℤ pos (2 ^ 30) }
    ensures value { result ≡ spot_of x.now frame.now c (unsigned_abs extent) }
    ensures spot { IfOk result IsSpot }
    ensures e { IfOk result (λ spot. spot.e ≡ exponent_of (unsigned_abs extent)) }
    ensures room { IfOk result (λ spot. unsigned_abs extent * 2 ^ spot.e < 2 ^ 45) }
{
    match in_world(&point(x, c)) {
        Ok(anchor) => Ok(spot_with(x, frame, anchor, exponent(extent.unsigned_abs()))),
        Err(fault) => Err(fault),
    }
}

fn in_world(p: &[i128; 3]) -> Result<V3, XformFault>
    ensures value { result ≡ in_world (vector (component p.now)) }
    ensures small { IfOk result (λ v. IsVectorWithin (2 ^ 28) v) }
{
    if !is_small(p, 1 << 28) {
        return Err(XformFault::AnchorRange);
    }
    Ok(known_vector(p))
}

// The scaling that the digits of an extent leave room for.
fn exponent(extent: u64) -> u32
    requires { extent ≤ 2 ^ 30 }
    ensures value { result ≡ exponent_of extent }
    ensures least { 14 ≤ result }
    ensures most { result ≤ 32 }
{
    let digits = 64 - extent.leading_zeros();
    (45 - digits).min(32)
}

fn spot_with(x: &Xform, frame: &Frame, anchor: V3, e: u32) -> Spot
    requires placed { IsPlaced x.now }
    requires frame_small { IsMatrixWithin 65537 frame.now }
    requires least { 14 ≤ e }
    requires most { e ≤ 32 }
    requires anchor_small { IsVectorWithin (2 ^ 28) anchor }
    ensures value { result ≡ spot_at x.now frame.now anchor e }
    ensures spot { IsSpot result }
{
    let n = to_object(x, frame, e);
    let m = to_world(x, frame);
    let residual = residual_rows(&m, &n, e);
    Spot {
        anchor,
        e,
        n,
        m,
        residual,
    }
}

fn to_object(x: &Xform, frame: &Frame, e: u32) -> Rows
    requires placed { IsPlaced x.now }
    requires frame_small { IsMatrixWithin 65537 frame.now }
    requires least { 14 ≤ e }
    requires most { e ≤ 32 }
    ensures value { result ≡ to_object x.now frame.now e }
    ensures small { IsMatrixWithin (2 ^ 46) result }
{
    narrow(&product(frame, &x.n, 48 - e))
}

fn to_world(x: &Xform, frame: &Frame) -> Rows
    requires placed { IsPlaced x.now }
    requires frame_small { IsMatrixWithin 65537 frame.now }
    ensures value { result ≡ to_world x.now frame.now }
    ensures small { IsMatrixWithin (2 ^ 46) result }
{
    narrow(&product_by_flipped(&x.m, frame, 16))
}

fn residual_rows(m: &Rows, n: &Rows, e: u32) -> WideRows
    requires m_small { IsMatrixWithin (2 ^ 46) m.now }
    requires most { e ≤ 32 }
    ensures { result ≡ residual_of e m.now n.now }
{
    let unit = whole(e);
    let columns = flipped(n);
    [
        residual_row(&[unit, 0, 0], &m[0], &columns),
        residual_row(&[0, unit, 0], &m[1], &columns),
        residual_row(&[0, 0, unit], &m[2], &columns),
    ]
}

fn residual_row(whole: &[i128; 3], a: &[i64; 3], columns: &Rows) -> [i128; 3]
    requires whole_small { IsRowWithin (2 ^ 64) whole.now }
    requires small { IsRowWithin (2 ^ 46) a.now }
    ensures { result ≡ row_of (residual_entry whole.now a.now columns.now) }
{
    [
        less_products(whole[0], a, &columns[0]),
        less_products(whole[1], a, &columns[1]),
        less_products(whole[2], a, &columns[2]),
    ]
}

fn less_products(whole: i128, a: &[i64; 3], b: &[i64; 3]) -> i128
    requires whole_small { unsigned_abs whole ≤ 2 ^ 64 }
    requires small { IsRowWithin (2 ^ 46) a.now }
    ensures { result ≡ whole -ℤ dot (component a.now) (component b.now) }
{
    minus(whole, row_dot(a, b))
}

fn minus(a: i128, b: i128) -> i128
    requires a_small { unsigned_abs a ≤ 2 ^ 64 }
    requires b_small { unsigned_abs b < 2 ^ 125 }
    ensures { result ≡ a -ℤ b }
{
    a - b
}

// 1 with 32 + e fraction bits.
fn whole(e: u32) -> i128
    requires { e ≤ 32 }
    ensures value { result ≡ pos (2 ^ (32 + e)) }
    ensures small { unsigned_abs result ≤ 2 ^ 64 }
{
    1 << (32 + e)
}

/// The frame of an axis: the third row is the axis at length 1 unit, and the others stand across
/// it and each other.
#[tactic(auto, unfolding(crate::specs::Placing::axis_frame_of))]
pub fn axis_frame(v: V3) -> Frame
    ensures value { result ≡ axis_frame_of v }
    ensures axis { row_at result 2 ≡ row_of (along (unit_of v)) }
    ensures small { IsMatrixWithin 65537 result }
{
    let axis = unit(v);
    let first = unit(small_cross(&least_axis(&axis), &axis));
    let second = unit(small_cross(&axis, &first));
    [raws(&first), raws(&second), raws(&axis)]
}

// The cross product of two directions, exactly.
fn small_cross(a: &V3, b: &V3) -> V3
    requires a_small { IsVectorWithin 65536 a.now }
    requires b_small { IsVectorWithin 65536 b.now }
    ensures { result ≡ cross_of a.now b.now }
{
    known_vector(&cross(a, b))
}

// 1 unit along the axis on which a is least in size, the first of equal ones.
fn least_axis(a: &V3) -> V3
    ensures value { result ≡ least_axis a.now }
    ensures small { IsVectorWithin 65536 result }
{
    let (x, y, z) = (size(a.x), size(a.y), size(a.z));
    if x <= y.min(z) {
        V3 {
            x: Fix(65536),
            y: Fix(0),
            z: Fix(0),
        }
    } else if y <= z {
        V3 {
            x: Fix(0),
            y: Fix(65536),
            z: Fix(0),
        }
    } else {
        V3 {
            x: Fix(0),
            y: Fix(0),
            z: Fix(65536),
        }
    }
}

fn size(number: Fix) -> u64
    ensures { result ≡ unsigned_abs number }
{
    number.raw().unsigned_abs()
}
