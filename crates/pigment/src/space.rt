// Points of the world in the space of a pattern.
ghost use Rattle.std.specs.Prelude.{◌≡◌, ◌≤◌, ◌^◌, pos, ◌-ℤ◌, ◌*ℤ◌, unsigned_abs};
ghost use Rattle.fix_math.specs.Matrices.{component, row_of, IsRowWithin, IsVectorWithin};
ghost use Rattle.fix_math.specs.Numbers.{shortened};
ghost use Rattle.fix_math.specs.Vectors.{dot};
ghost use Rattle.xform.specs.Transforms.{IsPlaced};
ghost use Rattle.pigment.specs.Spaces.{seen_from, in_pattern};

use fix_math::{Fix, V3, rounded_shift, row_dot};
use xform::Xform;

/// A point of the world by its coordinates, in units of 2^-32.
pub type Point = [i64; 3];

/// The point in the space that a transform leads from.
pub fn in_pattern(x: &Xform, at: &Point) -> V3
    requires placed { IsPlaced x.now }
    requires world { IsRowWithin (2 ^ 44) at.now }
    ensures value { result ≡ in_pattern x.now at.now }
    ensures small { IsVectorWithin (2 ^ 43) result }
{
    let seen = seen_from(&x.anchor, at);
    V3 {
        x: coordinate(&x.n[0], &seen),
        y: coordinate(&x.n[1], &seen),
        z: coordinate(&x.n[2], &seen),
    }
}

#[inline]
fn seen_from(anchor: &V3, at: &Point) -> [i64; 3]
    requires near { IsVectorWithin (2 ^ 28) anchor.now }
    requires world { IsRowWithin (2 ^ 44) at.now }
    ensures value { result ≡ row_of (seen_from anchor.now at.now) }
    ensures small { IsRowWithin (2 ^ 45) result }
{
    [
        offset(at[0], anchor.x),
        offset(at[1], anchor.y),
        offset(at[2], anchor.z),
    ]
}

#[inline]
fn offset(at: i64, anchor: Fix) -> i64
    requires world { unsigned_abs at ≤ 2 ^ 44 }
    requires near { unsigned_abs anchor ≤ 2 ^ 28 }
    ensures value { result ≡ at -ℤ pos 65536 *ℤ anchor }
    ensures small { unsigned_abs result ≤ 2 ^ 45 }
{
    at - 65536 * anchor.raw()
}

#[inline]
fn coordinate(row: &[i64; 3], seen: &[i64; 3]) -> Fix
    requires row { IsRowWithin (2 ^ 44) row.now }
    requires seen { IsRowWithin (2 ^ 45) seen.now }
    ensures value { result ≡ shortened (dot (component row.now) (component seen.now)) 48 }
    ensures small { unsigned_abs result ≤ 2 ^ 43 }
{
    Fix::from_known(rounded_shift(row_dot(row, seen), 48))
}
