// How far solids reach along their own axes.
ghost use Rattle.std.specs.Prelude.{◌≡◌, ◌≤◌, ◌<◌, ◌+◌, ◌*◌, ◌^◌, pos, neg_ℤ, unsigned_abs, int_le, if◌then◌else◌};
ghost use Rattle.fix_math.specs.Matrices.{IsRowWithin, component, row_of};
ghost use Rattle.fix_math.specs.Vectors.{dot};
ghost use Rattle.scene_model.specs.Solids.{IsLeaf};
ghost use Rattle.shapes.specs.Faces.{long};
ghost use Rattle.std.specs.Int.{int_max};
ghost use Rattle.leaf_boxes.specs.Boxes.{ball_reach, block_reach, corner, greatest, least, pipe_reach, reach_of};

use crate::ends::End;
use fix_math::{Fix, row_dot};
use scene_model::{Leaf, Primitive};
use xform::Spot;

/// The corners between which a solid lies along its own axes, in the measure of its spot.
#[derive(Clone, Copy)]
pub struct Reach {
    pub low: [i64; 3],
    pub high: [i64; 3],
}

impl Reach {
    /// The corners of a leaf's solid; none where it has no end along some axis.
    pub fn of(leaf: &Leaf) -> Option<Reach>
        requires { IsLeaf leaf.now }
        ensures { result ≡ reach_of leaf.now.prim leaf.now.spot }
    {
        let spot = &leaf.spot;
        match &leaf.prim {
            Primitive::Sphere { r } => Some(Reach::ball(length(spot, *r))),
            Primitive::Box { size } => Some(Reach::block(
                length(spot, size.x),
                length(spot, size.y),
                length(spot, size.z),
            )),
            Primitive::Cylinder { r, h, uncapped: _ } => {
                Some(Reach::pipe(length(spot, *r), length(spot, *h)))
            }
            Primitive::Cone {
                ra,
                rb,
                h,
                axis: _,
                uncapped: _,
            } => Some(Reach::pipe(widest(spot, *ra, *rb), length(spot, *h))),
            Primitive::Plane { normal: _, d: _ } => None,
            Primitive::Quadric { c: _ } => None,
        }
    }

    fn ball(r: i64) -> Reach
        requires { unsigned_abs r ≤ 2 ^ 61 }
        ensures { result ≡ ball_reach r }
    {
        let back = negated(r);
        Reach {
            low: [back, back, back],
            high: [r, r, r],
        }
    }

    fn block(x: i64, y: i64, z: i64) -> Reach
        ensures { result ≡ block_reach x y z }
    {
        Reach {
            low: [0, 0, 0],
            high: [x, y, z],
        }
    }

    fn pipe(r: i64, h: i64) -> Reach
        requires { unsigned_abs r ≤ 2 ^ 61 }
        ensures { result ≡ pipe_reach r h }
    {
        let back = negated(r);
        Reach {
            low: [back, back, 0],
            high: [r, r, h],
        }
    }

    /// The least sum of products of a row with a point between the corners.
    pub fn least(&self, row: &[i64; 3]) -> End
        requires { IsRowWithin (2 ^ 46) row.now }
        ensures value { result.value ≡ least row.now self.now }
        ensures small { unsigned_abs result.value < 2 ^ 125 }
    {
        End {
            value: row_dot(row, &corner(row, &self.low, &self.high)),
        }
    }

    /// The greatest one.
    pub fn greatest(&self, row: &[i64; 3]) -> End
        requires { IsRowWithin (2 ^ 46) row.now }
        ensures value { result.value ≡ greatest row.now self.now }
        ensures small { unsigned_abs result.value < 2 ^ 125 }
    {
        End {
            value: row_dot(row, &corner(row, &self.high, &self.low)),
        }
    }
}

/// The components that belong to a row's signs: the first ones where it isn't below 0.
fn corner(row: &[i64; 3], first: &[i64; 3], second: &[i64; 3]) -> [i64; 3]
    ensures { result ≡ row_of (corner row.now first.now second.now) }
{
    [
        by_sign(row[0], first[0], second[0]),
        by_sign(row[1], first[1], second[1]),
        by_sign(row[2], first[2], second[2]),
    ]
}

fn by_sign(entry: i64, first: i64, second: i64) -> i64
    ensures { result ≡ if int_le (pos 0) entry then first else second }
{
    if 0 <= entry { first } else { second }
}

/// A raw length in the measure of a spot.
fn length(spot: &Spot, a: Fix) -> i64
    requires e { spot.now.e ≤ 32 }
    requires room { unsigned_abs a * 2 ^ spot.now.e < 2 ^ 45 }
    ensures value { result ≡ long spot.now a }
    ensures small { unsigned_abs result ≤ 2 ^ 61 }
{
    a.raw() * scale(spot.e)
}

/// One raw number in the measure of a spot.
fn scale(e: u32) -> i64
    requires { e ≤ 32 }
    ensures { result ≡ pos (2 ^ (e + 16)) }
{
    1 << (e + 16)
}

/// The greater of two raw lengths in that measure.
fn widest(spot: &Spot, a: Fix, b: Fix) -> i64
    requires e { spot.now.e ≤ 32 }
    requires a_room { unsigned_abs a * 2 ^ spot.now.e < 2 ^ 45 }
    requires b_room { unsigned_abs b * 2 ^ spot.now.e < 2 ^ 45 }
    ensures value { result ≡ long spot.now (int_max a b) }
    ensures small { unsigned_abs result ≤ 2 ^ 61 }
{
    if b.raw() < a.raw() {
        length(spot, a)
    } else {
        length(spot, b)
    }
}

fn negated(value: i64) -> i64
    requires { unsigned_abs value ≤ 2 ^ 61 }
    ensures { result ≡ neg_ℤ value }
{
    -value
}
