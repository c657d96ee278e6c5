// Boxes of raw numbers.
ghost use Rattle.std.specs.Prelude.{◌≡◌, ℤ, pos, ◌<◌, ◌≤◌, ◌^◌, ◌*ℤ◌, ◌≤ℤ◌, unsigned_abs};
ghost use Rattle.shapes.specs.Rays.{IsInWorld, Position};
ghost use Rattle.fix_math.specs.Matrices.{component};
ghost use Rattle.leaf_boxes.specs.Boxes.{IsFromTo, IsInBox};
ghost use Rattle.box_probe.specs.Boxes.{IsBetween, IsInBounds, corner_of};

use leaf_boxes::Box3;
use shapes::Point;

/// How far the world reaches along each axis, in units of 2^-32.
const WORLD: i64 = 1 << 44;

/// A box along the world's axes by its two raw numbers along each, the lower first. Both belong to it.
#[derive(Clone, Copy, Debug, PartialEq, Eq)]
pub struct Bounds {
    pub x: [i32; 2],
    pub y: [i32; 2],
    pub z: [i32; 2],
}

/// An axis of the world.
#[derive(Clone, Copy)]
pub enum Axis {
    X,
    Y,
    Z,
}

impl Axis {
    /// The bit of an octant's number that is set where rays go down along the axis.
    pub fn mask(self) -> u8 {
        match self {
            Axis::X => 1,
            Axis::Y => 2,
            Axis::Z => 4,
        }
    }
}

impl Bounds {
    /// The box of the whole world.
    pub fn world() -> Bounds {
        Bounds {
            x: [-1 << 28, 1 << 28],
            y: [-1 << 28, 1 << 28],
            z: [-1 << 28, 1 << 28],
        }
    }

    /// Whether the box is the whole world's.
    pub fn is_world(&self) -> bool {
        *self == Bounds::world()
    }

    /// Twice the middle along an axis.
    pub fn middle(&self, axis: Axis) -> i64 {
        let ends = match axis {
            Axis::X => &self.x,
            Axis::Y => &self.y,
            Axis::Z => &self.z,
        };
        ends[0] as i64 + ends[1] as i64
    }

    /// The box of the whole numbers of raw around another; what of it is outside of the world is left out.
    pub fn around(inner: &Box3) -> Bounds
        ensures { (p : Position) → IsInWorld p → IsInBox inner.now p → IsInBounds result p }
    {
        Bounds {
            x: rounded(inner, 0),
            y: rounded(inner, 1),
            z: rounded(inner, 2),
        }
    }

    /// The box around two.
    pub fn hull(&self, other: &Bounds) -> Bounds
        ensures first { (p : Position) → IsInBounds self.now p → IsInBounds result p }
        ensures second { (p : Position) → IsInBounds other.now p → IsInBounds result p }
    {
        Bounds {
            x: joined(&self.x, &other.x),
            y: joined(&self.y, &other.y),
            z: joined(&self.z, &other.z),
        }
    }
}

/// A box's stretch along an axis, rounded outward to raw numbers.
fn rounded(inner: &Box3, axis: usize) -> [i32; 2]
    requires { axis < 3 }
    ensures { (z : ℤ) → unsigned_abs z ≤ 2 ^ 44
        → IsFromTo (component inner.now.lo axis) (component inner.now.hi axis) z
        → IsBetween (corner_of result 0) (corner_of result 1) z }
{
    let low = entry(&inner.lo, axis);
    let high = entry(&inner.hi, axis);
    [below(low), above(high)]
}

fn entry(corner: &Point, axis: usize) -> i64
    requires { axis < 3 }
    ensures { result ≡ component corner.now axis }
{
    corner[axis]
}

/// The greatest raw number that is not above a coordinate, in the world.
fn below(z: i64) -> i32
    ensures { (p : ℤ) → unsigned_abs p ≤ 2 ^ 44 → z ≤ℤ p → (pos 65536 *ℤ result) ≤ℤ p }
{
    z.clamp(-WORLD, WORLD).div_euclid(65536) as i32
}

/// The least raw number that is not below a coordinate, in the world.
fn above(z: i64) -> i32
    ensures { (p : ℤ) → unsigned_abs p ≤ 2 ^ 44 → p ≤ℤ z → p ≤ℤ (pos 65536 *ℤ result) }
{
    raised(cut(z)) as i32
}

/// A coordinate, or the world's end on its side.
fn cut(z: i64) -> i64
    ensures above { (p : ℤ) → unsigned_abs p ≤ 2 ^ 44 → p ≤ℤ z → p ≤ℤ result }
    ensures small { unsigned_abs result ≤ 2 ^ 44 }
{
    z.clamp(-WORLD, WORLD)
}

/// A coordinate as a raw number, rounded up.
fn raised(z: i64) -> i64
    requires { unsigned_abs z ≤ 2 ^ 44 }
    ensures above { z ≤ℤ (pos 65536 *ℤ result) }
    ensures small { unsigned_abs result ≤ 2 ^ 28 }
{
    (z + 65535).div_euclid(65536)
}

/// The stretch around two.
fn joined(a: &[i32; 2], b: &[i32; 2]) -> [i32; 2]
    ensures first { (z : ℤ) → IsBetween (corner_of a.now 0) (corner_of a.now 1) z
        → IsBetween (corner_of result 0) (corner_of result 1) z }
    ensures second { (z : ℤ) → IsBetween (corner_of b.now 0) (corner_of b.now 1) z
        → IsBetween (corner_of result 0) (corner_of result 1) z }
{
    [lesser(a[0], b[0]), greater(a[1], b[1])]
}

fn lesser(a: i32, b: i32) -> i32
    ensures first { result ≤ℤ a }
    ensures second { result ≤ℤ b }
{
    if a < b { a } else { b }
}

fn greater(a: i32, b: i32) -> i32
    ensures first { a ≤ℤ result }
    ensures second { b ≤ℤ result }
{
    if a < b { b } else { a }
}
