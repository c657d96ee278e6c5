// The boxes of shapes, from those of their leaves.
ghost use Rattle.std.specs.Prelude.{◌≡◌, ℕ, Bool, true, map};
ghost use Rattle.std.specs.Int.{int_max, int_min};
ghost use Rattle.fix_math.specs.Matrices.{component, row_of};
ghost use Rattle.shapes.specs.Rays.{IsInWorld, Position};
ghost use Rattle.leaf_boxes.specs.Boxes.{IsInBox};
ghost use Rattle.leaf_boxes.specs.Groups.{AreHeld, box_numbered, common, hull, shape_box_of, with_box};
ghost use Rattle.leaf_boxes.specs.Holding.{shape_holds};

use crate::bounds::{Box3, whole_world};
use crate::boxed::Boxed;
use scene_model::{Op, Shape};
use shapes::Point;

/// The box of a shape, from the boxes of the leaves by their numbers. It holds each point of the world at
/// which the shape holds, if so do the boxes of its leaves.
pub fn shape_box<L: Boxed>(shape: &Shape, leaves: &[L]) -> Box3
    ensures value { result ≡ shape_box_of (map L.extent leaves.now) shape.now }
    ensures inside { (leaf : ℕ → Bool) (p : Position) → IsInWorld p → AreHeld leaf (map L.extent leaves.now) p
        → shape_holds leaf shape.now ≡ true → IsInBox result p }
{
    match shape {
        Shape::Leaf(number) => numbered(leaves, *number),
        Shape::Group { op, parts, inverse } => {
            if *inverse {
                return whole_world();
            }
            let mut all = whole_world();
            for (index, part) in parts.iter().enumerate() {
                let found = shape_box(part, leaves);
                all = if index == 0 {
                    found
                } else {
                    all.with(*op, &found)
                };
            }
            all
        }
    }
}

/// The box of a leaf's number; of a number that no leaf has the world.
fn numbered<L: Boxed>(leaves: &[L], number: u32) -> Box3
    ensures { result ≡ box_numbered (map L.extent leaves.now) number }
{
    match leaves.get(number as usize) {
        Some(leaf) => leaf.bounds(),
        None => whole_world(),
    }
}

impl Box3 {
    /// The box of a group's parts with one part more.
    fn with(&self, op: Op, part: &Box3) -> Box3
        ensures { result ≡ with_box op self.now part.now }
    {
        match op {
            Op::Union => hull(self, part),
            Op::Merge => hull(self, part),
            Op::Intersection => common(self, part),
            Op::Difference => *self,
        }
    }
}

/// The box around two.
fn hull(a: &Box3, b: &Box3) -> Box3
    ensures { result ≡ hull a.now b.now }
{
    let lo = lesser(&a.lo, &b.lo);
    let hi = greater(&a.hi, &b.hi);
    Box3 { lo, hi }
}

/// What two boxes have in common.
fn common(a: &Box3, b: &Box3) -> Box3
    ensures { result ≡ common a.now b.now }
{
    let lo = greater(&a.lo, &b.lo);
    let hi = lesser(&a.hi, &b.hi);
    Box3 { lo, hi }
}

fn lesser(a: &Point, b: &Point) -> Point
    ensures { result ≡ row_of (λ i. int_min (component a.now i) (component b.now i)) }
{
    [
        least_of(a[0], b[0]),
        least_of(a[1], b[1]),
        least_of(a[2], b[2]),
    ]
}

fn greater(a: &Point, b: &Point) -> Point
    ensures { result ≡ row_of (λ i. int_max (component a.now i) (component b.now i)) }
{
    [
        greatest_of(a[0], b[0]),
        greatest_of(a[1], b[1]),
        greatest_of(a[2], b[2]),
    ]
}

fn least_of(a: i64, b: i64) -> i64
    ensures { result ≡ int_min a b }
{
    a.min(b)
}

fn greatest_of(a: i64, b: i64) -> i64
    ensures { result ≡ int_max a b }
{
    a.max(b)
}
