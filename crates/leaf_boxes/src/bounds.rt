// The boxes of leaves.
ghost use Rattle.std.specs.Prelude.{◌≡◌, ◌+◌, ◌^◌, ◌≤◌, true, unsigned_abs};
ghost use Rattle.fix_math.specs.Matrices.{IsMatrixWithin, IsRowWithin, is_matrix_within, is_row_within};
ghost use Rattle.xform.specs.Placing.{IsSpot};
ghost use Rattle.scene_model.specs.Solids.{IsLeaf};
ghost use Rattle.shapes.specs.Rays.{IsInWorld, Position};
ghost use Rattle.leaf_boxes.specs.Boxes.{IsInBox, box_at, box_of, lower_end, upper_end, world};
ghost use Rattle.leaf_boxes.specs.Holding.{leaf_holds};

use crate::ends::margin_of;
use crate::reach::Reach;
use fix_math::Fix;
use scene_model::Leaf;
use shapes::Point;
use xform::Spot;

/// A box along the world's axes: its lower and its upper corner, both of it, in units of 2^-32.
#[derive(Clone, Copy, Debug, PartialEq, Eq)]
pub struct Box3 {
    pub lo: Point,
    pub hi: Point,
}

/// A box that holds each point of the world at which the leaf does. A plane, a quadric and an inverse leaf
/// have the world, and so has a leaf whose transform's inverse is too far off.
pub fn leaf_box(leaf: &Leaf) -> Box3
    requires { IsLeaf leaf.now }
    ensures value { result ≡ box_of leaf.now }
    ensures inside { (p : Position) → IsInWorld p → leaf_holds leaf.now p ≡ true → IsInBox result p }
{
    made_box(leaf)
}

fn made_box(leaf: &Leaf) -> Box3
    requires { IsLeaf leaf.now }
    ensures { result ≡ box_of leaf.now }
{
    if leaf.inverse || !is_known(&leaf.spot.residual) {
        return whole_world();
    }
    match Reach::of(leaf) {
        Some(reach) => box_at(&leaf.spot, &reach),
        None => whole_world(),
    }
}

/// The box of the whole world.
pub fn whole_world() -> Box3
    ensures { result ≡ world }
{
    Box3 {
        lo: [-1 << 44, -1 << 44, -1 << 44],
        hi: [1 << 44, 1 << 44, 1 << 44],
    }
}

/// Whether the entries that tell how far a place is off are small enough to be multiplied.
fn is_known(residual: &[[i128; 3]; 3]) -> bool
    ensures { result ≡ is_matrix_within (2 ^ 78) residual.now }
{
    is_small(&residual[0]) && is_small(&residual[1]) && is_small(&residual[2])
}

fn is_small(row: &[i128; 3]) -> bool
    ensures { result ≡ is_row_within (2 ^ 78) row.now }
{
    row[0].unsigned_abs() <= 1 << 78
        && row[1].unsigned_abs() <= 1 << 78
        && row[2].unsigned_abs() <= 1 << 78
}

/// The box of all that lies between two corners along a spot's axes.
fn box_at(spot: &Spot, reach: &Reach) -> Box3
    requires spot { IsSpot spot.now }
    requires known { IsMatrixWithin (2 ^ 78) spot.now.residual }
    ensures { result ≡ box_at spot.now reach.now }
{
    let anchor = spot.anchor;
    let x = side(spot.e, &spot.m[0], &spot.residual[0], anchor.x, reach);
    let y = side(spot.e, &spot.m[1], &spot.residual[1], anchor.y, reach);
    let z = side(spot.e, &spot.m[2], &spot.residual[2], anchor.z, reach);
    Box3 {
        lo: [x.low, y.low, z.low],
        hi: [x.high, y.high, z.high],
    }
}

/// The two ends of a box along one axis.
#[derive(Clone, Copy)]
struct Stretch {
    low: i64,
    high: i64,
}

/// The ends along the axis of a row of the way back to the world.
fn side(e: u32, row: &[i64; 3], off: &[i128; 3], anchor: Fix, reach: &Reach) -> Stretch
    requires e { e ≤ 32 }
    requires row { IsRowWithin (2 ^ 46) row.now }
    requires off { IsRowWithin (2 ^ 78) off.now }
    requires anchor { unsigned_abs anchor ≤ 2 ^ 28 }
    ensures low { result.low ≡ lower_end e row.now off.now anchor reach.now }
    ensures high { result.high ≡ upper_end e row.now off.now anchor reach.now }
{
    let margin = margin_of(off);
    Stretch {
        low: reach.least(row).less(margin).below(32 + e, anchor),
        high: reach.greatest(row).more(margin).above(32 + e, anchor),
    }
}
