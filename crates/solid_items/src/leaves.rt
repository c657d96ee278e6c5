// Solids in the world.
ghost use Rattle.std.specs.Prelude.{◌≡◌, IfOk, pos, unsigned_abs, ◌≤ℤ◌, max};
ghost use Rattle.scene_model.specs.Amounts.{IsIor};
ghost use Rattle.scene_model.specs.Solids.{IsLeaf, extent_of};
ghost use Rattle.xform.specs.Transforms.{IsPlaced};
ghost use Rattle.xform.specs.Placing.{IsSpot};
ghost use Rattle.solid_items.specs.Solids.{IsSound, spot_in, leaf_with, leaf_in};

use crate::draft::{LeafRole, Misplaced, SolidDraft};
use fix_math::Fix;
use scene_model::{Leaf, Primitive};
use xform::{Spot, Xform, XformFault, spot};

fn size(a: Fix) -> i64
    ensures value { unsigned_abs result ≡ unsigned_abs a }
    ensures low { pos 0 ≤ℤ result }
{
    a.raw().abs()
}

fn greater(a: i64, b: i64) -> i64
    requires a_low { pos 0 ≤ℤ a }
    requires b_low { pos 0 ≤ℤ b }
    ensures value { unsigned_abs result ≡ max (unsigned_abs a) (unsigned_abs b) }
    ensures low { pos 0 ≤ℤ result }
{
    if a < b { b } else { a }
}

/// How far a solid reaches from its middle along its axes, at most.
fn extent(prim: &Primitive) -> i64
    ensures value { unsigned_abs result ≡ extent_of prim.now }
    ensures low { pos 0 ≤ℤ result }
{
    match prim {
        Primitive::Sphere { r } => size(*r),
        Primitive::Box { size: sides } => greater(
            greater(size(sides.x), size(sides.y)),
            size(sides.z),
        ),
        Primitive::Plane { normal: _, d } => size(*d),
        Primitive::Cylinder { r, h, uncapped: _ } => greater(size(*r), size(*h)),
        Primitive::Cone {
            ra,
            rb,
            h,
            axis: _,
            uncapped: _,
        } => greater(greater(size(*ra), size(*rb)), size(*h)),
        Primitive::Quadric { c: _ } => 0,
    }
}

/// The place of a solid that is moved by a transform. The only fault is AnchorRange.
fn solid_place(solid: &SolidDraft, x: &Xform) -> Result<Spot, XformFault>
    requires sound { IsSound solid.now }
    requires placed { IsPlaced x.now }
    ensures value { result ≡ spot_in solid.now x.now }
    ensures spot { IfOk result IsSpot }
{
    spot(x, &solid.frame, solid.middle, extent(&solid.prim))
}

fn leaf_with(solid: &SolidDraft, x: &Xform, role: &LeafRole, spot: Spot) -> Leaf
    ensures { result ≡ leaf_with solid.now x.now role.now spot }
{
    Leaf {
        prim: solid.prim,
        xform: *x,
        spot,
        inverse: role.inverse,
        negated: role.negated,
        object: role.object,
        texture: role.texture,
        ior: role.ior,
    }
}

/// A solid in the world, moved by a transform.
pub fn leaf_place(solid: &SolidDraft, x: &Xform, role: &LeafRole) -> Result<Leaf, Misplaced>
    requires sound { IsSound solid.now }
    requires placed { IsPlaced x.now }
    requires ior { IsIor role.now.ior }
    ensures value { result ≡ leaf_in solid.now x.now role.now }
    ensures valid { IfOk result IsLeaf }
{
    match solid_place(solid, x) {
        Ok(spot) => Ok(leaf_with(solid, x, role, spot)),
        Err(_fault) => Err(Misplaced::Outside(solid.at)),
    }
}
