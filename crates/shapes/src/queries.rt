// What is asked of a solid at a point or along a ray.
ghost use Rattle.std.specs.Prelude.{◌≡◌, ◌↔◌, ℕ, Some, true, false};
ghost use Rattle.scene_model.specs.Solids.{IsLeaf};
ghost use Rattle.shapes.specs.Faces.{all_hold, faces_of, first_failing};
ghost use Rattle.shapes.specs.Growths.{solid_outward};
ghost use Rattle.shapes.specs.Outward.{outward_of, unit_towards};
ghost use Rattle.shapes.specs.Rays.{IsInWorld, IsRayDirection, Position, point_at, position_of};
ghost use Rattle.shapes.specs.Rows.{IsInRanges, IsInOrder};
ghost use Rattle.shapes.specs.Solids.{solid_faces, is_uncapped};

use crate::body::Solid;
use crate::path::Path;
use crate::range_pairs::Ranges;
use crate::ray::{Point, Ray};
use fix_math::V3;
use scene_model::Leaf;

/// The solid of a leaf, with all computed that depends on the leaf alone.
pub fn solid(leaf: &Leaf) -> Solid
    requires { IsLeaf leaf.now }
    ensures faces { (p : Position) → solid_faces result p ≡ faces_of leaf.now p }
    ensures normals { (p : Position) (face : ℕ) → solid_outward result p face ≡ outward_of leaf.now p face }
    ensures ends { result.uncapped ≡ is_uncapped leaf.now.prim }
{
    Solid::of(leaf)
}

/// Whether the solid holds at a point of the world.
pub fn inside(s: &Solid, p: Point) -> bool
    requires { IsInWorld (position_of p) }
    ensures { result ≡ all_hold (solid_faces s.now (position_of p)) }
{
    s.failing_face(&p).is_none()
}

/// The first face that doesn't hold at a point of the world at which the solid doesn't.
pub fn face(s: &Solid, outer: Point) -> u8
    requires world { IsInWorld (position_of outer) }
    requires outside { all_hold (solid_faces s.now (position_of outer)) ≡ false }
    ensures { Some result ≡ first_failing (solid_faces s.now (position_of outer)) }
{
    s.failing_face(&outer).unwrap_or(0)
}

/// The numbers of a ray in the world at which the solid holds, for a ray that begins in the world.
pub fn ranges(s: &Solid, ray: &Ray) -> Ranges
    requires direction { IsRayDirection ray.now.dir }
    requires origin { IsInWorld (point_at ray.now 0) }
    ensures numbers { (t : ℕ) → IsInRanges result t
        ↔ (IsInWorld (point_at ray.now t) × (all_hold (solid_faces s.now (point_at ray.now t)) ≡ true)) }
    ensures order { IsInOrder result }
{
    match Path::new(ray) {
        Some(path) => s.ranges(&path),
        None => Ranges::none(),
    }
}

/// The direction out of a face at a point of the solid, with the length of 1 unit. A number behind the last
/// face's counts as the last.
pub fn normal(s: &Solid, inner: Point, face: u8) -> V3
    requires world { IsInWorld (position_of inner) }
    requires inside { all_hold (solid_faces s.now (position_of inner)) ≡ true }
    ensures { result ≡ unit_towards (solid_outward s.now (position_of inner) face) }
{
    s.normal(&inner, face)
}
