// The solid of a leaf.
ghost use Rattle.std.specs.Prelude.{◌≡◌, ◌↔◌, ℕ, ◌<◌, ◌&&◌, nat_lt, true, false};

use crate::coefficients::conic;
use crate::conic::Conic;
use crate::cuboid::Cuboid;
use crate::globe::Globe;
use crate::half_space::HalfSpace;
use crate::making::{cuboid, globe, half_space, taper, tube};
use crate::parts::Stretches;
use crate::path::Path;
use crate::range_pairs::Ranges;
use crate::ray::Point;
use crate::taper::Taper;
use crate::tube::Tube;
use fix_math::V3;
use scene_model::{Leaf, Primitive};

/// What a leaf is a part of the world by, ready to be met by rays: all that depends on the leaf alone is
/// computed. Its faces are numbered as the leaf's: a sphere, a plane and a quadric have face 0 alone, a box
/// has its lower and its upper end along each axis, and a cylinder and a cone have the side, the first and
/// the second end.
#[derive(Clone, Copy)]
pub struct Solid {
    body: Body,
    uncapped: bool,
}

#[derive(Clone, Copy)]
enum Body {
    Ball(Globe),
    Block(Cuboid),
    Half(HalfSpace),
    Pipe(Tube),
    Cone(Taper),
    Bowl(Conic),
}

impl Solid {
    ghost use Rattle.scene_model.specs.Solids.{IsLeaf};
    ghost use Rattle.shapes.specs.Faces.{all_hold, faces_of, first_failing};
    ghost use Rattle.shapes.specs.Lines.{is_in_stretches};
    ghost use Rattle.shapes.specs.Rays.{IsInWorld, Position, point_at, position_of};
    ghost use Rattle.shapes.specs.Rows.{IsInRanges, IsInOrder};
    ghost use Rattle.shapes.specs.Growths.{solid_outward};
    ghost use Rattle.shapes.specs.Outward.{outward_of, unit_towards};
    ghost use Rattle.shapes.specs.Solids.{solid_faces, solid_side, is_uncapped};

    /// A solid without open ends.
    fn closed(body: Body) -> Solid
        ensures body { result.body ≡ body }
        ensures ends { result.uncapped ≡ false }
    {
        Solid {
            body,
            uncapped: false,
        }
    }

    /// The solid of a leaf.
    pub fn of(leaf: &Leaf) -> Solid
        requires { IsLeaf leaf.now }
        ensures faces { (p : Position) → solid_faces result p ≡ faces_of leaf.now p }
        ensures normals { (p : Position) (face : ℕ) → solid_outward result p face ≡ outward_of leaf.now p face }
        ensures ends { result.uncapped ≡ is_uncapped leaf.now.prim }
    {
        let Leaf {
            prim,
            xform,
            spot,
            ..
        } = leaf;
        match prim {
            Primitive::Sphere { r } => Solid::closed(Body::Ball(globe(spot, *r))),
            Primitive::Box { size } => Solid::closed(Body::Block(cuboid(spot, size))),
            Primitive::Plane { normal, d } => Solid::closed(Body::Half(half_space(
                spot, normal, *d,
            ))),
            Primitive::Cylinder { r, h, uncapped } => Solid {
                body: Body::Pipe(tube(spot, *r, *h)),
                uncapped: *uncapped,
            },
            Primitive::Cone {
                ra,
                rb,
                h,
                axis,
                uncapped,
            } => Solid {
                body: Body::Cone(taper(xform, spot, *ra, *rb, *h, axis)),
                uncapped: *uncapped,
            },
            Primitive::Quadric { c } => Solid::closed(Body::Bowl(conic(xform, spot, c))),
        }
    }

    /// The numbers of the path at which the solid holds.
    #[inline(always)]
    pub fn stretches(&self, path: &Path) -> Stretches
        ensures { (t : ℕ) → is_in_stretches result t
            ≡ (nat_lt t path.now.end && all_hold (solid_faces self.now (point_at path.now.ray t))) }
    {
        if let Body::Ball(globe) = &self.body {
            return globe.stretches(path);
        }
        self.all_stretches(path)
    }

    /// The same: a call, where `stretches` rejects most spheres without one.
    #[inline(never)]
    fn all_stretches(&self, path: &Path) -> Stretches
        ensures { (t : ℕ) → is_in_stretches result t
            ≡ (nat_lt t path.now.end && all_hold (solid_faces self.now (point_at path.now.ray t))) }
    {
        match &self.body {
            Body::Ball(globe) => globe.stretches(path),
            Body::Block(cuboid) => cuboid.stretches(path),
            Body::Half(half) => half.stretches(path),
            Body::Pipe(tube) => tube.stretches(path),
            Body::Cone(taper) => taper.stretches(path),
            Body::Bowl(conic) => conic.stretches(path),
        }
    }

    /// The first face that doesn't hold at a point; none where the solid holds there.
    pub fn failing_face(&self, p: &Point) -> Option<u8>
        requires { IsInWorld (position_of p.now) }
        ensures { result ≡ first_failing (solid_faces self.now (position_of p.now)) }
    {
        match &self.body {
            Body::Ball(globe) => globe.failing_face(p),
            Body::Block(cuboid) => cuboid.failing_face(p),
            Body::Half(half) => half.failing_face(p),
            Body::Pipe(tube) => tube.failing_face(p),
            Body::Cone(taper) => taper.failing_face(p),
            Body::Bowl(conic) => conic.failing_face(p),
        }
    }

    /// Whether the ends of the cylinder or cone are open, so that its side alone is a surface.
    #[inline]
    pub fn is_open(&self) -> bool
        ensures { result ≡ self.now.uncapped }
    {
        self.uncapped
    }

    /// The numbers of the path at which the side of a cylinder or cone holds, whatever its ends; of another
    /// solid, those at which it holds.
    pub fn side(&self, path: &Path) -> Stretches
        ensures { (t : ℕ) → is_in_stretches result t
            ≡ (nat_lt t path.now.end && all_hold (solid_side self.now (point_at path.now.ray t))) }
    {
        match &self.body {
            Body::Ball(globe) => globe.stretches(path),
            Body::Block(cuboid) => cuboid.stretches(path),
            Body::Half(half) => half.stretches(path),
            Body::Pipe(tube) => tube.side(path),
            Body::Cone(taper) => taper.side(path),
            Body::Bowl(conic) => conic.stretches(path),
        }
    }

    /// The numbers of the path at which the solid holds, as ranges.
    pub fn ranges(&self, path: &Path) -> Ranges
        ensures numbers { (t : ℕ) → IsInRanges result t
            ↔ ((t < path.now.end) × (all_hold (solid_faces self.now (point_at path.now.ray t)) ≡ true)) }
        ensures order { IsInOrder result }
    {
        Ranges::of_stretches(&self.stretches(path))
    }

    /// The direction out of a face at a point of the solid, with the length of 1 unit. A number behind the
    /// last face's counts as the last.
    pub fn normal(&self, inner: &Point, face: u8) -> V3
        requires world { IsInWorld (position_of inner.now) }
        requires inside { all_hold (solid_faces self.now (position_of inner.now)) ≡ true }
        ensures { result ≡ unit_towards (solid_outward self.now (position_of inner.now) face) }
    {
        match &self.body {
            Body::Ball(globe) => globe.normal(inner),
            Body::Block(cuboid) => cuboid.normal(face),
            Body::Half(half) => half.normal(),
            Body::Pipe(tube) => tube.normal(inner, face),
            Body::Cone(taper) => taper.normal(inner, face),
            Body::Bowl(conic) => conic.normal(inner),
        }
    }
}
