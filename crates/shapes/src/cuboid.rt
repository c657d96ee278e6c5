// Boxes under a transform.
ghost use Rattle.std.specs.Prelude.{◌≡◌, ℕ, ◌&&◌, nat_lt, IfSome};
ghost use Rattle.shapes.specs.Faces.{all_hold};
ghost use Rattle.shapes.specs.Lines.{is_in_stretches};
ghost use Rattle.shapes.specs.Rays.{point_at};
ghost use Rattle.std.proofs.Props.{props};
ghost use Rattle.shapes.specs.Upright.{IsPlainBox};

use crate::axes::Axes;
use crate::outward::unit_out_of_ends;
use crate::parts::Stretches;
use crate::path::Path;
use crate::ray::Point;
use crate::sight::Sight;
use crate::span::Span;
use crate::upright::Upright;
use crate::wide::Length;
use fix_math::V3;

/// A box by its axes and its sides. (Reference manual, box)
#[derive(Clone, Copy)]
pub struct Cuboid {
    pub axes: Axes,
    pub x: Length,
    pub y: Length,
    pub z: Length,
    /// The same as a box along the axes of the world, where it is one: rays are asked in 64 bits then.
    pub upright: Option<Upright>,
    ghost same: { IfSome upright (λ found. IsPlainBox axes x.value y.value z.value found) } by { Prim.hlevel props },
}

impl Cuboid {
    ghost use Rattle.shapes.specs.Growths.{cuboid_outward};
    ghost use Rattle.shapes.specs.Outward.{unit_towards};
    ghost use Rattle.shapes.specs.Faces.{first_failing};
    ghost use Rattle.shapes.specs.Rays.{IsInWorld, position_of};
    ghost use Rattle.shapes.specs.Bodies.{cuboid_faces};

    /// The numbers of the path in the box.
    #[inline]
    pub fn stretches(&self, path: &Path) -> Stretches
        ensures { (t : ℕ) → is_in_stretches result t
            ≡ (nat_lt t path.now.end && all_hold (cuboid_faces self.now (point_at path.now.ray t))) }
    {
        match &self.upright {
            Some(upright) => upright.span(&self.axes.anchor, path).alone(),
            None => self.turned_stretches(path),
        }
    }

    /// The same by its axes.
    #[inline(never)]
    fn turned_stretches(&self, path: &Path) -> Stretches
        ensures { (t : ℕ) → is_in_stretches result t
            ≡ (nat_lt t path.now.end && all_hold (cuboid_faces self.now (point_at path.now.ray t))) }
    {
        let sight = Sight::of_path(&self.axes.anchor, path);
        let whole = Span {
            from: 0,
            end: path.end,
        };
        let x = self.axes.first.along(&sight);
        let along_x = x.between_ends(self.x, whole);
        let y = self.axes.second.along(&sight);
        let along_y = y.between_ends(self.y, along_x);
        let z = self.axes.third.along(&sight);
        z.between_ends(self.z, along_y).alone()
    }

    /// The first face that doesn't hold at a point; none where the box holds there.
    pub fn failing_face(&self, p: &Point) -> Option<u8>
        requires { IsInWorld (position_of p.now) }
        ensures { result ≡ first_failing (cuboid_faces self.now (position_of p.now)) }
    {
        let sight = Sight::of_point(&self.axes.anchor, p);
        let x = self.axes.first.along(&sight).value(0);
        let y = self.axes.second.along(&sight).value(0);
        let z = self.axes.third.along(&sight).value(0);
        if x < 0 {
            Some(0)
        } else if x > self.x.value as i128 {
            Some(1)
        } else if y < 0 {
            Some(2)
        } else if y > self.y.value as i128 {
            Some(3)
        } else if z < 0 {
            Some(4)
        } else if z > self.z.value as i128 {
            Some(5)
        } else {
            None
        }
    }

    /// The direction out of a face.
    pub fn normal(&self, face: u8) -> V3
        ensures { result ≡ unit_towards (cuboid_outward self.now face) }
    {
        if face < 2 {
            unit_out_of_ends(&self.axes.first, face)
        } else if face < 4 {
            unit_out_of_ends(&self.axes.second, face - 2)
        } else {
            unit_out_of_ends(&self.axes.third, face - 4)
        }
    }
}
