// Spheres under a transform.
ghost use Rattle.std.specs.Prelude.{◌≡◌, ◌↔◌, ℕ, ◌<◌, ◌^◌, ◌&&◌, nat_lt, true, IfSome};
ghost use Rattle.shapes.specs.Faces.{all_hold};
ghost use Rattle.shapes.specs.Lines.{is_in_stretches};
ghost use Rattle.shapes.specs.Rays.{point_at};
ghost use Rattle.std.proofs.Props.{props};
ghost use Rattle.shapes.specs.Upright.{IsPlainBall};

use crate::axes::Axes;
use crate::curve::Curve;
use crate::measure::less_square_of_three;
use crate::outward::Outward;
use crate::parts::{Stretches, parts};
use crate::path::Path;
use crate::ray::Point;
use crate::sight::Sight;
use crate::span::Span;
use crate::sphere::Sphere;
use crate::wide::{Length, WideLine};
use fix_math::V3;

/// A sphere by its axes. (Reference manual, sphere)
#[derive(Clone, Copy)]
pub struct Globe {
    pub axes: Axes,
    pub radius: Length,
    /// The same as a sphere of the world, where it is one: rays are asked in 64 bits then.
    pub plain: Option<Sphere>,
    ghost same: { IfSome plain (λ sphere. IsPlainBall axes radius.value sphere) } by { Prim.hlevel props },
}

/// The square of a ray's distance from a point, less that of a radius.
#[derive(Clone, Copy)]
pub struct Ball {
    pub x: WideLine,
    pub y: WideLine,
    pub z: WideLine,
    pub radius: Length,
}

impl Curve for Ball {
    ghost use Rattle.std.specs.Prelude.{◌<◌, ◌≤◌, ◌^◌, unsigned_abs};
    ghost use Rattle.shapes.specs.Lines.{wide_at};
    ghost use Rattle.shapes.specs.Curves.{ball_value, ball_bend, ball-bends};

    ghost value = { λ ball. ball_value ball.x ball.y ball.z ball.radius };

    ghost can_eval = { λ ball t. (t < 2 ^ 32) × (unsigned_abs (wide_at ball.x t) ≤ unsigned_abs ball.radius.value) × (unsigned_abs (wide_at ball.y t) ≤ unsigned_abs ball.radius.value) × (unsigned_abs (wide_at ball.z t) ≤ unsigned_abs ball.radius.value) };

    ghost bend = { λ ball. ball_bend ball.x ball.y ball.z };

    ghost bends = { λ ball. ball-bends ball.x ball.y ball.z ball.radius };

    #[inline]
    fn at(&self, t: u64) -> i128 {
        let x = self.x.measure(t).square();
        let y = self.y.measure(t).square();
        let z = self.z.measure(t).square();
        less_square_of_three(x, y, z, self.radius.measure().square())
    }
}

impl Globe {
    ghost use Rattle.shapes.specs.Growths.{globe_outward};
    ghost use Rattle.shapes.specs.Outward.{unit_towards};
    ghost use Rattle.shapes.specs.Faces.{first_failing};
    ghost use Rattle.shapes.specs.Rays.{IsInWorld, position_of};
    ghost use Rattle.shapes.specs.Bodies.{globe_faces, own_of};
    ghost use Rattle.shapes.specs.Faces.{in_ball, seen_from};
    ghost use Rattle.shapes.specs.Lines.{IsInStretches, IsWithin, sight_at};

    /// The numbers of the path in the sphere.
    #[inline(always)]
    pub fn stretches(&self, path: &Path) -> Stretches
        ensures { (t : ℕ) → is_in_stretches result t
            ≡ (nat_lt t path.now.end && all_hold (globe_faces self.now (point_at path.now.ray t))) }
    {
        match &self.plain {
            Some(sphere) => sphere.row(path).alone(),
            None => self.turned_stretches(path),
        }
    }

    /// The same by its axes.
    #[inline(never)]
    fn turned_stretches(&self, path: &Path) -> Stretches
        ensures { (t : ℕ) → is_in_stretches result t
            ≡ (nat_lt t path.now.end && all_hold (globe_faces self.now (point_at path.now.ray t))) }
    {
        let sight = Sight::of_path(&self.axes.anchor, path);
        let whole = Span {
            from: 0,
            end: path.end,
        };
        self.shell(&sight, whole)
    }

    /// The numbers of the span that are no farther from the middle than the radius.
    #[inline]
    pub fn shell(&self, sight: &Sight, span: Span) -> Stretches
        requires { (t : ℕ) → IsWithin span t → t < 2 ^ 32 }
        ensures { (t : ℕ) → IsInStretches result t ↔ (IsWithin span t
            × (in_ball self.now.radius.value (own_of self.now.axes (sight_at sight.now t)) ≡ true)) }
    {
        let x = self.axes.first.along(sight);
        let along_x = x.slab(self.radius, span);
        if along_x.from >= along_x.end {
            return along_x.alone();
        }
        let y = self.axes.second.along(sight);
        let along_y = y.slab(self.radius, along_x);
        if along_y.from >= along_y.end {
            return along_y.alone();
        }
        let z = self.axes.third.along(sight);
        let along_z = z.slab(self.radius, along_y);
        let ball = Ball {
            x,
            y,
            z,
            radius: self.radius,
        };
        parts(&ball, along_z)
    }

    /// Whether face 0 holds at the first point of a sight.
    fn is_in_shell(&self, sight: &Sight) -> bool
        ensures { result ≡ in_ball self.now.radius.value (own_of self.now.axes (sight_at sight.now 0)) }
    {
        let span = Span { from: 0, end: 1 };
        self.shell(sight, span).has(0)
    }

    /// Whether face 0 holds at a point.
    fn has(&self, p: &Point) -> bool
        requires { IsInWorld (position_of p.now) }
        ensures { result ≡ in_ball self.now.radius.value (own_of self.now.axes (seen_from self.now.axes.anchor (position_of p.now))) }
    {
        match &self.plain {
            Some(sphere) => sphere.has(p),
            None => self.is_in_shell(&Sight::of_point(&self.axes.anchor, p)),
        }
    }

    /// The first face that doesn't hold at a point; none where the sphere holds there.
    pub fn failing_face(&self, p: &Point) -> Option<u8>
        requires { IsInWorld (position_of p.now) }
        ensures { result ≡ first_failing (globe_faces self.now (position_of p.now)) }
    {
        if self.has(p) { None } else { Some(0) }
    }

    /// The direction out of the sphere at a point of it.
    pub fn normal(&self, p: &Point) -> V3
        requires world { IsInWorld (position_of p.now) }
        requires inside { all_hold (globe_faces self.now (position_of p.now)) ≡ true }
        ensures { result ≡ unit_towards (globe_outward self.now (position_of p.now)) }
    {
        let axes = &self.axes;
        let sight = Sight::of_point(&axes.anchor, p);
        let x = axes.first.along(&sight).measure(0);
        let y = axes.second.along(&sight).measure(0);
        let z = axes.third.along(&sight).measure(0);
        Outward::of_ball(x, &axes.first, y, &axes.second, z, &axes.third).unit()
    }
}
