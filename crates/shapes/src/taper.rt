// Cones.
ghost use Rattle.std.specs.Prelude.{◌≡◌, ◌↔◌, ℕ, ◌<◌, ◌^◌, ◌&&◌, nat_lt, true, List, [], ◌∷◌};
ghost use Rattle.shapes.specs.Faces.{all_hold};
ghost use Rattle.shapes.specs.Lines.{is_in_stretches};
ghost use Rattle.shapes.specs.Rays.{point_at};

use crate::axes::{Axes, Form};
use crate::curve::Curve;
use crate::measure::less_square;
use crate::outward::{Outward, unit_out_of_ends};
use crate::parts::{Stretches, parts};
use crate::path::Path;
use crate::ray::Point;
use crate::sight::Sight;
use crate::span::Span;
use crate::wide::{Length, WideLine};
use fix_math::V3;

/// A cone along the third of its axes. (Reference manual, cone)
#[derive(Clone, Copy)]
pub struct Taper {
    pub axes: Axes,
    /// The greater of the radii at its ends.
    pub widest: Length,
    /// The radius at its first end, and how it grows with a point's coordinates.
    pub start: Length,
    pub slope: Form,
    pub height: Length,
}

/// The square of a ray's distance from an axis, less that of a radius that changes.
#[derive(Clone, Copy)]
pub struct Funnel {
    pub x: WideLine,
    pub y: WideLine,
    pub radius: WideLine,
    pub widest: Length,
}

impl Curve for Funnel {
    ghost use Rattle.std.specs.Prelude.{pos, ◌<◌, ◌≤◌, ◌^◌, ◌≤ℤ◌, unsigned_abs};
    ghost use Rattle.shapes.specs.Lines.{wide_at};
    ghost use Rattle.shapes.specs.Curves.{taper_value, taper_bend, taper-bends};

    ghost value = { λ funnel. taper_value funnel.x funnel.y funnel.radius };

    ghost can_eval = { λ funnel t. (t < 2 ^ 32) × (unsigned_abs (wide_at funnel.x t) ≤ unsigned_abs funnel.widest.value) × (unsigned_abs (wide_at funnel.y t) ≤ unsigned_abs funnel.widest.value) × (pos 0 ≤ℤ wide_at funnel.radius t) × (wide_at funnel.radius t ≤ℤ pos (2 ^ 62)) };

    ghost bend = { λ funnel. taper_bend funnel.x funnel.y funnel.radius };

    ghost bends = { λ funnel. taper-bends funnel.x funnel.y funnel.radius };

    #[inline]
    fn at(&self, t: u64) -> i128 {
        let x = self.x.measure(t).square();
        let y = self.y.measure(t).square();
        less_square(x, y, self.radius.measure(t).square())
    }
}

impl Taper {
    ghost use Rattle.shapes.specs.Growths.{taper_outward};
    ghost use Rattle.shapes.specs.Outward.{unit_towards};
    ghost use Rattle.shapes.specs.Faces.{first_failing, seen_from};
    ghost use Rattle.shapes.specs.Rays.{IsInWorld, position_of};
    ghost use Rattle.shapes.specs.Bodies.{taper_faces, taper_radius, own_of};
    ghost use Rattle.shapes.specs.Faces.{in_taper};
    ghost use Rattle.shapes.specs.Lines.{IsInStretches, IsWithin, sight_at};

    /// The numbers of the path in the cone.
    #[inline(never)]
    pub fn stretches(&self, path: &Path) -> Stretches
        ensures { (t : ℕ) → is_in_stretches result t
            ≡ (nat_lt t path.now.end && all_hold (taper_faces self.now (point_at path.now.ray t))) }
    {
        let sight = Sight::of_path(&self.axes.anchor, path);
        let whole = Span {
            from: 0,
            end: path.end,
        };
        let z = self.axes.third.along(&sight);
        let capped = z.between_ends(self.height, whole);
        if capped.from >= capped.end {
            return capped.alone();
        }
        self.shell(&sight, capped)
    }

    /// The numbers of the span that are no farther from the axis than the radius there.
    #[inline]
    pub fn shell(&self, sight: &Sight, span: Span) -> Stretches
        requires { (t : ℕ) → IsWithin span t → t < 2 ^ 32 }
        ensures { (t : ℕ) → IsInStretches result t ↔ (IsWithin span t
            × (in_taper self.now.widest.value (taper_radius self.now (sight_at sight.now t)) (own_of self.now.axes (sight_at sight.now t)) ≡ true)) }
    {
        let x = self.axes.first.along(sight);
        let along_x = x.slab(self.widest, span);
        if along_x.from >= along_x.end {
            return along_x.alone();
        }
        let y = self.axes.second.along(sight);
        let along_y = y.slab(self.widest, along_x);
        if along_y.from >= along_y.end {
            return along_y.alone();
        }
        let radius = self.slope.along(sight).more(self.start);
        let some = radius.between_ends(Length::longest(), along_y);
        let funnel = Funnel {
            x,
            y,
            radius,
            widest: self.widest,
        };
        parts(&funnel, some)
    }

    /// Whether face 0 holds at the first point of a sight.
    fn is_in_shell(&self, sight: &Sight) -> bool
        ensures { result ≡ in_taper self.now.widest.value (taper_radius self.now (sight_at sight.now 0)) (own_of self.now.axes (sight_at sight.now 0)) }
    {
        let span = Span { from: 0, end: 1 };
        self.shell(sight, span).has(0)
    }

    /// The first face that doesn't hold at a point; none where the cone holds there.
    pub fn failing_face(&self, p: &Point) -> Option<u8>
        requires { IsInWorld (position_of p.now) }
        ensures { result ≡ first_failing (taper_faces self.now (position_of p.now)) }
    {
        let sight = Sight::of_point(&self.axes.anchor, p);
        if !self.is_in_shell(&sight) {
            return Some(0);
        }
        let z = self.axes.third.along(&sight).value(0);
        if z < 0 {
            Some(1)
        } else if z > self.height.value as i128 {
            Some(2)
        } else {
            None
        }
    }

    /// The numbers of the path that are in the solid's side, whatever its ends.
    #[inline(never)]
    pub fn side(&self, path: &Path) -> Stretches
        ensures { (t : ℕ) → is_in_stretches result t ≡ (nat_lt t path.now.end && all_hold (in_taper self.now.widest.value (taper_radius self.now (seen_from self.now.axes.anchor (point_at path.now.ray t))) (own_of self.now.axes (seen_from self.now.axes.anchor (point_at path.now.ray t))) ∷ [])) }
    {
        let sight = Sight::of_path(&self.axes.anchor, path);
        let end = path.end;
        self.shell(&sight, Span { from: 0, end })
    }

    /// The direction out of a face at a point of the cone.
    pub fn normal(&self, p: &Point, face: u8) -> V3
        requires world { IsInWorld (position_of p.now) }
        requires inside { all_hold (taper_faces self.now (position_of p.now)) ≡ true }
        ensures { result ≡ unit_towards (taper_outward self.now (position_of p.now) face) }
    {
        let axes = &self.axes;
        if face != 0 {
            return unit_out_of_ends(&axes.third, face - 1);
        }
        let sight = Sight::of_point(&axes.anchor, p);
        let x = axes.first.along(&sight).measure(0);
        let y = axes.second.along(&sight).measure(0);
        let radius = self.slope.along(&sight).more(self.start).measure(0);
        Outward::of_taper(x, &axes.first, y, &axes.second, radius, &self.slope).unit()
    }
}
