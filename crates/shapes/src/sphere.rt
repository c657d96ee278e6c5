// Spheres.
ghost use Rattle.std.specs.Prelude.{◌≡◌, ◌↔◌, ℕ, pos, ◌<◌, ◌≤◌, ◌^◌, ◌+ℤ◌, ◌*ℤ◌, ◌≤ℤ◌, true, IfSome, IsSome, unsigned_abs};
ghost use Rattle.shapes.specs.Spheres.{IsSphere};

use crate::aim::{Side, approach, excess, guess, is_away};
use crate::curve::Curve;
use crate::near::valley_near;
use crate::path::{Path, is_near};
use crate::ray::{Point, Ray};
use crate::sight::Sight;
use crate::span::{Line, Span};
use fix_math::{Fix, V3};

/// The points that are no farther from a centre than a radius. (Reference manual, sphere)
#[derive(Clone, Copy)]
pub struct Sphere {
    pub centre: V3,
    pub radius: Fix,
    ghost valid: { IsSphere centre radius },
}

/// The square of a distance.
#[derive(Clone, Copy)]
struct Square {
    value: i128,
    ghost small: { unsigned_abs value ≤ 2 ^ 102 },
}

impl Square {
    ghost use Rattle.shapes.specs.Spheres.{square};

    #[inline]
    fn of(side: i64) -> Square
        requires { unsigned_abs side < 2 ^ 50 }
        ensures value { result.value ≡ square side }
        ensures small { unsigned_abs result.value ≤ 2 ^ 100 }
    {
        Square {
            value: side as i128 * side as i128,
        }
    }
}

/// The sum of three squares.
#[inline]
fn sum(x: Square, y: Square, z: Square) -> i128
    requires x_small { unsigned_abs x.value ≤ 2 ^ 100 }
    requires y_small { unsigned_abs y.value ≤ 2 ^ 100 }
    requires z_small { unsigned_abs z.value ≤ 2 ^ 100 }
    ensures value { result ≡ x.value +ℤ y.value +ℤ z.value }
    ensures small { unsigned_abs result < 2 ^ 126 }
{
    x.value + y.value + z.value
}

impl Curve for Sight {
    ghost use Rattle.std.specs.Prelude.{◌+ℤ◌, ◌*ℤ◌, ◌<◌, ◌^◌};
    ghost use Rattle.shapes.specs.Lines.{square_distance_at, square_distance-bends};

    ghost value = { λ d. square_distance_at d.x d.y d.z };

    ghost can_eval = { λ d t. t < 2 ^ 32 };

    ghost bend = { λ d. (d.x.step *ℤ d.x.step +ℤ d.x.step *ℤ d.x.step) +ℤ (d.y.step *ℤ d.y.step +ℤ d.y.step *ℤ d.y.step) +ℤ (d.z.step *ℤ d.z.step +ℤ d.z.step *ℤ d.z.step) };

    ghost bends = { λ d. square_distance-bends d.x d.y d.z };

    #[inline]
    fn at(&self, t: u64) -> i128 {
        let x = Square::of(self.x.value(t));
        let y = Square::of(self.y.value(t));
        let z = Square::of(self.z.value(t));
        sum(x, y, z)
    }
}

impl Sphere {
    /// The sphere of this centre and radius; none where the centre isn't in the world, or the radius
    /// isn't from 0 to 4096 units.
    pub fn new(centre: V3, radius: Fix) -> Option<Sphere>
        ensures valid { IsSome result ↔ IsSphere centre radius }
        ensures same { IfSome result (λ it. (it.centre ≡ centre) × (it.radius ≡ radius)) }
    {
        let near = is_near(centre.x) && is_near(centre.y) && is_near(centre.z);
        if near && radius.raw() >= 0 && is_near(radius) {
            Some(Sphere { centre, radius })
        } else {
            None
        }
    }

    ghost use Rattle.shapes.specs.Lines.{value_at};
    ghost use Rattle.shapes.specs.Rays.{point_at};
    ghost use Rattle.shapes.specs.Spheres.{offset_from};

    /// The radius in units of 2^-32.
    #[inline]
    fn long_radius(&self) -> i64
        ensures value { result ≡ pos 65536 *ℤ self.now.radius }
        ensures low { pos 0 ≤ℤ result }
        ensures high { unsigned_abs result ≤ 2 ^ 44 }
    {
        self.radius.raw() * 65536
    }

    /// How far the path's points are from the centre.
    #[inline]
    fn distance(&self, path: &Path) -> Sight
        ensures x { (t : ℕ) → value_at result.x t
            ≡ offset_from self.now.centre.x (point_at path.now.ray t).x }
        ensures y { (t : ℕ) → value_at result.y t
            ≡ offset_from self.now.centre.y (point_at path.now.ray t).y }
        ensures z { (t : ℕ) → value_at result.z t
            ≡ offset_from self.now.centre.z (point_at path.now.ray t).z }
    {
        let Ray { origin, dir } = path.ray;
        Sight {
            x: Line::coordinate(origin.x, self.centre.x, dir.x),
            y: Line::coordinate(origin.y, self.centre.y, dir.y),
            z: Line::coordinate(origin.z, self.centre.z, dir.z),
        }
    }
}

impl Sphere {
    ghost use Rattle.shapes.specs.Rays.{point_at};
    ghost use Rattle.shapes.specs.Spheres.{IsInSphere};
    ghost use Rattle.shapes.specs.Lines.{IsWithin};
    /// The numbers of the path in the sphere, from what shows that the ray's line is near.
    #[inline(never)]
    fn row_from_guess(&self, path: &Path, approach: i64, excess: i64) -> Span
        requires approach_small { unsigned_abs approach ≤ 2 ^ 48 }
        requires excess_small { unsigned_abs excess ≤ 2 ^ 61 }
        ensures { (t : ℕ) → IsWithin result t
            ↔ ((t < path.now.end) × IsInSphere self.now.centre self.now.radius (point_at path.now.ray t)) }
    {
        let distance = self.distance(path);
        let radius = self.long_radius();
        let (turn, half) = guess(approach, excess, path.aim.square, path.aim.inverse);
        let whole = Span {
            from: 0,
            end: path.end,
        };
        valley_near(
            &distance,
            Square::of(radius).value,
            whole,
            turn,
            turn.saturating_sub(half),
            turn.saturating_add(half),
        )
    }

    /// The numbers of the path in the sphere.
    #[inline(always)]
    pub fn row(&self, path: &Path) -> Span
        ensures { (t : ℕ) → IsWithin result t
            ↔ ((t < path.now.end) × IsInSphere self.now.centre self.now.radius (point_at path.now.ray t)) }
    {
        let Ray { origin, dir } = path.ray;
        let x = Side::of(origin.x, self.centre.x);
        let y = Side::of(origin.y, self.centre.y);
        let z = Side::of(origin.z, self.centre.z);
        let approach = approach(&x, &y, &z, &dir);
        let excess = excess(&x, &y, &z, self.radius);
        if is_away(approach, excess, path.aim.square) {
            return Span { from: 0, end: 0 };
        }
        self.row_from_guess(path, approach, excess)
    }

    ghost use Rattle.shapes.specs.Rays.{IsInWorld, position_of};

    /// Whether a point is in the sphere.
    #[inline]
    pub fn has(&self, p: &Point) -> bool
        requires { IsInWorld (position_of p.now) }
        ensures { (result ≡ true) ↔ IsInSphere self.now.centre self.now.radius (position_of p.now) }
    {
        let distance = Sight::of_point(&self.centre, p);
        distance.at(0) <= Square::of(self.long_radius()).value
    }
}

#[cfg(test)]
mod tests {
    use super::*;
    use crate::path::last_t;
    use crate::range_pairs::Ranges;

    fn vector(x: i32, y: i32, z: i32) -> V3 {
        V3 {
            x: Fix(x as i64),
            y: Fix(y as i64),
            z: Fix(z as i64),
        }
    }

    #[test]
    fn a_ray_along_z_is_inside_spheres(rt: HostRuntime) {
        let ray = Ray {
            origin: vector(0, 0, 0),
            dir: V3 {
                x: Fix(0),
                y: Fix(0),
                z: Fix(65536),
            },
        };
        for (centre, radius, count, first, last) in [
            (vector(0, 0, 262144), 65536i32, 1u32, 196608, 327680),
            (vector(65536, 0, 262144), 65536, 1, 262144, 262144),
            (vector(65537, 0, 262144), 65536, 0, 0, 0),
            (vector(0, 0, 0), 65536, 1, 0, 65536),
            (vector(3, 4, 262144), 5, 1, 262144, 262144),
            (vector(0, 0, -262144), 65536, 0, 0, 0),
            (vector(0, 0, 268435456), 65536, 1, 268369920, 268435456),
            (vector(0, 0, 7), 0, 1, 7, 7),
        ] {
            let sphere = Sphere::new(centre, Fix(radius as i64));
            let path = Path::new(&ray);
            let ranges = match (sphere, path) {
                (Some(sphere), Some(path)) => Some(Ranges::of_span(sphere.row(&path))),
                _ => None,
            };
            let want = Ranges {
                count,
                spans: [(first, last), (0, 0)],
            };
            assert_eq!(rt; ranges, Some(want));
        }
        assert_eq!(rt; last_t(&ray), Some(268435456));
    }
}
