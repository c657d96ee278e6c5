// A ray, or a point, as seen from an anchor.
ghost use Rattle.std.specs.Prelude.{◌≡◌, ℕ, pos, ◌<◌, ◌≤◌, ◌^◌, unsigned_abs};

use crate::path::Path;
use crate::ray::{Point, Ray};
use crate::span::Line;
use fix_math::{Fix, V3};

/// How far a ray's points are from an anchor along the axes of the world.
#[derive(Clone, Copy)]
pub struct Sight {
    pub x: Line,
    pub y: Line,
    pub z: Line,
    ghost x_small: { unsigned_abs x.at ≤ 2 ^ 45 },
    ghost y_small: { unsigned_abs y.at ≤ 2 ^ 45 },
    ghost z_small: { unsigned_abs z.at ≤ 2 ^ 45 },
}

impl Sight {
    ghost use Rattle.fix_math.specs.Matrices.{IsVectorWithin};
    ghost use Rattle.shapes.specs.Faces.{seen_from};
    ghost use Rattle.shapes.specs.Lines.{sight_at};
    ghost use Rattle.shapes.specs.Rays.{IsInWorld, point_at, position_of};

    /// The path's points.
    #[inline]
    pub fn of_path(anchor: &V3, path: &Path) -> Sight
        requires { IsVectorWithin (2 ^ 28) anchor.now }
        ensures { (t : ℕ) → sight_at result t ≡ seen_from anchor.now (point_at path.now.ray t) }
    {
        let Ray { origin, dir } = path.ray;
        Sight {
            x: Line::coordinate(origin.x, anchor.x, dir.x),
            y: Line::coordinate(origin.y, anchor.y, dir.y),
            z: Line::coordinate(origin.z, anchor.z, dir.z),
        }
    }

    /// One point, as a ray that stays there.
    #[inline]
    pub fn of_point(anchor: &V3, p: &Point) -> Sight
        requires near { IsVectorWithin (2 ^ 28) anchor.now }
        requires inside { IsInWorld (position_of p.now) }
        ensures { sight_at result 0 ≡ seen_from anchor.now (position_of p.now) }
    {
        Sight {
            x: Line::still(p[0], anchor.x),
            y: Line::still(p[1], anchor.y),
            z: Line::still(p[2], anchor.z),
        }
    }
}
