// The points that a ray passes.
ghost use Rattle.std.specs.Prelude.{◌≡◌, ◌<◌, ◌≤◌, ◌^◌, unsigned_abs};
ghost use Rattle.shapes.specs.Rays.{IsInWorld, IsRayDirection, coordinate_at, point_at, position_of};

use shapes::{Point, Ray};

/// A coordinate at t.
#[inline]
fn coordinate(origin: i64, step: i64, t: u64) -> i64
    requires near { unsigned_abs origin ≤ 2 ^ 28 }
    requires small { unsigned_abs step ≤ 2 ^ 17 }
    requires early { t < 2 ^ 31 }
    ensures { result ≡ coordinate_at origin step t }
{
    origin * 65536 + t as i64 * step
}

/// The point that a ray passes at t.
#[inline]
pub fn point(ray: &Ray, t: u64) -> Point
    requires direction { IsRayDirection ray.now.dir }
    requires origin { IsInWorld (point_at ray.now 0) }
    requires early { t < 2 ^ 31 }
    ensures { position_of result ≡ point_at ray.now t }
{
    let Ray { origin, dir } = *ray;
    [
        coordinate(origin.x.raw(), dir.x.raw(), t),
        coordinate(origin.y.raw(), dir.y.raw(), t),
        coordinate(origin.z.raw(), dir.z.raw(), t),
    ]
}
