// What is asked of a solid along a ray, and at points.
ghost use Rattle.std.specs.Prelude.{◌≡◌, ◌≤◌, ◌^◌, IfSome, IsTrue, unsigned_abs};
ghost use Rattle.shapes.specs.Rays.{IsInWorld, IsRayDirection, point_at, position_of};

use fix_math::Fix;
use shapes::{Point, Ranges, Ray, Solid, face, inside, last_t, normal, ranges};
use written_leaves::{Move, Written, solid_of, vector};

/// A row: a solid, the transform, the origin and the direction of a ray, and the ranges.
pub type Row = (Written, Move, [i32; 3], [i32; 3], u32, [(u64, u64); 2]);

fn size(number: Fix) -> u64
    ensures { result ≡ unsigned_abs number }
{
    number.raw().unsigned_abs()
}

/// The ray from a point in a direction that rays have.
pub fn ray_of(origin: [i32; 3], dir: [i32; 3]) -> Option<Ray>
    ensures { IfSome result (λ ray. IsRayDirection ray.dir) }
{
    let dir = vector(dir);
    let greatest = size(dir.x).max(size(dir.y)).max(size(dir.z));
    if greatest < 32768 || greatest > 65537 {
        return None;
    }
    Some(Ray {
        origin: vector(origin),
        dir,
    })
}

/// The ranges of a ray in a solid; none where the ray begins outside of the world.
pub fn ranges_of(solid: &Solid, ray: &Ray) -> Option<Ranges>
    requires { IsRayDirection ray.now.dir }
{
    last_t(ray)?;
    Some(ranges(solid, ray))
}

fn coordinate(origin: Fix, step: Fix, t: u64) -> i64 {
    let from = origin.raw().wrapping_mul(65536);
    from.wrapping_add(i64::try_from(t).unwrap_or(0).wrapping_mul(step.raw()))
}

fn is_near(coordinate: i64) -> bool
    ensures { IsTrue result → unsigned_abs coordinate ≤ 2 ^ 44 }
{
    coordinate.unsigned_abs() <= 1 << 44
}

/// A point, if it is in the world.
fn in_world(p: Point) -> Option<Point>
    ensures { IfSome result (λ p. IsInWorld (position_of p)) }
{
    if is_near(p[0]) && is_near(p[1]) && is_near(p[2]) {
        Some(p)
    } else {
        None
    }
}

/// The point of a ray at a number.
fn point(ray: &Ray, t: u64) -> Point {
    [
        coordinate(ray.origin.x, ray.dir.x, t),
        coordinate(ray.origin.y, ray.dir.y, t),
        coordinate(ray.origin.z, ray.dir.z, t),
    ]
}

/// Whether a solid holds at a point; none where the point isn't in the world.
pub fn holds(solid: &Solid, p: Point) -> Option<bool> {
    let p = in_world(p)?;
    Some(inside(solid, p))
}

fn has(ranges: &Ranges, t: u64) -> bool {
    let [one, two] = ranges.spans;
    (ranges.count > 0 && one.0 <= t && t <= one.1) || (ranges.count > 1 && two.0 <= t && t <= two.1)
}

/// Whether the ranges are those of the points, one by one, from a number on.
fn agree(solid: &Solid, ray: &Ray, ranges: &Ranges, from: u64, end: u64) -> bool {
    for t in from..end {
        let is_inside = holds(solid, point(ray, t)) == Some(true);
        if is_inside != has(ranges, t) {
            return false;
        }
    }
    true
}

/// The same for 200 numbers that are spread over the ray.
fn agree_apart(solid: &Solid, ray: &Ray, ranges: &Ranges, last: u64) -> bool {
    for share in 0..200u64 {
        let t = last.wrapping_mul(share) / 200;
        if !agree(solid, ray, ranges, t, t.saturating_add(1)) {
            return false;
        }
    }
    true
}

/// How many numbers of a ray are asked one by one, from its origin on: most of the solids lie within them.
const EACH: u64 = 1 << 17;

/// Whether a row's ranges are found, and are those of the points: of each one of the first numbers, of those near the
/// ray's end and each end of a range, and of others between.
fn is_right(row: &Row) -> bool {
    let (written, by, origin, dir, count, spans) = *row;
    let found = solid_of(&written, by);
    let (Some(solid), Some(ray)) = (found, ray_of(origin, dir)) else {
        return false;
    };
    let (Some(found), Some(last)) = (ranges_of(&solid, &ray), last_t(&ray)) else {
        return false;
    };
    let mut is_right = found == Ranges { count, spans }
        && agree(&solid, &ray, &found, 0, EACH)
        && agree_apart(&solid, &ray, &found, last);
    for t in [0, spans[0].0, spans[0].1, spans[1].0, spans[1].1, last] {
        let from = t.saturating_sub(20);
        is_right = is_right && agree(&solid, &ray, &found, from, t.saturating_add(20));
    }
    is_right
}

/// A row: a solid, the transform, a point outside, and the number of the first face that it is out of.
pub type FaceRow = (Written, Move, Point, u8);

/// A row: a solid, the transform, a point inside, the number of a face, and the direction out of that face.
pub type NormalRow = (Written, Move, Point, u8, [i64; 3]);

/// The first face that a point is out of; none where it is inside.
fn face_at(solid: &Solid, p: Point) -> Option<u8> {
    let p = in_world(p)?;
    if inside(solid, p) {
        return None;
    }
    Some(face(solid, p))
}

/// The direction out of a face; none where the point isn't inside.
fn normal_at(solid: &Solid, p: Point, number: u8) -> Option<[i64; 3]> {
    let p = in_world(p)?;
    if !inside(solid, p) {
        return None;
    }
    let n = normal(solid, p, number);
    Some([n.x.raw(), n.y.raw(), n.z.raw()])
}

fn has_face(row: &FaceRow) -> bool {
    let (written, by, p, number) = *row;
    match solid_of(&written, by) {
        Some(solid) => face_at(&solid, p) == Some(number),
        None => false,
    }
}

fn has_normal(row: &NormalRow) -> bool {
    let (written, by, p, number, direction) = *row;
    match solid_of(&written, by) {
        Some(solid) => normal_at(&solid, p, number) == Some(direction),
        None => false,
    }
}

/// The number of the first row that isn't right.
pub fn first_wrong_face(rows: &[FaceRow]) -> Option<usize> {
    rows.iter().position(|row| !has_face(row))
}

pub fn first_wrong_normal(rows: &[NormalRow]) -> Option<usize> {
    rows.iter().position(|row| !has_normal(row))
}

/// The number of the first row that isn't right.
pub fn first_wrong(rows: &[Row]) -> Option<usize> {
    rows.iter().position(|row| !is_right(row))
}
