// All hits along a ray.
ghost use Rattle.std.specs.Prelude.{◌≡◌, ◌≤◌, IfSome, unsigned_abs};
ghost use Rattle.shapes.specs.Rays.{IsRayDirection};

use crate::scenes::{Piece, scene};
use csg_hits::{Built, Hit, ListWorld, World};
use fix_math::Fix;
use shapes::Ray;
use std::alloc::{AllocError, Global};
use written_leaves::vector;

/// A hit: its number of the ray, the object, the leaf, the face, and whether it enters.
pub type Expected = (u64, u32, u32, u8, bool);

/// There is no further hit.
pub const NONE: Expected = (0, 0, 0, 0, false);

/// A row: a scene, the origin and the direction of a ray, whether it is a shadow ray, and all its hits.
pub type Row = ([Piece; 4], [i32; 3], [i32; 3], bool, [Expected; 5]);

fn size(number: Fix) -> u64
    ensures { result ≡ unsigned_abs number }
{
    number.raw().unsigned_abs()
}

/// The ray from a point in a direction that rays have.
pub fn ray_of(origin: [i32; 3], dir: [i32; 3]) -> Option<Ray>
    ensures { IfSome result (λ ray. IsRayDirection ray.dir) }
{
    let dir = vector(dir);
    let greatest = size(dir.x).max(size(dir.y)).max(size(dir.z));
    if greatest < 32768 || greatest > 65537 {
        return None;
    }
    Some(Ray {
        origin: vector(origin),
        dir,
    })
}

fn is_as(found: Option<Hit>, expected: Expected) -> bool {
    match found {
        Some(hit) => (hit.t, hit.object, hit.leaf, hit.face, hit.entering) == expected,
        None => expected == NONE,
    }
}

/// Whether these are the hits of a ray in a scene, one behind the other.
pub fn are_hits(
    alloc: Global,
    pieces: &[Piece],
    ray: (&[i32; 3], &[i32; 3]),
    shadow: bool,
    hits: &[Expected],
) -> Result<bool, AllocError> {
    let scene = scene(alloc, pieces)?;
    let Some(ray) = ray_of(*ray.0, *ray.1) else {
        return Ok(false);
    };
    let world = ListWorld::new(Built::new(alloc, &scene)?);
    let mut scratch = world.scratch(alloc)?;
    let mut after = 0;
    for expected in hits {
        let found = world.nearest(&mut scratch, &ray, after, shadow);
        if !is_as(found, *expected) {
            return Ok(false);
        }
        if found.is_none() {
            return Ok(true);
        }
        after = expected.0;
    }
    Ok(true)
}

/// The first row of a table that isn't right.
pub fn first_wrong(alloc: Global, rows: &[Row]) -> Option<usize> {
    for (number, row) in rows.iter().enumerate() {
        let (pieces, origin, dir, shadow, hits) = row;
        if are_hits(alloc, pieces, (origin, dir), *shadow, hits) != Ok(true) {
            return Some(number);
        }
    }
    None
}
