// Rays to measure with.
ghost use Rattle.shapes.specs.Rays.{IsRayDirection};

use fix_math::unit;
use shapes::{Path, Ray};
use std::alloc::{AllocError, Global};
use written_leaves::vector;

fn ray_of(x: i32, y: i32, z: i32) -> Ray
    ensures { IsRayDirection result.dir }
{
    Ray {
        origin: vector([0, 0, 0]),
        dir: unit(vector([x, y, z])),
    }
}

/// 19,200 rays from the middle of the world in a cone of a given width, around the z axis or, turned
/// aside, off it.
pub fn rays(alloc: Global, width: i32, aside: i32) -> Result<Vec<Path>, AllocError> {
    let mut paths = Vec::new(alloc);
    for row in 0..120i32 {
        for column in 0..160i32 {
            let x = column.wrapping_mul(2).wrapping_sub(159).wrapping_mul(width);
            let y = row.wrapping_mul(2).wrapping_sub(119).wrapping_mul(width);
            let ray = ray_of(x.wrapping_add(aside), y, 65536);
            if let Some(path) = Path::new(&ray) {
                paths.push(path)?;
            }
        }
    }
    Ok(paths)
}
