// Rays to measure with.
ghost use Rattle.shapes.specs.Rays.{IsRayDirection};

use fix_math::unit;
use shapes::Ray;
use written_leaves::vector;

/// How many rays a picture has along each side.
pub const COLUMNS: i32 = 160;

pub const ROWS: i32 = 120;

/// The ray of a pixel, from the middle of the world, 80 degrees wide.
pub fn ray_of(column: i32, row: i32) -> Ray
    ensures { IsRayDirection result.dir }
{
    let x = column.wrapping_mul(2).wrapping_sub(159).wrapping_mul(340);
    let y = row.wrapping_mul(2).wrapping_sub(119).wrapping_mul(340);
    Ray {
        origin: vector([0, 0, 0]),
        dir: unit(vector([x, y, 65536])),
    }
}
