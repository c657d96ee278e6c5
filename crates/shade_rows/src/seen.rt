// What a ray shows.
ghost use Rattle.std.specs.Prelude.{◌≡◌, IfSome, unsigned_abs};
ghost use Rattle.scene_model.specs.Amounts.{IsAmount};
ghost use Rattle.shapes.specs.Rays.{IsRayDirection};

use crate::stages::{Lamp, Thing, stage};
use csg_hits::{Built, ListWorld, World};
use finish_shade::shade;
use fix_math::Fix;
use shapes::Ray;
use std::alloc::{AllocError, Global};
use written_leaves::vector;

/// A scene: its things, its lamps, its background, and the weight below which a ray isn't followed.
#[derive(Clone, Copy)]
pub struct Set<'a> {
    pub things: &'a [Thing],
    pub lamps: &'a [Lamp],
    pub background: [u32; 3],
    pub adc: u32,
}

/// A ray: its origin, its direction, the levels, and its weight.
pub type View = ([i32; 3], [i32; 3], u32, u32);

fn size(number: Fix) -> u64
    ensures { result ≡ unsigned_abs number }
{
    number.raw().unsigned_abs()
}

/// The ray from a point in a direction that rays have.
fn ray_of(origin: [i32; 3], dir: [i32; 3]) -> Option<Ray>
    ensures { IfSome result (λ ray. IsRayDirection ray.dir) }
{
    let dir = vector(dir);
    let greatest = size(dir.x).max(size(dir.y)).max(size(dir.z));
    if greatest < 32768 || greatest > 65537 {
        return None;
    }
    Some(Ray {
        origin: vector(origin),
        dir,
    })
}

fn weight_of(raw: u32) -> Fix
    ensures { IsAmount 65536 result }
{
    Fix(raw.min(65536) as i64)
}

/// The colour that a ray shows, in raw numbers.
pub fn seen(alloc: Global, set: Set, view: View) -> Result<[i64; 3], AllocError> {
    let (origin, dir, levels, weight) = view;
    let scene = stage(alloc, set.things, set.lamps, set.background, set.adc)?;
    let Some(ray) = ray_of(origin, dir) else {
        return Err(AllocError);
    };
    let world = ListWorld::new(Built::new(alloc, &scene)?);
    let mut scratch = world.scratch(alloc)?;
    let [red, green, blue] = shade(
        &world,
        &scene,
        &mut scratch,
        &ray,
        levels,
        weight_of(weight),
    );
    Ok([red.raw(), green.raw(), blue.raw()])
}
