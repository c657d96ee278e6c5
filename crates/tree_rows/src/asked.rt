// The hits of rays in trees and lists.
ghost use Rattle.std.specs.List.{All};
ghost use Rattle.scene_model.specs.Solids.{IsLeaf};
ghost use Rattle.shapes.specs.Rays.{IsRayDirection};

use csg_hits::{Built, Hit, ListWorld, World};
use fix_math::{V3, unit};
use scene_model::Scene;
use shapes::Ray;
use slab_tree::SlabWorld;
use std::alloc::{AllocError, Global};
use std::thread::Threads;
use written_leaves::vector;

/// A hit as numbers: where, the object, the leaf, the face, and whether the ray goes in.
pub type Seen = (u64, u32, u32, u8, bool);

/// A ray's origin, and a point that it passes, in raw numbers.
pub type Way = ([i32; 3], [i32; 3]);

fn seen(hit: Option<Hit>) -> Option<Seen> {
    match hit {
        Some(hit) => Some((hit.t, hit.object, hit.leaf, hit.face, hit.entering)),
        None => None,
    }
}

fn difference(from: [i32; 3], to: [i32; 3]) -> V3 {
    vector([
        to[0].wrapping_sub(from[0]),
        to[1].wrapping_sub(from[1]),
        to[2].wrapping_sub(from[2]),
    ])
}

/// The ray of a way.
pub fn ray_of(way: Way) -> Ray
    ensures { IsRayDirection result.dir }
{
    Ray {
        origin: vector(way.0),
        dir: unit(difference(way.0, way.1)),
    }
}

/// The first hits of a ray, one behind the other.
pub fn hits<W: World>(alloc: Global, world: &W, ray: &Ray) -> Result<Vec<Seen>, AllocError>
    requires { IsRayDirection ray.now.dir }
{
    let mut scratch = world.scratch(alloc)?;
    let mut found = Vec::new(alloc);
    let mut after = 0;
    for _ in 0..8u32 {
        match seen(world.nearest(&mut scratch, ray, after, false)) {
            Some(hit) => {
                found.push(hit)?;
                after = hit.0;
            }
            None => return Ok(found),
        }
    }
    Ok(found)
}

/// The tree of a scene.
pub fn tree_of(
    rt: &(impl Threads + Sync),
    alloc: Global,
    scene: &Scene,
) -> Result<SlabWorld, AllocError>
    requires { All IsLeaf scene.now.leaves.items }
{
    SlabWorld::build(rt, alloc, Built::new(alloc, scene)?)
}

/// The first way whose hits in a tree aren't those in a list, and how many hits there were before.
pub fn first_other(
    rt: &(impl Threads + Sync),
    alloc: Global,
    scene: &Scene,
    ways: &[Way],
) -> Result<(Option<usize>, usize), AllocError>
    requires { All IsLeaf scene.now.leaves.items }
{
    let tree = tree_of(rt, alloc, scene)?;
    let list = ListWorld::new(Built::new(alloc, scene)?);
    let mut met: usize = 0;
    for (number, way) in ways.iter().enumerate() {
        let ray = ray_of(*way);
        let expected = hits(alloc, &list, &ray)?;
        let found = hits(alloc, &tree, &ray)?;
        if found.as_slice() != expected.as_slice() {
            return Ok((Some(number), met));
        }
        met = met.wrapping_add(found.len());
    }
    Ok((None, met))
}
