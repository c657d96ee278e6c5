// How many boxes are tested.
ghost use Rattle.shapes.specs.Rays.{IsRayDirection};

use crate::watch::Watch;
use crate::world::SlabWorld;
use csg_hits::{Built, Search, World};
use fix_math::unit;
use shapes::Ray;
use std::alloc::{AllocError, Global};
use written_leaves::vector;
use written_scenes::{generated, scene};

/// Counts the boxes that are tested.
#[derive(Drop)]
struct Count {
    boxes: u64,
}

impl Watch for Count {
    fn tested(&mut self) {
        self.boxes = self.boxes.wrapping_add(1);
    }
}

/// The ray from <0, 6, -14> to the point <x, 0, z>, in whole units.
fn ray_to(x: i32, z: i32) -> Ray
    ensures { IsRayDirection result.dir }
{
    let along_x = x.wrapping_mul(65536);
    let along_z = z.wrapping_add(14).wrapping_mul(65536);
    Ray {
        origin: vector([0, 393_216, -917_504]),
        dir: unit(vector([along_x, -393_216, along_z])),
    }
}

/// How many boxes are tested for the rays to 64 points of a square.
fn boxes_tested(alloc: Global, world: &SlabWorld) -> Result<u64, AllocError> {
    let mut scratch = world.scratch(alloc)?;
    let mut count = Count { boxes: 0 };
    for i in 0..64u32 {
        let ray = ray_to((i % 8) as i32, (i / 8) as i32);
        if let Some(mut search) = Search::new(&ray, 0, false) {
            world.search(&mut scratch, &mut search, &mut count);
        }
    }
    Ok(count.boxes)
}

#[test]
fn fewer_than_a_quarter_of_the_boxes_are_tested(rt: HostRuntime) -> Result<(), AllocError> {
    let alloc = rt.alloc();
    let scene = scene(alloc, &generated(alloc, 1024)?)?;
    let world = SlabWorld::build(&rt, alloc, Built::new(alloc, &scene)?)?;
    let boxes = boxes_tested(alloc, &world)?;
    assert!(rt; boxes > 64, "{boxes} boxes");
    assert!(rt; boxes < 1025 * 64 / 4, "{boxes} boxes");
    Ok(())
}
