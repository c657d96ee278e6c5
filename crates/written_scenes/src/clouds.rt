// Many balls.
use std::alloc::{AllocError, Global};
use written_leaves::Written;

/// The solids of the scene that the program makes of a number of balls: a plane below them, and rows of 32.
pub fn generated(alloc: Global, balls: u32) -> Result<Vec<Written>, AllocError> {
    let mut solids = Vec::new(alloc);
    solids.push(Written::Half([0, 65536, 0], -65536))?;
    for i in 0..balls {
        let x = (i % 32) as i32 * 65536 - 1_048_576;
        let z = (i / 32 % 1024) as i32 * 65536;
        solids.push(Written::Ball([x, 0, z], 26214))?;
    }
    Ok(solids)
}

/// Balls of a raw radius that are strewn over a block of 12 by 10 by 10 units, 8 units from the middle of the world.
pub fn cloud(alloc: Global, balls: u32, radius: i32) -> Result<Vec<Written>, AllocError> {
    let mut solids = Vec::new(alloc);
    let mut seed: u64 = 7;
    for _ in 0..balls {
        seed = seed
            .wrapping_mul(6_364_136_223_846_793_005)
            .wrapping_add(1_442_695_040_888_963_407);
        let x = ((seed >> 33) % 786_432) as i32 - 393_216;
        let y = ((seed >> 12) % 655_360) as i32 - 327_680;
        let z = ((seed >> 43) % 655_360) as i32 + 524_288;
        solids.push(Written::Ball([x, y, z], radius))?;
    }
    Ok(solids)
}
