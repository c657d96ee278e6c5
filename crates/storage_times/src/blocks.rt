//! Blocks to be committed.
ghost use Rattle.std.specs.Prelude.{◌≡◌, ◌≤◌, IfOk};
ghost use Rattle.state_file.specs.Shape.{IsInLimits};
ghost use Rattle.storage_times.specs.Squares.{AreNumbered, IsSquare};

use state_file::{DoneBlock, Geometry};
use std::alloc::{AllocError, Global};

/// A square picture of 8 by 8 blocks.
pub fn small() -> Geometry
    ensures limits { IsInLimits result }
    ensures square { IsSquare 8 result }
{
    Geometry {
        width: 256,
        height: 256,
        bits: 8,
    }
}

/// A square picture of 128 by 128 blocks.
pub fn large() -> Geometry
    ensures limits { IsInLimits result }
    ensures square { IsSquare 128 result }
{
    Geometry {
        width: 4096,
        height: 4096,
        bits: 8,
    }
}

/// So many blocks of 32 by 32 pixels, from 0 on.
pub fn blocks(alloc: Global, count: u32) -> Result<Vec<DoneBlock>, AllocError>
    ensures { IfOk result (λ list. AreNumbered count list.items) }
{
    let mut list = Vec::with_capacity(alloc, count as usize)?;
    for index in 0..count {
        let pixels = vec![in alloc; 128u8; 3072]?;
        list.push(DoneBlock { index, pixels })?;
    }
    Ok(list)
}
