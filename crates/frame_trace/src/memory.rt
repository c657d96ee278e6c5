// Memory that is taken before a drawing.
ghost use Rattle.std.specs.Prelude.{◌≡◌, ◌<◌, ◌≤◌, ◌+◌, ◌^◌, IfOk, length};
ghost use Rattle.frame_trace.specs.Ready.{HasRoom, IsFit};

use crate::rows::Rows;
use crate::work::Work;
use csg_hits::World;
use fix_math::Fix;
use scene_model::Rgb;
use std::alloc::{AllocError, Global};

/// The memory for rectangles of at most this width: a hit's rows, and three rows of colours. Err is want of memory.
pub fn work_for<W: World>(world: &W, alloc: Global, width: u32) -> Result<Work, AllocError>
    ensures { IfOk result (IsFit (W.surfaces world.now) width) }
{
    let scratch = world.scratch(alloc)?;
    let rows = rows_for(alloc, width)?;
    Ok(Work { scratch, rows })
}

fn rows_for(alloc: Global, width: u32) -> Result<Rows, AllocError>
    ensures { IfOk result (λ rows. HasRoom rows (width + 2)) }
{
    let above = row_for(alloc, width)?;
    let here = row_for(alloc, width)?;
    let below = row_for(alloc, width)?;
    Ok(Rows { above, here, below })
}

fn row_for(alloc: Global, width: u32) -> Result<Vec<Rgb>, AllocError>
    ensures { IfOk result (λ row. width + 2 ≤ length row.items) }
{
    vec![in alloc; [Fix(0); 3]; width as usize + 2]
}
