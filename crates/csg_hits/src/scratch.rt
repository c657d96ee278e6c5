// Room for what is worked out of a scene's leaves on a path.
ghost use Rattle.std.specs.Prelude.{◌≡◌, IfOk, length};
ghost use Rattle.csg_hits.specs.Hits.{Fits};
ghost use Rattle.csg_hits.specs.Ready.{surfaces_in};

use crate::built::Built;
use crate::row::Row;
use std::alloc::{AllocError, Global};

/// Room for one row of each leaf, so that a hit is found without memory. Each worker has one of its own.
#[derive(Drop)]
pub struct Scratch {
    pub(crate) rows: Vec<Row>,
}

impl Scratch {
    /// A scratch that fits every world of this scene.
    pub fn for_scene(alloc: Global, built: &Built) -> Result<Scratch, AllocError>
        ensures { IfOk result (Fits (surfaces_in built.now)) }
    {
        let rows = vec![in alloc; Row::empty(); built.leaves.len()]?;
        Ok(Scratch { rows })
    }
}
