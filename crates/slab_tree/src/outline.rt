// The boxes of a scene's pieces.
ghost use Rattle.std.specs.Prelude.{◌≡◌, ◌≤◌, ◌<◌, ◌^◌, IfOk, length};
ghost use Rattle.csg_hits.specs.Ready.{pieces_in};
ghost use Rattle.slab_tree.specs.Outlines.{AreBoxes, IsHeld, IsWhole};

use box_probe::Bounds;
use csg_hits::Built;
use rayon::prelude::*;
use std::alloc::{AllocError, Global};
use std::thread::Threads;

/// The boxes of all pieces, by their numbers.
pub fn all_bounds(
    rt: &(impl Threads + Sync),
    alloc: Global,
    built: &Built,
) -> Result<Vec<Bounds>, AllocError>
    ensures { IfOk result (λ boxes. AreBoxes (pieces_in built.now) boxes.items) }
{
    (0..built.len())
        .into_par_iter()
        .map(
            |piece: u32| -> Bounds
                ensures { IsHeld (pieces_in built.entry.now) piece result }
            { piece_bounds(built, piece) },
        )
        .collect(rt, alloc)
}

/// A box outside of which a piece isn't struck.
pub fn piece_bounds(built: &Built, piece: u32) -> Bounds
    ensures { IsHeld (pieces_in built.now) piece result }
{
    Bounds::around(&built.piece_bounds(piece))
}

/// The numbers of a scene's pieces: of those that are apart from the tree, and of those in it.
#[derive(Drop)]
pub struct Parts {
    pub apart: Vec<u32>,
    pub order: Vec<u32>,
}

/// Sets the pieces apart whose box is the whole world.
pub fn parted(alloc: Global, boxes: &[Bounds]) -> Result<Parts, AllocError>
    requires { length boxes.now < 2 ^ 32 }
    ensures { IfOk result (λ parts. IsWhole (length boxes.now) parts.apart.items parts.order.items) }
{
    let mut apart = Vec::new(alloc);
    let mut order = Vec::new(alloc);
    for piece in 0..boxes.len() {
        if boxes[piece].is_world() {
            apart.push(piece as u32)?;
        } else {
            order.push(piece as u32)?;
        }
    }
    Ok(Parts { apart, order })
}
