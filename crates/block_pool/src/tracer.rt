//! What draws the blocks.
ghost use Rattle.std.specs.Prelude.{◌≡◌, ◌≤◌, ◌<◌, ℕ, [], IfOk, vec_capacity, List};
ghost use Rattle.state_file.specs.declared.geometry.Geometry.{Geometry};
ghost use Rattle.state_file.specs.Shape.{blocks};
ghost use Rattle.block_pool.specs.Starts.{whole_block, IsDrawnBlock};

use crate::permit::Permit;
use state_file::DoneBlock;
use std::alloc::{AllocError, Global};

/// Draws the blocks of one picture. Its meaning is that picture: the sides, and the bytes by rows.
pub trait Tracer {
    /// What a worker needs while it traces; it is taken before, so that tracing takes no memory.
    type Work: Drop + Send;

    ghost geometry: { Self → Geometry };

    ghost picture: { Self → List ℕ };
    // This tracer made the work.
    ghost made: { Self → Self.Work → Type 0 };

    fn work(&self, alloc: Global) -> Result<Self::Work, AllocError>
        ensures { IfOk result (λ work. made self.now work) };

    /// Draws the block of the permit into the buffer, which is empty and has room for a whole block.
    fn trace(&self, work: &mut Self::Work, permit: Permit, buffer: Vec<u8>) -> DoneBlock
        requires made { made self.now work.old }
        requires block { permit.block < blocks (geometry self.now) }
        requires empty { buffer.items ≡ [] }
        requires room { whole_block (geometry self.now) ≤ vec_capacity buffer }
        ensures index { result.index ≡ permit.block }
        ensures pixels { IsDrawnBlock (geometry self.now) (picture self.now) result }
        ensures room { whole_block (geometry self.now) ≤ vec_capacity result.pixels }
        ensures made { made self.now work.new };
}
