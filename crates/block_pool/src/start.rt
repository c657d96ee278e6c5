//! A pen of a state file, in order for a tracer's picture since the pool was made.
ghost use Rattle.std.specs.Prelude.{◌≡◌, ◌<◌, ℕ, IsTrue, ◌↔◌};

use crate::ordered::Ordered;
use crate::tracer::Tracer;
use shelf::Shelf;
use state_file::Pen;
use std::snapshot::Snapshot;

/// What a pool begins with: the tracer that draws its picture, and the pen with the storage as they were. It exists in proofs alone.
#[derive(Drop)]
pub struct Start<T, S: Shelf> {
    pub tracer: Snapshot<T>,
    pub pen: Snapshot<Pen<S>>,
}

impl<T: Tracer, S: Shelf> Ordered<Start<T, S>> for Pen<S> {
    ghost use Rattle.block_pool.specs.Starts.{IsPenInOrder, IsBlockOf, keeps_blocks_of};
    ghost use Rattle.state_file.specs.Pens.{knows_open, is_tried};

    ghost in_order = { λ pen start. IsPenInOrder (T.picture start.tracer.value) start.pen.value pen };

    ghost is_block = { λ pen x. IsBlockOf pen x };

    ghost knows = { λ pen x. knows_open pen x };

    ghost is_tried = { λ pen x. is_tried pen x };

    ghost was_block = { λ start x. IsBlockOf start.pen.value x };

    ghost knew = { λ start x. knows_open start.pen.value x };

    fn is_open(&self, index: u32) -> bool
        requires { IsBlockOf self.now index }
        ensures { IsTrue result ↔ knows_open self.now index }
    {
        self.knows(index)
    }

    ghost keeps_blocks = { λ pen start. keeps_blocks_of (T.picture start.tracer.value) start.pen.value pen };
}
