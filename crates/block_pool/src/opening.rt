//! A pool over a pen of a state file.
ghost use Rattle.std.specs.Prelude.{◌≡◌, ◌≤◌, IfOk, IfErr, All, vec_len, length, false};
ghost use Rattle.state_file.specs.Pens.{layout_in};
ghost use Rattle.block_pool.specs.Pools.{terms_of, parts_of, IsNew};
ghost use Rattle.block_pool.specs.Starts.{AreLeft};
ghost use Rattle.block_pool.specs.Views.{list_of};

use crate::pool::Pool;
use crate::seat::Seat;
use crate::start::Start;
use crate::tracer::Tracer;
use shelf::Shelf;
use state_file::Pen;
use std::alloc::Global;
use std::snapshot::Snapshot;

impl<T: Tracer, S: Shelf> Pool<Start<T, S>, Pen<S>> {
    /// Makes a pool of these blocks for the tracer's picture, with one seat for each caller. Err is want of memory, with the pen.
    pub fn new(
        alloc: Global,
        tracer: &T,
        todo: Vec<u32>,
        pen: Pen<S>,
        callers: u32,
    ) -> Result<(Pool<Start<T, S>, Pen<S>>, Vec<Seat<Start<T, S>, Pen<S>>>), Pen<S>>
        requires callers { (1 ≤ callers) × (callers ≤ 64) }
        requires sides { T.geometry tracer.now ≡ pen.frame.geometry }
        requires bytes { length (T.picture tracer.now) ≡ (layout_in pen).picture }
        requires list { AreLeft pen todo.items }
        requires calm { pen.failed ≡ false }
        ensures list { IfOk result (λ made. list_of (terms_of made.0) ≡ todo.items) }
        ensures callers { IfOk result (λ made. (terms_of made.0).callers ≡ callers) }
        ensures start { IfOk result (λ made. ((terms_of made.0).start.value.tracer.value ≡ tracer.now) × ((terms_of made.0).start.value.pen.value ≡ pen)) }
        ensures count { IfOk result (λ made. vec_len made.1 ≡ callers) }
        ensures seats { IfOk result (λ made. All (λ seat. IsNew made.0 seat × (parts_of seat ≡ 1)) made.1.items) }
        ensures back { IfErr result (λ left. left ≡ pen) }
    {
        let failed = pen.failed();
        prove!(!failed);
        let start = Start {
            tracer: Snapshot::of(tracer),
            pen: Snapshot::of(&pen),
        };
        Pool::start(alloc, Snapshot::of(&start), todo, pen, callers)
    }
}
