//! The pool over a pen in memory, which counts what it opens.
ghost use Rattle.std.specs.Prelude.{◌≡◌, ◌<◌, IsTrue, ◌↔◌, ◌+◌, slice_index_or, true, false};
ghost use Rattle.block_pool.specs.Pools.{IsIdle, parts_of};

use crate::{Ordered, Permit, Pool, Seat};
use std::snapshot::Snapshot;
use std::test::Fail;

// A pen of eight blocks.
#[derive(Drop)]
struct Ink {
    open: [bool; 8],
}

impl Ordered<()> for Ink {
    ghost in_order = { λ _ _. Unit {0} };

    ghost is_block = { λ _ x. x < 8 };

    ghost knows = { λ pen x. slice_index_or pen.open x false ≡ true };

    ghost is_tried = { λ _ _. ⊥ };

    ghost was_block = { λ _ x. x < 8 };

    ghost knew = { λ _ _. ⊥ };

    fn is_open(&self, index: u32) -> bool
        requires { index < 8 }
        ensures { IsTrue result ↔ (slice_index_or self.now.open index false ≡ true) }
    {
        self.open[index as usize]
    }

    ghost keeps_blocks = { λ pen start _ x below. below };
}

// One seat takes the pen, the other one finds it out, and it goes home.
fn pass_the_pen(pool: &Pool<(), Ink>, first: &mut Seat<(), Ink>, second: &mut Seat<(), Ink>) -> bool
    requires first { IsIdle pool.now first.old }
    requires second { IsIdle pool.now second.old }
    ensures first { IsIdle pool.now first.new × (parts_of first.new ≡ parts_of first.old) }
    ensures second { IsIdle pool.now second.new × (parts_of second.new ≡ parts_of second.old) }
{
    match pool.take_pen(first) {
        None => false,
        Some(pen) => {
            let missed = find_it_out(pool, second);
            pool.give_pen(first, pen);
            missed
        }
    }
}

// Whether the seat finds the pen out.
fn find_it_out(pool: &Pool<(), Ink>, seat: &mut Seat<(), Ink>) -> bool
    requires { IsIdle pool.now seat.old }
    ensures { IsIdle pool.now seat.new × (parts_of seat.new ≡ parts_of seat.old) }
{
    match pool.take_pen(seat) {
        None => true,
        Some(pen) => {
            pool.give_pen(seat, pen);
            false
        }
    }
}

fn block(permit: Option<Permit>) -> Option<u32> {
    match permit {
        Some(permit) => Some(permit.spend()),
        None => None,
    }
}

#[test]
fn blocks_are_drawn_once_and_the_pen_is_passed(rt: HostRuntime) -> Result<(), Fail> {
    let todo = vec![in rt.alloc(); 3u32, 7]?;
    let pen = Ink { open: [false; 8] };
    let Ok((pool, mut seats)) = Pool::start(rt.alloc(), Snapshot::of(&()), todo, pen, 2) else {
        panic!(rt; "no memory")
    };
    let (Some(mut second), Some(mut first)) = (seats.pop(), seats.pop()) else {
        panic!(rt; "two seats were asked for")
    };
    let claims = [
        block(pool.claim(&mut first)),
        block(pool.claim(&mut second)),
        block(pool.claim(&mut first)),
    ];
    assert!(rt; claims == [Some(3), Some(7), None]);
    assert!(rt; pass_the_pen(&pool, &mut first, &mut second));
    pool.merge(&mut first, second);
    let (pen, drawn) = pool.gather(first);
    assert!(rt; drawn == 3 && pen.open == [false; 8]);
    Ok(())
}
