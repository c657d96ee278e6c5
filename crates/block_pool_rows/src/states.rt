//! The pool over the pen of a state file in memory.
ghost use Rattle.std.specs.Prelude.{◌≡◌, All, ◌<◌, ◌≤◌, ℕ, IfOk, [], IfSome, vec_len, vec_capacity, slice_index, false};
ghost use Rattle.state_file.specs.Pens.{knows_open, layout_in};
ghost use Rattle.block_pool.specs.Pools.{IsIdle, IsNew, parts_of, terms_of};
ghost use Rattle.block_pool.specs.Starts.{AreLeft, IsDrawnBlock, whole_block};
ghost use Rattle.block_pool_rows.specs.Blanks.{blank_geometry, blank_picture};

use block_pool::{Ordered, Permit, Pool, Seat, Start, Tracer};
use shelf::MemShelf;
use state_file::{DoneBlock, Geometry, Pen, open};
use std::alloc::{AllocError, Global};
use std::test::Fail;

// Draws a black picture of 256 by 32 pixels.
struct Blank;

impl Tracer for Blank {
    type Work = ();

    ghost geometry = { λ _. blank_geometry };

    ghost picture = { λ _. blank_picture };

    ghost made = { λ _ _. Unit {0} };

    fn work(&self, _alloc: Global) -> Result<(), AllocError> {
        Ok(())
    }

    fn trace(&self, _work: &mut (), permit: Permit, mut buffer: Vec<u8>) -> DoneBlock
        requires block { permit.block < 8 }
        requires empty { buffer.items ≡ [] }
        requires room { whole_block blank_geometry ≤ vec_capacity buffer }
        ensures index { result.index ≡ permit.block }
        ensures pixels { IsDrawnBlock blank_geometry blank_picture result }
        ensures room { whole_block blank_geometry ≤ vec_capacity result.pixels }
    {
        let index = permit.spend();
        let Ok(()) = buffer.resize(3072, 0) else {
            unreachable!()
        };
        DoneBlock {
            index,
            pixels: buffer,
        }
    }
}

// A pen of a new state file for the black picture.
fn pen_in_memory(alloc: Global) -> Result<Option<Pen<MemShelf>>, AllocError>
    ensures { IfOk result (λ made. IfSome made (λ pen. (pen.frame.geometry ≡ blank_geometry) × (pen.failed ≡ false) × ((b : ℕ) → knows_open pen b → ⊥))) }
{
    let key = vec![in alloc; 7u8, 7]?;
    let geometry = Geometry {
        width: 256,
        height: 32,
        bits: 8,
    };
    match open(
        alloc,
        MemShelf::new(alloc),
        b"a.ppm.pov-state",
        key,
        geometry,
        false,
    ) {
        Ok(pen) => Ok(Some(pen)),
        Err(_refused) => Ok(None),
    }
}

type StatePool = Pool<Start<Blank, MemShelf>, Pen<MemShelf>>;

type StateSeat = Seat<Start<Blank, MemShelf>, Pen<MemShelf>>;

// A pool of the blocks 3 and 7, with two seats.
fn pool_of_two(alloc: Global) -> Result<Option<(StatePool, Vec<StateSeat>)>, AllocError>
    ensures { IfOk result (λ made. IfSome made (λ both. (vec_len both.1 ≡ 2) × ((terms_of both.0).callers ≡ 2) × All (λ seat. IsNew both.0 seat × (parts_of seat ≡ 1)) both.1.items)) }
{
    let Some(pen) = pen_in_memory(alloc)? else {
        return Ok(None);
    };
    let todo = vec![in alloc; 3u32, 7]?;
    match Pool::new(alloc, &Blank, todo, pen, 2) {
        Ok(made) => Ok(Some(made)),
        Err(_pen) => Ok(None),
    }
}

// One seat takes the pen, the other one finds it out, and it goes home.
fn pass_the_pen<K, P: Ordered<K>>(
    pool: &Pool<K, P>,
    first: &mut Seat<K, P>,
    second: &mut Seat<K, P>,
) -> bool
    requires first { IsIdle pool.now first.old }
    requires second { IsIdle pool.now second.old }
    ensures first { IsIdle pool.now first.new × (parts_of first.new ≡ parts_of first.old) }
    ensures second { IsIdle pool.now second.new × (parts_of second.new ≡ parts_of second.old) }
{
    match pool.take_pen(first) {
        None => false,
        Some(pen) => {
            let missed = find_it_out(pool, second);
            pool.give_pen(first, pen);
            missed
        }
    }
}

// Whether the seat finds the pen out.
fn find_it_out<K, P: Ordered<K>>(pool: &Pool<K, P>, seat: &mut Seat<K, P>) -> bool
    requires { IsIdle pool.now seat.old }
    ensures { IsIdle pool.now seat.new × (parts_of seat.new ≡ parts_of seat.old) }
{
    match pool.take_pen(seat) {
        None => true,
        Some(pen) => {
            pool.give_pen(seat, pen);
            false
        }
    }
}

fn block(permit: Option<Permit>) -> Option<u32> {
    match permit {
        Some(permit) => Some(permit.spend()),
        None => None,
    }
}

#[test]
fn a_list_of_two_is_drawn_and_the_pen_of_its_state_file_is_passed(
    rt: HostRuntime,
) -> Result<(), Fail> {
    let Some((pool, mut seats)) = pool_of_two(rt.alloc())? else {
        panic!(rt; "the state file could not be made")
    };
    let (Some(mut second), Some(mut first)) = (seats.pop(), seats.pop()) else {
        panic!(rt; "two seats were asked for")
    };
    let claims = [
        block(pool.claim(&mut first)),
        block(pool.claim(&mut second)),
        block(pool.claim(&mut first)),
    ];
    assert!(rt; claims == [Some(3), Some(7), None]);
    assert!(rt; pass_the_pen(&pool, &mut first, &mut second));
    pool.merge(&mut first, second);
    let (_pen, drawn) = pool.gather(first);
    assert!(rt; drawn == 3);
    Ok(())
}
