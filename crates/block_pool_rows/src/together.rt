//! Two workers at work at once.
ghost use Rattle.std.specs.Prelude.{◌≡◌, ◌<◌, All};
ghost use Rattle.block_pool.specs.Pools.{IsIdle, parts_of};

use crate::ink::Ink;
use crate::threads::{blocks, finish, workers};
use crate::workers::Worker;
use block_pool::Pool;
use std::alloc::{AllocError, Global};
use std::snapshot::Snapshot;
use std::sync::atomic::AtomicBool;
use std::sync::atomic::Ordering::SeqCst;
use std::test::Fail;
use std::thread;
use std::thread::Threads;

// How often the trace of block 0 looks for the start of block 1.
const TURNS: u32 = 1_000_000_000;

// Whether the other block is begun within the turns.
fn sees(begun: &AtomicBool) -> bool {
    for _turn in 0..TURNS {
        if begun.load(SeqCst) {
            return true;
        }
    }
    false
}

// Draws one block. Block 1 tells that it is begun, and block 0 looks for that.
fn trace_one(pool: &Pool<(), Ink>, begun: &AtomicBool, worker: &mut Worker)
    requires { IsIdle pool.now worker.old.seat × (parts_of worker.old.seat ≡ 1) }
    ensures { IsIdle pool.now worker.new.seat × (parts_of worker.new.seat ≡ 1) }
{
    let Some(permit) = pool.claim(&mut worker.seat) else {
        return;
    };
    if permit.spend() == 0 {
        worker.failed = !sees(begun);
    } else {
        begun.store(true, SeqCst);
    }
}

fn trace_all<R: Threads + Sync>(
    rt: &R,
    pool: &Pool<(), Ink>,
    begun: &AtomicBool,
    list: &mut [Worker],
)
    requires { All (λ worker. IsIdle pool.now worker.seat × (parts_of worker.seat ≡ 1)) list.old }
    ensures { All (λ worker. IsIdle pool.now worker.seat × (parts_of worker.seat ≡ 1)) list.new }
{
    thread::for_each_mut(rt, list, 2, &|_, worker| trace_one(pool, begun, worker));
}

// Whether both of two workers did their block while the other one was at work.
fn run<R: Threads + Sync>(rt: &R, alloc: Global) -> Result<Option<bool>, AllocError> {
    let todo = blocks(alloc, 2)?;
    let list = Vec::with_capacity(alloc, 2)?;
    let Ok((pool, seats)) = Pool::start(alloc, Snapshot::of(&()), todo, Ink::new(2), 2) else {
        return Ok(None);
    };
    let mut list = workers(&pool, seats, list);
    let begun = AtomicBool::new(false);
    trace_all(rt, &pool, &begun, list.as_mut_slice());
    let met = list.iter().all(|worker| !worker.failed);
    let (_pen, drawn) = finish(pool, list);
    Ok(Some(met && drawn == 2))
}

#[test]
fn two_blocks_are_traced_at_once(rt: HostRuntime) -> Result<(), Fail> {
    assert!(rt; run(&rt, rt.alloc())? == Some(true));
    Ok(())
}
