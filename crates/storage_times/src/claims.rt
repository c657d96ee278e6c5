//! Claims a second.
ghost use Rattle.std.specs.Prelude.{◌≡◌, ◌<◌, ◌≤◌, ℕ, All, IfOk, vec_len, slice_index};
ghost use Rattle.block_pool.specs.Pools.{IsIdle, parts_of};

use crate::draws::{Worker, finish, work, workers};
use crate::idle::Idle;
use block_pool::Pool;
use std::alloc::{AllocError, Global};
use std::rt::Runtime;
use std::snapshot::Snapshot;
use std::thread::Threads;
use std::time::Instant;
use std::{io, thread};

/// So many numbers, from 0 on.
fn numbers(alloc: Global, count: u32) -> Result<Vec<u32>, AllocError>
    ensures { IfOk result (λ list. (vec_len list ≡ count) × ((i : ℕ) → i < count → slice_index list.items i ≡ i)) }
{
    let mut list = Vec::with_capacity(alloc, count as usize)?;
    for number in 0..count {
        list.push(number)?;
    }
    Ok(list)
}

/// Lets each worker draw, in a thread of its own.
fn draw_all<R: Threads + Sync>(rt: &R, pool: &Pool<(), Idle>, list: &mut [Worker], threads: usize)
    requires threads { 0 < threads }
    requires idle { All (λ worker. IsIdle pool.now worker.seat × (parts_of worker.seat ≡ 1)) list.old }
    ensures { All (λ worker. IsIdle pool.now worker.seat × (parts_of worker.seat ≡ 1)) list.new }
{
    thread::for_each_mut(rt, list, threads, &|_, worker| work(pool, worker));
}

/// How many blocks the workers drew, and the sum of their numbers.
fn totals(list: &[Worker]) -> (u64, u64) {
    let mut drawn = 0u64;
    let mut sum = 0u64;
    for worker in list {
        drawn = drawn.wrapping_add(worker.drawn);
        sum = sum.wrapping_add(worker.sum);
    }
    (drawn, sum)
}

/// Draws so many blocks by so many workers, 1 to 64, each in a thread of its own, and tells what the
/// draws took. The list of the blocks is made before.
pub fn run<R: Runtime + Threads + Sync>(
    rt: &R,
    alloc: Global,
    count: u32,
    callers: u32,
) -> io::Result<()> {
    let callers = callers.clamp(1, 64);
    let todo = numbers(alloc, count)?;
    let list = Vec::with_capacity(alloc, callers as usize)?;
    let Ok((pool, seats)) = Pool::start(alloc, Snapshot::of(&()), todo, Idle, callers) else {
        return Err(io::ErrorKind::OutOfMemory.into());
    };
    let mut list = workers(&pool, seats, list);
    let start = Instant::now(rt);
    draw_all(rt, &pool, list.as_mut_slice(), callers as usize);
    let end = Instant::now(rt);
    let (drawn, sum) = totals(list.as_slice());
    let (_pen, numbers) = finish(pool, list);
    let time = end?.duration_since(start?);
    println!(rt;
        "{drawn} blocks with the sum {sum} and {numbers} numbers drawn by {callers} workers: {} us",
        time.as_micros()
    )?;
    Ok(())
}
