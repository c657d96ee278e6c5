//! Real threads over the pool.
ghost use Rattle.std.specs.Prelude.{◌≡◌, ◌<◌, ◌≤◌, ◌+◌, ℕ, All, IfOk, vec_len, vec_capacity, slice_index};
ghost use Rattle.block_pool.specs.Pools.{IsIdle, IsNew, parts_of, terms_of};

use crate::ink::Ink;
use crate::workers::{Worker, gather, work};
use block_pool::{Pool, Seat};
use std::alloc::{AllocError, Global};
use std::snapshot::Snapshot;
use std::test::Fail;
use std::thread;
use std::thread::Threads;

/// So many blocks, from 0 on.
pub fn blocks(alloc: Global, count: u32) -> Result<Vec<u32>, AllocError>
    ensures { IfOk result (λ list. (vec_len list ≡ count) × ((i : ℕ) → i < count → slice_index list.items i ≡ i)) }
{
    let mut list = Vec::new(alloc);
    for block in 0..count {
        list.push(block)?;
    }
    Ok(list)
}

/// Gives each seat to a worker.
pub fn workers(
    pool: &Pool<(), Ink>,
    mut seats: Vec<Seat<(), Ink>>,
    mut list: Vec<Worker>,
) -> Vec<Worker>
    requires seats { All (λ seat. IsNew pool.now seat × (parts_of seat ≡ 1)) seats.items }
    requires room { (vec_len list ≡ 0) × (vec_len seats ≤ vec_capacity list) }
    ensures count { vec_len result ≡ vec_len seats }
    ensures idle { All (λ worker. IsIdle pool.now worker.seat × (parts_of worker.seat ≡ 1)) result.items }
{
    while let Some(seat) = seats.pop() {
        list.push_reserved(Worker {
            seat,
            seen: [0; 256],
            failed: false,
        });
    }
    list
}

// What the workers did: how many numbers were drawn, how often each block was, and whether the pen failed under one.
#[derive(Drop)]
struct Done {
    drawn: u64,
    seen: [u32; 256],
    failed: bool,
}

// Adds up what the workers saw.
fn seen_by(workers: &[Worker]) -> ([u32; 256], bool) {
    let mut seen = [0u32; 256];
    let mut failed = false;
    for worker in workers {
        failed = failed || worker.failed;
        add(&mut seen, &worker.seen);
    }
    (seen, failed)
}

fn add(all: &mut [u32; 256], one: &[u8; 256]) {
    for (total, count) in all.iter_mut().zip(one.iter()) {
        *total = total.saturating_add(u32::from(*count));
    }
}

// Lets each worker work, in a thread of its own.
fn work_all<R: Threads + Sync>(rt: &R, pool: &Pool<(), Ink>, list: &mut [Worker], threads: usize)
    requires threads { 0 < threads }
    requires idle { All (λ worker. IsIdle pool.now worker.seat × (parts_of worker.seat ≡ 1)) list.old }
    ensures { All (λ worker. IsIdle pool.now worker.seat × (parts_of worker.seat ≡ 1)) list.new }
{
    thread::for_each_mut(rt, list, threads, &|_, worker| work(pool, worker));
}

/// Makes one seat of all workers' seats, and ends the pool.
pub fn finish(pool: Pool<(), Ink>, mut list: Vec<Worker>) -> (Ink, u64)
    requires idle { All (λ worker. IsIdle pool worker.seat × (parts_of worker.seat ≡ 1)) list.items }
    requires count { vec_len list ≡ (terms_of pool).callers }
    requires some { 0 < vec_len list }
{
    let last = list.pop();
    let Some(
        Worker {
            seat,
            seen: _,
            failed: _,
        },
    ) = last
    else {
        unreachable!()
    };
    gather(pool, seat, list)
}

// Runs so many workers, each in a thread of its own, over the blocks and a pen that fails after so many commits.
fn run<R: Threads + Sync>(
    rt: &R,
    alloc: Global,
    callers: u32,
    commits: u32,
) -> Result<Option<Done>, AllocError>
    requires { (1 ≤ callers) × (callers ≤ 64) }
{
    let todo = blocks(alloc, 200)?;
    let pen = Ink::new(commits);
    let list = Vec::with_capacity(alloc, callers as usize)?;
    let Ok((pool, seats)) = Pool::start(alloc, Snapshot::of(&()), todo, pen, callers) else {
        return Ok(None);
    };
    let mut list = workers(&pool, seats, list);
    work_all(rt, &pool, list.as_mut_slice(), callers as usize);
    let (seen, failed) = seen_by(list.as_slice());
    let (_pen, drawn) = finish(pool, list);
    Ok(Some(Done {
        drawn,
        seen,
        failed,
    }))
}

// Whether each of the 200 blocks was drawn once, and nothing else.
fn is_each_once(seen: &[u32; 256]) -> bool {
    seen.iter()
        .enumerate()
        .all(|(block, count)| *count == if block < 200 { 1 } else { 0 })
}

#[test]
fn each_block_is_drawn_once_by_any_number_of_threads(rt: HostRuntime) -> Result<(), Fail> {
    for callers in [1, 2, 4, 64] {
        let Some(done) = run(&rt, rt.alloc(), callers, 1000)? else {
            panic!(rt; "no memory")
        };
        assert!(rt; is_each_once(&done.seen) && !done.failed);
        assert!(rt; done.drawn >= 200 && done.drawn <= 200 + u64::from(callers));
    }
    Ok(())
}

#[test]
fn a_pen_that_fails_ends_it(rt: HostRuntime) -> Result<(), Fail> {
    let Some(done) = run(&rt, rt.alloc(), 1, 7)? else {
        panic!(rt; "no memory")
    };
    assert!(rt; done.failed && done.drawn == 8);
    Ok(())
}
