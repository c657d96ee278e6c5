//! Workers that draw from the pool until there is nothing left.
ghost use Rattle.std.specs.Prelude.{◌≡◌, ◌+◌, ◌≤◌, All, vec_len, vec_capacity};
ghost use Rattle.block_pool.specs.Pools.{IsIdle, IsNew, parts_of, terms_of};

use crate::idle::Idle;
use block_pool::{Pool, Seat};

/// A worker: its seat, how many blocks it drew, and the sum of their numbers.
#[derive(Drop)]
pub struct Worker {
    pub seat: Seat<(), Idle>,
    pub drawn: u64,
    pub sum: u64,
}

/// Draws until there is no block.
fn draw(pool: &Pool<(), Idle>, seat: &mut Seat<(), Idle>) -> (u64, u64)
    requires { IsIdle pool.now seat.old }
    ensures idle { IsIdle pool.now seat.new }
    ensures parts { parts_of seat.new ≡ parts_of seat.old }
{
    let mut sum = 0u64;
    for drawn in 0..u64::MAX {
        let Some(permit) = pool.claim(seat) else {
            return (drawn, sum);
        };
        sum = sum.wrapping_add(u64::from(permit.spend()));
    }
    (u64::MAX, sum)
}

/// Lets the worker draw until there is no block.
pub fn work(pool: &Pool<(), Idle>, worker: &mut Worker)
    requires { IsIdle pool.now worker.old.seat × (parts_of worker.old.seat ≡ 1) }
    ensures { IsIdle pool.now worker.new.seat × (parts_of worker.new.seat ≡ 1) }
{
    let (drawn, sum) = draw(pool, &mut worker.seat);
    worker.drawn = drawn;
    worker.sum = sum;
}

/// Gives each seat to a worker.
pub fn workers(
    pool: &Pool<(), Idle>,
    mut seats: Vec<Seat<(), Idle>>,
    mut list: Vec<Worker>,
) -> Vec<Worker>
    requires seats { All (λ seat. IsNew pool.now seat × (parts_of seat ≡ 1)) seats.items }
    requires room { (vec_len list ≡ 0) × (vec_len seats ≤ vec_capacity list) }
    ensures count { vec_len result ≡ vec_len seats }
    ensures idle { All (λ worker. IsIdle pool.now worker.seat × (parts_of worker.seat ≡ 1)) result.items }
{
    while let Some(seat) = seats.pop() {
        list.push_reserved(Worker {
            seat,
            drawn: 0,
            sum: 0,
        });
    }
    list
}

/// Makes one seat of all, and ends the pool.
fn gather(pool: Pool<(), Idle>, mut first: Seat<(), Idle>, mut others: Vec<Worker>) -> (Idle, u64)
    requires first { IsIdle pool first }
    requires others { All (λ worker. IsIdle pool worker.seat × (parts_of worker.seat ≡ 1)) others.items }
    requires parts { parts_of first + vec_len others ≡ (terms_of pool).callers }
{
    while let Some(worker) = others.pop() {
        let Worker {
            seat,
            drawn: _,
            sum: _,
        } = worker;
        pool.merge(&mut first, seat);
    }
    pool.gather(first)
}

/// Ends the pool with the seats of all workers: the pen, and how many numbers were drawn.
pub fn finish(pool: Pool<(), Idle>, mut list: Vec<Worker>) -> (Idle, u64)
    requires idle { All (λ worker. IsIdle pool worker.seat × (parts_of worker.seat ≡ 1)) list.items }
    requires count { vec_len list ≡ (terms_of pool).callers }
    requires some { 1 ≤ vec_len list }
{
    let last = list.pop();
    let Some(
        Worker {
            seat,
            drawn: _,
            sum: _,
        },
    ) = last
    else {
        unreachable!()
    };
    gather(pool, seat, list)
}
