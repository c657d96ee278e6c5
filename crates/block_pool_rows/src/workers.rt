//! Workers that draw blocks and commit each where they find the pen.
ghost use Rattle.std.specs.Prelude.{◌≡◌, ◌+◌, All, vec_len};
ghost use Rattle.block_pool.specs.Pools.{IsIdle, parts_of, terms_of, view_of};
ghost use Rattle.block_pool.specs.Views.{IsDrawnBy};

use crate::ink::Ink;
use block_pool::{Pool, Seat};

/// A worker: its seat, how often it drew each block, and whether the pen failed under it.
#[derive(Drop)]
pub struct Worker {
    pub seat: Seat<(), Ink>,
    pub seen: [u8; 256],
    pub failed: bool,
}

/// Draws until there is no block, or the pen fails.
pub fn work(pool: &Pool<(), Ink>, worker: &mut Worker)
    requires { IsIdle pool.now worker.old.seat }
    ensures idle { IsIdle pool.now worker.new.seat }
    ensures parts { parts_of worker.new.seat ≡ parts_of worker.old.seat }
{
    for _turn in 0..300 {
        let Some(permit) = pool.claim(&mut worker.seat) else {
            return;
        };
        let block = permit.spend();
        note(&mut worker.seen, block);
        if !commit(pool, &mut worker.seat, block) {
            worker.failed = true;
            return;
        }
    }
}

fn note(seen: &mut [u8; 256], block: u32) {
    if let Some(count) = seen.get_mut(block as usize) {
        *count = count.saturating_add(1);
    }
}

// Commits a block where the pen is home. False where the pen failed.
fn commit(pool: &Pool<(), Ink>, seat: &mut Seat<(), Ink>, block: u32) -> bool
    requires idle { IsIdle pool.now seat.old }
    requires drawn { IsDrawnBy (terms_of pool.now) (view_of seat.old) block }
    ensures idle { IsIdle pool.now seat.new }
    ensures parts { parts_of seat.new ≡ parts_of seat.old }
{
    let Some(mut pen) = pool.take_pen(seat) else {
        return true;
    };
    let fine = pen.commit(block);
    pool.give_pen(seat, pen);
    fine
}

/// Makes one seat of all, and ends the pool.
pub fn gather(pool: Pool<(), Ink>, mut first: Seat<(), Ink>, mut others: Vec<Worker>) -> (Ink, u64)
    requires first { IsIdle pool first }
    requires others { All (λ worker. IsIdle pool worker.seat × (parts_of worker.seat ≡ 1)) others.items }
    requires parts { parts_of first + vec_len others ≡ (terms_of pool).callers }
{
    while let Some(worker) = others.pop() {
        let Worker {
            seat,
            seen: _,
            failed: _,
        } = worker;
        pool.merge(&mut first, seat);
    }
    pool.gather(first)
}
