//! The calls of the pool. None waits, and none but `start` takes memory.
ghost use Rattle.std.specs.Prelude.{◌≡◌, ◌≢◌, ◌⊎◌, ◌↔◌, ℕ, ◌<◌, ◌≤◌, true, false, length, slice_index, Some, IfSome, IfNone, [], ◌∷◌, IfOk, IfErr, All, vec_len, vec_capacity};
ghost use Rattle.block_pool.specs.Counting.{times, mark_in};
ghost use Rattle.block_pool.specs.Rule.{IsFair};
ghost use Rattle.block_pool.specs.Steps.{IsLent};
ghost use Rattle.block_pool.specs.Pools.{terms_of, view_of, parts_of, IsSeated, IsIdle, IsServing, IsNew, IsGathered, KeepsSeat};
ghost use Rattle.block_pool.specs.Views.{list_of, IsPlace, IsCommitted, IsDrawnBy, StandsBelow, words_known, drew, missed, joined, parted, part_of, MarksDrawn};

use crate::ordered::Ordered;
use crate::permit::Permit;
use crate::pool::Pool;
use crate::seat::Seat;
use crate::steps;
use crate::view::Terms;
use atomic_table::{Refused, Table};
use std::alloc::Global;
use std::snapshot::Snapshot;

impl<K, P: Ordered<K>> Pool<K, P> {
    /// Makes the pool over a list of blocks and a pen in order, and one seat for each caller. Err is want of memory, with the pen.
    pub fn start(
        alloc: Global,
        start: Snapshot<K>,
        todo: Vec<u32>,
        pen: P,
        callers: u32,
    ) -> Result<(Pool<K, P>, Vec<Seat<K, P>>), P>
        requires callers { (1 ≤ callers) × (callers ≤ 64) }
        requires fair { IsFair P.was_block P.knew todo.items start.value }
        requires order { P.in_order pen start.value }
        requires same { (x : ℕ) → P.knows pen x ↔ P.knew start.value x }
        requires untried { (x : ℕ) → P.is_tried pen x → ⊥ }
        ensures list { IfOk result (λ made. list_of (terms_of made.0) ≡ todo.items) }
        ensures start { IfOk result (λ made. ((terms_of made.0).start.value ≡ start.value) × ((terms_of made.0).callers ≡ callers)) }
        ensures count { IfOk result (λ made. vec_len made.1 ≡ callers) }
        ensures seats { IfOk result (λ made. All (λ seat. IsNew made.0 seat × (parts_of seat ≡ 1)) made.1.items) }
        ensures back { IfErr result (λ left. left ≡ pen) }
    {
        let count = 2 + (todo.as_slice().len() + 63) / 64;
        let Ok(seats) = Vec::with_capacity(alloc, callers as usize) else {
            return Err(pen);
        };
        let Ok(words) = vec![in alloc; 0u64; count] else {
            return Err(pen);
        };
        let Ok(mut slots) = Vec::with_capacity(alloc, 1) else {
            return Err(pen);
        };
        slots.push_reserved(Some(pen));
        let terms = Terms {
            todo: Snapshot::of(&todo),
            callers: callers as u64,
            start,
        };
        match Table::new(alloc, words.as_slice(), slots, &terms) {
            Ok((table, place)) => {
                let first = Seat {
                    place,
                    through: false,
                };
                let pool = Pool { table, todo };
                let seats = deal(&pool, first, seats, callers);
                Ok((pool, seats))
            }
            Err(Refused { slots }) => Err(pen_of(slots)),
        }
    }

    /// Draws the next block. None exactly where the seat is through when the call ends.
    pub fn claim(&self, seat: &mut Seat<K, P>) -> Option<Permit>
        requires { IsSeated self.now seat.old }
        ensures seated { IsSeated self.now seat.new }
        ensures idle { IsIdle self.now seat.old → IsIdle self.now seat.new }
        ensures parts { parts_of seat.new ≡ parts_of seat.old }
        ensures serving { IsServing self.now seat.old → IsServing self.now seat.new }
        ensures through { IfNone result ((view_of seat.new).through ≡ true) }
        ensures drew { IfSome result (λ permit. (number : ℕ) × IsPlace (terms_of self.now) permit.block number × ((view_of seat.new) ≡ drew (terms_of self.now) (view_of seat.old) number) × ((view_of seat.new).through ≡ false)) }
        ensures ended { IfNone result (((view_of seat.new) ≡ (view_of seat.old)) ⊎ ((number : ℕ) × ((view_of seat.old).through ≡ false) × ((view_of seat.new) ≡ drew (terms_of self.now) (view_of seat.old) number))) }
        ensures stays { (view_of seat.old).through ≡ true → (view_of seat.new) ≡ (view_of seat.old) }
    {
        if seat.through {
            return None;
        }
        let number = steps::draw(&self.table.shared, &mut seat.place);
        if number < self.todo.len() as u64 {
            Some(Permit {
                block: self.todo[number as usize],
            })
        } else {
            seat.through = true;
            None
        }
    }

    /// Asks for the pen, without waiting. None exactly where the seat's misses grew by one: another seat has the pen.
    pub fn take_pen(&self, seat: &mut Seat<K, P>) -> Option<P>
        requires { IsIdle self.now seat.old }
        ensures missed { IfNone result (((view_of seat.new) ≡ missed (view_of seat.old)) × (parts_of seat.old ≢ (terms_of self.now).callers)) }
        ensures idle { IfNone result (IsIdle self.now seat.new) }
        ensures parts { parts_of seat.new ≡ parts_of seat.old }
        ensures lent { IfSome result (λ pen. IsLent P.in_order P.knows P.is_tried P.was_block P.knew (terms_of self.now) (view_of seat.new) pen) }
        ensures serving { IfSome result (λ _. IsServing self.now seat.new) }
        ensures kept { IfSome result (λ _. (k : ℕ) × ((view_of seat.new).kept ≡ Some k)) }
        ensures keeps { IfSome result (λ _. KeepsSeat (view_of seat.old) (view_of seat.new)) }
    {
        let shared = &self.table.shared;
        if !steps::turn(shared, &mut seat.place) {
            return None;
        }
        steps::read_all(shared, &mut seat.place, self.table.word_count());
        steps::keep(shared, &mut seat.place);
        steps::lift(shared, &mut seat.place)
    }

    /// Gives the pen back. Each number whose block the pen knows open is marked before.
    pub fn give_pen(&self, seat: &mut Seat<K, P>, pen: P)
        requires serving { IsServing self.now seat.old }
        requires order { P.in_order pen (terms_of self.now).start.value }
        requires opened { (x : ℕ) → P.knows pen x → IsCommitted P.knew (terms_of self.now) (words_known (view_of seat.old)) x ⊎ IsDrawnBy (terms_of self.now) (view_of seat.old) x }
        requires kept { (x : ℕ) → IsCommitted P.knew (terms_of self.now) (words_known (view_of seat.old)) x → P.knows pen x }
        requires tried { (x : ℕ) → P.is_tried pen x → ((k : ℕ) × ((view_of seat.old).kept ≡ Some k) × StandsBelow (terms_of self.now) k x) ⊎ IsDrawnBy (terms_of self.now) (view_of seat.old) x }
        ensures idle { IsIdle self.now seat.new }
        ensures keeps { KeepsSeat (view_of seat.old) (view_of seat.new) }
        ensures drawn { MarksDrawn (P.knows pen) (list_of (terms_of self.now)) (view_of seat.old) (view_of seat.new) }
        ensures marked { (i : ℕ) → i < length (list_of (terms_of self.now)) → P.knows pen (slice_index (list_of (terms_of self.now)) i) → (0 < times i (view_of seat.new).marked) ⊎ (mark_in (words_known (view_of seat.old)) i ≡ 1) }
        ensures misses { (view_of seat.new).misses ≡ (view_of seat.old).misses }
    {
        let shared = &self.table.shared;
        steps::mark_all(shared, &mut seat.place, self.todo.as_slice(), &pen);
        steps::give(shared, &mut seat.place, pen);
    }

    /// Makes one seat of two. It has both lists and both seats' parts, and is through where one of them was.
    pub fn merge(&self, into: &mut Seat<K, P>, other: Seat<K, P>)
        requires into { IsIdle self.now into.old }
        requires other { IsIdle self.now other }
        ensures idle { IsIdle self.now into.new }
        ensures joined { (view_of into.new) ≡ joined (view_of into.old) (view_of other) }
    {
        let Seat { place, through } = other;
        steps::merge(&self.table.shared, &mut into.place, place);
        into.through = into.through || through;
    }

    /// Takes one part of a seat for a new one, which is through where that seat is.
    pub fn part(&self, from: &mut Seat<K, P>) -> Seat<K, P>
        requires from { IsIdle self.now from.old }
        requires parts { 1 < parts_of from.old }
        ensures idle { IsIdle self.now from.new }
        ensures left { (view_of from.new) ≡ parted (view_of from.old) }
        ensures new { IsIdle self.now result }
        ensures part { (view_of result) ≡ part_of (view_of from.old) }
    {
        let place = steps::part(&self.table.shared, &mut from.place);
        Seat {
            place,
            through: from.through,
        }
    }

    /// Ends the pool with a seat that has all parts: the pen, and how many numbers were drawn.
    pub fn gather(self, seat: Seat<K, P>) -> (P, u64)
        requires idle { IsIdle self seat }
        requires all { parts_of seat ≡ (terms_of self).callers }
        ensures { IsGathered P.in_order P.knows P.is_tried P.knew (terms_of self) (view_of seat) result.0 result.1 }
    {
        let Pool { table, todo: _ } = self;
        let Seat { place, through: _ } = seat;
        let mut closed = table.close_with(place);
        let drawn = closed.word(0);
        let slot = closed.take(0);
        closed.free();
        let Some(pen) = slot else { unreachable!() };
        (pen, drawn)
    }
}

// The pen of a slot that is given back.
fn pen_of<P>(mut slots: Vec<Option<P>>) -> P
    requires { (pen : P) × (slots.items ≡ Some pen ∷ []) }
    ensures { slots.items ≡ Some result ∷ [] }
{
    let slot = slots.pop();
    slots.destroy_empty();
    let Some(Some(pen)) = slot else {
        unreachable!()
    };
    pen
}

// Parts the first seat into one for each caller.
fn deal<K, P: Ordered<K>>(
    pool: &Pool<K, P>,
    mut first: Seat<K, P>,
    mut seats: Vec<Seat<K, P>>,
    callers: u32,
) -> Vec<Seat<K, P>>
    requires first { IsNew pool.now first }
    requires parts { parts_of first ≡ callers }
    requires room { (seats.items ≡ []) × (callers ≤ vec_capacity seats) × (1 ≤ callers) }
    ensures count { vec_len result ≡ callers }
    ensures seats { All (λ seat. IsNew pool.now seat × (parts_of seat ≡ 1)) result.items }
{
    for _k in 1..callers {
        let seat = pool.part(&mut first);
        seats.push_reserved(seat);
    }
    seats.push_reserved(first);
    seats
}
