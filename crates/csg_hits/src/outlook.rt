// What is known of a shape at a number of a ray and behind it.
ghost use Rattle.std.specs.Prelude.{◌≡◌, ℕ, ◌<◌, ◌≤◌, ◌||◌, Bool, true};
ghost use Rattle.csg_hits.specs.Outlooks.{IsGroup, IsLeast, IsOutcome, IsOutcomeGroup, IsOutcomeWith, IsOutlook, IsSettled, IsWith};
ghost use Rattle.csg_hits.specs.Rows.{leaf_in, row_crossing, shape_in};
ghost use Rattle.csg_hits.specs.Sides.{leaf_sides, nowhere};

use crate::group::{change, join, keeps, rests, settles};
use crate::row::Row;
use scene_model::{Op, Shape};

/// Whether a shape holds at a number, a higher one before which it isn't struck, and one before which it
/// stays as it is.
#[derive(Clone, Copy)]
pub struct Outlook {
    pub holds: bool,
    pub next: u64,
    pub change: u64,
}

/// The same, with whether it holds before the number, and its first leaf that is struck there.
#[derive(Clone, Copy)]
pub struct Outcome {
    pub before: bool,
    pub first: Option<u32>,
    pub ahead: Outlook,
}

/// The lesser of two leaves.
#[inline]
fn earlier(one: Option<u32>, two: Option<u32>) -> Option<u32>
    ensures { (test more : ℕ → Bool) → IsLeast test one → IsLeast more two
        → IsLeast (λ n. test n || more n) result }
{
    match (one, two) {
        (Some(a), Some(b)) => Some(a.min(b)),
        (Some(a), None) => Some(a),
        (None, Some(b)) => Some(b),
        (None, None) => None,
    }
}

/// The leaf, where it is struck at t.
#[inline]
fn first_struck(row: &Row, leaf: u32, t: u64) -> Option<u32>
    requires { 1 ≤ t }
    ensures { IsLeast (leaf_sides leaf (row_crossing row.now t)).strikes result }
{
    if row.is_struck(t) { Some(leaf) } else { None }
}

impl Outlook {
    /// Of a shape that holds nowhere.
    #[inline]
    pub fn never() -> Outlook
        ensures { (t end : ℕ) → IsOutlook (λ s. nowhere) t end result }
    {
        Outlook {
            holds: false,
            next: u64::MAX,
            change: u64::MAX,
        }
    }

    /// Of a leaf with a row.
    #[inline]
    pub fn of_row(row: &Row, leaf: u32, t: u64) -> Outlook
        ensures { (end : ℕ) → IsOutlook (λ s. leaf_sides leaf (row_crossing row.now s)) t end result }
    {
        let next = row.next(t);
        Outlook {
            holds: row.holds(t),
            next,
            change: next,
        }
    }

    /// Of a group, with one more part.
    #[inline]
    pub fn with(&self, op: Op, part: &Outlook) -> Outlook
        ensures { IsWith op self.now part.now result }
    {
        Outlook {
            holds: join(op, self.holds, part.holds),
            next: self.next.min(part.next),
            change: change(op, self.holds, self.change, part.holds, part.change),
        }
    }

    /// Of a group, with the part of a number.
    #[inline]
    pub fn with_part(&self, index: usize, op: Op, part: Outlook) -> Outlook
        ensures first { index ≡ 0 → result ≡ part }
        ensures more { 0 < index → IsWith op self.now part result }
    {
        if index == 0 {
            part
        } else {
            self.with(op, &part)
        }
    }

    /// Whether a group fails up to an end with the parts so far, whatever the others are.
    #[inline]
    pub fn is_settled(&self, op: Op, end: u64) -> bool
        ensures { result ≡ true → IsSettled op end self.now }
    {
        settles(op) && !self.holds && self.change >= end
    }

    /// Of a group, all of whose parts were joined.
    #[inline]
    pub fn as_group(&self, op: Op, inverse: bool) -> Outlook
        ensures { IsGroup op inverse self.now result }
    {
        Outlook {
            holds: self.holds != inverse,
            next: if rests(op, self.holds) {
                self.next.max(self.change)
            } else {
                self.next
            },
            change: self.change,
        }
    }
}

impl Outcome {
    /// Of a shape that holds nowhere.
    #[inline]
    fn never() -> Outcome
        ensures { (t end : ℕ) → IsOutcome (λ s. nowhere) t end result }
    {
        Outcome {
            before: false,
            first: None,
            ahead: Outlook::never(),
        }
    }

    /// Of a leaf.
    #[inline]
    fn of_leaf(rows: &[Row], leaf: u32, t: u64) -> Outcome
        requires { 1 ≤ t }
        ensures { (end : ℕ) → IsOutcome (λ s. leaf_sides leaf (leaf_in rows.now s leaf)) t end result }
    {
        match rows.get(leaf as usize) {
            Some(row) => Outcome::of_row(row, leaf, t),
            None => Outcome::never(),
        }
    }

    /// Of a leaf with a row.
    #[inline]
    fn of_row(row: &Row, leaf: u32, t: u64) -> Outcome
        requires { 1 ≤ t }
        ensures { (end : ℕ) → IsOutcome (λ s. leaf_sides leaf (row_crossing row.now s)) t end result }
    {
        if row.is_nowhere() {
            return Outcome::never();
        }
        Outcome {
            before: row.holds(t - 1),
            first: first_struck(row, leaf, t),
            ahead: Outlook::of_row(row, leaf, t),
        }
    }

    /// Of a group, with one more part.
    #[inline]
    fn with(&self, op: Op, part: &Outcome) -> Outcome
        ensures { IsOutcomeWith op self.now part.now result }
    {
        Outcome {
            before: join(op, self.before, part.before),
            first: earlier(self.first, part.first),
            ahead: self.ahead.with(op, &part.ahead),
        }
    }

    /// Of a group, all of whose parts were joined.
    #[inline]
    fn as_group(&self, op: Op, inverse: bool) -> Outcome
        ensures { IsOutcomeGroup op inverse self.now result }
    {
        Outcome {
            before: self.before != inverse,
            first: if keeps(op, self.before, self.ahead.holds) {
                self.first
            } else {
                None
            },
            ahead: self.ahead.as_group(op, inverse),
        }
    }
}

/// What a shape is at t, of which the leaves are as the rows say.
pub fn evaluate(shape: &Shape, rows: &[Row], t: u64) -> Outcome
    requires { 1 ≤ t }
    ensures { (end : ℕ) → IsOutcome (shape_in rows.now shape.now) t end result }
{
    match shape {
        Shape::Leaf(leaf) => Outcome::of_leaf(rows, *leaf, t),
        Shape::Group { op, parts, inverse } => {
            let mut all = Outcome::never();
            for (index, part) in parts.iter().enumerate() {
                let found = evaluate(part, rows, t);
                all = if index == 0 {
                    found
                } else {
                    all.with(*op, &found)
                };
            }
            all.as_group(*op, *inverse)
        }
    }
}
