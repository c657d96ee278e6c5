// How the parts of a group make a shape.
ghost use Rattle.std.specs.Prelude.{◌≡◌, true, false};
ghost use Rattle.csg_hits.specs.Outlooks.{IsChange, Settles, joined};
ghost use Rattle.csg_hits.specs.Sides.{keeps};

use scene_model::Op;

/// Whether a group holds with one more part.
#[inline]
pub fn join(op: Op, all: bool, part: bool) -> bool
    ensures { result ≡ joined op all part }
{
    match op {
        Op::Union | Op::Merge => all || part,
        Op::Intersection => all && part,
        Op::Difference => all && !part,
    }
}

/// A number up to which a group with one more part stays as it is, from the same of both.
#[inline]
pub fn change(op: Op, all: bool, all_change: u64, part: bool, part_change: u64) -> u64
    ensures { IsChange op all all_change part part_change result }
{
    let decides = match op {
        Op::Union | Op::Merge => (all, part),
        Op::Intersection => (!all, !part),
        Op::Difference => (!all, part),
    };
    match decides {
        (true, true) => all_change.max(part_change),
        (true, false) => all_change,
        (false, true) => part_change,
        (false, false) => all_change.min(part_change),
    }
}

/// Whether a group isn't struck as long as it stays as it is.
#[inline]
pub fn rests(op: Op, now: bool) -> bool
    ensures { result ≡ true → keeps op now now ≡ false }
{
    match op {
        Op::Union => false,
        Op::Merge => true,
        Op::Intersection | Op::Difference => !now,
    }
}

/// Whether a group is struck where its parts are.
#[inline]
pub fn keeps(op: Op, before: bool, now: bool) -> bool
    ensures { result ≡ keeps op before now }
{
    match op {
        Op::Union => true,
        Op::Merge => before != now,
        Op::Intersection | Op::Difference => before || now,
    }
}

/// Whether a group that doesn't hold with its first parts doesn't hold with more.
#[inline]
pub fn settles(op: Op) -> bool
    ensures { result ≡ true → Settles op }
{
    match op {
        Op::Union | Op::Merge => false,
        Op::Intersection | Op::Difference => true,
    }
}

/// Whether a group is struck wherever one of its parts is.
#[inline]
pub fn takes_all(op: Op) -> bool
    ensures { result ≡ true → op ≡ Op.Union }
{
    match op {
        Op::Union => true,
        Op::Merge | Op::Intersection | Op::Difference => false,
    }
}
