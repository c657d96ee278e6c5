// The first strike of a leaf or a group whose rows are known.
ghost use Rattle.std.specs.Prelude.{◌≡◌, ℕ, ◌<◌, ◌≤◌, ◌^◌, IfSome, IfNone, false};
ghost use Rattle.csg_hits.specs.Outlooks.{IsFirstIn, IsQuiet};
ghost use Rattle.csg_hits.specs.Rows.{row_crossing, shape_in};
ghost use Rattle.csg_hits.specs.Sides.{leaf_sides};

use crate::outlook::evaluate;
use crate::row::Row;
use scene_model::Shape;

/// A strike: its number of the ray, and the leaf.
#[derive(Clone, Copy, Debug, PartialEq, Eq)]
pub struct Strike {
    pub t: u64,
    pub leaf: u32,
}

/// The first strike of a leaf, from a number on and below an end.
#[inline]
pub fn first_of_leaf(row: &Row, leaf: u32, from: u64, end: u64) -> Option<Strike>
    requires { 1 ≤ from }
    ensures found { IfSome result
        (IsFirstIn (λ t. (leaf_sides leaf (row_crossing row.now t)).strikes) from end) }
    ensures none { IfNone result
        (IsQuiet (λ t. (leaf_sides leaf (row_crossing row.now t)).strikes) from end) }
{
    let mut t = row.next(from - 1);
    while t < end {
        if row.is_struck(t) {
            return Some(Strike { t, leaf });
        }
        t = row.next(t);
    }
    None
}

/// The first strike of a shape, from a number on and below an end, where it isn't struck before `start`.
pub fn first_of_shape(
    shape: &Shape,
    rows: &[Row],
    from: u64,
    start: u64,
    end: u64,
) -> Option<Strike>
    requires positive { 1 ≤ from }
    requires behind { from ≤ start }
    requires quiet { (s : ℕ) → from ≤ s → s < start → s < end
        → (n : ℕ) → (shape_in rows.now shape.now s).strikes n ≡ false }
    ensures found { IfSome result (IsFirstIn (λ t. (shape_in rows.now shape.now t).strikes) from end) }
    ensures none { IfNone result (IsQuiet (λ t. (shape_in rows.now shape.now t).strikes) from end) }
{
    let mut t = start;
    while t < end {
        let found = evaluate(shape, rows, t);
        match found.first {
            Some(leaf) => return Some(Strike { t, leaf }),
            None => t = found.ahead.next,
        }
    }
    None
}
