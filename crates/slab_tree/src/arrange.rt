// The order of pieces, halved by the middles of their boxes.
ghost use Rattle.std.specs.Prelude.{◌≡◌, ◌≤◌, ◌<◌, ◌+◌, ◌*◌, IsPermutation, length};

use crate::node::LEAF;
use box_probe::{Axis, Bounds};

/// How often a run is split, at most, to halve it.
const ROUNDS: u32 = 64;

/// Halves the leaves from one on and before another again and again: the boxes of the lower half have their middles
/// before those of the upper one, along the axis on which they are farthest apart. That axis is written at
/// the number of the first leaf of the upper half.
pub fn arrange(order: &mut [u32], boxes: &[Bounds], cuts: &mut [Axis], first: usize, last: usize)
    requires run { first ≤ last }
    requires room { 4 * last < length order.old + 4 }
    requires cuts { last ≤ length cuts.old }
    ensures permutation { IsPermutation order.old order.new }
{
    if last - first < 2 {
        return;
    }
    let middle = first + (last - first) / 2;
    let low = LEAF as usize * first;
    let high = (LEAF as usize * last).min(order.len());
    let axis = widest(&order[low..high], boxes);
    halve(
        &mut order[low..high],
        boxes,
        axis,
        LEAF as usize * (middle - first),
    );
    cuts[middle] = axis;
    arrange(order, boxes, cuts, first, middle);
    arrange(order, boxes, cuts, middle, last);
}

/// Brings the pieces with the lowest middles along an axis before a place. It goes on for so many rounds alone, by
/// which a run of any length is ordered as far as that, but for very few.
fn halve(run: &mut [u32], boxes: &[Bounds], axis: Axis, place: usize)
    ensures { IsPermutation run.old run.new }
{
    let mut low = 0;
    let mut high = run.len();
    for _ in 0..ROUNDS {
        if high - low < 2 {
            return;
        }
        let pivot = middle(boxes, run[low + (high - low) / 2], axis);
        let Sides { less, more } = split(run, boxes, axis, pivot, low, high);
        if place < less {
            high = less;
        } else if place >= more {
            low = more;
        } else {
            return;
        }
    }
}

/// Where the middles below a pivot end and those above it begin.
#[derive(Clone, Copy)]
struct Sides {
    less: usize,
    more: usize,
}

/// Brings the pieces from one place on and before another in order by a pivot: those with a lower middle first, and
/// those with a higher one last.
fn split(
    run: &mut [u32],
    boxes: &[Bounds],
    axis: Axis,
    pivot: i64,
    low: usize,
    high: usize,
) -> Sides
    requires some { low ≤ high }
    requires within { high ≤ length run.old }
    ensures len { length run.new ≡ length run.old }
    ensures permutation { IsPermutation run.old run.new }
    ensures less { (low ≤ result.less) × (result.less ≤ high) }
    ensures more { (low ≤ result.more) × (result.more ≤ high) }
{
    let mut less = low;
    let mut more = high;
    let mut i = low;
    while i < more {
        let at = middle(boxes, run[i], axis);
        if at < pivot {
            run.swap(less, i);
            less += 1;
            i += 1;
        } else if at > pivot {
            more -= 1;
            run.swap(i, more);
        } else {
            i += 1;
        }
    }
    Sides { less, more }
}

/// Twice the middle of a piece's box along an axis.
fn middle(boxes: &[Bounds], piece: u32, axis: Axis) -> i64 {
    match boxes.get(piece as usize) {
        Some(bounds) => bounds.middle(axis),
        None => 0,
    }
}

/// The axis along which the middles of the boxes are farthest apart.
fn widest(run: &[u32], boxes: &[Bounds]) -> Axis {
    let x = spread(run, boxes, Axis::X);
    let y = spread(run, boxes, Axis::Y);
    let z = spread(run, boxes, Axis::Z);
    if y <= x && z <= x {
        Axis::X
    } else if z <= y {
        Axis::Y
    } else {
        Axis::Z
    }
}

/// How far apart the middles are, twice.
fn spread(run: &[u32], boxes: &[Bounds], axis: Axis) -> i64 {
    let mut least = i64::MAX;
    let mut most = i64::MIN;
    for piece in run {
        let middle = middle(boxes, *piece, axis);
        least = least.min(middle);
        most = most.max(middle);
    }
    most.saturating_sub(least)
}
