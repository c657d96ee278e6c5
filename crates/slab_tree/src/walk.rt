// Walks over a tree of boxes.
ghost use Rattle.std.specs.Prelude.{◌≡◌, ℕ, pos, ◌≤◌, ◌<◌, ◌+◌, ◌*◌, ◌^◌, false, Some, length, slice_get};
ghost use Rattle.shapes.specs.Rays.{point_at};
ghost use Rattle.box_probe.specs.Boxes.{IsInBounds};
ghost use Rattle.csg_hits.specs.Hits.{Fits};
ghost use Rattle.csg_hits.specs.Ready.{pieces_in, surfaces_in};
ghost use Rattle.csg_hits.specs.Searches.{IsAsked, IsFurther};
ghost use Rattle.slab_tree.specs.Outlines.{AreBoxes};
ghost use Rattle.slab_tree.specs.Trees.{IsTrack};

use crate::node::{LEAF, Node};
use crate::watch::Watch;
use box_probe::{Bounds, fine};
use csg_hits::{Built, Scratch, Search};

/// Whether a ray may be in a box, from the number before the search's first one on and below its end.
#[inline(always)]
fn may_meet(search: &Search, bounds: &Bounds) -> bool
    ensures { result ≡ false → (t : ℕ) → search.now.from ≤ t + 1 → t < search.now.path.end
        → ¬ IsInBounds bounds.now (point_at search.now.path.ray t) }
{
    let from = fine(search.from.min(1 << 31) - 1);
    search.probe.meets(bounds, from, fine(search.path.end))
}

/// Asks a piece, but for one whose box the ray misses.
#[inline(always)]
fn ask<W: Watch>(
    built: &Built,
    boxes: &[Bounds],
    piece: u32,
    s: &mut Scratch,
    search: &mut Search,
    watch: &mut W,
)
    requires boxes { AreBoxes (pieces_in built.now) boxes.now }
    requires fits { Fits (surfaces_in built.now) s.old }
    ensures fits { Fits (surfaces_in built.now) s.new }
    ensures further { IsFurther (pieces_in built.now) search.old search.new }
    ensures asked { IsAsked (pieces_in built.now) search.new piece }
{
    watch.tested();
    match boxes.get(piece as usize) {
        Some(bounds) => {
            if may_meet(search, bounds) {
                watch.tested();
                search.ask(built, s, piece);
            }
        }
        None => search.ask(built, s, piece),
    }
}

/// Asks the pieces of a list from one place on and before another.
pub fn ask_places<W: Watch>(
    built: &Built,
    boxes: &[Bounds],
    pieces: &[u32],
    first: usize,
    end: usize,
    s: &mut Scratch,
    search: &mut Search,
    watch: &mut W,
)
    requires end { end ≤ length pieces.now }
    requires boxes { AreBoxes (pieces_in built.now) boxes.now }
    requires fits { Fits (surfaces_in built.now) s.old }
    ensures fits { Fits (surfaces_in built.now) s.new }
    ensures further { IsFurther (pieces_in built.now) search.old search.new }
    ensures asked { (place piece : ℕ) → first ≤ place → place < end → slice_get pieces.now place ≡ Some piece
        → IsAsked (pieces_in built.now) search.new piece }
{
    for place in first..end {
        ask(built, boxes, pieces[place], s, search, watch);
    }
}

/// Asks the pieces of all leaves that a ray may come to, in the order of a walk.
pub fn walk<W: Watch>(
    built: &Built,
    boxes: &[Bounds],
    order: &[u32],
    nodes: &[Node],
    s: &mut Scratch,
    search: &mut Search,
    watch: &mut W,
)
    requires fits { Fits (surfaces_in built.now) s.old }
    requires boxes { AreBoxes (pieces_in built.now) boxes.now }
    requires track { IsTrack (pieces_in built.now) order.now nodes.now }
    ensures fits { Fits (surfaces_in built.now) s.new }
    ensures further { IsFurther (pieces_in built.now) search.old search.new }
    ensures asked { (place piece : ℕ) → slice_get order.now place ≡ Some piece
        → IsAsked (pieces_in built.now) search.new piece }
{
    let mut i = 0;
    while i < nodes.len() {
        let node = &nodes[i];
        watch.tested();
        if may_meet(search, &node.bounds) {
            ask_leaf(built, boxes, order, node.start, s, search, watch);
            i += 1;
        } else {
            i = node.skip as usize;
        }
    }
}

/// Asks the pieces of a leaf.
#[inline(always)]
fn ask_leaf<W: Watch>(
    built: &Built,
    boxes: &[Bounds],
    order: &[u32],
    start: u32,
    s: &mut Scratch,
    search: &mut Search,
    watch: &mut W,
)
    requires boxes { AreBoxes (pieces_in built.now) boxes.now }
    requires fits { Fits (surfaces_in built.now) s.old }
    ensures fits { Fits (surfaces_in built.now) s.new }
    ensures further { IsFurther (pieces_in built.now) search.old search.new }
    ensures asked { (place piece : ℕ) → start ≤ place → place < start + 4
        → slice_get order.now place ≡ Some piece → IsAsked (pieces_in built.now) search.new piece }
{
    let first = start as usize;
    let end = first + LEAF as usize;
    if end <= order.len() {
        ask_places(built, boxes, order, first, end, s, search, watch);
    } else {
        ask_places(built, boxes, order, first, order.len(), s, search, watch);
    }
}
