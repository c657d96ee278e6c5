// How a tree of boxes is made.
ghost use Rattle.std.specs.Prelude.{◌≡◌, ◌≤◌, ◌<◌, ◌+◌, ◌*◌, ◌^◌, length, vec_len};
ghost use Rattle.csg_hits.specs.Ready.{pieces_in};
ghost use Rattle.slab_tree.specs.Outlines.{AreBoxes};

use crate::node::{LEAF, Node, Track};
use box_probe::{Axis, Bounds};
use csg_hits::Built;
use std::alloc::{AllocError, Global};

/// What a tree is made of: the boxes of all pieces, the order of those in the tree, four of them to a leaf, and
/// for each leaf the axis by which those before it were parted from it and those behind.
#[derive(Drop)]
pub struct Draft {
    pub built: Built,
    pub boxes: Vec<Bounds>,
    pub order: Vec<u32>,
    pub cuts: Vec<Axis>,
    ghost held: { AreBoxes (pieces_in built) boxes.items },
    ghost few: { vec_len order < 2 ^ 32 },
    ghost filled: { vec_len order ≤ 4 * vec_len cuts },
    ghost whole: { 4 * vec_len cuts < vec_len order + 4 },
}

/// Leaves from one on and before another.
#[derive(Clone, Copy)]
struct Run {
    first: usize,
    last: usize,
}

/// The halves of a run, in the order in which a walk comes to them.
#[derive(Clone, Copy)]
struct Halves {
    near: Run,
    far: Run,
}

impl Draft {
    ghost use Rattle.std.specs.Prelude.{ℕ, ◌-◌, ◌⊎◌, IfOk, slice_get};
    ghost use Rattle.std.specs.List.{All};
    ghost use Rattle.slab_tree.specs.Outlines.{IsHeld};
    ghost use Rattle.slab_tree.specs.Trees.{AreHalves, IsAround, IsPlanted, IsTrack, behind};

    /// The tree in an order for each octant.
    pub fn tracks(&self, alloc: Global) -> Result<Vec<Track>, AllocError>
        ensures octants { IfOk result (λ tracks. vec_len tracks ≡ 8) }
        ensures each { IfOk result (λ tracks. All
            (λ track. IsTrack (pieces_in self.now.built) self.now.order.items track.nodes.items) tracks.items) }
    {
        let mut tracks = Vec::new(alloc);
        for octant in 0..8u8 {
            tracks.push(self.track(alloc, octant)?)?;
        }
        Ok(tracks)
    }

    /// The tree in the order that suits the rays of an octant.
    fn track(&self, alloc: Global, octant: u8) -> Result<Track, AllocError>
        ensures { IfOk result
            (λ track. IsTrack (pieces_in self.now.built) self.now.order.items track.nodes.items) }
    {
        let last = self.cuts.len();
        if last == 0 {
            return Ok(Track {
                nodes: Vec::new(alloc),
            });
        }
        let mut nodes = vec![in alloc; Node::blank(); 2 * last - 1]?;
        self.plant(&mut nodes, octant, 0, Run { first: 0, last });
        Ok(Track { nodes })
    }

    /// Writes the nodes of a run of leaves from a place on, and answers the box of them all.
    fn plant(&self, nodes: &mut [Node], octant: u8, place: usize, run: Run) -> Bounds
        requires some { run.first < run.last }
        requires within { run.last ≤ vec_len self.now.cuts }
        requires room { behind place run.first run.last ≤ length nodes.old }
        requires few { length nodes.old < 2 ^ 32 }
        ensures len { length nodes.new ≡ length nodes.old }
        ensures kept { (k : ℕ) → (k < place) ⊎ (behind place run.first run.last ≤ k)
            → slice_get nodes.new k ≡ slice_get nodes.old k }
        ensures planted { IsPlanted (pieces_in self.now.built) self.now.order.items nodes.new place run.first run.last }
        ensures around { IsAround (pieces_in self.now.built) self.now.order.items run.first run.last result }
    {
        if run.last - run.first == 1 {
            let bounds = self.leaf_bounds(run.first);
            nodes[place] = Node {
                bounds,
                skip: place as u32 + 1,
                start: LEAF * run.first as u32,
            };
            return bounds;
        }
        let Halves { near, far } = self.halves(octant, run);
        let near_bounds = self.plant(nodes, octant, place + 1, near);
        let far_bounds = self.plant(nodes, octant, place + 2 * (near.last - near.first), far);
        let bounds = near_bounds.hull(&far_bounds);
        nodes[place] = Node {
            bounds,
            skip: (place + 2 * (run.last - run.first) - 1) as u32,
            start: self.order.len() as u32,
        };
        bounds
    }

    /// The halves of a run: a ray that goes down along the axis by which they were parted comes to the upper one first.
    fn halves(&self, octant: u8, run: Run) -> Halves
        requires { run.first + 1 < run.last }
        ensures { AreHalves run.first run.last result.near.first result.near.last result.far.first result.far.last }
    {
        let middle = run.first + (run.last - run.first) / 2;
        let low = Run {
            first: run.first,
            last: middle,
        };
        let high = Run {
            first: middle,
            last: run.last,
        };
        if self.goes_down(octant, middle) {
            Halves {
                near: high,
                far: low,
            }
        } else {
            Halves {
                near: low,
                far: high,
            }
        }
    }

    /// Whether rays of an octant go down along the axis by which the leaves before one were parted from it.
    fn goes_down(&self, octant: u8, leaf: usize) -> bool {
        match self.cuts.get(leaf) {
            Some(axis) => octant & axis.mask() != 0,
            None => false,
        }
    }

    /// The box of a leaf's pieces.
    fn leaf_bounds(&self, leaf: usize) -> Bounds
        requires { leaf < vec_len self.now.cuts }
        ensures { IsAround (pieces_in self.now.built) self.now.order.items leaf (leaf + 1) result }
    {
        let first = LEAF as usize * leaf;
        let end = (first + LEAF as usize).min(self.order.len());
        let mut bounds = self.bounds_of(self.order[first]);
        for place in first + 1..end {
            bounds = bounds.hull(&self.bounds_of(self.order[place]));
        }
        bounds
    }

    /// A piece's box.
    fn bounds_of(&self, piece: u32) -> Bounds
        ensures { IsHeld (pieces_in self.now.built) piece result }
    {
        match self.boxes.get(piece as usize) {
            Some(bounds) => *bounds,
            None => Bounds::world(),
        }
    }
}
