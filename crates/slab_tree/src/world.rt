// A world that asks few of many pieces.
ghost use Rattle.std.specs.Prelude.{◌≡◌, length, vec_len};
ghost use Rattle.std.specs.List.{All};
ghost use Rattle.std.proofs.Props.{props};
ghost use Rattle.csg_hits.specs.Ready.{pieces_in, surfaces_in};
ghost use Rattle.slab_tree.specs.Outlines.{AreBoxes, IsWhole};
ghost use Rattle.slab_tree.specs.Trees.{IsTrack};

use crate::arrange::arrange;
use crate::draft::Draft;
use crate::node::{LEAF, Track};
use crate::outline::{Parts, all_bounds, parted};
use crate::walk::{ask_places, walk};
use crate::watch::{Unwatched, Watch};
use box_probe::{Axis, Bounds};
use csg_hits::{Built, Hit, Scratch, Search, World};
use shapes::Ray;
use std::alloc::{AllocError, Global};
use std::thread::Threads;

/// The world of a scene without its triangles. The pieces of its objects stand in the leaves of a tree of boxes,
/// and those without a bound in a list of their own. A ray asks the pieces of the boxes that it meets.
#[derive(Drop)]
pub struct SlabWorld {
    built: Built,
    boxes: Vec<Bounds>,
    apart: Vec<u32>,
    order: Vec<u32>,
    tracks: Vec<Track>,
    ghost held: { AreBoxes (pieces_in built) boxes.items },
    ghost whole: { IsWhole (length (pieces_in built).pieces) apart.items order.items } by { Prim.hlevel props },
    ghost octants: { vec_len tracks ≡ 8 },
    ghost each: { All (λ track. IsTrack (pieces_in built) order.items track.nodes.items) tracks.items } by { Prim.hlevel props },
}

impl SlabWorld {
    ghost use Rattle.std.specs.Prelude.{ℕ, ◌<◌, IfOk};
    ghost use Rattle.csg_hits.specs.Hits.{Fits};
    ghost use Rattle.csg_hits.specs.Searches.{IsAsked, IsFurther};

    /// The world of a scene without its triangles. Err is want of memory.
    pub fn build(
        rt: &(impl Threads + Sync),
        alloc: Global,
        b: Built,
    ) -> Result<SlabWorld, AllocError>
        ensures { IfOk result (λ world. surfaces_in world.built ≡ surfaces_in b) }
    {
        let boxes = all_bounds(rt, alloc, &b)?;
        let Parts { apart, mut order } = parted(alloc, &boxes)?;
        let leaves = order.len().div_ceil(LEAF as usize);
        let mut cuts = vec![in alloc; Axis::X; leaves]?;
        arrange(&mut order, &boxes, &mut cuts, 0, leaves);
        let draft = Draft {
            built: b,
            boxes,
            order,
            cuts,
        };
        let tracks = draft.tracks(alloc)?;
        let Draft {
            built,
            boxes,
            order,
            ..
        } = draft;
        Ok(SlabWorld {
            built,
            boxes,
            apart,
            order,
            tracks,
        })
    }

    /// Asks all pieces that a ray may hit first.
    pub(crate) fn search<W: Watch>(&self, s: &mut Scratch, search: &mut Search, watch: &mut W)
        requires { Fits (surfaces_in self.now.built) s.old }
        ensures fits { Fits (surfaces_in self.now.built) s.new }
        ensures further { IsFurther (pieces_in self.now.built) search.old search.new }
        ensures asked { (piece : ℕ) → piece < length (pieces_in self.now.built).pieces
            → IsAsked (pieces_in self.now.built) search.new piece }
    {
        let built = &self.built;
        let boxes = &self.boxes;
        ask_places(
            built,
            boxes,
            &self.apart,
            0,
            self.apart.len(),
            s,
            search,
            watch,
        );
        let track = &self.tracks[search.probe.octant()];
        walk(built, boxes, &self.order, &track.nodes, s, search, watch);
    }
}

ghost use Rattle.std.specs.Prelude.{ℕ, IfSome, IfNone};
ghost use Rattle.shapes.specs.Rays.{IsRayDirection};
ghost use Rattle.csg_hits.specs.Hits.{Fits, IsHit, IsNearest};

/// The nearest hit among all pieces.
fn nearest_of_tree(
    world: &SlabWorld,
    s: &mut Scratch,
    ray: &Ray,
    after: u64,
    shadow: bool,
) -> Option<Hit>
    requires direction { IsRayDirection ray.now.dir }
    requires fits { Fits (surfaces_in world.now.built) s.old }
    ensures fits { Fits (surfaces_in world.now.built) s.new }
    ensures nearest { IfSome result (IsNearest (surfaces_in world.now.built) ray.now after shadow) }
    ensures none { IfNone result ((t object leaf : ℕ) → ¬ IsHit (surfaces_in world.now.built) ray.now after shadow t object leaf) }
{
    let mut search = Search::new(ray, after, shadow)?;
    world.search(s, &mut search, &mut Unwatched);
    search.hit(&world.built)
}

impl World for SlabWorld {
    ghost surfaces = { λ world. surfaces_in world.built };

    fn scratch(&self, alloc: Global) -> Result<Scratch, AllocError> {
        Scratch::for_scene(alloc, &self.built)
    }

    fn nearest(&self, s: &mut Scratch, ray: &Ray, after: u64, shadow: bool) -> Option<Hit> {
        nearest_of_tree(self, s, ray, after, shadow)
    }
}
