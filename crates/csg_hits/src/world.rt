// What a ray hits first in a scene.
ghost use Rattle.std.specs.Prelude.{◌≡◌, ℕ, ◌<◌, ◌≤◌, ◌^◌, true, IfSome, IfNone, IfOk};
ghost use Rattle.shapes.specs.Rays.{IsRayDirection};
ghost use Rattle.csg_hits.specs.Hits.{Fits, IsHit, IsNearest};
ghost use Rattle.csg_hits.specs.Ready.{surfaces_in};

use crate::asking::Search;
use crate::built::Built;
use crate::scratch::Scratch;
use shapes::Ray;
use std::alloc::{AllocError, Global};

/// A crossing of a surface by a ray.
#[derive(Clone, Copy, Debug, PartialEq, Eq)]
pub struct Hit {
    /// The whole number of the ray at which the surface is struck: it is crossed between t - 1 and t.
    pub t: u64,
    /// The number of the object; those of triangles follow.
    pub object: u32,
    /// The number of the leaf; those of triangles follow.
    pub leaf: u32,
    /// The face of the leaf's solid; 0 of a triangle.
    pub face: u8,
    /// Whether the ray goes into the object there.
    pub entering: bool,
}

/// What answers for one scene.
pub trait World: Drop {
    ghost use Rattle.csg_hits.specs.Surfaces.{Surfaces};

    /// What rays meet of the scene.
    ghost surfaces: { Self → Surfaces };

    /// A scratch that fits.
    fn scratch(&self, alloc: Global) -> Result<Scratch, AllocError>
        ensures { IfOk result (Fits (surfaces self.now)) };

    /// The nearest hit behind a number, and not nearer than 64; none exactly where there is none. With
    /// `shadow`, what has no shadow is passed over. It takes no memory.
    fn nearest(&self, s: &mut Scratch, ray: &Ray, after: u64, shadow: bool) -> Option<Hit>
        requires direction { IsRayDirection ray.now.dir }
        requires fits { Fits (surfaces self.now) s.old }
        ensures fits { Fits (surfaces self.now) s.new }
        ensures nearest { IfSome result (IsNearest (surfaces self.now) ray.now after shadow) }
        ensures none { IfNone result ((t object leaf : ℕ) → ¬ IsHit (surfaces self.now) ray.now after shadow t object leaf) };
}

/// A world that asks each piece.
#[derive(Drop)]
pub struct ListWorld {
    built: Built,
}

impl ListWorld {
    /// The world of a scene without its triangles.
    pub fn new(b: Built) -> ListWorld
        ensures { surfaces_in result.built ≡ surfaces_in b }
    {
        ListWorld { built: b }
    }
}

/// The nearest hit among all pieces.
fn nearest_of_all(
    built: &Built,
    s: &mut Scratch,
    ray: &Ray,
    after: u64,
    shadow: bool,
) -> Option<Hit>
    requires direction { IsRayDirection ray.now.dir }
    requires fits { Fits (surfaces_in built.now) s.old }
    ensures fits { Fits (surfaces_in built.now) s.new }
    ensures nearest { IfSome result (IsNearest (surfaces_in built.now) ray.now after shadow) }
    ensures none { IfNone result ((t object leaf : ℕ) → ¬ IsHit (surfaces_in built.now) ray.now after shadow t object leaf) }
{
    let mut search = Search::new(ray, after, shadow)?;
    for piece in 0..built.len() {
        search.ask(built, s, piece);
    }
    search.hit(built)
}

impl World for ListWorld {
    ghost surfaces = { λ world. surfaces_in world.built };

    fn scratch(&self, alloc: Global) -> Result<Scratch, AllocError> {
        Scratch::for_scene(alloc, &self.built)
    }

    fn nearest(&self, s: &mut Scratch, ray: &Ray, after: u64, shadow: bool) -> Option<Hit> {
        nearest_of_all(&self.built, s, ray, after, shadow)
    }
}
