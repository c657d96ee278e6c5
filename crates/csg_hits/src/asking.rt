// The search for a ray's nearest hit, piece by piece.
ghost use Rattle.std.specs.Prelude.{◌≡◌, ◌≤◌, ◌<◌, ◌+◌, IfSome};
ghost use Rattle.std.proofs.Props.{props};
ghost use Rattle.box_probe.specs.Probes.{IsProbe};

use crate::built::Built;
use crate::scratch::Scratch;
use crate::search::Strike;
use crate::world::Hit;
use box_probe::Probe;
use shapes::{Path, Ray};

/// How far a ray goes, at least, before it can hit: so it doesn't hit the surface where it begins.
const NEAR: u64 = 64;

/// An object's strike.
#[derive(Clone, Copy)]
pub struct Found {
    pub object: u32,
    pub strike: Strike,
}

/// What is looked for, as far as a ray is still looked at, and the best strike so far. The path ends behind that
/// strike's number, so that an object with a lower number that is struck at it is found too.
#[derive(Clone, Copy)]
pub struct Search {
    pub path: Path,
    pub probe: Probe,
    pub from: u64,
    pub shadow: bool,
    pub best: Option<Found>,
    ghost probed: { IsProbe probe path.ray },
    ghost positive: { 1 ≤ from },
    ghost ends: { IfSome best (λ found. path.end ≡ found.strike.t + 1) } by { Prim.hlevel props },
    ghost low: { IfSome best (λ found. from ≤ found.strike.t) } by { Prim.hlevel props },
}

impl Search {
    ghost use Rattle.std.specs.Prelude.{ℕ, Bool, IfNone};
    ghost use Rattle.shapes.specs.declared.ray.Ray.{Ray};
    ghost use Rattle.shapes.specs.Rays.{IsInWorld, IsRayDirection, point_at};
    ghost use Rattle.csg_hits.specs.Hits.{Fits, IsHit, IsNearest};
    ghost use Rattle.csg_hits.specs.Ready.{pieces_in, surfaces_in};
    ghost use Rattle.csg_hits.specs.Searches.{IsAsked, IsDone, IsFurther, IsStart, IsWith, is_before};

    /// The search for a ray's nearest hit behind a number, and not nearer than 64; none exactly where the ray
    /// begins outside of the world. With `shadow`, what has no shadow is passed over.
    pub fn new(ray: &Ray, after: u64, shadow: bool) -> Option<Search>
        requires { IsRayDirection ray.now.dir }
        ensures start { IfSome result (IsStart ray.now after shadow) }
        ensures outside { IfNone result (¬ IsInWorld (point_at ray.now 0)) }
    {
        let path = Path::new(ray)?;
        Some(Search {
            path,
            probe: Probe::new(&path),
            from: after.saturating_add(1).max(NEAR),
            shadow,
            best: None,
        })
    }

    /// Asks a piece where it is struck first.
    pub fn ask(&mut self, built: &Built, s: &mut Scratch, piece: u32)
        requires { Fits (surfaces_in built.now) s.old }
        ensures fits { Fits (surfaces_in built.now) s.new }
        ensures further { IsFurther (pieces_in built.now) self.old self.new }
        ensures asked { IsAsked (pieces_in built.now) self.new piece }
    {
        match built.first_strike(s, piece, self) {
            Some(found) => *self = self.with(found),
            None => (),
        }
    }

    /// The search with one more strike, which is below its end.
    fn with(&self, found: Found) -> Search
        requires low { self.now.from ≤ found.strike.t }
        requires high { found.strike.t < self.now.path.end }
        ensures { IsWith self.now found result }
    {
        if self.is_led_by(&found) {
            Search {
                path: self.path.up_to(found.strike.t + 1),
                probe: self.probe,
                from: self.from,
                shadow: self.shadow,
                best: Some(found),
            }
        } else {
            *self
        }
    }

    /// Whether a strike below the end comes before the best one.
    fn is_led_by(&self, found: &Found) -> bool
        ensures { result ≡ is_before self.now.best found.now }
    {
        match &self.best {
            Some(best) => {
                found.strike.t < best.strike.t
                    || found.object < best.object
                    || (found.object == best.object && found.strike.leaf < best.strike.leaf)
            }
            None => true,
        }
    }

    /// The hit that was found. Where all pieces were asked, it is the ray's nearest, and none exactly where
    /// there is none.
    pub fn hit(&self, built: &Built) -> Option<Hit>
        ensures nearest { (ray : Ray) (after : ℕ) (shadow : Bool) → IsDone (pieces_in built.now) ray after shadow self.now
            → IfSome result (IsNearest (surfaces_in built.now) ray after shadow) }
        ensures none { (ray : Ray) (after : ℕ) (shadow : Bool) → IsDone (pieces_in built.now) ray after shadow self.now
            → IfNone result ((t object leaf : ℕ) → ¬ IsHit (surfaces_in built.now) ray after shadow t object leaf) }
    {
        match &self.best {
            Some(best) => Some(built.hit(&self.path, best)),
            None => None,
        }
    }
}
