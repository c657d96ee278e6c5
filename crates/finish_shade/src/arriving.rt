// The light of lamps that arrives at a surface.
ghost use Rattle.std.specs.Prelude.{◌≡◌, ◌≤◌, ◌<◌, ◌^◌, pos, true};
ghost use Rattle.fix_math.specs.Matrices.{IsVectorWithin};
ghost use Rattle.scene_model.specs.Amounts.{AreAmounts};
ghost use Rattle.scene_model.specs.Looks.{IsLight};
ghost use Rattle.shapes.specs.Rays.{IsRayDirection};
ghost use Rattle.csg_hits.specs.Hits.{Fits};
ghost use Rattle.csg_hits.specs.Surfaces.{surfaces_of, without_sheets};
ghost use Rattle.finish_shade.specs.Arrivals.{Arrives, Passes, way_to};
ghost use Rattle.finish_shade.specs.Meetings.{CanShow};

use crate::finish::BLACK;
use crate::met::look_at;
use crate::products::less;
use crate::weights::{filtered, is_opaque, let_through};
use csg_hits::{Scratch, World};
use fix_math::{Fix, V3};
use scene_model::{Light, Rgb, Scene};
use shapes::Ray;

/// All of a lamp's light.
pub const WHITE: Rgb = [Fix(65536), Fix(65536), Fix(65536)];

/// How far a ray goes before it can hit.
pub const NEAR: u64 = 63;

/// The way from a point to a lamp.
#[inline]
pub fn way_to(from: &V3, lamp: &Light) -> V3
    requires from { IsVectorWithin (2 ^ 28) from.now }
    requires lamp { IsLight lamp.now }
    ensures value { result ≡ way_to from.now lamp.now }
    ensures small { IsVectorWithin (2 ^ 37) result }
{
    V3 {
        x: less(lamp.at.x, from.x),
        y: less(lamp.at.y, from.y),
        z: less(lamp.at.z, from.z),
    }
}

/// The share of a lamp's light that arrives, where the lamp is so far along a ray.
pub fn arriving<W: World>(
    w: &W,
    scene: &Scene,
    s: &mut Scratch,
    lamp: &Light,
    ray: &Ray,
    distance: u64,
) -> Rgb
    requires direction { IsRayDirection ray.now.dir }
    requires fits { Fits (W.surfaces w.now) s.old }
    requires stands { W.surfaces w.now ≡ without_sheets (surfaces_of scene.now) }
    requires scene { CanShow scene.now }
    ensures fits { Fits (W.surfaces w.now) s.new }
    ensures arrives { Arrives (W.surfaces w.now) scene.now lamp.now ray.now distance result }
    ensures amounts { AreAmounts 65536 result }
{
    if lamp.shadowless {
        WHITE
    } else {
        light_between(w, scene, s, ray, distance)
    }
}

/// The light that passes all surfaces on a ray before an end.
fn light_between<W: World>(w: &W, scene: &Scene, s: &mut Scratch, ray: &Ray, end: u64) -> Rgb
    requires direction { IsRayDirection ray.now.dir }
    requires fits { Fits (W.surfaces w.now) s.old }
    requires stands { W.surfaces w.now ≡ without_sheets (surfaces_of scene.now) }
    requires scene { CanShow scene.now }
    ensures fits { Fits (W.surfaces w.now) s.new }
    ensures passes { Passes (W.surfaces w.now) scene.now ray.now end result }
    ensures amounts { AreAmounts 65536 result }
{
    let mut light = WHITE;
    let mut after = NEAR;
    while let Some(hit) = w.nearest(s, ray, after, true) {
        if hit.t >= end {
            break;
        }
        let colour = look_at(scene, ray, &hit).colour;
        if is_opaque(&colour) {
            return BLACK;
        }
        light = filtered(&light, &let_through(&colour));
        after = hit.t;
    }
    light
}
