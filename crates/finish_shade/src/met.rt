// A surface where a ray meets it.
ghost use Rattle.std.specs.Prelude.{◌≡◌, ◌+◌, ◌-◌, ◌≤◌, ◌<◌, ◌^◌, pos, unsigned_abs, length, Some, true, false};
ghost use Rattle.std.specs.Ordering.{int_eq};
ghost use Rattle.fix_math.specs.Matrices.{IsRowWithin, IsVectorWithin};
ghost use Rattle.fix_math.specs.Numbers.{rnd};
ghost use Rattle.scene_model.specs.Looks.{IsTexture};
ghost use Rattle.scene_model.specs.Solids.{IsLeaf};
ghost use Rattle.shapes.specs.Faces.{all_hold, faces_of};
ghost use Rattle.shapes.specs.Rays.{IsInWorld, IsRayDirection, coordinate_at, point_at, position_of};
ghost use Rattle.csg_hits.specs.Hits.{IsNearest};
ghost use Rattle.csg_hits.specs.Sides.{differ};
ghost use Rattle.csg_hits.specs.Surfaces.{solid_holds, surfaces_of, without_sheets};
ghost use Rattle.finish_shade.specs.Directions.{turned_against};
ghost use Rattle.finish_shade.specs.Meetings.{CanShow, IsLook, IsMet, inner_of, leaf_outward, look_at, look_in, look_of, met_at, raw_point, ray_back, ray_on};

use crate::directions::{passed_on, thrown_back, turned_against};
use csg_hits::Hit;
use fix_math::{Fix, V3, rounded_shift};
use pigment::color_at;
use scene_model::{Finish, Leaf, Rgbft, Scene, Texture};
use shapes::{Point, Ray, normal, solid};

/// How a surface looks at a point.
#[derive(Clone, Copy)]
pub struct Look {
    /// Its colour there.
    pub colour: Rgbft,
    pub finish: Finish,
}

impl Look {
    ghost use Rattle.finish_shade.specs.Alone.{is_dull};

    /// Whether no lamp adds anything to what the surface shows.
    #[inline]
    pub fn is_dull(&self) -> bool
        ensures { result ≡ is_dull self.now.finish }
    {
        let Finish {
            diffuse,
            phong,
            specular,
            ..
        } = &self.finish;
        is_none(*diffuse) && is_none(*phong) && is_none(*specular)
    }
}

#[inline]
fn is_none(amount: Fix) -> bool
    ensures { result ≡ int_eq amount (pos 0) }
{
    amount.raw() == 0
}

/// A surface where a ray meets it.
#[derive(Clone, Copy)]
pub struct Met {
    /// From where rays go on.
    pub from: V3,
    /// The direction out of it, on the side that the ray comes from.
    pub normal: V3,
    pub look: Look,
    /// The index of refraction.
    pub ior: Fix,
    /// Whether the ray goes into the object there.
    pub entering: bool,
}

/// The surface that is hit first, and that looks so there.
pub fn met_at(scene: &Scene, ray: &Ray, hit: &Hit, look: Look) -> Met
    requires scene { CanShow scene.now }
    requires direction { IsRayDirection ray.now.dir }
    requires hit { IsNearest (without_sheets (surfaces_of scene.now)) ray.now 63 false hit.now }
    requires look { look_at scene.now ray.now hit.now ≡ Some look }
    requires valid { IsLook look }
    ensures value { met_at scene.now ray.now hit.now ≡ Some result }
    ensures valid { IsMet result }
{
    let leaf = &scene.leaves[hit.leaf as usize];
    let at = point_of(ray, hit.t);
    Met {
        from: raw_point(&at),
        normal: turned_against(&ray.dir, outward(leaf, ray, hit, &at)),
        look,
        ior: leaf.ior,
        entering: hit.entering,
    }
}

/// How what is hit looks there.
pub fn look_at(scene: &Scene, ray: &Ray, hit: &Hit) -> Look
    requires scene { CanShow scene.now }
    requires direction { IsRayDirection ray.now.dir }
    requires leaf { hit.now.leaf < length scene.now.leaves.items }
    requires origin { IsInWorld (point_at ray.now 0) }
    requires place { IsInWorld (point_at ray.now hit.now.t) }
    ensures value { look_at scene.now ray.now hit.now ≡ Some result }
    ensures valid { IsLook result }
{
    let leaf = &scene.leaves[hit.leaf as usize];
    look_in(scene, leaf.texture, &point_of(ray, hit.t))
}

/// The look of a texture of the scene, by its number.
fn look_in(scene: &Scene, number: u32, at: &Point) -> Look
    requires scene { CanShow scene.now }
    requires there { number < length scene.now.textures.items }
    requires world { IsInWorld (position_of at.now) }
    ensures value { look_in scene.now number (position_of at.now) ≡ Some result }
    ensures valid { IsLook result }
{
    look_of(&scene.textures[number as usize], at)
}

fn look_of(texture: &Texture, at: &Point) -> Look
    requires texture { IsTexture texture.now }
    requires world { IsInWorld (position_of at.now) }
    ensures value { look_of (Some texture.now) (position_of at.now) ≡ Some result }
    ensures valid { IsLook result }
{
    Look {
        colour: color_at(&texture.pigment, *at),
        finish: texture.finish,
    }
}

/// Out of the solid of a leaf, where it is hit.
fn outward(leaf: &Leaf, ray: &Ray, hit: &Hit, at: &Point) -> V3
    requires leaf { IsLeaf leaf.now }
    requires direction { IsRayDirection ray.now.dir }
    requires origin { IsInWorld (point_at ray.now 0) }
    requires place { IsInWorld (point_at ray.now hit.now.t) }
    requires positive { 1 ≤ hit.now.t }
    requires crossed { differ (solid_holds leaf.now (point_at ray.now (hit.now.t - 1))) (solid_holds leaf.now (point_at ray.now hit.now.t)) ≡ true }
    requires entering { hit.now.entering ≡ differ (solid_holds leaf.now (point_at ray.now hit.now.t)) leaf.now.negated }
    requires at { position_of at.now ≡ point_at ray.now hit.now.t }
    ensures value { result ≡ leaf_outward leaf.now ray.now hit.now }
    ensures small { IsVectorWithin 65536 result }
{
    normal(&solid(leaf), inner(leaf, ray, hit, at), hit.face)
}

/// Of the two points between which a leaf is hit, the one in its solid.
fn inner(leaf: &Leaf, ray: &Ray, hit: &Hit, at: &Point) -> Point
    requires direction { IsRayDirection ray.now.dir }
    requires origin { IsInWorld (point_at ray.now 0) }
    requires place { IsInWorld (point_at ray.now hit.now.t) }
    requires positive { 1 ≤ hit.now.t }
    requires crossed { differ (solid_holds leaf.now (point_at ray.now (hit.now.t - 1))) (solid_holds leaf.now (point_at ray.now hit.now.t)) ≡ true }
    requires entering { hit.now.entering ≡ differ (solid_holds leaf.now (point_at ray.now hit.now.t)) leaf.now.negated }
    requires at { position_of at.now ≡ point_at ray.now hit.now.t }
    ensures value { position_of result ≡ inner_of (solid_holds leaf.now (point_at ray.now hit.now.t))
        (point_at ray.now (hit.now.t - 1)) (point_at ray.now hit.now.t) }
    ensures world { IsInWorld (position_of result) }
    ensures inside { all_hold (faces_of leaf.now (position_of result)) ≡ true }
{
    if hit.entering != leaf.negated {
        *at
    } else {
        point_of(ray, hit.t - 1)
    }
}

/// The point that a ray passes at t.
#[inline]
fn point_of(ray: &Ray, t: u64) -> Point
    requires direction { IsRayDirection ray.now.dir }
    requires origin { IsInWorld (point_at ray.now 0) }
    requires early { t < 2 ^ 31 }
    ensures { position_of result ≡ point_at ray.now t }
{
    let Ray { origin, dir } = *ray;
    [
        coordinate_of(origin.x.raw(), dir.x.raw(), t),
        coordinate_of(origin.y.raw(), dir.y.raw(), t),
        coordinate_of(origin.z.raw(), dir.z.raw(), t),
    ]
}

#[inline]
fn coordinate_of(origin: i64, step: i64, t: u64) -> i64
    requires near { unsigned_abs origin ≤ 2 ^ 28 }
    requires small { unsigned_abs step ≤ 2 ^ 17 }
    requires early { t < 2 ^ 31 }
    ensures { result ≡ coordinate_at origin step t }
{
    origin * 65536 + t as i64 * step
}

/// The raw point that is nearest to a point.
#[inline]
fn raw_point(at: &Point) -> V3
    requires { IsInWorld (position_of at.now) }
    ensures value { result ≡ raw_point (position_of at.now) }
    ensures small { IsVectorWithin (2 ^ 28) result }
{
    V3 {
        x: raw_coordinate(at[0]),
        y: raw_coordinate(at[1]),
        z: raw_coordinate(at[2]),
    }
}

#[inline]
fn raw_coordinate(along: i64) -> Fix
    requires { unsigned_abs along ≤ 2 ^ 44 }
    ensures value { result ≡ rnd along (pos 65536) }
    ensures small { unsigned_abs result ≤ 2 ^ 28 }
{
    Fix::from_known(rounded_shift(along as i128, 16))
}

/// The ray that a surface throws back.
pub fn ray_back(ray: &Ray, met: &Met) -> Ray
    requires direction { IsRayDirection ray.now.dir }
    requires met { IsMet met.now }
    ensures value { result ≡ ray_back ray.now met.now }
    ensures direction { IsRayDirection result.dir }
{
    Ray {
        origin: met.from,
        dir: thrown_back(&ray.dir, &met.normal),
    }
}

/// The ray that goes on through a surface.
pub fn ray_on(ray: &Ray, met: &Met) -> Ray
    requires direction { IsRayDirection ray.now.dir }
    requires met { IsMet met.now }
    ensures value { result ≡ ray_on ray.now met.now }
    ensures direction { IsRayDirection result.dir }
{
    Ray {
        origin: met.from,
        dir: passed_on(&ray.dir, &met.normal, met.entering, met.ior),
    }
}
