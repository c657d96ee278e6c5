// The colour that a ray shows.
ghost use Rattle.std.specs.Prelude.{◌≡◌, ◌^◌};
ghost use Rattle.scene_model.specs.Amounts.{AreAmounts, IsAmount};
ghost use Rattle.shapes.specs.Rays.{IsRayDirection};
ghost use Rattle.csg_hits.specs.Hits.{Fits};
ghost use Rattle.csg_hits.specs.Surfaces.{surfaces_of, without_sheets};
ghost use Rattle.finish_shade.specs.Alone.{is_end, is_unlit, shows_itself};
ghost use Rattle.finish_shade.specs.Amounts.{black, let_through, weight_of};
ghost use Rattle.finish_shade.specs.Finishes.{ambient_part, opacity, shown};
ghost use Rattle.finish_shade.specs.Meetings.{CanShow, IsLook, IsMet, ray_back, ray_on};
ghost use Rattle.finish_shade.specs.Shades.{IsShade};

use crate::arriving::NEAR;
use crate::finish::{BLACK, opacity, shown};
use crate::lit::{lit_by_all, unlit};
use crate::met::{Look, Met, look_at, met_at, ray_back, ray_on};
use crate::weights::{is_weak, let_through, weight_of};
use csg_hits::{Scratch, World};
use fix_math::Fix;
use scene_model::{Rgb, Scene};
use shapes::Ray;

/// The colour that a ray shows which counts so much, from 0 to 1, and which so many levels of rays may follow, itself
/// among them: at most 16,384 units in each channel. It takes no memory. (Reference manual, max_trace_level and adc_bailout)
#[cycle(shade)]
pub fn shade<W: World>(
    w: &W,
    scene: &Scene,
    s: &mut Scratch,
    ray: &Ray,
    levels: u32,
    weight: Fix,
) -> Rgb
    requires direction { IsRayDirection ray.now.dir }
    requires fits { Fits (W.surfaces w.now) s.old }
    requires stands { W.surfaces w.now ≡ without_sheets (surfaces_of scene.now) }
    requires scene { CanShow scene.now }
    requires amount { IsAmount 65536 weight }
    ensures fits { Fits (W.surfaces w.now) s.new }
    ensures shade { IsShade (W.surfaces w.now) scene.now levels ray.now weight result }
    ensures amounts { AreAmounts (2 ^ 30) result }
{
    if levels == 0 {
        return BLACK;
    }
    if is_weak(scene.adc, weight) {
        return BLACK;
    }
    let Some(hit) = w.nearest(s, ray, NEAR, false) else {
        return scene.background;
    };
    let look = look_at(scene, ray, &hit);
    if shows_itself(scene, &look, levels, weight) {
        return alone(scene, &look);
    }
    let met = met_at(scene, ray, &hit, look);
    let lit = lit_by_all(w, scene, s, &ray.dir, &met);
    let thrown = thrown(w, scene, s, ray, &met, levels - 1, weight);
    let passed = passed(w, scene, s, ray, &met, levels - 1, weight);
    let colour = &met.look.colour;
    shown(
        opacity(colour),
        &lit.own,
        &lit.highlights,
        &met.look.finish.reflection,
        &thrown,
        &let_through(colour),
        &passed,
    )
}

/// Whether a surface shows no more than its own light to a ray that counts so much, and which so many levels
/// of rays may follow, itself among them.
fn shows_itself(scene: &Scene, look: &Look, levels: u32, weight: Fix) -> bool
    requires look { IsLook look.now }
    requires amount { IsAmount 65536 weight }
    ensures { result ≡ shows_itself scene.now look.now levels weight }
{
    is_unlit(scene, look) && is_end(scene, look, levels, weight)
}

/// Whether lamps add nothing to what a surface shows: there are none, or it is dull.
#[inline]
fn is_unlit(scene: &Scene, look: &Look) -> bool
    ensures { result ≡ is_unlit scene.now look.now }
{
    scene.lights.is_empty() || look.is_dull()
}

/// Whether neither ray that goes on from a surface shows anything.
fn is_end(scene: &Scene, look: &Look, levels: u32, weight: Fix) -> bool
    requires look { IsLook look.now }
    requires amount { IsAmount 65536 weight }
    ensures { result ≡ is_end scene.now look.now levels weight }
{
    levels == 1
        || is_weak(scene.adc, weight_of(weight, &look.finish.reflection))
            && is_weak(scene.adc, weight_of(weight, &let_through(&look.colour)))
}

/// What a surface shows of its own light alone.
fn alone(scene: &Scene, look: &Look) -> Rgb
    requires scene { CanShow scene.now }
    requires look { IsLook look.now }
    ensures value { result ≡ shown (opacity look.now.colour) (ambient_part look.now.colour look.now.finish.ambient scene.now.ambient_light) black look.now.finish.reflection black (let_through look.now.colour) black }
    ensures amounts { AreAmounts (2 ^ 30) result }
{
    let Look { colour, finish } = look;
    let lit = unlit(scene, look);
    shown(
        opacity(colour),
        &lit.own,
        &lit.highlights,
        &finish.reflection,
        &BLACK,
        &let_through(colour),
        &BLACK,
    )
}

/// What the ray shows that a surface throws back.
#[cycle(shade)]
fn thrown<W: World>(
    w: &W,
    scene: &Scene,
    s: &mut Scratch,
    ray: &Ray,
    met: &Met,
    levels: u32,
    weight: Fix,
) -> Rgb
    requires direction { IsRayDirection ray.now.dir }
    requires fits { Fits (W.surfaces w.now) s.old }
    requires stands { W.surfaces w.now ≡ without_sheets (surfaces_of scene.now) }
    requires scene { CanShow scene.now }
    requires met { IsMet met.now }
    requires amount { IsAmount 65536 weight }
    ensures fits { Fits (W.surfaces w.now) s.new }
    ensures shade { IsShade (W.surfaces w.now) scene.now levels (ray_back ray.now met.now)
        (weight_of weight met.now.look.finish.reflection) result }
    ensures amounts { AreAmounts (2 ^ 30) result }
{
    let share = weight_of(weight, &met.look.finish.reflection);
    if is_weak(scene.adc, share) {
        return BLACK;
    }
    shade(w, scene, s, &ray_back(ray, met), levels, share)
}

/// What the ray shows that goes on through a surface.
#[cycle(shade)]
fn passed<W: World>(
    w: &W,
    scene: &Scene,
    s: &mut Scratch,
    ray: &Ray,
    met: &Met,
    levels: u32,
    weight: Fix,
) -> Rgb
    requires direction { IsRayDirection ray.now.dir }
    requires fits { Fits (W.surfaces w.now) s.old }
    requires stands { W.surfaces w.now ≡ without_sheets (surfaces_of scene.now) }
    requires scene { CanShow scene.now }
    requires met { IsMet met.now }
    requires amount { IsAmount 65536 weight }
    ensures fits { Fits (W.surfaces w.now) s.new }
    ensures shade { IsShade (W.surfaces w.now) scene.now levels (ray_on ray.now met.now)
        (weight_of weight (let_through met.now.look.colour)) result }
    ensures amounts { AreAmounts (2 ^ 30) result }
{
    let share = weight_of(weight, &let_through(&met.look.colour));
    if is_weak(scene.adc, share) {
        return BLACK;
    }
    shade(w, scene, s, &ray_on(ray, met), levels, share)
}
