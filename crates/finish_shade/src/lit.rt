// What a surface shows of the lamps.
ghost use Rattle.std.specs.Prelude.{◌≡◌, ◌+◌, ◌<◌, ◌^◌, ◌+ℤ◌, ℕ, List, ◌∷◌};
ghost use Rattle.fix_math.specs.Matrices.{IsVectorWithin};
ghost use Rattle.scene_model.specs.Amounts.{AreAmounts, IsAmount};
ghost use Rattle.scene_model.specs.Looks.{IsLight};
ghost use Rattle.shapes.specs.Rays.{IsRayDirection};
ghost use Rattle.csg_hits.specs.Hits.{Fits};
ghost use Rattle.csg_hits.specs.Surfaces.{surfaces_of, without_sheets};
ghost use Rattle.finish_shade.specs.Amounts.{black};
ghost use Rattle.finish_shade.specs.Arrivals.{IsLit, arriving_light, shone_upon, unlit};
ghost use Rattle.finish_shade.specs.Finishes.{ambient_part, plus};
ghost use Rattle.finish_shade.specs.Meetings.{CanShow, IsLook, IsMet};

use crate::arriving::{arriving, way_to};
use crate::directions::cosine;
use crate::finish::{ambient_part, diffuse_part, highlights, light_of};
use crate::lamps::{cone_factor, fading_factor};
use crate::met::{Look, Met};
use csg_hits::{Scratch, World};
use fix_math::{Fix, V3, length, unit};
use scene_model::{Light, Rgb, Scene};
use shapes::Ray;

/// What a surface shows of light: its own colour's, and the highlights upon it. Raw numbers, of which those of
/// many lamps are larger than those of a colour.
#[derive(Clone, Copy)]
pub struct Lit {
    pub own: [i64; 3],
    pub highlights: [i64; 3],
}

/// What a surface shows of all lamps, and without any.
pub fn lit_by_all<W: World>(w: &W, scene: &Scene, s: &mut Scratch, dir: &V3, met: &Met) -> Lit
    requires direction { IsRayDirection dir.now }
    requires fits { Fits (W.surfaces w.now) s.old }
    requires stands { W.surfaces w.now ≡ without_sheets (surfaces_of scene.now) }
    requires scene { CanShow scene.now }
    requires met { IsMet met.now }
    ensures fits { Fits (W.surfaces w.now) s.new }
    ensures lit { IsLit (W.surfaces w.now) scene.now dir.now met.now (unlit scene.now met.now) scene.now.lights.items result }
    ensures own { AreAmounts (2 ^ 52) result.own }
    ensures highlights { AreAmounts (2 ^ 42) result.highlights }
{
    let mut lit = unlit(scene, &met.look);
    if met.look.is_dull() {
        return lit;
    }
    for lamp in &scene.lights {
        lit = with_lamp(w, scene, s, dir, met, lamp, &lit);
    }
    lit
}

/// What a surface shows without lamps.
pub fn unlit(scene: &Scene, look: &Look) -> Lit
    requires scene { CanShow scene.now }
    requires look { IsLook look.now }
    ensures value { result ≡ record { own = ambient_part look.now.colour look.now.finish.ambient scene.now.ambient_light; highlights = black } }
    ensures own { AreAmounts (2 ^ 41) result.own }
    ensures highlights { AreAmounts 0 result.highlights }
{
    let Look { colour, finish } = look;
    let [red, green, blue] = ambient_part(colour, &finish.ambient, &scene.ambient_light);
    Lit {
        own: [red.raw(), green.raw(), blue.raw()],
        highlights: [0, 0, 0],
    }
}

/// The same with a lamp, unless it stands on the other side.
fn with_lamp<W: World>(
    w: &W,
    scene: &Scene,
    s: &mut Scratch,
    dir: &V3,
    met: &Met,
    lamp: &Light,
    lit: &Lit,
) -> Lit
    requires direction { IsRayDirection dir.now }
    requires fits { Fits (W.surfaces w.now) s.old }
    requires stands { W.surfaces w.now ≡ without_sheets (surfaces_of scene.now) }
    requires scene { CanShow scene.now }
    requires met { IsMet met.now }
    requires lamp { IsLight lamp.now }
    requires own { AreAmounts (2 ^ 52) lit.now.own }
    requires highlights { AreAmounts (2 ^ 52) lit.now.highlights }
    ensures fits { Fits (W.surfaces w.now) s.new }
    ensures lit { (lamps : List Light) (all : Lit)
        → IsLit (W.surfaces w.now) scene.now dir.now met.now result lamps all
        → IsLit (W.surfaces w.now) scene.now dir.now met.now lit.now (lamp.now ∷ lamps) all }
    ensures own { (n : ℕ) → AreAmounts n lit.now.own → AreAmounts (n + 2 ^ 43) result.own }
    ensures highlights { (n : ℕ) → AreAmounts n lit.now.highlights → AreAmounts (n + 2 ^ 34) result.highlights }
{
    let way = way_to(&met.from, lamp);
    let direction = unit(way);
    let slant = cosine(&met.normal, &direction);
    if slant <= 0 {
        return *lit;
    }
    let distance = length(&way);
    let ray = Ray {
        origin: met.from,
        dir: direction,
    };
    let arriving = arriving(w, scene, s, lamp, &ray, distance);
    let light = arriving_light(lamp, &direction, distance, &arriving);
    shone_upon(dir, met, &direction, Fix(slant), &light, lit)
}

/// A lamp's light where it arrives.
fn arriving_light(lamp: &Light, direction: &V3, distance: u64, arriving: &Rgb) -> Rgb
    requires lamp { IsLight lamp.now }
    requires direction { IsVectorWithin 65537 direction.now }
    requires near { distance < 2 ^ 40 }
    requires arriving { AreAmounts 65536 arriving.now }
    ensures value { result ≡ arriving_light lamp.now direction.now distance arriving.now }
    ensures amounts { AreAmounts (2 ^ 25) result }
{
    let cone = cone_factor(&lamp.spot, direction);
    let fading = fading_factor(&lamp.fade, distance);
    light_of(&lamp.colour, arriving, cone, fading)
}

/// What a surface shows with the light that comes from a direction.
fn shone_upon(dir: &V3, met: &Met, direction: &V3, slant: Fix, light: &Rgb, lit: &Lit) -> Lit
    requires direction { IsVectorWithin 65537 dir.now }
    requires met { IsMet met.now }
    requires to_lamp { IsVectorWithin 65536 direction.now }
    requires slant { IsAmount (2 ^ 18) slant }
    requires light { AreAmounts (2 ^ 25) light.now }
    requires own { AreAmounts (2 ^ 52) lit.now.own }
    requires highlights { AreAmounts (2 ^ 52) lit.now.highlights }
    ensures value { result ≡ shone_upon dir.now met.now direction.now slant light.now lit.now }
    ensures own { (n : ℕ) → AreAmounts n lit.now.own → AreAmounts (n + 2 ^ 43) result.own }
    ensures highlights { (n : ℕ) → AreAmounts n lit.now.highlights → AreAmounts (n + 2 ^ 34) result.highlights }
{
    let Met { normal, look, .. } = met;
    let finish = &look.finish;
    let diffuse = diffuse_part(light, &look.colour, finish.diffuse, slant);
    let shining = highlights(finish, dir, normal, direction, light);
    Lit {
        own: with_light(&lit.own, &diffuse),
        highlights: with_light(&lit.highlights, &shining),
    }
}

#[inline]
fn with_light(lit: &[i64; 3], light: &Rgb) -> [i64; 3]
    requires lit { AreAmounts (2 ^ 52) lit.now }
    requires light { AreAmounts (2 ^ 43) light.now }
    ensures { result ≡ plus lit.now light.now }
{
    [
        sum(lit[0], light[0]),
        sum(lit[1], light[1]),
        sum(lit[2], light[2]),
    ]
}

#[inline]
fn sum(a: i64, b: Fix) -> i64
    requires a { IsAmount (2 ^ 52) a }
    requires b { IsAmount (2 ^ 43) b }
    ensures { result ≡ a +ℤ b }
{
    a + b.raw()
}
