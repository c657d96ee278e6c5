// Lamps in the world: their places behind their steps, the cone of a spotlight, and fading.
// (Reference manual, light_source, spotlights and light fading)
ghost use Rattle.std.specs.Prelude.{◌≡◌, ◌≢◌, ◌≤◌, ◌^◌, pos, ◌≤ℤ◌, unsigned_abs, IfOk, IfErr, IfSome};
ghost use Rattle.fix_math.specs.Matrices.{IsVectorWithin};
ghost use Rattle.scene_model.specs.Amounts.{IsAmount};
ghost use Rattle.scene_model.specs.Looks.{IsLight, IsSpotlight, IsFade};
ghost use Rattle.item_blocks.specs.declared.fault.ParseFault.TheVariants.{NoMemory};
ghost use Rattle.view_blocks.specs.Lights.{cosine_at, cone_of, fade_of, placed_light, light_of, when, IsSoundLamp};
ghost use Rattle.view_blocks.specs.Reach.{place_or};

use crate::lamp::LampDraft;
use crate::reach::{reached, way};
use fix_math::{Fix, V3, rounded, sincos, unit};
use item_blocks::ParseFault;
use scene_lexer::Place;
use scene_model::{Fade, Light, Spotlight};
use xform::point;

fn cosine_of(angle: Fix) -> Fix
    ensures { result ≡ cosine_at angle }
{
    let (_sine, cosine) = sincos(angle);
    Fix::from_known(rounded(cosine as i128, 65536))
}

/// The cosine of an angle in degrees, to 90.
fn cosine_at(angle: Fix) -> Fix
    requires { IsAmount 5898240 angle }
    ensures value { result ≡ cosine_at angle }
    ensures small { IsAmount 65536 result }
{
    cosine_of(angle)
}

/// The cone of a spotlight that stands here and points there.
fn cone_of(lamp: &LampDraft, at: &V3, target: &V3) -> Spotlight
    requires sound { IsSoundLamp lamp.now }
    requires at_small { IsVectorWithin (2 ^ 36) at.now }
    requires target_small { IsVectorWithin (2 ^ 36) target.now }
    ensures value { result ≡ cone_of lamp.now at.now target.now }
    ensures valid { IsSpotlight result }
{
    Spotlight {
        axis: unit(way(at, target)),
        inner: cosine_at(lamp.radius),
        outer: cosine_at(lamp.falloff),
        tightness: lamp.tightness,
    }
}

/// The cone of a lamp, if it is a spotlight.
fn spot_of(lamp: &LampDraft, at: &V3, target: &V3) -> Option<Spotlight>
    requires sound { IsSoundLamp lamp.now }
    requires at_small { IsVectorWithin (2 ^ 36) at.now }
    requires target_small { IsVectorWithin (2 ^ 36) target.now }
    ensures value { result ≡ when lamp.now.spotlight (cone_of lamp.now at.now target.now) }
    ensures valid { IfSome result IsSpotlight }
{
    if lamp.spotlight {
        Some(cone_of(lamp, at, target))
    } else {
        None
    }
}

/// How a lamp's light fades, if a distance and a power are said.
fn fade_of(lamp: &LampDraft) -> Option<Fade>
    requires sound { IsSoundLamp lamp.now }
    ensures value { result ≡ fade_of lamp.now }
    ensures valid { IfSome result IsFade }
{
    if lamp.fade_distance.raw() > 0 && lamp.fade_power > 0 {
        Some(Fade {
            distance: lamp.fade_distance,
            power: lamp.fade_power,
        })
    } else {
        None
    }
}

fn place_or(place: Option<Place>, other: Place) -> Place
    ensures { result ≡ place_or place other }
{
    match place {
        Some(place) => place,
        None => other,
    }
}

/// The lamp behind its steps.
fn placed_light(lamp: &LampDraft, at: V3, target: V3) -> Light
    requires sound { IsSoundLamp lamp.now }
    requires at_small { IsVectorWithin (2 ^ 36) at }
    requires target_small { IsVectorWithin (2 ^ 36) target }
    ensures value { result ≡ placed_light lamp.now at target }
    ensures valid { IsLight result }
{
    let spot = spot_of(lamp, &at, &target);
    let fade = fade_of(lamp);
    Light {
        at,
        colour: lamp.colour,
        shadowless: lamp.shadowless,
        spot,
        fade,
    }
}

/// The lamp that is said, behind its steps. Its faults show only once all of it is read: its place is
/// out of range, or what it points at, each at the first token of its parameter.
pub fn light_of(lamp: &LampDraft) -> Result<Light, ParseFault>
    requires sound { IsSoundLamp lamp.now }
    ensures value { result ≡ light_of lamp.now }
    ensures valid { IfOk result IsLight }
    ensures memory { IfErr result (λ f. f ≢ NoMemory) }
{
    let at = reached(lamp.place, &point(&lamp.xform, lamp.at))?;
    let place = place_or(lamp.point_place, lamp.place);
    let target = reached(place, &point(&lamp.xform, lamp.point_at))?;
    Ok(placed_light(lamp, at, target))
}
