// Lamps and cameras in the world, or their first faults. Numbers from outside are raw: 1 unit is 65536.
ghost use Rattle.std.specs.Prelude.{◌<◌, length};
ghost use Rattle.scene_expr.specs.Values.{AreWhole};

mod cameras;
mod lamps;

use crate::{read_camera, read_lamp};
use fix_math::{Fix, V3};
use item_blocks::ParseFault;
use scene_expr::Settings;
use scene_lexer::{Token, lex};
use scene_model::{Camera, Light};
use std::alloc::{AllocError, Global};
use std::process::Abort;
use std::test::Fail;

fn vector_shown(alloc: Global, v: &V3) -> Result<String, AllocError> {
    let x = v.x.raw();
    let y = v.y.raw();
    let z = v.z.raw();
    format!(in alloc; "{x}/{y}/{z}")
}

fn spot_shown(alloc: Global, light: &Light) -> Result<String, AllocError> {
    match &light.spot {
        Some(spot) => {
            let axis = vector_shown(alloc, &spot.axis)?;
            let axis = axis.as_str();
            let inner = spot.inner.raw();
            let outer = spot.outer.raw();
            let tightness = spot.tightness;
            format!(in alloc; " spot {axis} {inner} {outer} {tightness}")
        }
        None => String::from_str(alloc, ""),
    }
}

fn fade_shown(alloc: Global, light: &Light) -> Result<String, AllocError> {
    match &light.fade {
        Some(fade) => {
            let distance = fade.distance.raw();
            let power = fade.power;
            format!(in alloc; " fade {distance} {power}")
        }
        None => String::from_str(alloc, ""),
    }
}

fn light_shown(alloc: Global, light: &Light) -> Result<String, AllocError> {
    let at = vector_shown(alloc, &light.at)?;
    let at = at.as_str();
    let r = light.colour[0].raw();
    let g = light.colour[1].raw();
    let b = light.colour[2].raw();
    let shadowless = if light.shadowless { 1 } else { 0 };
    let spot = spot_shown(alloc, light)?;
    let spot = spot.as_str();
    let fade = fade_shown(alloc, light)?;
    let fade = fade.as_str();
    format!(in alloc; "{at} {r}/{g}/{b} {shadowless}{spot}{fade}")
}

fn camera_shown(alloc: Global, camera: &Camera) -> Result<String, AllocError> {
    let location = vector_shown(alloc, &camera.location)?;
    let location = location.as_str();
    let direction = vector_shown(alloc, &camera.direction)?;
    let direction = direction.as_str();
    let right = vector_shown(alloc, &camera.right)?;
    let right = right.as_str();
    let up = vector_shown(alloc, &camera.up)?;
    let up = up.as_str();
    let orthographic = if camera.orthographic { 1 } else { 0 };
    format!(in alloc; "{location} {direction} {right} {up} {orthographic}")
}

fn fault_shown(alloc: Global, fault: &ParseFault) -> Result<String, AllocError> {
    match fault {
        ParseFault::Expected { place, kind } => {
            let at = place.at;
            format!(in alloc; "expected {kind:?} @{at}")
        }
        ParseFault::OutOfProfile { place, word } => {
            let at = place.at;
            let word = str::from_utf8(word.bytes()).unwrap_or("?");
            format!(in alloc; "no {word} @{at}")
        }
        ParseFault::ValueRange { place } => {
            let at = place.at;
            format!(in alloc; "range @{at}")
        }
        ParseFault::Xform { place, fault } => {
            let at = place.at;
            format!(in alloc; "{fault:?} @{at}")
        }
        ParseFault::Limit { which, place } => {
            let at = place.at;
            format!(in alloc; "limit {which} @{at}")
        }
        ParseFault::NoMemory => String::from_str(alloc, "no memory"),
    }
}

fn settings() -> Settings
    ensures { AreWhole result }
{
    Settings {
        clock: Fix(0),
        initial_clock: Fix(0),
        final_clock: Fix(65536),
        frame_number: 1,
        initial_frame: 1,
        final_frame: 1,
        image_width: 320,
        image_height: 240,
    }
}

fn lamp_outcome(alloc: Global, tokens: &[Token], set: &Settings) -> Result<String, AllocError>
    requires some { 0 < length tokens.now }
    requires whole { AreWhole set.now }
{
    match read_lamp(alloc, tokens, set, 64, 0) {
        Ok((light, _next)) => light_shown(alloc, &light),
        Err(fault) => fault_shown(alloc, &fault),
    }
}

fn camera_outcome(alloc: Global, tokens: &[Token], set: &Settings) -> Result<String, AllocError>
    requires some { 0 < length tokens.now }
    requires whole { AreWhole set.now }
{
    match read_camera(alloc, tokens, set, 64, 0) {
        Ok((camera, _next)) => camera_shown(alloc, &camera),
        Err(fault) => fault_shown(alloc, &fault),
    }
}

/// What comes of a text that is a lamp, or else a camera.
fn outcome(alloc: Global, lamp: bool, text: &[u8]) -> Result<String, AllocError> {
    if text.len() > 20_000 {
        return String::from_str(alloc, "too long for these tables");
    }
    let Ok(tokens) = lex(alloc, 0, text) else {
        return String::from_str(alloc, "no tokens");
    };
    if tokens.is_empty() {
        return String::from_str(alloc, "nothing");
    }
    if lamp {
        lamp_outcome(alloc, tokens.as_slice(), &settings())
    } else {
        camera_outcome(alloc, tokens.as_slice(), &settings())
    }
}

fn agree(
    rt: &impl Abort,
    alloc: Global,
    lamp: bool,
    cases: &[(&[u8], &str)],
) -> Result<(), AllocError> {
    for (text, want) in cases {
        let found = outcome(alloc, lamp, text)?;
        let text = str::from_utf8(text).unwrap_or("?");
        assert_eq!(rt; found.as_str(), *want, "in {text}");
    }
    Ok(())
}

#[test]
fn lamps_stand_where_their_steps_move_them(rt: HostRuntime) -> Result<(), Fail> {
    agree(&rt, rt.alloc(), true, &lamps::FOUND)?;
    Ok(())
}

#[test]
fn first_faults_of_lamps_have_their_places(rt: HostRuntime) -> Result<(), Fail> {
    agree(&rt, rt.alloc(), true, &lamps::FAULTS)?;
    Ok(())
}

#[test]
fn cameras_see_what_they_look_at(rt: HostRuntime) -> Result<(), Fail> {
    agree(&rt, rt.alloc(), false, &cameras::FOUND)?;
    Ok(())
}

#[test]
fn first_faults_of_cameras_have_their_places(rt: HostRuntime) -> Result<(), Fail> {
    agree(&rt, rt.alloc(), false, &cameras::FAULTS)?;
    Ok(())
}
