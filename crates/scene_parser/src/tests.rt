// Settings, backgrounds and defaults with what they come to, or their first fault, worked out by hand
// from the rules.
ghost use Rattle.scene_expr.specs.Values.{AreWhole};

use crate::{background, parse, plain_default, plain_globals};
use fix_math::Fix;
use item_blocks::{ParseFault, braced};
use scene_expr::Settings;
use scene_lexer::{Token, lex};
use scene_model::{Leaf, Light, Object, Op, Pattern, Scene, Shape, Sheet, Texture};
use std::alloc::{AllocError, Global};
use std::process::Abort;
use std::test::Fail;

mod scenes;

fn fault_shown(alloc: Global, fault: &ParseFault) -> Result<String, AllocError> {
    match fault {
        ParseFault::Expected { place, kind } => {
            let at = place.at;
            format!(in alloc; "expected {kind:?} @{at}")
        }
        ParseFault::OutOfProfile { place, word } => {
            let at = place.at;
            let word = str::from_utf8(word.bytes()).unwrap_or("?");
            format!(in alloc; "out of profile {word} @{at}")
        }
        ParseFault::ValueRange { place } => {
            let at = place.at;
            format!(in alloc; "range @{at}")
        }
        ParseFault::Xform { place, fault } => {
            let at = place.at;
            format!(in alloc; "{fault:?} @{at}")
        }
        ParseFault::Limit { which, place } => {
            let at = place.at;
            format!(in alloc; "limit {which} @{at}")
        }
        ParseFault::NoMemory => String::from_str(alloc, "no memory"),
    }
}

fn settings() -> Settings
    ensures { AreWhole result }
{
    Settings {
        clock: Fix(0),
        initial_clock: Fix(0),
        final_clock: Fix(65536),
        frame_number: 1,
        initial_frame: 1,
        final_frame: 1,
        image_width: 320,
        image_height: 240,
    }
}

fn globals_outcome(alloc: Global, tokens: &[Token]) -> Result<String, AllocError> {
    let mut globals = plain_globals();
    match braced(alloc, tokens, &settings(), 64, 0, &mut globals) {
        Ok(next) => {
            let levels = globals.levels;
            let blue = globals.ambient_light[2].raw();
            let adc = globals.adc.raw();
            format!(in alloc; "{levels} {blue} {adc} next {next}")
        }
        Err(fault) => fault_shown(alloc, &fault),
    }
}

/// Red and blue of a background, and the token behind it.
fn background_ends(alloc: Global, tokens: &[Token]) -> Result<(i64, i64, usize), ParseFault> {
    let (colour, next) = background(alloc, tokens, &settings(), 64, 0)?;
    let red = colour[0].raw();
    let blue = colour[2].raw();
    Ok((red, blue, next))
}

fn background_outcome(alloc: Global, tokens: &[Token]) -> Result<String, AllocError> {
    match background_ends(alloc, tokens) {
        Ok((red, blue, next)) => format!(in alloc; "{red} {blue} next {next}"),
        Err(fault) => fault_shown(alloc, &fault),
    }
}

fn default_outcome(alloc: Global, tokens: &[Token]) -> Result<String, AllocError> {
    let mut default = plain_default();
    match braced(alloc, tokens, &settings(), 64, 0, &mut default) {
        Ok(next) => {
            let pigment = default.looks.texture.pigment.is_some();
            match &default.looks.texture.finish {
                Some(finish) => {
                    let diffuse = finish.diffuse.raw();
                    let ambient = finish.ambient[0].raw();
                    format!(in alloc; "{pigment} {ambient} {diffuse} next {next}")
                }
                None => format!(in alloc; "{pigment} next {next}"),
            }
        }
        Err(fault) => fault_shown(alloc, &fault),
    }
}

fn op_shown(op: Op) -> &'static str {
    match op {
        Op::Union => "union",
        Op::Merge => "merge",
        Op::Intersection => "common",
        Op::Difference => "first",
    }
}

/// A leaf by its number, a group as (op parts), and ! before an inverse one.
fn add_shape(alloc: Global, shape: &Shape, text: &mut String) -> Result<(), AllocError> {
    match shape {
        Shape::Leaf(number) => {
            let number = format!(in alloc; " {number}")?;
            text.push_str(number.as_str())?;
        }
        Shape::Group { op, parts, inverse } => {
            text.push_str(if *inverse { " !(" } else { " (" })?;
            text.push_str(op_shown(*op))?;
            for part in parts {
                add_shape(alloc, part, text)?;
            }
            text.push_str(")")?;
        }
    }
    Ok(())
}

fn objects_shown(alloc: Global, objects: &[Object]) -> Result<String, AllocError> {
    let mut text = String::from_str(alloc, "")?;
    for object in objects {
        add_shape(alloc, &object.shape, &mut text)?;
        text.push_str(if object.no_shadow {
            " shadowless;"
        } else {
            ";"
        })?;
    }
    Ok(text)
}

/// Each leaf as object:texture:ior, with i and n where it is inverse and negated.
fn leaves_shown(alloc: Global, leaves: &[Leaf]) -> Result<String, AllocError> {
    let mut text = String::from_str(alloc, "")?;
    for leaf in leaves {
        let object = leaf.object;
        let texture = leaf.texture;
        let ior = leaf.ior.raw();
        let shown = format!(in alloc; " {object}:{texture}:{ior}")?;
        text.push_str(shown.as_str())?;
        text.push_str(if leaf.inverse { "i" } else { "" })?;
        text.push_str(if leaf.negated { "n" } else { "" })?;
    }
    Ok(text)
}

/// Each triangle as texture:ior, with s and m where it has no shadow and is smooth.
fn sheets_shown(alloc: Global, sheets: &[Sheet]) -> Result<String, AllocError> {
    let mut text = String::from_str(alloc, "")?;
    for sheet in sheets {
        let texture = sheet.texture;
        let ior = sheet.ior.raw();
        let shown = format!(in alloc; " {texture}:{ior}")?;
        text.push_str(shown.as_str())?;
        text.push_str(if sheet.no_shadow { "s" } else { "" })?;
        text.push_str(if sheet.smooth { "m" } else { "" })?;
    }
    Ok(text)
}

/// A pattern by its letter and the red of its first colour; a gradient by the count of its map's entries.
fn pattern_shown(alloc: Global, pattern: &Pattern) -> Result<String, AllocError> {
    match pattern {
        Pattern::Plain(colour) => {
            let red = colour[0].raw();
            format!(in alloc; "p{red}")
        }
        Pattern::Checker(colours) => {
            let red = colours[0][0].raw();
            format!(in alloc; "c{red}")
        }
        Pattern::Brick {
            mortar,
            brick: _,
            size: _,
            width: _,
        } => {
            let red = mortar[0].raw();
            format!(in alloc; "b{red}")
        }
        Pattern::Hexagon(colours) => {
            let red = colours[0][0].raw();
            format!(in alloc; "h{red}")
        }
        Pattern::Gradient { axis: _, map } => {
            let count = map.len();
            format!(in alloc; "g{count}")
        }
    }
}

/// Each texture by its pattern, where that stands along x, and what it throws back.
fn textures_shown(alloc: Global, textures: &[Texture]) -> Result<String, AllocError> {
    let mut text = String::from_str(alloc, "")?;
    for texture in textures {
        let pattern = pattern_shown(alloc, &texture.pigment.pattern)?;
        let pattern = pattern.as_str();
        let x = texture.pigment.xform.anchor.x.raw();
        let diffuse = texture.finish.diffuse.raw();
        let shown = format!(in alloc; " {pattern}@{x}d{diffuse}")?;
        text.push_str(shown.as_str())?;
    }
    Ok(text)
}

/// Each lamp as x/red, with s, c and f where it is shadowless, has a cone and fades.
fn lights_shown(alloc: Global, lights: &[Light]) -> Result<String, AllocError> {
    let mut text = String::from_str(alloc, "")?;
    for light in lights {
        let x = light.at.x.raw();
        let red = light.colour[0].raw();
        let shown = format!(in alloc; " {x}/{red}")?;
        text.push_str(shown.as_str())?;
        text.push_str(if light.shadowless { "s" } else { "" })?;
        text.push_str(if light.spot.is_some() { "c" } else { "" })?;
        text.push_str(if light.fade.is_some() { "f" } else { "" })?;
    }
    Ok(text)
}

fn view_shown(alloc: Global, scene: &Scene) -> Result<String, AllocError> {
    let x = scene.camera.location.x.raw();
    let z = scene.camera.direction.z.raw();
    let right = scene.camera.right.x.raw();
    let kind = if scene.camera.orthographic {
        "orthographic"
    } else {
        "perspective"
    };
    format!(in alloc; "{x} {z} {right} {kind}")
}

fn settings_shown(alloc: Global, scene: &Scene) -> Result<String, AllocError> {
    let red = scene.background[0].raw();
    let blue = scene.background[2].raw();
    let ambient = scene.ambient_light[2].raw();
    let levels = scene.levels;
    let adc = scene.adc.raw();
    format!(in alloc; "{red} {blue} {ambient} {levels} {adc}")
}

/// What is shown of a scene.
#[derive(Clone, Copy)]
enum Side {
    Settings,
    View,
    Lights,
    Objects,
    Leaves,
    Sheets,
    Textures,
}

fn side_shown(alloc: Global, scene: &Scene, side: Side) -> Result<String, AllocError> {
    match side {
        Side::Settings => settings_shown(alloc, scene),
        Side::View => view_shown(alloc, scene),
        Side::Lights => lights_shown(alloc, scene.lights.as_slice()),
        Side::Objects => objects_shown(alloc, scene.objects.as_slice()),
        Side::Leaves => leaves_shown(alloc, scene.leaves.as_slice()),
        Side::Sheets => sheets_shown(alloc, scene.sheets.as_slice()),
        Side::Textures => textures_shown(alloc, scene.textures.as_slice()),
    }
}

fn scene_outcome(alloc: Global, tokens: &[Token], side: Side) -> Result<String, AllocError> {
    match parse(alloc, tokens, &settings()) {
        Ok(scene) => side_shown(alloc, &scene, side),
        Err(fault) => fault_shown(alloc, &fault),
    }
}

/// What is read from a text.
#[derive(Clone, Copy)]
enum Part {
    Globals,
    Background,
    Default,
    Scene(Side),
}

fn outcome(alloc: Global, text: &[u8], part: Part) -> Result<String, AllocError> {
    if text.len() > 20_000 {
        return String::from_str(alloc, "too long for these tables");
    }
    let Ok(tokens) = lex(alloc, 0, text) else {
        return String::from_str(alloc, "no tokens");
    };
    match part {
        Part::Globals => globals_outcome(alloc, tokens.as_slice()),
        Part::Background => background_outcome(alloc, tokens.as_slice()),
        Part::Default => default_outcome(alloc, tokens.as_slice()),
        Part::Scene(side) => scene_outcome(alloc, tokens.as_slice(), side),
    }
}

fn agree(
    rt: &impl Abort,
    alloc: Global,
    part: Part,
    cases: &[(&[u8], &str)],
) -> Result<(), AllocError> {
    for (text, want) in cases {
        let found = outcome(alloc, text, part)?;
        let text = str::from_utf8(text).unwrap_or("?");
        assert_eq!(rt; found.as_str(), *want, "in {text}");
    }
    Ok(())
}

static GLOBALS: [(&[u8], &str); 17] = [
    (b"{ }", "5 65536 257 next 2"),
    (b"{ assumed_gamma 1.0 }", "5 65536 257 next 4"),
    (b"{ assumed_gamma 1.1 }", "range @16"),
    (
        b"{ max_trace_level 1 max_trace_level 63.5 }",
        "64 65536 257 next 6",
    ),
    (b"{ max_trace_level 2.49 }", "2 65536 257 next 4"),
    (b"{ max_trace_level 0.6 }", "range @18"),
    (b"{ max_trace_level 64.4 }", "range @18"),
    (
        b"{ ambient_light rgbf <0,0,256,99> adc_bailout 0 }",
        "5 16777216 0 next 15",
    ),
    (b"{ ambient_light <0,0,-1> }", "range @16"),
    (b"{ adc_bailout 1 }", "5 65536 65536 next 4"),
    (b"{ adc_bailout 2 }", "range @14"),
    (b"{ adc_bailout x }", "expected Parameter @14"),
    (b"{ radiosity { } }", "out of profile radiosity @2"),
    (b"{ assumed_gamma 1, }", "expected CloseBrace @17"),
    (b"{ assumed_gamma foo", "out of profile foo @16"),
    (b"{ assumed_gamma 1", "expected CloseBrace @17"),
    (b"assumed_gamma", "out of profile assumed_gamma @0"),
];

static BACKGROUNDS: [(&[u8], &str); 6] = [
    (b"{ rgb <1,0.5,2> }", "65536 131072 next 10"),
    (b"{ 0.5 }", "32768 32768 next 3"),
    (b"{ }", "expected Parameter @2"),
    (b"{ rgb 257 }", "range @2"),
    (b"{ rgb 1 rgb 1 }", "out of profile rgb @8"),
    (b"{ rgb 1", "expected CloseBrace @7"),
];

static DEFAULTS: [(&[u8], &str); 6] = [
    (b"{ }", "false next 2"),
    (
        b"{ pigment { rgb 1 } finish { ambient 1 } finish { diffuse 1 } }",
        "true 6554 65536 next 17",
    ),
    (
        b"{ texture { pigment { } } texture { finish { } } }",
        "true 6554 39322 next 14",
    ),
    (b"{ interior { } }", "out of profile interior @2"),
    (b"{ scale 2 }", "out of profile scale @2"),
    (b"{ texture { finish { ambient 17 } } 5 }", "range @29"),
];

#[test]
fn settings_are_as_they_are_said(rt: HostRuntime) -> Result<(), Fail> {
    agree(&rt, rt.alloc(), Part::Globals, &GLOBALS)?;
    Ok(())
}

#[test]
fn a_background_has_one_colour(rt: HostRuntime) -> Result<(), Fail> {
    agree(&rt, rt.alloc(), Part::Background, &BACKGROUNDS)?;
    Ok(())
}

#[test]
fn defaults_hold_textures_alone(rt: HostRuntime) -> Result<(), Fail> {
    agree(&rt, rt.alloc(), Part::Default, &DEFAULTS)?;
    Ok(())
}

#[test]
fn scenes_have_settings_views_and_lamps(rt: HostRuntime) -> Result<(), Fail> {
    let alloc = rt.alloc();
    agree(&rt, alloc, Part::Scene(Side::Settings), &scenes::SETTINGS)?;
    agree(&rt, alloc, Part::Scene(Side::View), &scenes::VIEWS)?;
    agree(&rt, alloc, Part::Scene(Side::Lights), &scenes::LIGHTS)?;
    Ok(())
}

#[test]
fn objects_stand_in_the_scene(rt: HostRuntime) -> Result<(), Fail> {
    let alloc = rt.alloc();
    agree(&rt, alloc, Part::Scene(Side::Objects), &scenes::OBJECTS)?;
    agree(&rt, alloc, Part::Scene(Side::Leaves), &scenes::LEAVES)?;
    agree(&rt, alloc, Part::Scene(Side::Sheets), &scenes::SHEETS)?;
    Ok(())
}

#[test]
fn textures_go_over_the_default_in_force(rt: HostRuntime) -> Result<(), Fail> {
    agree(
        &rt,
        rt.alloc(),
        Part::Scene(Side::Textures),
        &scenes::TEXTURES,
    )?;
    Ok(())
}

#[test]
fn the_first_fault_is_told(rt: HostRuntime) -> Result<(), Fail> {
    let alloc = rt.alloc();
    agree(&rt, alloc, Part::Scene(Side::Settings), &scenes::FAULTS)?;
    agree(&rt, alloc, Part::Scene(Side::Settings), &scenes::LATE)?;
    Ok(())
}

#[test]
fn lamps_have_a_limit(rt: HostRuntime) -> Result<(), Fail> {
    let alloc = rt.alloc();
    let mut text = String::from_str(alloc, "")?;
    for _ in 0..256 {
        text.push_str("light_source { 0, 1 } ")?;
    }
    let most = outcome(alloc, text.as_str().as_bytes(), Part::Scene(Side::Settings))?;
    assert_eq!(rt; most.as_str(), "0 0 65536 5 257");
    text.push_str("light_source { 0, 1 }")?;
    let more = outcome(alloc, text.as_str().as_bytes(), Part::Scene(Side::Settings))?;
    assert_eq!(rt; more.as_str(), "limit 7 @5632");
    Ok(())
}
