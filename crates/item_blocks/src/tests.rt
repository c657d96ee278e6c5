// Materials with what is given in them, or their first fault, worked out by hand from the rules.
ghost use Rattle.scene_expr.specs.Values.{AreWhole};

mod edges;
mod made;

use crate::{
    MaterialDraft, Paint, ParseFault, PigmentDraft, TextureDraft, braced, ior_of, look_part,
    no_material, take_look, word_at,
};
use fix_math::Fix;
use scene_expr::Settings;
use scene_lexer::{Token, lex};
use scene_model::{Entry, Finish, Pattern, Rgbft, Texture};
use std::alloc::{AllocError, Global};
use std::process::Abort;
use std::test::Fail;

fn colour_shown(alloc: Global, colour: &Rgbft) -> Result<String, AllocError> {
    let r = colour[0].raw();
    let g = colour[1].raw();
    let b = colour[2].raw();
    let f = colour[3].raw();
    let t = colour[4].raw();
    format!(in alloc; "{r}/{g}/{b}/{f}/{t}")
}

fn pair_shown(alloc: Global, name: &str, pair: &[Rgbft; 2]) -> Result<String, AllocError> {
    let first = colour_shown(alloc, &pair[0])?;
    let second = colour_shown(alloc, &pair[1])?;
    let first = first.as_str();
    let second = second.as_str();
    format!(in alloc; "{name} {first} {second}")
}

fn paint_shown(alloc: Global, paint: &Paint) -> Result<String, AllocError> {
    match paint {
        Paint::Plain(colour) => colour_shown(alloc, colour),
        Paint::Checker(pair) => pair_shown(alloc, "checker", pair),
        Paint::Brick(pair) => pair_shown(alloc, "brick", pair),
        Paint::Hexagon(three) => {
            let third = three[2][0].raw();
            let front = pair_shown(alloc, "hexagon", &[three[0], three[1]])?;
            let front = front.as_str();
            format!(in alloc; "{front} {third}")
        }
        Paint::Gradient(axis) => {
            let x = axis.x.raw();
            let y = axis.y.raw();
            format!(in alloc; "gradient {x} {y}")
        }
    }
}

fn pigment_shown(alloc: Global, pigment: &PigmentDraft) -> Result<String, AllocError> {
    let paint = paint_shown(alloc, &pigment.paint)?;
    let paint = paint.as_str();
    let count = pigment.map.entries().len();
    let size = pigment.brick_size.z.raw();
    let mortar = pigment.mortar.raw();
    let anchor = pigment.xform.anchor.x.raw();
    let stretch = pigment.xform.m[0][0];
    format!(in alloc; "{paint} map {count} size {size} mortar {mortar} at {anchor} by {stretch}")
}

fn finish_shown(alloc: Global, finish: &Finish) -> Result<String, AllocError> {
    let ambient = finish.ambient[2].raw();
    let diffuse = finish.diffuse.raw();
    let phong = finish.phong.raw();
    let size = finish.phong_size;
    let specular = finish.specular.raw();
    let gloss = finish.gloss;
    let reflection = finish.reflection[1].raw();
    format!(in alloc; "{ambient} {diffuse} {phong} {size} {specular} {gloss} {reflection}")
}

fn material_shown(alloc: Global, material: &MaterialDraft) -> Result<String, AllocError> {
    let pigment = match &material.texture.pigment {
        Some(pigment) => pigment_shown(alloc, pigment)?,
        None => String::from_str(alloc, "-")?,
    };
    let finish = match &material.texture.finish {
        Some(finish) => finish_shown(alloc, finish)?,
        None => String::from_str(alloc, "-")?,
    };
    let ior = match material.interior {
        Some(interior) => interior.ior.raw(),
        None => 0,
    };
    let pigment = pigment.as_str();
    let finish = finish.as_str();
    format!(in alloc; "{pigment}; {finish}; {ior}")
}

fn fault_shown(alloc: Global, fault: &ParseFault) -> Result<String, AllocError> {
    match fault {
        ParseFault::Expected { place, kind } => {
            let at = place.at;
            format!(in alloc; "expected {kind:?} @{at}")
        }
        ParseFault::OutOfProfile { place, word } => {
            let at = place.at;
            let word = str::from_utf8(word.bytes()).unwrap_or("?");
            format!(in alloc; "no {word} @{at}")
        }
        ParseFault::ValueRange { place } => {
            let at = place.at;
            format!(in alloc; "range @{at}")
        }
        ParseFault::Xform { place, fault } => {
            let at = place.at;
            format!(in alloc; "{fault:?} @{at}")
        }
        ParseFault::Limit { which, place } => {
            let at = place.at;
            format!(in alloc; "limit {which} @{at}")
        }
        ParseFault::NoMemory => String::from_str(alloc, "no memory"),
    }
}

fn settings() -> Settings
    ensures { AreWhole result }
{
    Settings {
        clock: Fix(0),
        initial_clock: Fix(0),
        final_clock: Fix(65536),
        frame_number: 1,
        initial_frame: 1,
        final_frame: 1,
        image_width: 320,
        image_height: 240,
    }
}

/// What comes of a text that is a material from its brace on.
fn outcome(alloc: Global, text: &[u8]) -> Result<String, AllocError> {
    if text.len() > 20_000 {
        return String::from_str(alloc, "too long for these tables");
    }
    let Ok(tokens) = lex(alloc, 0, text) else {
        return String::from_str(alloc, "no tokens");
    };
    let mut material = no_material();
    match braced(alloc, tokens.as_slice(), &settings(), 64, 0, &mut material) {
        Ok(_next) => material_shown(alloc, &material),
        Err(fault) => fault_shown(alloc, &fault),
    }
}

fn agree(rt: &impl Abort, alloc: Global, cases: &[(&[u8], &str)]) -> Result<(), AllocError> {
    for (text, want) in cases {
        let found = outcome(alloc, text)?;
        let text = str::from_utf8(text).unwrap_or("?");
        assert_eq!(rt; found.as_str(), *want, "in {text}");
    }
    Ok(())
}

static FOUND: [(&[u8], &str); 18] = [
    (b"{ }", "-; -; 0"),
    (b"{ interior { } }", "-; -; 65536"),
    (
        b"{ interior { ior 1.5 ior 2 } interior { interior { ior 3 } } }",
        "-; -; 196608",
    ),
    (
        b"{ texture { finish { } } }",
        "-; 6554 39322 0 40 0 20 0; 0",
    ),
    (
        b"{ texture { finish { phong_size 40.5 roughness 1/65536 reflection { 0.7 } } } }",
        "-; 6554 39322 0 41 0 65536 45875; 0",
    ),
    (
        b"{ texture { finish { finish { ambient 1 phong 2 } phong_size 1.4 ambient <0,0,0.5> } } }",
        "-; 32768 39322 131072 1 0 20 0; 0",
    ),
    (
        b"{ texture { finish { ambient 1 } } texture { finish { diffuse 1 } } }",
        "-; 6554 65536 0 40 0 20 0; 0",
    ),
    (
        b"{ texture { pigment { } } }",
        "0/0/0/0/0 map 0 size 294912 mortar 32768 at 0 by 4294967296; -; 0",
    ),
    (
        b"{ texture { pigment { 0.5 } } }",
        "32768/32768/32768/32768/32768 map 0 size 294912 mortar 32768 at 0 by 4294967296; -; 0",
    ),
    (
        b"{ texture { pigment { checker rgb 1 } } }",
        "checker 65536/65536/65536/0/0 0/65536/0/0/0 map 0 size 294912 mortar 32768 at 0 by 4294967296; -; 0",
    ),
    (
        b"{ texture { pigment { brick mortar 0 brick_size 1 } } }",
        "brick 32768/32768/32768/0/0 39322/9830/9830/0/0 map 0 size 65536 mortar 0 at 0 by 4294967296; -; 0",
    ),
    (
        b"{ texture { pigment { hexagon } } }",
        "hexagon 0/0/65536/0/0 0/65536/0/0/0 65536 map 0 size 294912 mortar 32768 at 0 by 4294967296; -; 0",
    ),
    (
        b"{ texture { pigment { gradient y color_map { [0 rgb 0][0, rgb 1] } scale 2 } } }",
        "gradient 0 65536 map 2 size 294912 mortar 32768 at 0 by 8589934592; -; 0",
    ),
    (
        b"{ texture { pigment { pigment { color_map { [1 rgb 1] } translate x } gradient x color_map { colour_map { [0 rgb 1] } [1 rgb 1] } } } }",
        "gradient 65536 0 map 2 size 294912 mortar 32768 at 65536 by 4294967296; -; 0",
    ),
    (
        b"{ texture { scale 0 pigment { rgb 1 } translate <1,0,0> scale 2 } }",
        "65536/65536/65536/0/0 map 0 size 294912 mortar 32768 at 131072 by 8589934592; -; 0",
    ),
    (
        b"{ texture { pigment { rgb 1 } scale 2 pigment { rgb 0 } scale 3 } }",
        "0/0/0/0/0 map 0 size 294912 mortar 32768 at 0 by 12884901888; -; 0",
    ),
    (
        b"{ texture { pigment { transform transform { translate 1 transform { scale 2 } } } } }",
        "0/0/0/0/0 map 0 size 294912 mortar 32768 at 131072 by 8589934592; -; 0",
    ),
    (
        b"{ texture { pigment { matrix <3,0,0, 0,1,0, 0,0,1, 5,0,0> } } }",
        "0/0/0/0/0 map 0 size 294912 mortar 32768 at 327680 by 12884901888; -; 0",
    ),
];

static FAULTS: [(&[u8], &str); 24] = [
    (b"x", "no x @0"),
    (b"5", "expected OpenBrace @0"),
    (b"{", "expected CloseBrace @1"),
    (b"{ texture", "expected OpenBrace @9"),
    (b"{ texture { pigment { foo } } }", "no foo @22"),
    (b"{ texture { pigment { rgb 1 rgb 0 } } }", "no rgb @28"),
    (
        b"{ texture { pigment { rgb 1, } } }",
        "expected CloseBrace @27",
    ),
    (b"{ texture { pigment { rgb -1 } } }", "range @22"),
    (b"{ texture { pigment { rgbf 2 } } }", "range @22"),
    (
        b"{ texture { pigment { checker rgb 1, } } }",
        "expected Parameter @37",
    ),
    (
        b"{ texture { pigment { color_map { } } } }",
        "expected MapBracket @34",
    ),
    (
        b"{ texture { pigment { color_map { [1 rgb 1][0.5 rgb 9999] } } } }",
        "range @44",
    ),
    (b"{ texture { pigment { brick_size 0 } } }", "range @33"),
    (b"{ texture { finish { phong_size 0.6 } } }", "range @32"),
    (b"{ texture { finish { roughness 0 } } }", "range @31"),
    (
        b"{ texture { finish { ambient \"a\" } } }",
        "expected Parameter @29",
    ),
    (b"{ texture { finish { ambient 1/0 } } }", "range @30"),
    (
        b"{ texture { finish { reflection { 1 ",
        "expected CloseBrace @35",
    ),
    (b"{ interior { ior 17 foo } }", "range @17"),
    (b"{ texture { pigment { scale 0 foo } } }", "Singular @28"),
    (
        b"{ texture { pigment { matrix <1,0,0, 0,1 foo } } }",
        "no foo @41",
    ),
    (
        b"{ texture { pigment { matrix <1,0,0, 0,1,0, 0,0,0, 0,0,0> } } }",
        "Singular @29",
    ),
    (
        b"{ texture { pigment { transform { 5 } } } }",
        "expected Step @34",
    ),
    (
        b"{ texture { pigment { translate 9999 } } }",
        "AnchorRange @32",
    ),
];

#[test]
fn materials_are_what_is_given(rt: HostRuntime) -> Result<(), Fail> {
    agree(&rt, rt.alloc(), &FOUND)?;
    Ok(())
}

#[test]
fn first_faults_have_their_places(rt: HostRuntime) -> Result<(), Fail> {
    agree(&rt, rt.alloc(), &FAULTS)?;
    Ok(())
}

#[test]
fn braces_have_a_limit(rt: HostRuntime) -> Result<(), Fail> {
    let alloc = rt.alloc();
    let mut text = String::from_str(alloc, "{ texture { pigment ")?;
    for _ in 0..62 {
        text.push_str("{ pigment ")?;
    }
    let deep = outcome(alloc, text.as_str().as_bytes())?;
    assert_eq!(rt; deep.as_str(), "expected OpenBrace @639");
    text.push_str("{ ")?;
    let deeper = outcome(alloc, text.as_str().as_bytes())?;
    assert_eq!(rt; deeper.as_str(), "limit 8 @640");
    Ok(())
}

// ---- looks, and textures that are made of them

fn entries_shown(alloc: Global, entries: &[Entry]) -> Result<String, AllocError> {
    let mut shown = String::new(alloc);
    for entry in entries {
        let at = entry.at.raw();
        let colour = colour_shown(alloc, &entry.colour)?;
        let colour = colour.as_str();
        let part = format!(in alloc; "[{at} {colour}]")?;
        shown.push_str(part.as_str())?;
    }
    Ok(shown)
}

fn brick_shown(
    alloc: Global,
    mortar: &Rgbft,
    brick: &Rgbft,
    sizes: (i64, i64, i64, i64),
) -> Result<String, AllocError> {
    let pair = pair_shown(alloc, "brick", &[*mortar, *brick])?;
    let pair = pair.as_str();
    let (x, y, z, width) = sizes;
    format!(in alloc; "{pair} {x}/{y}/{z} {width}")
}

fn pattern_shown(alloc: Global, pattern: &Pattern) -> Result<String, AllocError> {
    match pattern {
        Pattern::Plain(colour) => {
            let colour = colour_shown(alloc, colour)?;
            let colour = colour.as_str();
            format!(in alloc; "plain {colour}")
        }
        Pattern::Checker(pair) => pair_shown(alloc, "checker", pair),
        Pattern::Brick {
            mortar,
            brick,
            size,
            width,
        } => {
            let sizes = (size.x.raw(), size.y.raw(), size.z.raw(), width.raw());
            brick_shown(alloc, mortar, brick, sizes)
        }
        Pattern::Hexagon(three) => {
            let front = pair_shown(alloc, "hexagon", &[three[0], three[1]])?;
            let front = front.as_str();
            let third = colour_shown(alloc, &three[2])?;
            let third = third.as_str();
            format!(in alloc; "{front} {third}")
        }
        Pattern::Gradient { axis, map } => {
            let x = axis.x.raw();
            let y = axis.y.raw();
            let z = axis.z.raw();
            let map = entries_shown(alloc, map.as_slice())?;
            let map = map.as_str();
            format!(in alloc; "gradient {x}/{y}/{z} {map}")
        }
    }
}

fn texture_shown(alloc: Global, texture: &Texture, ior: i64) -> Result<String, AllocError> {
    let pattern = pattern_shown(alloc, &texture.pigment.pattern)?;
    let pattern = pattern.as_str();
    let anchor = texture.pigment.xform.anchor.x.raw();
    let stretch = texture.pigment.xform.m[0][0];
    let finish = finish_shown(alloc, &texture.finish)?;
    let finish = finish.as_str();
    format!(in alloc; "{pattern} at {anchor} by {stretch}; {finish}; {ior}")
}

/// The looks of a list of tokens, one behind the other.
fn looks(alloc: Global, tokens: &[Token], set: &Settings) -> Result<MaterialDraft, ParseFault>
    requires { AreWhole set.now }
{
    let mut looks = no_material();
    let mut at = 0;
    for _ in 0..tokens.len() {
        if at < tokens.len() {
            if let Some(part) = look_part(word_at(tokens, at)) {
                at = take_look(alloc, tokens, set, 64, part, at, &mut looks)?;
            }
        }
    }
    Ok(looks)
}

fn looks_of(alloc: Global, text: &[u8]) -> Result<MaterialDraft, ParseFault> {
    if text.len() > 20_000 {
        return Err(ParseFault::NoMemory);
    }
    let Ok(tokens) = lex(alloc, 0, text) else {
        return Err(ParseFault::NoMemory);
    };
    looks(alloc, tokens.as_slice(), &settings())
}

fn made_shown(
    alloc: Global,
    own: MaterialDraft,
    default: &TextureDraft,
) -> Result<String, AllocError> {
    let MaterialDraft { texture, interior } = own;
    let ior = ior_of(interior).raw();
    match texture.made(alloc, default) {
        Ok(texture) => texture_shown(alloc, &texture, ior),
        Err(fault) => fault_shown(alloc, &fault),
    }
}

fn made_outcome(alloc: Global, default: &[u8], own: &[u8]) -> Result<String, AllocError> {
    let default = match looks_of(alloc, default) {
        Ok(looks) => looks,
        Err(fault) => return fault_shown(alloc, &fault),
    };
    match looks_of(alloc, own) {
        Ok(looks) => made_shown(alloc, looks, &default.texture),
        Err(fault) => fault_shown(alloc, &fault),
    }
}

#[test]
fn textures_are_made_of_looks_and_a_default(rt: HostRuntime) -> Result<(), Fail> {
    for (default, own, want) in &made::MADE {
        let found = made_outcome(rt.alloc(), default, own)?;
        let own = str::from_utf8(own).unwrap_or("?");
        assert_eq!(rt; found.as_str(), *want, "in {own}");
    }
    Ok(())
}

#[test]
fn parameters_end_where_their_ranges_do(rt: HostRuntime) -> Result<(), Fail> {
    agree(&rt, rt.alloc(), &edges::EDGES)?;
    Ok(())
}
