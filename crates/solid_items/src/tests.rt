// Solids and triangles with what they come to, or their first fault, worked out by hand from the rules.
ghost use Rattle.scene_model.specs.Amounts.{IsIor};
ghost use Rattle.std.specs.Prelude.{◌≤◌, length};
ghost use Rattle.scene_expr.specs.Values.{AreWhole};
ghost use Rattle.xform.specs.Transforms.{IsPlaced};
ghost use Rattle.solid_items.specs.Solids.{IsSound};

use crate::{LeafRole, Misplaced, SheetDraft, SolidDraft, leaf_place, sheet, sheet_place, solid};
use fix_math::{Fix, V3};
use item_blocks::{ParseFault, Word, word_at};
use scene_expr::Settings;
use scene_lexer::{Token, lex};
use scene_model::Primitive;
use std::alloc::{AllocError, Global};
use std::process::Abort;
use std::test::Fail;
use xform::{Step, Xform, start, then};

fn vector_shown(alloc: Global, v: &V3) -> Result<String, AllocError> {
    let x = v.x.raw();
    let y = v.y.raw();
    let z = v.z.raw();
    format!(in alloc; "{x}/{y}/{z}")
}

fn prim_shown(alloc: Global, prim: &Primitive) -> Result<String, AllocError> {
    match prim {
        Primitive::Sphere { r } => {
            let r = r.raw();
            format!(in alloc; "sphere {r}")
        }
        Primitive::Box { size } => {
            let size = vector_shown(alloc, size)?;
            let size = size.as_str();
            format!(in alloc; "box {size}")
        }
        Primitive::Plane { normal, d } => {
            let normal = vector_shown(alloc, normal)?;
            let normal = normal.as_str();
            let d = d.raw();
            format!(in alloc; "plane {normal} {d}")
        }
        Primitive::Cylinder { r, h, uncapped } => {
            let r = r.raw();
            let h = h.raw();
            format!(in alloc; "cylinder {r} {h} {uncapped}")
        }
        Primitive::Cone {
            ra,
            rb,
            h,
            axis,
            uncapped,
        } => {
            let ra = ra.raw();
            let rb = rb.raw();
            let h = h.raw();
            let axis = vector_shown(alloc, axis)?;
            let axis = axis.as_str();
            format!(in alloc; "cone {ra} {rb} {h} {axis} {uncapped}")
        }
        Primitive::Quadric { c } => {
            let first = c[0].raw();
            let fourth = c[3].raw();
            let seventh = c[6].raw();
            let last = c[9].raw();
            format!(in alloc; "quadric {first} {fourth} {seventh} {last}")
        }
    }
}

fn role() -> LeafRole
    ensures { IsIor result.ior }
{
    LeafRole {
        inverse: false,
        negated: true,
        object: 3,
        texture: 2,
        ior: Fix(65536),
    }
}

/// A solid, and where its middle stands once it is moved.
fn solid_shown(
    alloc: Global,
    draft: &SolidDraft,
    x: &Xform,
    next: usize,
) -> Result<String, AllocError>
    requires sound { IsSound draft.now }
    requires placed { IsPlaced x.now }
{
    let prim = prim_shown(alloc, &draft.prim)?;
    let prim = prim.as_str();
    match leaf_place(draft, x, &role()) {
        Ok(leaf) => {
            let anchor = vector_shown(alloc, &leaf.spot.anchor)?;
            let anchor = anchor.as_str();
            let e = leaf.spot.e;
            let third = leaf.spot.n[2][2];
            format!(in alloc; "{prim} at {anchor} e {e} n {third} next {next}")
        }
        Err(fault) => misplaced_shown(alloc, fault),
    }
}

fn misplaced_shown(alloc: Global, fault: Misplaced) -> Result<String, AllocError> {
    match fault {
        Misplaced::Outside(at) => format!(in alloc; "outside @{at}"),
        Misplaced::NoNormal(at) => format!(in alloc; "no normal @{at}"),
    }
}

fn fault_shown(alloc: Global, fault: &ParseFault) -> Result<String, AllocError> {
    match fault {
        ParseFault::Expected { place, kind } => {
            let at = place.at;
            format!(in alloc; "expected {kind:?} @{at}")
        }
        ParseFault::OutOfProfile { place, word: _ } => {
            let at = place.at;
            format!(in alloc; "out of profile @{at}")
        }
        ParseFault::ValueRange { place } => {
            let at = place.at;
            format!(in alloc; "range @{at}")
        }
        ParseFault::Xform { place, fault } => {
            let at = place.at;
            format!(in alloc; "{fault:?} @{at}")
        }
        ParseFault::Limit { which, place } => {
            let at = place.at;
            format!(in alloc; "limit {which} @{at}")
        }
        ParseFault::NoMemory => String::from_str(alloc, "no memory"),
    }
}

fn sheet_shown(
    alloc: Global,
    draft: &SheetDraft,
    x: &Xform,
    next: usize,
) -> Result<String, AllocError>
    requires { IsPlaced x.now }
{
    match sheet_place(draft, x, 4, Fix(65536), true) {
        Ok(sheet) => {
            let a = vector_shown(alloc, &sheet.a)?;
            let a = a.as_str();
            let c = vector_shown(alloc, &sheet.c)?;
            let c = c.as_str();
            let nb = vector_shown(alloc, &sheet.nb)?;
            let nb = nb.as_str();
            format!(in alloc; "triangle {a} {c} normal {nb} next {next}")
        }
        Err(fault) => misplaced_shown(alloc, fault),
    }
}

fn settings() -> Settings
    ensures { AreWhole result }
{
    Settings {
        clock: Fix(0),
        initial_clock: Fix(0),
        final_clock: Fix(65536),
        frame_number: 1,
        initial_frame: 1,
        final_frame: 1,
        image_width: 320,
        image_height: 240,
    }
}

fn triangle_outcome(
    alloc: Global,
    tokens: &[Token],
    smooth: bool,
    x: &Xform,
) -> Result<String, AllocError>
    requires some { 1 ≤ length tokens.now }
    requires placed { IsPlaced x.now }
{
    match sheet(alloc, tokens, &settings(), smooth, 1) {
        Ok((draft, next)) => sheet_shown(alloc, &draft, x, next),
        Err(fault) => fault_shown(alloc, &fault),
    }
}

/// What comes of a text that is an item's word and its parameters.
fn outcome(alloc: Global, text: &[u8], x: &Xform) -> Result<String, AllocError>
    requires { IsPlaced x.now }
{
    if text.len() > 20_000 {
        return String::from_str(alloc, "too long for these tables");
    }
    let Ok(tokens) = lex(alloc, 0, text) else {
        return String::from_str(alloc, "no tokens");
    };
    if tokens.len() == 0 {
        return String::from_str(alloc, "nothing");
    }
    match word_at(tokens.as_slice(), 0) {
        Some(Word::Solid(word)) => match solid(alloc, tokens.as_slice(), &settings(), word, 1) {
            Ok((draft, next)) => solid_shown(alloc, &draft, x, next),
            Err(fault) => fault_shown(alloc, &fault),
        },
        Some(Word::Triangle) => triangle_outcome(alloc, tokens.as_slice(), false, x),
        Some(Word::SmoothTriangle) => triangle_outcome(alloc, tokens.as_slice(), true, x),
        _ => String::from_str(alloc, "no item"),
    }
}

fn agree(
    rt: &impl Abort,
    alloc: Global,
    x: &Xform,
    cases: &[(&[u8], &str)],
) -> Result<(), AllocError>
    requires { IsPlaced x.now }
{
    for (text, want) in cases {
        let found = outcome(alloc, text, x)?;
        let text = str::from_utf8(text).unwrap_or("?");
        assert_eq!(rt; found.as_str(), *want, "in {text}");
    }
    Ok(())
}

static FOUND: [(&[u8], &str); 15] = [
    (
        b"sphere <0,0,4>, 1",
        "sphere 65536 at 0/0/262144 e 28 n 268435456 next 10",
    ),
    (
        b"sphere 1 0",
        "sphere 0 at 65536/65536/65536 e 32 n 4294967296 next 3",
    ),
    (
        b"sphere 4096, 4096",
        "sphere 268435456 at 268435456/268435456/268435456 e 16 n 65536 next 4",
    ),
    (
        b"box <1,-1,3>, <3,1,-5>",
        "box 131072/131072/524288 at 65536/-65536/-327680 e 25 n 33554432 next 18",
    ),
    (
        b"box 1 1",
        "box 0/0/0 at 65536/65536/65536 e 32 n 4294967296 next 3",
    ),
    (
        b"plane y, -1 pigment",
        "plane 0/65536/0 -65536 at 0/0/0 e 28 n 268435456 next 5",
    ),
    (
        b"plane <3,4,0> 4096",
        "plane 39322/52429/0 268435456 at 0/0/0 e 16 n 65536 next 9",
    ),
    (
        b"cylinder 0, <3,4,0>, 2 open",
        "cylinder 131072 327680 true at 0/0/0 e 26 n 0 next 13",
    ),
    (
        b"cylinder <0,0,1> <0,0,2> 0",
        "cylinder 0 65536 false at 0/0/65536 e 28 n 268435456 next 16",
    ),
    (
        b"cylinder -4096, 4096, 1",
        "cylinder 65536 929887696 false at -268435456/-268435456/-268435456 e 15 n 18919 next 7",
    ),
    (
        b"cone 0, 1, <0,0,-2>, 0 open open",
        "cone 65536 0 131072 0/0/-65536 true at 0/0/0 e 27 n -134217728 next 16",
    ),
    (
        b"cone z 0 0 1",
        "cone 0 65536 65536 0/0/-65536 false at 0/0/65536 e 28 n -268435456 next 5",
    ),
    (
        b"quadric <1,2,3>, 4, <5,6,7>, -8",
        "quadric 65536 262144 327680 -524288 at 0/0/0 e 32 n 4294967296 next 21",
    ),
    (
        b"triangle <-1,-1,4>, <1,-1,4>, <0,1,4> texture",
        "triangle -65536/-65536/262144 0/65536/262144 normal 0/0/0 next 27",
    ),
    (
        b"smooth_triangle 0 x, y, <3,4,0> z, -z",
        "triangle 0/0/0 0/0/65536 normal 39322/52429/0 next 17",
    ),
];

static FAULTS: [(&[u8], &str); 24] = [
    (b"sphere <0,0,4>", "expected Parameter @14"),
    (b"sphere 0 foo", "out of profile @9"),
    (b"sphere 4096.00002, 1", "range @7"),
    (b"sphere <0,0,-4096.00002>, -1", "range @7"),
    (b"sphere 0, -1/65536", "range @10"),
    (b"sphere 0, 4096.00002", "range @10"),
    (b"sphere 0, x", "expected Parameter @10"),
    (b"sphere \"a\", 1", "expected Parameter @7"),
    (b"sphere 0,, 1", "expected Parameter @9"),
    (b"sphere 1/0, -1", "range @8"),
    (b"box 0", "expected Parameter @5"),
    (b"box 0, 5000", "range @7"),
    (b"plane 0, 5000", "range @6"),
    (b"plane <0,0,5000>, 0", "range @6"),
    (b"plane y, 4096.00002", "range @9"),
    (b"cylinder 1, 1, -1", "range @12"),
    (b"cylinder 0, 5000, 1", "range @12"),
    (b"cylinder 0, x, -1 open", "range @15"),
    (b"cone 0, -1, 0, 1", "range @8"),
    (b"cone 0, 1, 0, 5000", "range @11"),
    (b"quadric 0, 0, 5000, 5000", "range @14"),
    (b"quadric 0, 0, 0, -4096.00002", "range @17"),
    (b"triangle 0, x, 5000", "range @15"),
    (b"smooth_triangle 0, 0, 5000", "range @19"),
];

static MOVED: [(&[u8], &str); 5] = [
    (
        b"sphere <0,0,4>, 1",
        "sphere 65536 at 134217728/0/524288 e 28 n 134217728 next 10",
    ),
    (
        b"sphere <1024,0,0>, 1",
        "sphere 65536 at 268435456/0/0 e 28 n 134217728 next 10",
    ),
    (b"sphere <1024.00002,0,0>, 1", "outside @1"),
    (b"triangle 0, <1024,0,0>, <2000,9,0>", "outside @11"),
    (
        b"smooth_triangle 0 <0,0,0.00002> <1025,0,0> x 0 x",
        "outside @9",
    ),
];

#[test]
fn solids_are_as_their_parameters_say(rt: HostRuntime) -> Result<(), Fail> {
    agree(&rt, rt.alloc(), &start(), &FOUND)?;
    Ok(())
}

#[test]
fn first_faults_have_their_places(rt: HostRuntime) -> Result<(), Fail> {
    agree(&rt, rt.alloc(), &start(), &FAULTS)?;
    Ok(())
}

#[test]
fn solids_are_moved_into_the_world(rt: HostRuntime) -> Result<(), Fail> {
    let twice = Step::Scale(V3 {
        x: Fix(131072),
        y: Fix(131072),
        z: Fix(131072),
    });
    let away = Step::Translate(V3 {
        x: Fix(134217728),
        y: Fix(0),
        z: Fix(0),
    });
    if let Ok(scaled) = then(&start(), &twice) {
        if let Ok(moved) = then(&scaled, &away) {
            agree(&rt, rt.alloc(), &moved, &MOVED)?;
        }
    }
    Ok(())
}
