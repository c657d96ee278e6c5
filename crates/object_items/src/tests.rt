// Objects with what they hold, or their first fault, worked out by hand from the rules.
ghost use Rattle.scene_expr.specs.Values.{AreWhole};

use crate::{
    GivenTexture, LeafDraft, ObjectDraft, SheetPart, behind_truth, object_word, read_object,
    skipped,
};
use fix_math::Fix;
use item_blocks::{Interior, ParseFault, word_at};
use scene_expr::Settings;
use scene_lexer::{Token, lex};
use scene_model::{Op, Shape};
use std::alloc::{AllocError, Global};
use std::process::Abort;
use std::test::Fail;
use xform::Xform;

mod objects;

fn fault_shown(alloc: Global, fault: &ParseFault) -> Result<String, AllocError> {
    match fault {
        ParseFault::Expected { place, kind } => {
            let at = place.at;
            format!(in alloc; "expected {kind:?} @{at}")
        }
        ParseFault::OutOfProfile { place, word: _ } => {
            let at = place.at;
            format!(in alloc; "out of profile @{at}")
        }
        ParseFault::ValueRange { place } => {
            let at = place.at;
            format!(in alloc; "range @{at}")
        }
        ParseFault::Xform { place, fault } => {
            let at = place.at;
            format!(in alloc; "{fault:?} @{at}")
        }
        ParseFault::Limit { which, place } => {
            let at = place.at;
            format!(in alloc; "limit {which} @{at}")
        }
        ParseFault::NoMemory => String::from_str(alloc, "no memory"),
    }
}

fn settings() -> Settings
    ensures { AreWhole result }
{
    Settings {
        clock: Fix(0),
        initial_clock: Fix(0),
        final_clock: Fix(65536),
        frame_number: 1,
        initial_frame: 1,
        final_frame: 1,
        image_width: 320,
        image_height: 240,
    }
}

fn op_shown(op: Op) -> &'static str {
    match op {
        Op::Union => "union",
        Op::Merge => "merge",
        Op::Intersection => "common",
        Op::Difference => "first",
    }
}

/// A leaf by its number, a group as (op parts), and ! before an inverse one.
fn add_shape(alloc: Global, shape: &Shape, text: &mut String) -> Result<(), AllocError> {
    match shape {
        Shape::Leaf(number) => {
            let number = format!(in alloc; " {number}")?;
            text.push_str(number.as_str())?;
        }
        Shape::Group { op, parts, inverse } => {
            text.push_str(if *inverse { " !(" } else { " (" })?;
            text.push_str(op_shown(*op))?;
            for part in parts {
                add_shape(alloc, part, text)?;
            }
            text.push_str(")")?;
        }
    }
    Ok(())
}

fn add_looks(
    alloc: Global,
    texture: Option<usize>,
    interior: Option<Interior>,
    text: &mut String,
) -> Result<(), AllocError> {
    if let Some(number) = texture {
        let shown = format!(in alloc; "t{number}")?;
        text.push_str(shown.as_str())?;
    }
    if let Some(interior) = interior {
        let ior = interior.ior.raw();
        let shown = format!(in alloc; "r{ior}")?;
        text.push_str(shown.as_str())?;
    }
    Ok(())
}

/// Each leaf by its thing, with i and n where it is inverse and negated, and its looks.
fn add_leaves(alloc: Global, leaves: &[LeafDraft], text: &mut String) -> Result<(), AllocError> {
    for leaf in leaves {
        let thing = leaf.thing;
        let shown = format!(in alloc; " {thing}")?;
        text.push_str(shown.as_str())?;
        text.push_str(if leaf.inverse { "i" } else { "" })?;
        text.push_str(if leaf.negated { "n" } else { "" })?;
        add_looks(alloc, leaf.texture, leaf.interior, text)?;
    }
    Ok(())
}

fn add_sheets(alloc: Global, sheets: &[SheetPart], text: &mut String) -> Result<(), AllocError> {
    for sheet in sheets {
        let thing = sheet.thing;
        let shown = format!(in alloc; " {thing}")?;
        text.push_str(shown.as_str())?;
        add_looks(alloc, sheet.texture, sheet.interior, text)?;
    }
    Ok(())
}

/// Each thing by where its anchor stands along x.
fn add_things(alloc: Global, xforms: &[Xform], text: &mut String) -> Result<(), AllocError> {
    for xform in xforms {
        let x = xform.anchor.x.raw();
        let shown = format!(in alloc; " {x}")?;
        text.push_str(shown.as_str())?;
    }
    Ok(())
}

/// Each texture by its pigment's thing, and f where it has a finish.
fn add_textures(
    alloc: Global,
    textures: &[GivenTexture],
    text: &mut String,
) -> Result<(), AllocError> {
    for given in textures {
        text.push_str(" ")?;
        if let Some(thing) = given.thing {
            let shown = format!(in alloc; "p{thing}")?;
            text.push_str(shown.as_str())?;
        }
        text.push_str(if given.texture.finish.is_some() {
            "f"
        } else {
            ""
        })?;
    }
    Ok(())
}

fn object_shown(alloc: Global, object: &ObjectDraft) -> Result<String, AllocError> {
    let mut text = String::from_str(alloc, "")?;
    if let Some(shape) = &object.shape {
        add_shape(alloc, shape, &mut text)?;
    }
    text.push_str(";")?;
    add_leaves(alloc, object.tables.leaves(), &mut text)?;
    text.push_str(";")?;
    add_sheets(alloc, object.tables.sheets(), &mut text)?;
    text.push_str(";")?;
    add_things(alloc, object.tables.xforms(), &mut text)?;
    text.push_str(";")?;
    add_textures(alloc, object.tables.textures(), &mut text)?;
    text.push_str(if object.no_shadow {
        "; shadowless"
    } else {
        ";"
    })?;
    Ok(text)
}

/// What stands before an object, in leaves and triangles.
#[derive(Clone, Copy)]
struct Before {
    leaves: usize,
    sheets: usize,
}

fn object_outcome(alloc: Global, tokens: &[Token], before: Before) -> Result<String, AllocError> {
    let Some(word) = object_word(word_at(tokens, 0), true) else {
        return String::from_str(alloc, "no object");
    };
    let Before { leaves, sheets } = before;
    if leaves > 65_536 || sheets > 131_072 {
        return String::from_str(alloc, "too many before");
    }
    match read_object(alloc, tokens, &settings(), 64, leaves, sheets, word, 0) {
        Ok((object, next)) => {
            let mut text = object_shown(alloc, &object)?;
            text.push_str(if next == tokens.len() {
                " all"
            } else {
                " more"
            })?;
            Ok(text)
        }
        Err(fault) => fault_shown(alloc, &fault),
    }
}

fn skipped_outcome(alloc: Global, tokens: &[Token]) -> Result<String, AllocError> {
    match skipped(tokens, 64, 0) {
        Ok(next) => {
            let truth = behind_truth(tokens, next);
            format!(in alloc; "{next} {truth}")
        }
        Err(fault) => fault_shown(alloc, &fault),
    }
}

/// What is read from a text.
#[derive(Clone, Copy)]
enum Reader {
    Object(Before),
    Skipped,
}

fn outcome(alloc: Global, text: &[u8], reader: Reader) -> Result<String, AllocError> {
    if text.len() > 20_000 {
        return String::from_str(alloc, "too long for these tables");
    }
    let Ok(tokens) = lex(alloc, 0, text) else {
        return String::from_str(alloc, "no tokens");
    };
    match reader {
        Reader::Object(before) => object_outcome(alloc, tokens.as_slice(), before),
        Reader::Skipped => skipped_outcome(alloc, tokens.as_slice()),
    }
}

fn agree(
    rt: &impl Abort,
    alloc: Global,
    reader: Reader,
    cases: &[(&[u8], &str)],
) -> Result<(), AllocError> {
    for (text, want) in cases {
        let found = outcome(alloc, text, reader)?;
        let text = str::from_utf8(text).unwrap_or("?");
        assert_eq!(rt; found.as_str(), *want, "in {text}");
    }
    Ok(())
}

/// An object at the beginning of a scene.
const FIRST: Reader = Reader::Object(Before {
    leaves: 0,
    sheets: 0,
});

#[test]
fn solids_hold_what_is_said_of_them(rt: HostRuntime) -> Result<(), Fail> {
    agree(&rt, rt.alloc(), FIRST, &objects::LEAVES)?;
    Ok(())
}

#[test]
fn groups_give_what_their_parts_lack(rt: HostRuntime) -> Result<(), Fail> {
    agree(&rt, rt.alloc(), FIRST, &objects::GROUPS)?;
    Ok(())
}

#[test]
fn inversions_count_by_pairs(rt: HostRuntime) -> Result<(), Fail> {
    agree(&rt, rt.alloc(), FIRST, &objects::INVERSE)?;
    Ok(())
}

#[test]
fn triangles_stand_beside_shapes(rt: HostRuntime) -> Result<(), Fail> {
    agree(&rt, rt.alloc(), FIRST, &objects::SHEETS)?;
    Ok(())
}

#[test]
fn solids_have_their_first_fault(rt: HostRuntime) -> Result<(), Fail> {
    agree(&rt, rt.alloc(), FIRST, &objects::SPHERE_FAULTS)?;
    Ok(())
}

#[test]
fn groups_have_their_first_fault(rt: HostRuntime) -> Result<(), Fail> {
    agree(&rt, rt.alloc(), FIRST, &objects::GROUP_FAULTS)?;
    Ok(())
}

#[test]
fn triangles_have_their_first_fault(rt: HostRuntime) -> Result<(), Fail> {
    agree(&rt, rt.alloc(), FIRST, &objects::SHEET_FAULTS)?;
    Ok(())
}

static LEAVES_BEFORE: [(&[u8], &str); 4] = [
    (b"sphere { 0, 1 }", " 65535; 0;; 0;; all"),
    (b"union { sphere { 0, 1 } sphere 5 }", "limit 5 @24"),
    (
        b"union { sphere { 0, foo } sphere 5 }",
        "out of profile @20",
    ),
    (
        b"union { triangle { 0, x, y } sphere { 0, 1 } }",
        " (union 65535); 1; 0; 0 0;; all",
    ),
];

static SHEETS_BEFORE: [(&[u8], &str); 4] = [
    (b"triangle { 0, x, y }", ";; 0; 0;; all"),
    (b"mesh { triangle { 0, x, y } triangle 5 }", "limit 10 @28"),
    (
        b"union { triangle { 0, x, y } smooth_triangle 5 }",
        "limit 10 @29",
    ),
    (b"sphere { 0, 1 }", " 0; 0;; 0;; all"),
];

#[test]
fn leaves_and_triangles_have_limits(rt: HostRuntime) -> Result<(), Fail> {
    let alloc = rt.alloc();
    let leaves = Reader::Object(Before {
        leaves: 65_535,
        sheets: 0,
    });
    agree(&rt, alloc, leaves, &LEAVES_BEFORE)?;
    let sheets = Reader::Object(Before {
        leaves: 0,
        sheets: 131_071,
    });
    agree(&rt, alloc, sheets, &SHEETS_BEFORE)?;
    Ok(())
}

static SKIPPED: [(&[u8], &str); 6] = [
    (b"{ }", "2 2"),
    (b"{ { 5 sphere { } } ] } yes no", "9 10"),
    (b"{ } noo", "2 2"),
    (b"{ { }", "expected CloseBrace @5"),
    (b"box", "out of profile @0"),
    (b"}", "expected OpenBrace @0"),
];

#[test]
fn braces_are_passed_over(rt: HostRuntime) -> Result<(), Fail> {
    agree(&rt, rt.alloc(), Reader::Skipped, &SKIPPED)?;
    Ok(())
}

#[test]
fn braces_have_a_limit(rt: HostRuntime) -> Result<(), Fail> {
    let alloc = rt.alloc();
    let mut text = String::from_str(alloc, "")?;
    for _ in 0..64 {
        text.push_str("{ ")?;
    }
    let deep = outcome(alloc, text.as_str().as_bytes(), Reader::Skipped)?;
    assert_eq!(rt; deep.as_str(), "expected CloseBrace @127");
    text.push_str("{ ")?;
    let deeper = outcome(alloc, text.as_str().as_bytes(), Reader::Skipped)?;
    assert_eq!(rt; deeper.as_str(), "limit 8 @128");
    Ok(())
}

#[test]
fn groups_have_a_limit(rt: HostRuntime) -> Result<(), Fail> {
    let alloc = rt.alloc();
    let mut text = String::from_str(alloc, "")?;
    for _ in 0..63 {
        text.push_str("merge { ")?;
    }
    let mut deeper = String::from_str(alloc, text.as_str())?;
    text.push_str("sphere { 5 5 }")?;
    let deep = outcome(alloc, text.as_str().as_bytes(), FIRST)?;
    assert_eq!(rt; deep.as_str(), "expected CloseBrace @518");
    deeper.push_str("object { sphere { 0, 1 } }")?;
    let outside = outcome(alloc, deeper.as_str().as_bytes(), FIRST)?;
    assert_eq!(rt; outside.as_str(), "limit 8 @520");
    Ok(())
}
