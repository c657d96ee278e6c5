// The frames of a plan: names, clocks, keys; and the generated scene.
ghost use Rattle.std.specs.Prelude.{◌≤◌, length, IfOk, IfSome};
ghost use Rattle.options.specs.Plans.{IsPlan};
ghost use Rattle.options.specs.Keys.{AreKept};

use crate::shown::{asked, held};
use directive_machine::{Flat, Source};
use fix_math::Str;
use options::{Plan, file_name, generated, key, read, settings};
use std::alloc::{AllocError, Global};
use std::process::Abort;
use std::test::Fail;

/// Words, a frame, the name of its picture, and its raw clock.
const FRAMES: [(&[&str], u32, &str, i64); 30] = [
    (&["a.pov"], 1, "a.ppm", 0),
    (&["a.pov", "+K1.5", "+KF7"], 1, "a.ppm", 98304),
    (&["a.pov", "+KFI1", "+KFF10", "+KC"], 1, "a01.ppm", 0),
    (&["a.pov", "+KFI1", "+KFF10", "+KC"], 7, "a07.ppm", 39322),
    (&["a.pov", "+KFI1", "+KFF10", "+KC"], 10, "a10.ppm", 58982),
    (&["a.pov", "+KFF10"], 4, "a04.ppm", 21845),
    (&["a.pov", "+KFF10"], 6, "a06.ppm", 36409),
    (&["a.pov", "+KFF10"], 10, "a10.ppm", 65536),
    (&["a.pov", "+KFF10", "+K5"], 1, "a01.ppm", 0),
    (&["a.pov", "+KFI1", "+KI3"], 1, "a1.ppm", 196608),
    (&["a.pov", "+KFI1", "+KI3", "+KC"], 1, "a1.ppm", 196608),
    (&["a.pov", "+KFI7", "+KFF7", "+KF2"], 7, "a7.ppm", 0),
    (&["a.pov", "+KI1", "+KF-1", "+KFF3"], 2, "a2.ppm", 0),
    (&["a.pov", "+KI1", "+KF-1", "+KFF3"], 3, "a3.ppm", -65536),
    (&["a.pov", "+KF0.00003", "+KFF5"], 2, "a2.ppm", 1),
    (&["a.pov", "+KF0.00003", "+KFF5"], 4, "a4.ppm", 2),
    (&["a.pov", "+KF-0.00003", "+KFF5"], 2, "a2.ppm", 0),
    (&["a.pov", "+KF-0.00003", "+KFF5"], 4, "a4.ppm", -1),
    (
        &[
            "a.pov",
            "+KF2147483647",
            "+KI-2147483647",
            "+KFF999999",
            "+SF999999",
        ],
        999_999,
        "a999999.ppm",
        140_737_488_289_792,
    ),
    (&["a.pov", "+KFF100"], 7, "a007.ppm", 3972),
    (&["a.pov", "+KFF100", "+SF99"], 100, "a100.ppm", 65536),
    (&["a.pov", "+KFF100", "+EF9"], 9, "a009.ppm", 5296),
    (&["a.pov", "+KFI99", "+KFF100"], 99, "a099.ppm", 0),
    (&["a.pov", "+KFF9", "+FT"], 3, "a3.tga", 16384),
    (&["a.pov", "+KFF9", "+Oo.x.y"], 9, "o.x9.y", 65536),
    (&["a.pov", "+KFF10", "+Oo"], 1, "o01.ppm", 0),
    (&["a.pov", "+KFF10", "+Oo."], 1, "o01.", 0),
    (&["a.pov", "+KFF2", "+Od.e/f"], 2, "d2.e/f", 65536),
    (&["+GEN2", "+KFF2"], 2, "generated2.ppm", 65536),
    (&["+GEN2"], 1, "generated.ppm", 0),
];

/// The plan of words that are accepted.
fn planned(rt: &impl Abort, alloc: Global, words: &[&str]) -> Result<Option<Plan>, AllocError>
    ensures { IfOk result (λ plan. IfSome plan IsPlan) }
{
    let words = asked(alloc, words)?;
    let mut texts = held(alloc, &[])?;
    let plan = read(alloc, &words, &mut texts).ok();
    assert!(rt; plan.is_some());
    Ok(plan)
}

#[test]
fn frames_have_names_and_clocks(rt: HostRuntime) -> Result<(), Fail> {
    for (words, frame, name, clock) in &FRAMES {
        let Some(plan) = planned(&rt, rt.alloc(), words)? else {
            return Ok(());
        };
        assert!(&rt; plan.from <= *frame && *frame <= plan.to);
        if plan.from <= *frame && *frame <= plan.to {
            let told = file_name(rt.alloc(), &plan, *frame)?;
            assert_eq!(&rt; told.bytes(), name.as_bytes());
            assert_eq!(&rt; settings(&plan, *frame).clock.raw(), *clock);
        }
    }
    Ok(())
}

/// What an expansion hands out that read one text.
fn scene(alloc: Global, name: &[u8], text: &[u8]) -> Result<Flat, AllocError>
    requires name { length name.now ≤ 100 }
    requires text { length text.now ≤ 1000 }
    ensures { IfOk result (λ flat. AreKept flat.files.items) }
{
    let name = Str::new(name.to_vec(alloc)?);
    let text = Str::new(text.to_vec(alloc)?);
    let mut files = Vec::new(alloc);
    files.push(Source { name, text })?;
    let tokens = Vec::new(alloc);
    Ok(Flat { tokens, files })
}

/// Words, and the key of frame 1 over the text `background { color rgb <1,0.5,0> }` named `a.pov`.
const KEYS: [(&[&str], &[u8]); 3] = [
    (
        &["+Ia.pov", "+W1", "+H1"],
        b"POVFIX02\x01\0\0\0\x01\0\0\0\0\0\0\0\0\0\0\0\0\0\0\0\0\0\0\0\0\0\x01\0\0\0\0\0\x01\0\0\0\x01\0\0\0\x01\0\0\0\x01\0\0\0\x05\0\0\0a.pov\x22\0\0\0background { color rgb <1,0.5,0> }",
    ),
    (
        &["+Ia.pov", "+W258", "+H3", "+K-1", "+FT", "+WT9", "+Ox"],
        b"POVFIX02\x02\x01\0\0\x03\0\0\0\0\0\xff\xff\xff\xff\xff\xff\0\0\0\0\0\0\0\0\0\0\x01\0\0\0\0\0\x01\0\0\0\x01\0\0\0\x01\0\0\0\x01\0\0\0\x05\0\0\0a.pov\x22\0\0\0background { color rgb <1,0.5,0> }",
    ),
    (
        &["+Ia.pov", "+W1", "+H1", "+KFF3", "+KI2", "+A0.5", "+R4"],
        b"POVFIX02\x01\0\0\0\x01\0\0\0\0\0\x02\0\0\0\0\0\0\0\x02\0\0\0\0\0\0\0\x01\0\0\0\0\0\x01\0\0\0\x01\0\0\0\x03\0\0\0\x01\0\0\0\x05\0\0\0a.pov\x22\0\0\0background { color rgb <1,0.5,0> }AA\0\x80\0\0\0\0\0\0\x04\0\0\0",
    ),
];

#[test]
fn keys_hold_what_a_picture_depends_on(rt: HostRuntime) -> Result<(), Fail> {
    let flat = scene(rt.alloc(), b"a.pov", b"background { color rgb <1,0.5,0> }")?;
    for (words, bytes) in &KEYS {
        let Some(plan) = planned(&rt, rt.alloc(), words)? else {
            return Ok(());
        };
        if plan.from <= 1 && 1 <= plan.to {
            let told = key(rt.alloc(), &plan, &flat, 1)?;
            assert_eq!(&rt; told.as_slice(), *bytes);
        }
    }
    Ok(())
}

const ONE_BALL: &[u8] = b"global_settings { assumed_gamma 1 }
background { rgb <0.2,0.3,0.5> }
camera { location <0,6,-14> look_at <0,0,0> }
light_source { <10,20,-10>, rgb 1 }
plane { y, -1 pigment { checker rgb 1, rgb 0.2 } }
sphere { <-16,0,0>, 0.4 pigment { rgb <0,0,1> } finish { reflection 0.2 } }
";

#[test]
fn a_generated_scene_is_written_byte_for_byte(rt: HostRuntime) -> Result<(), Fail> {
    let one = generated(rt.alloc(), 1)?;
    assert_eq!(&rt; one.as_slice(), ONE_BALL);
    let many = generated(rt.alloc(), 100)?;
    let last = b"sphere { <-13,0,3>, 0.4 pigment { rgb <1,1,1> } finish { reflection 0.2 } }\n";
    assert!(&rt; many.as_slice().ends_with(last));
    assert_eq!(&rt; generated(rt.alloc(), 0)?.len(), 202);
    Ok(())
}
