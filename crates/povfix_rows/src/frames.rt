// Animations: each frame's file, and what is left where one of them can't be made.
use crate::rig::{asked, rendered};
use povfix::{MemTexts, run};
use shelf::{MemShelf, MemSink};
use std::alloc::Global;
use std::process::Abort;
use std::test::Fail;

/// The background's red is the clock, its green a quarter for each frame, and its blue one unit.
const TEXT: &[u8] = b"background { rgb <clock, frame_number / 4, image_width> }";

/// The files of three frames from clock 0 to 1: red of 0, 127.5 and 255, green of 63.75, 127.5 and 191.25.
const FRAMES: [(&str, &[u8]); 3] = [
    ("a1.ppm", b"P6\n1 1\n255\n\0\x40\xff"),
    ("a2.ppm", b"P6\n1 1\n255\n\x80\x80\xff"),
    ("a3.ppm", b"P6\n1 1\n255\n\xff\xbf\xff"),
];

#[test]
fn frames_have_their_clocks(rt: HostRuntime) -> Result<(), Fail> {
    let words = ["a.pov", "+W1", "+H1", "+KFF3"];
    let left = rendered(&rt, rt.alloc(), &words, &[("a.pov", TEXT)])?;
    assert_eq!(&rt; left.outcome.status, 0);
    assert_eq!(&rt; left.outcome.finished, 3);
    assert_eq!(&rt; left.told.bytes(), b"".as_slice());
    for (name, file) in FRAMES {
        assert_eq!(&rt; left.outcome.shelf.contents(name.as_bytes()), file);
    }
    Ok(())
}

/// The colour of frame 1 has green below 0.
#[test]
fn a_refused_frame_ends_the_run(rt: HostRuntime) -> Result<(), Fail> {
    let text = b"background { rgb <1, frame_number - 2, 1> }";
    let words = ["a.pov", "+W1", "+H1", "+KFF3"];
    let left = rendered(&rt, rt.alloc(), &words, &[("a.pov", text)])?;
    assert_eq!(&rt; left.outcome.status, 2);
    assert_eq!(&rt; left.outcome.finished, 0);
    assert_eq!(&rt;
        left.told.bytes(),
        b"scene fault P3 at a.pov:1\n".as_slice()
    );
    for name in ["a1.ppm", "a2.ppm", "a3.ppm"] {
        assert_eq!(&rt;
            left.outcome.shelf.contents(name.as_bytes()),
            b"".as_slice()
        );
    }
    Ok(())
}

/// Blue is one unit divided by how many frames are left: a half, a whole, and no number in the third frame.
#[test]
fn frames_before_a_refused_one_stay(rt: HostRuntime) -> Result<(), Fail> {
    let text = b"background { rgb <1, 0, 1 / (3 - frame_number)> }";
    let words = ["a.pov", "+W1", "+H1", "+KFF3", "+Oout.x"];
    let left = rendered(&rt, rt.alloc(), &words, &[("a.pov", text)])?;
    assert_eq!(&rt; left.outcome.status, 2);
    assert_eq!(&rt; left.outcome.finished, 2);
    let half: &[u8] = b"P6\n1 1\n255\n\xff\0\x80";
    let full: &[u8] = b"P6\n1 1\n255\n\xff\0\xff";
    assert_eq!(&rt; left.outcome.shelf.contents(b"out1.x"), half);
    assert_eq!(&rt; left.outcome.shelf.contents(b"out2.x"), full);
    assert_eq!(&rt; left.outcome.shelf.contents(b"out3.x"), b"".as_slice());
    Ok(())
}

/// Storage whose call of this number fails: each frame's file is held, written, cut and synced.
const SHELF_CALLS: [(u64, u8, u32); 4] = [(4, 7, 0), (5, 7, 1), (12, 7, 2), (13, 0, 3)];

#[test]
fn a_failing_storage_ends_the_run(rt: HostRuntime) -> Result<(), Fail> {
    let alloc: Global = rt.alloc();
    for (call, status, finished) in SHELF_CALLS {
        let words = asked(alloc, &["a.pov", "+W1", "+H1", "+KFF3"])?;
        let mut texts = MemTexts::new(alloc);
        texts.add(alloc, b"a.pov", TEXT)?;
        let mut shelf = MemShelf::new(alloc);
        shelf.fail_on(call);
        let mut told = MemSink::with_room(alloc, 100)?;
        let outcome = run(&rt, alloc, &words, &mut texts, shelf, &mut told);
        assert_eq!(&rt; outcome.status, status);
        assert_eq!(&rt; outcome.finished, finished);
        let line: &[u8] = if status == 0 { b"" } else { b"shelf fault\n" };
        assert_eq!(&rt; told.bytes(), line);
        if finished > 0 {
            let first: &[u8] = b"P6\n1 1\n255\n\0\x40\xff";
            assert_eq!(&rt; outcome.shelf.contents(b"a1.ppm"), first);
        }
    }
    Ok(())
}
