// Command words, with the picture file that they make or the refusal that they meet.
use crate::rig::{rendered, tried};
use std::alloc::{AllocError, Global};
use std::process::Abort;
use std::test::Fail;
use std::thread::Threads;

/// The texts that can be asked for. All are without items, so that each picture is black.
const TEXTS: [(&str, &[u8]); 6] = [
    (
        "good.ini",
        b"Input_File_Name=a.pov\nWidth=1\nHeight=1\n[wide]\nWidth=2\n",
    ),
    ("bad.ini", b"; one\nWidth=x\n"),
    ("a.pov", b""),
    ("b.c.pov", b""),
    ("n", b""),
    ("-x.pov", b""),
];

const PIXEL: &[u8] = b"P6\n1 1\n255\n\0\0\0";

/// Words that are accepted, the name of the picture file, and its bytes.
const ACCEPTED: [(&[&str], &str, &[u8]); 21] = [
    (
        &["+Ia.pov", "+W2", "+H1", "+FP"],
        "a.ppm",
        b"P6\n2 1\n255\n\0\0\0\0\0\0",
    ),
    (&["+Ia.pov", "+W1", "+H1"], "a.ppm", PIXEL),
    (&["-Ia.pov", "-W1", "-H1", "-FP"], "a.ppm", PIXEL),
    (&["-ia.pov", "-w1", "+h1", "+fp"], "a.ppm", PIXEL),
    (&["+H1", "+FP", "+W1", "+Ia.pov"], "a.ppm", PIXEL),
    (&["a.pov", "+W1", "+H1"], "a.ppm", PIXEL),
    (&["+W1", "+H1", "a.pov"], "a.ppm", PIXEL),
    (&["+I-x.pov", "+W1", "+H1"], "-x.ppm", PIXEL),
    (
        &["a.pov", "+W08", "+H1"],
        "a.ppm",
        b"P6\n8 1\n255\n\0\0\0\0\0\0\0\0\0\0\0\0\0\0\0\0\0\0\0\0\0\0\0\0",
    ),
    (
        &["a.pov", "+W1", "+H00000000000000000000000000000000002"],
        "a.ppm",
        b"P6\n1 2\n255\n\0\0\0\0\0\0",
    ),
    (
        &["a.pov", "+W9", "+H1", "-W2"],
        "a.ppm",
        b"P6\n2 1\n255\n\0\0\0\0\0\0",
    ),
    (
        &["a.pov", "-w2", "+H7", "+h1"],
        "a.ppm",
        b"P6\n2 1\n255\n\0\0\0\0\0\0",
    ),
    (&["+Inone.pov", "+W1", "+H1", "a.pov"], "a.ppm", PIXEL),
    (&["none.pov", "+W1", "+H1", "+Ia.pov"], "a.ppm", PIXEL),
    (&["+Ib.c.pov", "+W1", "+H1"], "b.c.ppm", PIXEL),
    (&["+In", "+W1", "+H1"], "n.ppm", PIXEL),
    (&["a.pov", "+W1", "+H1", "+Oout"], "out.ppm", PIXEL),
    (&["a.pov", "+W1", "+H1", "-oout.x"], "out.x", PIXEL),
    (&["a.pov", "+W1", "+H1", "+Oout."], "out.", PIXEL),
    (&["a.pov", "+W1", "+H1", "+O.x"], ".x", PIXEL),
    (&["+Oone", "a.pov", "+W1", "+H1", "+Otwo"], "two.ppm", PIXEL),
];

/// Words that are refused, and what the sink is told: no input, names and numbers.
const VALUES: [(&[&str], &[u8]); 26] = [
    (&[], b"option fault 3 at word 0\n"),
    (&["+W1", "+H1", "+Oout"], b"option fault 3 at word 0\n"),
    (&["+W8192", "+H8192"], b"option fault 3 at word 0\n"),
    (
        &["a.pov", "+W8192", "+H2049"],
        b"option fault 4 at word 0\n",
    ),
    (&["+I"], b"option fault 3 at word 1\n"),
    (&["a.pov", "+O"], b"option fault 3 at word 2\n"),
    (&["a.pov", "-o", "+W0"], b"option fault 3 at word 2\n"),
    (&["a.pov", "+W0"], b"option fault 4 at word 2\n"),
    (&["a.pov", "+W8193"], b"option fault 4 at word 2\n"),
    (&["a.pov", "+W10000"], b"option fault 4 at word 2\n"),
    (&["a.pov", "+W65536"], b"option fault 4 at word 2\n"),
    (&["a.pov", "+W4294967297"], b"option fault 4 at word 2\n"),
    (
        &["a.pov", "+W99999999999999999999"],
        b"option fault 4 at word 2\n",
    ),
    (&["a.pov", "+H0"], b"option fault 4 at word 2\n"),
    (&["a.pov", "+H0000"], b"option fault 4 at word 2\n"),
    (&["a.pov", "+H8193"], b"option fault 4 at word 2\n"),
    (&["a.pov", "+W"], b"option fault 2 at word 2\n"),
    (&["a.pov", "-h"], b"option fault 2 at word 2\n"),
    (&["a.pov", "+W+1"], b"option fault 2 at word 2\n"),
    (&["a.pov", "+W-1"], b"option fault 2 at word 2\n"),
    (&["a.pov", "+W1.0"], b"option fault 2 at word 2\n"),
    (&["a.pov", "+W1x"], b"option fault 2 at word 2\n"),
    (&["a.pov", "+W 1"], b"option fault 2 at word 2\n"),
    (&["a.pov", "+Hx"], b"option fault 2 at word 2\n"),
    (&["a.pov", "+H1e1"], b"option fault 2 at word 2\n"),
    (
        &["a.pov", "+W99999999999999999999x"],
        b"option fault 2 at word 2\n",
    ),
];

/// Words that are refused, and what the sink is told: other switches, other words, and the order of refusals.
const SWITCHES: [(&[&str], &[u8]); 24] = [
    (&["a.pov", "+FPx"], b"option fault 1 at word 2\n"),
    (&["a.pov", "+F"], b"option fault 1 at word 2\n"),
    (&["a.pov", "+FN"], b"option fault 7 at word 2\n"),
    (&["a.pov", "+Q5"], b"option fault 7 at word 2\n"),
    (&["a.pov", "-wt0"], b"option fault 4 at word 2\n"),
    (&["a.pov", "+"], b"option fault 1 at word 2\n"),
    (&["a.pov", ""], b"option fault 1 at word 2\n"),
    (&["a.pov", "W1"], b"option fault 1 at word 2\n"),
    (&["a.pov", "a.POV"], b"option fault 1 at word 2\n"),
    (&["/W1"], b"option fault 1 at word 1\n"),
    (&["+X", "+W0"], b"option fault 1 at word 1\n"),
    (&["+W0", "+X"], b"option fault 4 at word 1\n"),
    (
        &["a.pov", "+W1", "+Hx", "+H0", "+I"],
        b"option fault 2 at word 3\n",
    ),
    (&["a.pov", "+A4"], b"option fault 4 at word 2\n"),
    (&["a.pov", "+AM2"], b"option fault 7 at word 2\n"),
    (&["a.pov", "+R0"], b"option fault 4 at word 2\n"),
    (&["+FPx"], b"option fault 1 at word 1\n"),
    (&["a.pov", "+KFI5", "+KFF3"], b"option fault 4 at word 0\n"),
    (&["a.pov", "good.ini[b]"], b"option fault 5 at word 2\n"),
    (&["+A"], b"option fault 3 at word 0\n"),
    (&["a.pov", "none.ini"], b"option fault 5 at word 2\n"),
    (&["a.pov", "bad.ini"], b"option fault 2 at line 2\n"),
    (&["a.pov", "+KFF3", "+SF4"], b"option fault 4 at word 0\n"),
    (&["a.pov", "+GEN0"], b"option fault 4 at word 2\n"),
];

/// Words of other sorts of files, and words without effect yet.
const SORTS: [(&[&str], &str, &[u8]); 9] = [
    (
        &["a.pov", "+W1", "+H1", "+FP16"],
        "a.ppm",
        b"P6\n1 1\n65535\n\0\0\0\0\0\0",
    ),
    (&["a.pov", "+W1", "+H1", "+FP16", "+FP8"], "a.ppm", PIXEL),
    (&["a.pov", "+W2", "+H1", "+FT"], "a.tga", TARGA),
    (&["a.pov", "+FT", "+W2", "+H1", "+Ob.x"], "b.x", TARGA),
    (&["a.pov", "+W2", "+H1", "+FC"], "a.tga", PACKET),
    (
        &["a.pov", "+W1", "+H1", "+C", "+WT64", "+D", "+Q9", "-A"],
        "a.ppm",
        PIXEL,
    ),
    (&["good.ini"], "a.ppm", PIXEL),
    (
        &["good.ini[wide]", "+H1"],
        "a.ppm",
        b"P6\n2 1\n255\n\0\0\0\0\0\0",
    ),
    (&["+GEN3", "a.pov", "+W1", "+H1"], "a.ppm", PIXEL),
];

/// Two black pixels: plain ones, and one packet of them.
const TARGA: &[u8] = b"\0\0\x02\0\0\0\0\0\0\0\0\0\x02\0\x01\0\x18\x20\0\0\0\0\0\0";

const PACKET: &[u8] = b"\0\0\x0a\0\0\0\0\0\0\0\0\0\x02\0\x01\0\x18\x20\x81\0\0\0";

fn are_accepted(
    rt: &(impl Threads + Sync + Abort),
    alloc: Global,
    rows: &[(&[&str], &str, &[u8])],
) -> Result<(), AllocError> {
    for (words, name, file) in rows {
        let left = rendered(rt, alloc, words, &TEXTS)?;
        assert_eq!(rt; left.outcome.status, 0);
        assert_eq!(rt; left.outcome.finished, 1);
        assert_eq!(rt; left.told.bytes(), b"".as_slice());
        assert_eq!(rt; left.outcome.shelf.contents(name.as_bytes()), *file);
    }
    Ok(())
}

#[test]
fn accepted_words_make_the_picture_file(rt: HostRuntime) -> Result<(), Fail> {
    are_accepted(&rt, rt.alloc(), &ACCEPTED)?;
    are_accepted(&rt, rt.alloc(), &SORTS)?;
    Ok(())
}

/// The generated scene takes the place of the one that is named. The ray meets the plane in a cell of the second colour:
/// each channel is 1311 of the ambient part and 6273 of the lamp's, 7584 raw, and 30 of 255.
#[test]
fn a_generated_scene_has_a_summary(rt: HostRuntime) -> Result<(), Fail> {
    let words = ["a.pov", "+GEN1", "+W1", "+H1"];
    for _ in 0..2 {
        let left = rendered(&rt, rt.alloc(), &words, &TEXTS)?;
        assert_eq!(&rt; left.outcome.status, 0);
        assert_eq!(&rt;
            left.told.bytes(),
            b"generated 1 objects, 1x1, sum 90\n".as_slice()
        );
    }
    Ok(())
}

/// The sum is that of all frames, in two bytes a sample: 7584 raw is 7583.9 of 65535, bytes 29 and 160.
#[test]
fn a_summary_counts_all_frames(rt: HostRuntime) -> Result<(), Fail> {
    let words = ["+GEN1", "+W1", "+H1", "+FP16", "+KFF2"];
    let left = rendered(&rt, rt.alloc(), &words, &TEXTS)?;
    assert_eq!(&rt; left.outcome.finished, 2);
    assert_eq!(&rt;
        left.told.bytes(),
        b"generated 1 objects, 1x1, sum 1134\n".as_slice()
    );
    Ok(())
}

/// A sink in memory without the room for a summary takes none of it; the frame is finished then.
#[test]
fn a_summary_that_cannot_be_written_is_told(rt: HostRuntime) -> Result<(), Fail> {
    let words = ["+GEN1", "+W1", "+H1"];
    let left = tried(&rt, rt.alloc(), &words, &TEXTS, 9, None)?;
    assert_eq!(&rt; left.outcome.status, 8);
    assert_eq!(&rt; left.outcome.finished, 1);
    assert_eq!(&rt; left.told.bytes(), b"".as_slice());
    assert_eq!(&rt;
        left.outcome.shelf.contents(b"generated.ppm"),
        b"P6\n1 1\n255\n\x1e\x1e\x1e".as_slice()
    );
    Ok(())
}

fn are_refused(
    rt: &(impl Threads + Sync + Abort),
    alloc: Global,
    rows: &[(&[&str], &[u8])],
) -> Result<(), AllocError> {
    for (words, told) in rows {
        let left = rendered(rt, alloc, words, &TEXTS)?;
        assert_eq!(rt; left.told.bytes(), *told);
        assert_eq!(rt; left.outcome.status, 1);
        assert_eq!(rt; left.outcome.finished, 0);
        assert_eq!(rt; left.outcome.shelf.contents(b"a.ppm"), b"".as_slice());
    }
    Ok(())
}

#[test]
fn refused_words_are_told_with_their_place(rt: HostRuntime) -> Result<(), Fail> {
    are_refused(&rt, rt.alloc(), &VALUES)?;
    are_refused(&rt, rt.alloc(), &SWITCHES)?;
    Ok(())
}
