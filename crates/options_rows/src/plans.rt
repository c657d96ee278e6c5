// Words that make a plan.
use crate::shown::told;
use std::alloc::{AllocError, Global};
use std::process::Abort;
use std::test::Fail;

/// Names, sides and sorts of file.
const PICTURES: [(&[&str], &str); 30] = [
    (&["+Ia.pov"], "a.pov to a.ppm 320x240 P8"),
    (&["a.pov"], "a.pov to a.ppm 320x240 P8"),
    (&["-ia.pov", "-w2", "-h3"], "a.pov to a.ppm 2x3 P8"),
    (
        &["a.pov", "+W8192", "+H2048"],
        "a.pov to a.ppm 8192x2048 P8",
    ),
    (&["a.pov", "+W1", "+W2"], "a.pov to a.ppm 2x240 P8"),
    (&["+W00012", "a.pov"], "a.pov to a.ppm 12x240 P8"),
    (&["a.pov", "+FT"], "a.pov to a.tga 320x240 T8"),
    (&["a.pov", "-fc"], "a.pov to a.tga 320x240 C8"),
    (&["a.pov", "+FT", "+FP"], "a.pov to a.ppm 320x240 P8"),
    (&["a.pov", "+FP16"], "a.pov to a.ppm 320x240 P16"),
    (&["a.pov", "+FP16", "+FT"], "a.pov to a.tga 320x240 T8"),
    (
        &["a.pov", "+FP16", "+FT", "+FP"],
        "a.pov to a.ppm 320x240 P16",
    ),
    (&["a.pov", "+FP16", "+fp8"], "a.pov to a.ppm 320x240 P8"),
    (&["a.pov", "-fP16"], "a.pov to a.ppm 320x240 P16"),
    (&["a.pov", "+FC", "+FP8"], "a.pov to a.ppm 320x240 P8"),
    (&["a.pov", "+Oout"], "a.pov to out.ppm 320x240 P8"),
    (&["a.pov", "-oout", "+FC"], "a.pov to out.tga 320x240 C8"),
    (
        &["a.pov", "+Oout.x.png", "+FT"],
        "a.pov to out.x.png 320x240 T8",
    ),
    (&["a.pov", "+Od.e/out"], "a.pov to d.e/out 320x240 P8"),
    (&["a.pov", "+Oout."], "a.pov to out. 320x240 P8"),
    (&["+Id.e/f"], "d.e/f to d.ppm 320x240 P8"),
    (&["a.b.pov"], "a.b.pov to a.b.ppm 320x240 P8"),
    (&["+Ia"], "a to a.ppm 320x240 P8"),
    (&[".pov"], ".pov to .ppm 320x240 P8"),
    (&["+Ia.pov", "b.pov"], "b.pov to b.ppm 320x240 P8"),
    (
        &["+GEN3"],
        "generated.pov to generated.ppm 320x240 P8 balls 3",
    ),
    (
        &["a.pov", "+GEN3"],
        "generated.pov to generated.ppm 320x240 P8 balls 3",
    ),
    (&["+GEN3", "a.pov"], "a.pov to a.ppm 320x240 P8"),
    (
        &["-gen4096", "+Oo"],
        "generated.pov to o.ppm 320x240 P8 balls 4096",
    ),
    (&["+GEN3", "+Ia.ini"], "a.ini to a.ppm 320x240 P8"),
];

/// Frames, clocks and supersampling.
const FRAMES: [(&[&str], &str); 30] = [
    (&["a.pov", "+C"], "a.pov to a.ppm 320x240 P8 continued"),
    (&["a.pov", "+C", "-c"], "a.pov to a.ppm 320x240 P8"),
    (&["a.pov", "+WT1"], "a.pov to a.ppm 320x240 P8 workers 1"),
    (
        &["a.pov", "-wt64", "+W5"],
        "a.pov to a.ppm 5x240 P8 workers 64",
    ),
    (&["a.pov", "+Llib"], "a.pov to a.ppm 320x240 P8 in lib"),
    (
        &["a.pov", "+Llib", "-Lb c"],
        "a.pov to a.ppm 320x240 P8 in lib in b c",
    ),
    (&["a.pov", "+K1.5"], "a.pov to a.ppm 320x240 P8 clock 98304"),
    (
        &["a.pov", "+K-.25"],
        "a.pov to a.ppm 320x240 P8 clock -16384",
    ),
    (&["a.pov", "+k+2"], "a.pov to a.ppm 320x240 P8 clock 131072"),
    (
        &["a.pov", "-K1e2"],
        "a.pov to a.ppm 320x240 P8 clock 6553600",
    ),
    (
        &["a.pov", "+K0.000008"],
        "a.pov to a.ppm 320x240 P8 clock 1",
    ),
    (
        &["a.pov", "+KI2", "+KF-1"],
        "a.pov to a.ppm 320x240 P8 clocks 131072..-65536",
    ),
    (
        &["a.pov", "+KFI1", "+KFF10", "+KC"],
        "a.pov to a.ppm 320x240 P8 film 1..10 anew",
    ),
    (&["a.pov", "+KFF3"], "a.pov to a.ppm 320x240 P8 film 1..3"),
    (&["a.pov", "-kfi1"], "a.pov to a.ppm 320x240 P8 film 1..1"),
    (
        &["a.pov", "+KFF10", "+SF3", "+EF5"],
        "a.pov to a.ppm 320x240 P8 film 1..10 part 3..5",
    ),
    (
        &["a.pov", "+KFI5", "+KFF5"],
        "a.pov to a.ppm 320x240 P8 film 5..5",
    ),
    (&["a.pov", "+KC"], "a.pov to a.ppm 320x240 P8 anew"),
    (&["a.pov", "+KC", "-kc"], "a.pov to a.ppm 320x240 P8"),
    (&["a.pov", "-sf1", "-ef1"], "a.pov to a.ppm 320x240 P8"),
    (
        &["a.pov", "+KFF999999", "+SF100", "+EF10099"],
        "a.pov to a.ppm 320x240 P8 film 1..999999 part 100..10099",
    ),
    (
        &["a.pov", "+KFF10000"],
        "a.pov to a.ppm 320x240 P8 film 1..10000",
    ),
    (
        &["a.pov", "+A"],
        "a.pov to a.ppm 320x240 P8 smooth 19661 by 3",
    ),
    (
        &["a.pov", "+a0.5", "-r2"],
        "a.pov to a.ppm 320x240 P8 smooth 32768 by 2",
    ),
    (
        &["a.pov", "+A0", "+R9"],
        "a.pov to a.ppm 320x240 P8 smooth 0 by 9",
    ),
    (&["a.pov", "+A3", "-A"], "a.pov to a.ppm 320x240 P8"),
    (
        &["a.pov", "+A1", "-A", "+A"],
        "a.pov to a.ppm 320x240 P8 smooth 65536 by 3",
    ),
    (
        &["a.pov", "+A3.000001"],
        "a.pov to a.ppm 320x240 P8 smooth 196608 by 3",
    ),
    (&["a.pov", "+R2"], "a.pov to a.ppm 320x240 P8"),
    (&["a.pov", "+AM1", "-am1"], "a.pov to a.ppm 320x240 P8"),
];

/// Whole lists of words as they are given.
const RUNS: [(&[&str], &str); 7] = [
    (
        &["+Idesk.pov", "+W160", "+H120", "+WT4"],
        "desk.pov to desk.ppm 160x120 P8",
    ),
    (
        &["+Ia.pov", "+FC", "+H1", "+W129"],
        "a.pov to a.tga 129x1 C8",
    ),
    (
        &["+GEN1", "+W1", "+H1"],
        "generated.pov to generated.ppm 1x1 P8 balls 1",
    ),
    (
        &["+GEN400", "+W160", "+H120"],
        "generated.pov to generated.ppm 160x120 P8 balls 400",
    ),
    (
        &["+Ia.pov", "+W2", "+H1", "+A0.3", "+R2"],
        "a.pov to a.ppm 2x1 P8 smooth 19661 by 2",
    ),
    (
        &["+Ia.pov", "+W1", "+H1", "+A0", "+R2"],
        "a.pov to a.ppm 1x1 P8 smooth 0 by 2",
    ),
    (
        &["+Ia.pov", "+W1", "+H1", "+KFI1", "+KFF10", "+KC", "+C"],
        "a.pov to a.ppm 1x1 P8 continued film 1..10 anew",
    ),
];

/// Words without effect.
const QUIET: [&str; 14] = [
    "+D", "-D0xyz", "+p", "-Pq", "+V2", "-V", "+Q9", "-q9", "-A", "-UA", "-ua", "-J", "+dpv",
    "+DGEN0",
];

fn are_read(rt: &impl Abort, alloc: Global, rows: &[(&[&str], &str)]) -> Result<(), AllocError> {
    for (words, line) in rows {
        let told = told(alloc, words, &[])?;
        assert_eq!(rt; told.as_str(), *line);
    }
    Ok(())
}

#[test]
fn words_make_a_plan(rt: HostRuntime) -> Result<(), Fail> {
    are_read(&rt, rt.alloc(), &PICTURES)?;
    are_read(&rt, rt.alloc(), &FRAMES)?;
    are_read(&rt, rt.alloc(), &RUNS)?;
    Ok(())
}

#[test]
fn some_words_have_no_effect(rt: HostRuntime) -> Result<(), Fail> {
    for word in &QUIET {
        let told = told(rt.alloc(), &["a.pov", word], &[])?;
        assert_eq!(&rt; told.as_str(), "a.pov to a.ppm 320x240 P8");
    }
    Ok(())
}
