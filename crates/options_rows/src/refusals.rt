// Words that are refused.
use crate::shown::told;
use std::alloc::{AllocError, Global};
use std::process::Abort;
use std::test::Fail;

/// A single word, refused for its value.
const VALUES: [(&str, &str); 30] = [
    ("+W0", "range at word 1"),
    ("+W8193", "range at word 1"),
    ("+H99999999999999999999999999999999", "range at word 1"),
    ("+W", "no number at word 1"),
    ("+W1.5", "no number at word 1"),
    ("+H-1", "no number at word 1"),
    ("-W+1", "no number at word 1"),
    ("+H1x", "no number at word 1"),
    ("+WT0", "range at word 1"),
    ("+wt65", "range at word 1"),
    ("+GEN0", "range at word 1"),
    ("+GEN4097", "range at word 1"),
    ("+GEN", "no number at word 1"),
    ("+KFI0", "range at word 1"),
    ("+KFF1000000", "range at word 1"),
    ("-SF", "no number at word 1"),
    ("+EF0", "range at word 1"),
    ("+K", "no number at word 1"),
    ("+K1.", "no number at word 1"),
    ("+K--1", "no number at word 1"),
    ("+KI1e31", "no number at word 1"),
    ("+KF2147483648", "no number at word 1"),
    ("+KCLOCK", "unknown at word 1"),
    ("+A4", "range at word 1"),
    ("+A3.0001", "range at word 1"),
    ("+A-1", "no number at word 1"),
    ("+A+1", "no number at word 1"),
    ("+R0", "range at word 1"),
    ("+R10", "range at word 1"),
    ("+R", "no number at word 1"),
];

/// A single word that doesn't exist, or lacks its name.
const UNKNOWN: [(&str, &str); 30] = [
    ("+Zq", "unknown at word 1"),
    ("", "unknown at word 1"),
    ("+", "unknown at word 1"),
    ("-", "unknown at word 1"),
    ("a", "unknown at word 1"),
    ("a.POV", "unknown at word 1"),
    ("x.INI", "unknown at word 1"),
    ("x.ini]", "unknown at word 1"),
    ("x.ini[", "unknown at word 1"),
    ("x.ini[a]b", "unknown at word 1"),
    ("--help", "unknown at word 1"),
    ("+F", "unknown at word 1"),
    ("+S1", "unknown at word 1"),
    ("+GE1", "unknown at word 1"),
    ("+U", "unknown at word 1"),
    ("+FPx", "unknown at word 1"),
    ("+FP9", "unknown at word 1"),
    ("+FP160", "unknown at word 1"),
    ("+FT8", "unknown at word 1"),
    ("-FCC", "unknown at word 1"),
    ("+C1", "unknown at word 1"),
    ("-cx", "unknown at word 1"),
    ("-KC0", "unknown at word 1"),
    ("-A0.3", "unknown at word 1"),
    ("-UAx", "unknown at word 1"),
    ("-Jx", "unknown at word 1"),
    ("+I", "missing at word 1"),
    ("-o", "missing at word 1"),
    ("+L", "missing at word 1"),
    ("x.ini", "absent at word 1"),
];

/// A single word that this program leaves out.
const FOREIGN: [&str; 20] = [
    "+AM", "+AM2", "-am01", "+J", "+jx", "+Q", "+Q8", "-Q09", "+Q9x", "+SC1", "-SR", "+EC", "+erx",
    "+UA", "+UAx", "+FN", "-FN16", "+FB", "+FJ", "+fex",
];

/// Words among others, and what all words come to.
const LISTS: [(&[&str], &str); 25] = [
    (&[], "missing at word 0"),
    (&["+W1", "+H1"], "missing at word 0"),
    (&["+W8192", "+H8192"], "missing at word 0"),
    (&["+Ia.pov", "+Wx"], "no number at word 2"),
    (&["a.pov", "+W8192", "+H2049"], "range at word 0"),
    (&["a.pov", "+KFI5", "+KFF3"], "range at word 0"),
    (&["a.pov", "+KFI2"], "range at word 0"),
    (&["a.pov", "+SF2"], "range at word 0"),
    (&["a.pov", "+EF2"], "range at word 0"),
    (&["a.pov", "+KFF10", "+SF5", "+EF4"], "range at word 0"),
    (&["a.pov", "+KFI3", "+KFF5", "+SF2"], "range at word 0"),
    (&["a.pov", "+KFI3", "+KFF5", "+EF2"], "range at word 0"),
    (&["a.pov", "+KFF5", "+EF6"], "range at word 0"),
    (&["a.pov", "+KFF5", "+SF6"], "range at word 0"),
    (&["a.pov", "+KFF10001"], "range at word 0"),
    (
        &["a.pov", "+KFF20000", "+SF5", "+EF10005"],
        "range at word 0",
    ),
    (&["+W0", "+Zq"], "range at word 1"),
    (&["a.pov", "+Zq", "+W0"], "unknown at word 2"),
    (&["+W0", "+W1", "a.pov"], "range at word 1"),
    (&["a.pov", "+Wx", "+H2"], "no number at word 2"),
    (&["a.pov", "+K1", "+J"], "out of profile at word 3"),
    (&["a.pov", "z.ini"], "absent at word 2"),
    (&["a.pov", "z.ini[b]", "+W0"], "absent at word 2"),
    (&["a.pov", "+KFF5", "+KFI1", "+I"], "missing at word 4"),
    (
        &[
            "+L1", "+L2", "+L3", "+L4", "+L5", "+L6", "+L7", "+L8", "+L9", "+L10", "+L11", "+L12",
            "+L13", "+L14", "+L15", "+L16", "+L17",
        ],
        "range at word 17",
    ),
];

fn is_refused(
    rt: &impl Abort,
    alloc: Global,
    words: &[&str],
    line: &str,
) -> Result<(), AllocError> {
    let told = told(alloc, words, &[])?;
    assert_eq!(rt; told.as_str(), line);
    Ok(())
}

#[test]
fn words_are_refused_for_their_values(rt: HostRuntime) -> Result<(), Fail> {
    for (word, line) in &VALUES {
        is_refused(&rt, rt.alloc(), &[word], line)?;
    }
    Ok(())
}

#[test]
fn words_are_unknown(rt: HostRuntime) -> Result<(), Fail> {
    for (word, line) in &UNKNOWN {
        is_refused(&rt, rt.alloc(), &[word], line)?;
    }
    for word in &FOREIGN {
        is_refused(&rt, rt.alloc(), &[word], "out of profile at word 1")?;
    }
    Ok(())
}

#[test]
fn lists_of_words_are_refused(rt: HostRuntime) -> Result<(), Fail> {
    for (words, line) in &LISTS {
        is_refused(&rt, rt.alloc(), words, line)?;
    }
    Ok(())
}
