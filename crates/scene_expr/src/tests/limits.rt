// Depths, long rows and long texts.
use super::outcome;
use crate::Level;
use std::alloc::{AllocError, Global};
use std::process::Abort;

/// A text that is built: a beginning, a part so many times, a middle, and an end as many times.
fn built(
    alloc: Global,
    beginning: &[u8],
    part: &[u8],
    count: usize,
    middle: &[u8],
    end: &[u8],
) -> Result<Vec<u8>, AllocError> {
    let mut text = Vec::new(alloc);
    text.extend_from_slice(beginning)?;
    for _ in 0..count {
        text.extend_from_slice(part)?;
    }
    text.extend_from_slice(middle)?;
    for _ in 0..count {
        text.extend_from_slice(end)?;
    }
    Ok(text)
}

/// Each text that is built of a part, its number, a middle and an end has the outcome beside it.
fn built_agree(
    rt: &impl Abort,
    alloc: Global,
    cases: &[(&[u8], usize, &[u8], &[u8], &str)],
) -> Result<(), AllocError> {
    for (part, count, middle, end, want) in cases {
        let text = built(alloc, b"", part, *count, middle, end)?;
        let found = outcome(alloc, text.as_slice(), 0, Level::Choice)?;
        assert_eq!(rt; found.as_str(), *want);
    }
    Ok(())
}

/// The greatest depth is 128; the token that would open the next is at fault.
fn depths(rt: &impl Abort, alloc: Global) -> Result<(), AllocError> {
    built_agree(
        rt,
        alloc,
        &[
            (b"(", 128, b"1", b")", "65536 ->257"),
            (b"(", 129, b"1", b")", "Range in 7@128:1"),
            (b"(", 129, b"", b"", "Range in 7@128:1"),
            (b"(", 128, b"1", b"", "Expected in 7@129:1"),
            (b"(", 128, b"Foo", b")", "UnknownName in 7@128:1"),
            (b"(", 128, b"x.x", b")", "65536 ->259"),
            (b"-", 128, b"1", b"", "65536 ->129"),
            (b"-", 129, b"1", b"", "Range in 7@128:1"),
            (b"-(", 64, b"1", b")", "65536 ->193"),
            (b"-(", 65, b"1", b")", "Range in 7@128:1"),
            (b"!", 127, b"0", b"", "65536 ->128"),
            (b"abs(", 128, b"2", b")", "131072 ->385"),
            (b"abs(", 129, b"2", b")", "Range in 7@512:1"),
            (b"abs(", 127, b"-2", b")", "131072 ->383"),
            (b"abs(", 128, b"-2", b")", "Range in 7@512:1"),
            (b"(", 128, b"abs 1", b")", "Range in 7@128:1"),
            (b"(", 128, b"<1,2,3>", b")", "Range in 7@128:1"),
            (b"(", 127, b"<1,2,3>.x", b")", "65536 ->263"),
            (b"(", 128, b"red 1", b")", "Range in 7@128:1"),
            (
                b"(",
                127,
                b"red 1 green 2 blue 3",
                b")",
                "rgbft 65536, 131072, 196608, 0, 0 ->260",
            ),
            (b"color ", 128, b"x", b"", "rgbft 65536, 0, 0, 0, 0 ->129"),
            (b"color ", 129, b"x", b"", "Range in 7@768:1"),
            (b"rgb ", 129, b"1", b"", "Range in 7@512:1"),
        ],
    )
}

/// A choice is a depth for its second and third parts.
fn depths_of_choices(rt: &impl Abort, alloc: Global) -> Result<(), AllocError> {
    built_agree(
        rt,
        alloc,
        &[
            (b"(", 128, b"1 ? 2 : 3", b")", "Range in 7@130:1"),
            (b"(", 127, b"0 ? 2 : 3", b")", "196608 ->259"),
            (b"(", 127, b"(1) ? 2 : 3", b")", "131072 ->261"),
            (b"(", 127, b"1 ? (2) : 3", b")", "Range in 7@131:1"),
            (b"(", 127, b"1 ? 2 : (3)", b")", "Range in 7@135:1"),
            (b"1 ? ", 128, b"2", b" : 3", "131072 ->513"),
            (b"1 ? ", 129, b"2", b" : 3", "Range in 7@514:1"),
            (b"0 ? 1 : ", 128, b"5", b"", "327680 ->513"),
            (b"0 ? 1 : ", 129, b"5", b"", "Range in 7@1026:1"),
        ],
    )
}

/// A thousand parts and more in a row take no depth.
fn long_rows(rt: &impl Abort, alloc: Global) -> Result<(), AllocError> {
    built_agree(
        rt,
        alloc,
        &[
            (b"1+", 1999, b"1", b"", "131072000 ->3999"),
            (b"1-", 1999, b"1", b"", "-130940928 ->3999"),
            (b"1*", 1999, b"1", b"", "65536 ->3999"),
            (b"x+", 1999, b"x", b"", "<131072000, 0, 0> ->3999"),
            (b"1=1&", 1999, b"1=1", b"", "65536 ->7999"),
            (b"0|", 1999, b"2", b"", "65536 ->3999"),
            (b"-1+", 1999, b"1/0", b"", "ZeroDivisor in 7@5998:1"),
            (
                b"red 1 ",
                1000,
                b"red 2",
                b"",
                "rgbft 131072, 0, 0, 0, 0 ->2002",
            ),
            (b"(1)+", 1999, b"(1)", b"", "131072000 ->7999"),
        ],
    )
}

/// Texts of so many bytes `a` between a beginning and an end.
fn long_agree(
    rt: &impl Abort,
    alloc: Global,
    cases: &[(&[u8], usize, &[u8], &str)],
) -> Result<(), AllocError> {
    for (beginning, count, end, want) in cases {
        let text = built(alloc, beginning, b"a", *count, end, b"")?;
        let found = outcome(alloc, text.as_slice(), 0, Level::Choice)?;
        assert_eq!(rt; found.as_str(), *want);
    }
    Ok(())
}

/// A text has at most 65,536 bytes, a written one and one that a call makes.
fn long_texts(rt: &impl Abort, alloc: Global) -> Result<(), AllocError> {
    long_agree(
        rt,
        alloc,
        &[
            (b"\"", 65536, b"\"", "65536 bytes ->1"),
            (b"\"", 65537, b"\"", "Range in 7@0:1"),
            (b"1 + \"", 65537, b"\" + Foo", "Range in 7@4:1"),
            (b"\"", 65536, b"\" + 1", "Kind in 7@65539:1"),
            (b"\"", 65537, b"\" + 1", "Range in 7@0:1"),
            (b"strlen(\"", 65536, b"\")", "4294967296 ->4"),
            (b"strlen(\"", 65537, b"\"", "Range in 7@7:1"),
            (b"concat(\"b\",\"", 65535, b"\")", "65536 bytes ->6"),
            (b"concat(\"b\",\"", 65536, b"\")", "Range in 7@0:1"),
            (b"concat(1,\"", 65536, b"\",\"b\")", "Kind in 7@0:1"),
            (b"concat(\"b\",\"", 65536, b"\",1)", "Kind in 7@0:1"),
            (b"concat(\"b\",\"", 65536, b"\"", "Expected in 7@65549:1"),
        ],
    )
}

pub fn all(rt: &impl Abort, alloc: Global) -> Result<(), AllocError> {
    depths(rt, alloc)?;
    depths_of_choices(rt, alloc)?;
    long_rows(rt, alloc)?;
    long_texts(rt, alloc)?;
    Ok(())
}
