//! State files as they are found, and what is judged of each.

use crate::pens::{Answer, judge, make_one};
use state_file::Geometry;
use std::alloc::{AllocError, Global};
use std::test::Fail;

/// One pixel of 8 bits a sample.
const ONE: Geometry = Geometry {
    width: 1,
    height: 1,
    bits: 8,
};

/// One pixel of 16 bits a sample.
const WIDE: Geometry = Geometry {
    width: 1,
    height: 1,
    bits: 16,
};

/// The key of the picture of one pixel of a text: sides, clocks, frames, and the text with its name.
const KEY: &[u8] =
    b"POVFIX02\x01\0\0\0\x01\0\0\0\0\0\0\0\0\0\0\0\0\0\0\0\0\0\0\0\0\0\x01\0\0\0\0\0\x01\0\0\0\x01\0\0\0\x01\0\0\0\x01\0\0\0\x05\0\0\0a.pov\x22\0\0\0background { color rgb <1,0.5,0> }";

/// The same at the clock 1.
const LATER_KEY: &[u8] =
    b"POVFIX02\x01\0\0\0\x01\0\0\0\0\0\x01\0\0\0\0\0\0\0\0\0\0\0\0\0\0\0\x01\0\0\0\0\0\x01\0\0\0\x01\0\0\0\x01\0\0\0\x01\0\0\0\x05\0\0\0a.pov\x22\0\0\0background { color rgb <1,0.5,0> }";

/// The same of another text.
const OTHER_KEY: &[u8] =
    b"POVFIX02\x01\0\0\0\x01\0\0\0\0\0\0\0\0\0\0\0\0\0\0\0\0\0\0\0\0\0\x01\0\0\0\0\0\x01\0\0\0\x01\0\0\0\x01\0\0\0\x01\0\0\0\x05\0\0\0a.pov\x22\0\0\0background { color rgb <1,0.5,1> }";

/// The whole state file, with its one block done.
const FILE: &[u8] =
    b"\x01\x01g\0\0\0\x01\0\0\0\x01\0\0\0\x01\0\0\0POVFIX02\x01\0\0\0\x01\0\0\0\0\0\0\0\0\0\0\0\0\0\0\0\0\0\0\0\0\0\x01\0\0\0\0\0\x01\0\0\0\x01\0\0\0\x01\0\0\0\x01\0\0\0\x05\0\0\0a.pov\x22\0\0\0background { color rgb <1,0.5,0> }\x01\xff\x80\0";

/// The same for 16 bits.
const WIDE_FILE: &[u8] =
    b"\x01\x02g\0\0\0\x01\0\0\0\x01\0\0\0\x01\0\0\0POVFIX02\x01\0\0\0\x01\0\0\0\0\0\0\0\0\0\0\0\0\0\0\0\0\0\0\0\0\0\x01\0\0\0\0\0\x01\0\0\0\x01\0\0\0\x01\0\0\0\x01\0\0\0\x05\0\0\0a.pov\x22\0\0\0background { color rgb <1,0.5,0> }\x01\xff\xff\x80\0\0\0";

/// The picture of the pixel.
const PICTURE: &[u8] = b"P6\n1 1\n255\n\xff\x80\0";

/// What is changed in a file.
#[derive(Clone, Copy)]
enum Edit {
    Nothing,
    Cut(usize),
    Set(usize, u8),
    More(u8),
}

/// What is judged of the file with one change, where it is continued.
const ROWS: [(Edit, Answer); 13] = [
    (Edit::Nothing, Answer::Left(0)),
    (Edit::Cut(0), Answer::Left(1)),
    (Edit::Cut(1), Answer::Left(1)),
    (Edit::Set(0, 0), Answer::Left(1)),
    (Edit::Set(0, 7), Answer::Left(0)),
    (Edit::Set(1, 3), Answer::Other(1, Some(3))),
    (Edit::Cut(60), Answer::Other(60, None)),
    (Edit::Cut(124), Answer::Other(124, None)),
    (Edit::More(9), Answer::Other(126, None)),
    (Edit::Set(120, 0), Answer::Other(120, Some(0))),
    (Edit::Set(25, 0x31), Answer::Other(25, Some(0x31))),
    (Edit::Set(121, 0), Answer::Left(1)),
    (Edit::Set(121, 2), Answer::Left(0)),
];

fn set(bytes: &mut [u8], at: usize, byte: u8) {
    if let Some(place) = bytes.get_mut(at) {
        *place = byte;
    }
}

/// The file with a change.
fn edited(alloc: Global, edit: Edit) -> Result<Vec<u8>, AllocError> {
    let mut bytes = Vec::from_slice(alloc, FILE)?;
    match edit {
        Edit::Nothing => {}
        Edit::Cut(size) => bytes.truncate(size),
        Edit::Set(at, byte) => set(bytes.as_mut_slice(), at, byte),
        Edit::More(byte) => bytes.push(byte)?,
    }
    Ok(bytes)
}

#[test]
fn a_damaged_file_is_judged_by_its_first_damage(rt: HostRuntime) -> Result<(), Fail> {
    for (edit, answer) in ROWS {
        let bytes = edited(rt.alloc(), edit)?;
        assert!(rt; judge(rt.alloc(), &bytes, KEY, ONE)? == (answer, true));
    }
    Ok(())
}

#[test]
fn another_frame_is_refused_at_its_first_byte(rt: HostRuntime) -> Result<(), Fail> {
    let alloc = rt.alloc();
    let clock = (Answer::Other(36, Some(0)), true);
    assert!(rt; judge(alloc, FILE, LATER_KEY, ONE)? == clock);
    let text = (Answer::Other(117, Some(0x30)), true);
    assert!(rt; judge(alloc, FILE, OTHER_KEY, ONE)? == text);
    let version = (Answer::Other(1, Some(1)), true);
    assert!(rt; judge(alloc, FILE, KEY, WIDE)? == version);
    let picture = (Answer::Other(1, Some(0x36)), true);
    assert!(rt; judge(alloc, PICTURE, KEY, ONE)? == picture);
    Ok(())
}

#[test]
fn a_file_has_its_bytes(rt: HostRuntime) -> Result<(), Fail> {
    let alloc = rt.alloc();
    assert!(rt; make_one(alloc, ONE, KEY, &[255, 128, 0], FILE)?);
    assert!(rt; make_one(alloc, WIDE, KEY, &[255, 255, 128, 0, 0, 0], WIDE_FILE)?);
    Ok(())
}
