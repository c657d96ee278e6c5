//! A run that is stopped after each count of changes, crashed in many ways, and opened again.
ghost use Rattle.std.specs.Prelude.{◌≡◌, ℕ, None};
ghost use Rattle.shelf.specs.Memory.{slots_of};

use crate::pens::{NAME, commit_one, is_known, open_pen, shelf_of};
use shelf::MemShelf;
use state_file::{Geometry, Pen};
use std::alloc::{AllocError, Global};
use std::test::Fail;

/// A block of 32 pixels, and one of one pixel.
const TWO: Geometry = Geometry {
    width: 33,
    height: 1,
    bits: 8,
};

const KEY: &[u8] = b"key";

/// The state file up to the gates, with the first block's gate open and the second one's closed.
const FRONT: &[u8] = b"\x01\x01\x03\0\0\0\x21\0\0\0\x01\0\0\0\x02\0\0\0key\x01\0";

/// More than the changes of a run that isn't stopped: 7 to make the file, and 4 for each commit.
const STOPS: u64 = 17;

/// How many crashes are tried at each stop.
const CRASHES: u32 = 24;

/// What is in the file's second block: its gate, and its three bytes of pixels.
#[derive(Clone, Copy)]
struct Second {
    gate: u8,
    pixel: u8,
}

/// The whole file with the first block done.
fn file(alloc: Global, second: Second) -> Result<Vec<u8>, AllocError> {
    let mut bytes = Vec::from_slice(alloc, &FRONT[..22])?;
    bytes.push(second.gate)?;
    bytes.resize(119, 5)?;
    bytes.resize(122, second.pixel)?;
    Ok(bytes)
}

/// The picture as far as the blocks are known: the first of bytes 5, the second of bytes 6.
fn picture(first: bool, second: bool) -> [u8; 99] {
    let mut bytes = [if first { 5 } else { 0 }; 99];
    let last = if second { 6 } else { 0 };
    bytes[96] = last;
    bytes[97] = last;
    bytes[98] = last;
    bytes
}

/// What a crash chooses: the same of each place, or a mixture, with or without ends of the file.
fn picks(seed: u32) -> [u8; 256] {
    let mut picks = [0u8; 256];
    let mut state = seed.wrapping_mul(2_654_435_761);
    for pick in picks.iter_mut() {
        state = state.wrapping_mul(1_664_525).wrapping_add(1_013_904_223);
        *pick = chosen(seed, (state >> 24) as u8);
    }
    picks
}

fn chosen(seed: u32, random: u8) -> u8 {
    if seed < 4 {
        seed as u8
    } else if seed % 2 == 0 || random < 250 {
        random % 3
    } else {
        3
    }
}

/// What came of a run: which of the two blocks it was told to be safe, and the storage.
#[derive(Drop)]
struct Run {
    first: bool,
    second: bool,
    shelf: MemShelf,
}

/// Commits both blocks.
fn commit_both(alloc: Global, pen: Pen<MemShelf>) -> Result<Run, AllocError>
    requires { pen.frame.geometry ≡ TWO }
{
    let (pen, first) = commit_one(pen, TWO, 0, vec![in alloc; 5u8; 96]?);
    let (pen, second) = commit_one(pen, TWO, 1, vec![in alloc; 6u8; 3]?);
    let (shelf, _picture) = pen.into_shelf();
    Ok(Run {
        first,
        second,
        shelf,
    })
}

/// A run that stops after so many changes.
fn stopped(alloc: Global, mut shelf: MemShelf, resume: bool, stop: u64) -> Result<Run, AllocError>
    requires { (k : ℕ) → slots_of shelf k ≡ None }
{
    shelf.stop_after(stop);
    match open_pen(alloc, shelf, KEY, TWO, resume) {
        Ok(pen) => commit_both(alloc, pen),
        Err((_fault, shelf)) => Ok(Run {
            first: false,
            second: false,
            shelf,
        }),
    }
}

/// Makes an open gate 1, which a torn write may have left as any other byte.
fn settle(bytes: &mut [u8], at: usize) {
    if let Some(gate) = bytes.get_mut(at) {
        *gate = (*gate).min(1);
    }
}

/// Whether the file has both blocks, with open gates.
fn is_whole(alloc: Global, bytes: &[u8]) -> Result<bool, AllocError> {
    let mut bytes = Vec::from_slice(alloc, bytes)?;
    settle(bytes.as_mut_slice(), 0);
    settle(bytes.as_mut_slice(), 21);
    settle(bytes.as_mut_slice(), 22);
    let whole = file(alloc, Second { gate: 1, pixel: 6 })?;
    Ok(bytes.as_slice() == whole.as_slice())
}

/// Whether the storage, opened again, has what the run was told to be safe, believes only true
/// pixels, and can be brought to its end.
fn goes_on(alloc: Global, shelf: MemShelf, first: bool, second: bool) -> Result<bool, AllocError>
    requires { (k : ℕ) → slots_of shelf k ≡ None }
{
    let Ok(pen) = open_pen(alloc, shelf, KEY, TWO, true) else {
        return Ok(false);
    };
    let one = is_known(&pen, TWO, 0);
    let two = is_known(&pen, TWO, 1);
    let kept = (one || !first) && (two || !second);
    let honest = pen.picture() == picture(one, two).as_slice();
    let run = commit_both(alloc, pen)?;
    let whole = is_whole(alloc, run.shelf.contents(NAME))?;
    Ok(kept && honest && run.first && run.second && whole)
}

/// One stop and one crash, from a file in which the first block is done or from nothing.
fn survives(alloc: Global, resume: bool, stop: u64, seed: u32) -> Result<bool, AllocError> {
    let bytes = file(alloc, Second { gate: 0, pixel: 0 })?;
    let start = if resume {
        shelf_of(alloc, &bytes)
    } else {
        shelf_of(alloc, &[])
    };
    let Some(start) = start else {
        return Ok(false);
    };
    let run = stopped(alloc, start, resume, stop)?;
    let Run {
        first,
        second,
        shelf,
    } = run;
    let shelf = shelf.crash(&picks(seed));
    goes_on(alloc, shelf, first || resume, second)
}

#[test]
fn what_was_told_to_be_safe_outlives_each_crash(rt: HostRuntime) -> Result<(), Fail> {
    for stop in 0..STOPS {
        for seed in 0..CRASHES {
            assert!(rt; survives(rt.alloc(), false, stop, seed)?);
            assert!(rt; survives(rt.alloc(), true, stop, seed)?);
        }
    }
    Ok(())
}
