//! Pens over storage in memory.
ghost use Rattle.std.specs.Prelude.{◌≡◌, ◌≤◌, ◌<◌, ◌^◌, ℕ, IfOk, IfSome, IsSome, None, length};
ghost use Rattle.shelf.specs.Disk.{most_at};
ghost use Rattle.shelf.specs.Memory.{slots_of};
ghost use Rattle.state_file.specs.Shape.{IsInLimits, block_bytes, blocks};

use shelf::{Failed, MemShelf, Shelf};
use state_file::{DoneBlock, Geometry, OpenFault, Pen, open};
use std::alloc::{AllocError, Global};

/// The name of the state file.
pub const NAME: &[u8] = b"a.ppm.pov-state";

/// How a file is judged where it is continued.
#[derive(Clone, Copy, Debug, PartialEq, Eq)]
pub enum Answer {
    /// So many blocks are left.
    Left(usize),
    /// It is another frame's, by this place and byte.
    Other(u64, Option<u8>),
    Fault,
}

fn put<S: Shelf>(shelf: &mut S, slot: u32, bytes: &[u8]) -> Result<(), Failed>
    requires held { IsSome (S.slots shelf.old slot) }
    requires fits { length bytes.now ≤ most_at (S.slots shelf.old slot) }
{
    shelf.write_at(slot, 0, bytes)?;
    shelf.sync(slot)
}

/// A storage that has these bytes under the name, safely, and holds nothing.
pub fn shelf_of(alloc: Global, bytes: &[u8]) -> Option<MemShelf>
    ensures { IfSome result (λ shelf. (k : ℕ) → slots_of shelf k ≡ None) }
{
    let mut shelf = MemShelf::new(alloc);
    let Ok(slot) = shelf.hold(alloc, NAME, bytes.len() as u64) else {
        return None;
    };
    let done = put(&mut shelf, slot, bytes);
    shelf.let_go();
    match done {
        Ok(()) => Some(shelf),
        Err(Failed) => None,
    }
}

/// Opens the file.
pub fn open_pen(
    alloc: Global,
    shelf: MemShelf,
    key: &[u8],
    geometry: Geometry,
    resume: bool,
) -> Result<Pen<MemShelf>, (OpenFault, MemShelf)>
    requires limits { IsInLimits geometry }
    requires short { length key.now ≤ 2 ^ 25 }
    requires free { (k : ℕ) → slots_of shelf k ≡ None }
    ensures { IfOk result (λ pen. pen.frame.geometry ≡ geometry) }
{
    match Vec::from_slice(alloc, key) {
        Ok(key) => open(alloc, shelf, NAME, key, geometry, resume),
        Err(AllocError) => Err((OpenFault::NoMemory, shelf)),
    }
}

/// What is judged of these bytes, and whether they are as they were where they are refused.
pub fn judge(
    alloc: Global,
    bytes: &[u8],
    key: &[u8],
    geometry: Geometry,
) -> Result<(Answer, bool), AllocError>
    requires limits { IsInLimits geometry }
    requires short { length key.now ≤ 2 ^ 25 }
{
    let Some(shelf) = shelf_of(alloc, bytes) else {
        return Ok((Answer::Fault, false));
    };
    match open_pen(alloc, shelf, key, geometry, true) {
        Ok(pen) => {
            let todo = pen.todo(alloc)?;
            Ok((Answer::Left(todo.len()), true))
        }
        Err((OpenFault::OtherState { place, kept }, shelf)) => {
            Ok((Answer::Other(place, kept), shelf.contents(NAME) == bytes))
        }
        Err((OpenFault::ShelfFault, _shelf)) => Ok((Answer::Fault, false)),
        Err((OpenFault::NoMemory, _shelf)) => Ok((Answer::Fault, false)),
    }
}

/// Whether the block is known open.
pub fn is_known(pen: &Pen<MemShelf>, geometry: Geometry, index: u32) -> bool
    requires frame { pen.now.frame.geometry ≡ geometry }
    requires index { index < blocks geometry }
{
    pen.knows(index)
}

/// Commits one block, unless it is known open, and tells whether it is open for sure.
pub fn commit_one(
    pen: Pen<MemShelf>,
    geometry: Geometry,
    index: u32,
    pixels: Vec<u8>,
) -> (Pen<MemShelf>, bool)
    requires frame { pen.frame.geometry ≡ geometry }
    requires index { index < blocks geometry }
    requires size { length pixels.items ≡ block_bytes geometry index }
    ensures { result.0.frame.geometry ≡ geometry }
{
    if pen.knows(index) {
        return (pen, true);
    }
    let (pen, result) = pen.commit(&[DoneBlock { index, pixels }]);
    (pen, result == Ok(()))
}

/// Whether making a state file and committing its first block gives these bytes.
pub fn make_one(
    alloc: Global,
    geometry: Geometry,
    key: &[u8],
    pixels: &[u8],
    bytes: &[u8],
) -> Result<bool, AllocError>
    requires limits { IsInLimits geometry }
    requires short { length key.now ≤ 2 ^ 25 }
    requires index { 0 < blocks geometry }
    requires size { length pixels.now ≡ block_bytes geometry 0 }
{
    let Ok(pen) = open_pen(alloc, MemShelf::new(alloc), key, geometry, false) else {
        return Ok(false);
    };
    let pixels = Vec::from_slice(alloc, pixels)?;
    let (pen, done) = commit_one(pen, geometry, 0, pixels);
    let (shelf, _picture) = pen.into_shelf();
    Ok(done && shelf.contents(NAME) == bytes)
}
