//! What a commit of 64 blocks takes.
ghost use Rattle.std.specs.Prelude.{◌≤◌, IsSome, length};
ghost use Rattle.shelf.specs.Disk.{most_at};
ghost use Rattle.storage_times.specs.Squares.{AreNumbered};

use crate::blocks::{blocks, small};
use crate::states::{timed_commit, timed_open};
use shelf::{Failed, FolderShelf, Shelf};
use state_file::DoneBlock;
use std::time::{Duration, Instant};
use std::{fs, io};

/// How often each measure is taken.
const TURNS: u32 = 10;

/// Makes a state file of 256 by 256 pixels, and tells what a commit of all its blocks takes.
fn commit(rt: &HostRuntime, name: &str, blocks: &[DoneBlock]) -> io::Result<Duration>
    requires { AreNumbered 64 blocks.now }
{
    let (pen, _time) = timed_open(rt, name, small(), false)?;
    timed_commit(rt, pen, blocks)
}

/// Writes the pixels and syncs them, and then the gates.
fn write_twice<S: Shelf>(
    shelf: &mut S,
    slot: u32,
    pixels: &[u8],
    gates: &[u8],
) -> Result<(), Failed>
    requires held { IsSome (S.slots shelf.old slot) }
    requires pixels { length pixels.now ≤ most_at (S.slots shelf.old slot) }
    requires gates { length gates.now ≤ most_at (S.slots shelf.old slot) }
{
    shelf.write_at(slot, 0, pixels)?;
    shelf.sync(slot)?;
    shelf.write_at(slot, 0, gates)?;
    shelf.sync(slot)
}

/// What as many bytes take in two writes and two syncs.
fn bare(rt: &HostRuntime, name: &str) -> io::Result<Duration> {
    let pixels = vec![in rt.alloc(); 128u8; 196608]?;
    let mut shelf = FolderShelf::new(*rt, rt.alloc());
    let Ok(slot) = shelf.hold(rt.alloc(), name.as_bytes(), 196608) else {
        return Err(io::ErrorKind::Other.into());
    };
    let start = Instant::now(rt)?;
    match write_twice(&mut shelf, slot, &pixels, &[1; 64]) {
        Ok(()) => start.elapsed(rt),
        Err(_failed) => Err(io::ErrorKind::Other.into()),
    }
}

/// Measures each in turn, and removes the file.
pub fn run(rt: &HostRuntime, folder: &str) -> io::Result<()> {
    let name = format!(in rt.alloc(); "{folder}/storage_times.pov-state")?;
    let blocks = blocks(rt.alloc(), 64)?;
    for _turn in 0..TURNS {
        let commit = commit(rt, name.as_str(), &blocks)?;
        let bare = bare(rt, name.as_str())?;
        println!(rt;
            "commit of 64 blocks: {} us; two writes and two syncs of as many bytes: {} us",
            commit.as_micros(),
            bare.as_micros()
        )?;
    }
    fs::remove_file(rt, name.as_str())
}
