// The storage over the files of the current folder. Its methods call free functions over its
// fields.
ghost use Rattle.std.specs.Prelude.{◌≡◌, ◌+◌, ◌-◌, ◌^◌, min, [], Ok, IsErr, MatchResult, is_ok, if◌then◌else◌, option_map, slice_get};
ghost use Rattle.shelf.specs.Causes.{HasCause};

use crate::count::raise;
use crate::{Failed, HoldFail, Shelf};
use std::alloc::Global;
use std::fs::{Files, OpenFile, OpenOptions};
use std::io::{self, Read, Seek, SeekFrom, Write};

/// A file that is held open.
#[derive(Drop)]
struct Opened<F: Drop> {
    name: Vec<u8>,
    most: u64,
    file: F,
}

/// The files of the current folder. It tells nothing of what they hold.
#[derive(Drop)]
pub struct FolderShelf<R: Files + Send + Drop> {
    rt: R,
    opened: Vec<Opened<R::File>>,
    failures: u64,
}

impl<R: Files + Send + Drop> FolderShelf<R> {
    pub fn new(rt: R, alloc: Global) -> FolderShelf<R>
        ensures slots { result.opened.items ≡ [] }
        ensures faults { result.failures ≡ 0 }
    {
        FolderShelf {
            rt,
            opened: Vec::new(alloc),
            failures: 0,
        }
    }
}

impl<R: Files + Send + Drop> Shelf for FolderShelf<R> {
    ghost holds = { λ _ _ _. ⊥ };

    ghost images = { λ _ _ _ _. ⊥ };

    ghost moment = { λ _. 0 };

    ghost slots = { λ shelf k.
        option_map (λ file. record { name = file.name.items; most = file.most })
        (slice_get shelf.opened.items k) };

    ghost faults = { λ shelf. shelf.failures };

    ghost reads_an_image = { λ _ _ _ held. held };

    fn hold(&mut self, alloc: Global, name: &[u8], most: u64) -> Result<u32, HoldFail> {
        let Ok(slot) = u32::try_from(self.opened.len()) else {
            return Err(HoldFail::NoMemory);
        };
        let Ok(copy) = Vec::from_slice(alloc, name) else {
            return Err(HoldFail::NoMemory);
        };
        if self.opened.try_reserve(1).is_err() {
            return Err(HoldFail::NoMemory);
        }
        let Ok(file) = open_file(&self.rt, name) else {
            raise(&mut self.failures);
            return Err(HoldFail::Failed);
        };
        let opened = Opened {
            name: copy,
            most,
            file,
        };
        if self.opened.push(opened).is_err() {
            return Err(HoldFail::NoMemory);
        }
        Ok(slot)
    }

    fn let_go(&mut self) {
        self.opened.clear();
    }

    fn length(&mut self, slot: u32) -> Result<u64, Failed> {
        counted(
            length_of(&self.opened[slot as usize].file),
            &mut self.failures,
        )
    }

    fn read(&mut self, slot: u32, at: u64, out: &mut [u8]) -> Result<(), Failed> {
        counted(
            read_from(&mut self.opened[slot as usize].file, at, out),
            &mut self.failures,
        )
    }

    fn write_at(&mut self, slot: u32, at: u64, bytes: &[u8]) -> Result<(), Failed> {
        counted(
            write_from(&mut self.opened[slot as usize].file, at, bytes),
            &mut self.failures,
        )
    }

    fn cut(&mut self, slot: u32, size: u64) -> Result<(), Failed> {
        counted(
            self.opened[slot as usize].file.set_len(size),
            &mut self.failures,
        )
    }

    fn sync(&mut self, slot: u32) -> Result<(), Failed> {
        counted(
            self.opened[slot as usize].file.sync_all(),
            &mut self.failures,
        )
    }
}

/// Counts an answer that is an error.
fn counted<T>(answer: io::Result<T>, failures: &mut u64) -> Result<T, Failed>
    ensures value { MatchResult answer (λ value. result ≡ Ok value) (λ _. IsErr result) }
    ensures cause { HasCause failures.old failures.new (IsErr result) }
    ensures counted { failures.new ≡ (if is_ok answer then failures.old else min (failures.old + 1) (2 ^ 64 - 1)) }
{
    match answer {
        Ok(value) => Ok(value),
        Err(_) => {
            raise(failures);
            Err(Failed)
        }
    }
}

/// Opens the file for reading and writing, and makes it where it isn't there; then syncs its folder,
/// so that the name outlives a crash. A name that isn't UTF-8 fails.
fn open_file<R: Files>(rt: &R, name: &[u8]) -> Result<R::File, Failed> {
    let Ok(path) = str::from_utf8(name) else {
        return Err(Failed);
    };
    let opened = OpenOptions::new()
        .read(true)
        .write(true)
        .create(true)
        .open(rt, path);
    let Ok(file) = opened else {
        return Err(Failed);
    };
    match sync_folder(rt, folder_of(path)) {
        Ok(()) => Ok(file),
        Err(_) => Err(Failed),
    }
}

/// The folder that a file is in.
fn folder_of(path: &str) -> &str {
    match path.rsplit_once('/') {
        None => ".",
        Some(("", _)) => "/",
        Some((folder, _)) => folder,
    }
}

fn sync_folder<R: Files>(rt: &R, folder: &str) -> io::Result<()> {
    let folder = OpenOptions::new().read(true).open(rt, folder)?;
    folder.sync_all()
}

fn length_of<F: OpenFile>(file: &F) -> io::Result<u64> {
    Ok(file.metadata()?.len())
}

/// Fills `out` from a place of the file on. A read that gives nothing before it is full fails.
fn read_from<F: Read + Seek>(file: &mut F, at: u64, out: &mut [u8]) -> io::Result<()> {
    file.seek(SeekFrom::Start(at))?;
    file.read_exact(out)
}

/// Writes all the bytes from a place of the file on. A write that takes nothing of a piece fails.
fn write_from<F: Write + Seek>(file: &mut F, at: u64, bytes: &[u8]) -> io::Result<()> {
    file.seek(SeekFrom::Start(at))?;
    file.write_all(bytes)
}
