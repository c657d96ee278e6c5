// The texts of the current folder. The methods call free functions over the fields.
ghost use Rattle.std.specs.Prelude.{◌≡◌, ◌+◌, ◌^◌, ℕ, List, Some, None, take, IfOk};

use crate::texts::{ReadFail, Texts};
use std::alloc::Global;
use std::fs::{self, Files};
use std::io::{self, Read};

/// The longest text that is looked at: one byte more than all texts of a frame may have.
const LONGEST: u64 = (1 << 24) + 1;

/// The files of the current folder as texts. It tells nothing of what they hold.
#[derive(Drop)]
pub struct FolderTexts<R: Files + Drop> {
    rt: R,
    failures: u64,
}

impl<R: Files + Drop> FolderTexts<R> {
    pub fn new(rt: R) -> FolderTexts<R>
        ensures { result.failures ≡ 0 }
    {
        FolderTexts { rt, failures: 0 }
    }
}

impl<R: Files + Drop> Texts for FolderTexts<R> {
    ghost held = { λ _. None };

    ghost faults = { λ texts. texts.failures };

    /// The file's bytes, of which no more than 16 MiB and one are read. A name that isn't UTF-8 names no file.
    fn read(&mut self, alloc: Global, name: &[u8]) -> Result<Option<Vec<u8>>, ReadFail> {
        let Ok(path) = str::from_utf8(name) else {
            return Ok(None);
        };
        let read = match fs::open(&self.rt, path) {
            Ok(file) => read_front(alloc, file),
            Err(error) if error.kind() == io::ErrorKind::NotFound => return Ok(None),
            Err(_) => Err(ReadFail::Failed),
        };
        match read {
            Ok(bytes) => Ok(Some(bytes)),
            Err(ReadFail::NoMemory) => Err(ReadFail::NoMemory),
            Err(ReadFail::Failed) => {
                self.failures = self.failures.saturating_add(1);
                Err(ReadFail::Failed)
            }
        }
    }
}

/// All that the file still holds, or the longest front of it that is looked at.
fn read_front<F: Read + Drop>(alloc: Global, file: F) -> Result<Vec<u8>, ReadFail>
    ensures { IfOk result (λ bytes. (left : List ℕ) → F.remaining file ≡ Some left → bytes.items ≡ take (2 ^ 24 + 1) left) }
{
    let mut bytes = Vec::new(alloc);
    match file.take(LONGEST).read_to_end(&mut bytes) {
        Ok(_) => Ok(bytes),
        Err(error) if error.kind() == io::ErrorKind::OutOfMemory => Err(ReadFail::NoMemory),
        Err(_) => Err(ReadFail::Failed),
    }
}
