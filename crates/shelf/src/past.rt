// The record of a shelf's moments.
ghost use Rattle.std.specs.Prelude.{◌≡◌, ◌∷◌};
ghost use Rattle.shelf.specs.Past.{history, past_of};

use crate::mem_file::MemFile;
use std::snapshot::Snapshot;

/// The files as they were before each change. It has no bytes: only clauses read it, so it takes no
/// memory and is never given up.
#[derive(Drop)]
pub(crate) struct Past {
    files: Snapshot<Vec<MemFile>>,
    before: Snapshot<Option<Past>>,
}

impl Past {
    /// One moment more, at which the files are these.
    pub(crate) fn after(before: &Option<Past>, files: &Vec<MemFile>) -> Past
        ensures { history result ≡ files.now.items ∷ past_of before.now }
    {
        Past {
            files: Snapshot::of(files),
            before: Snapshot::of(before),
        }
    }
}
