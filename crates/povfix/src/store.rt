// Puts a whole file into the storage.
ghost use Rattle.std.specs.Prelude.{◌≡◌, ◌≤◌, List, ℕ, length, OnOk, IsErr, IsErrOf, IsSome};
ghost use Rattle.shelf.specs.Causes.{HasCause};
ghost use Rattle.shelf.specs.Disk.{name_at, most_at, SameContents, SameOthers, Tells};
ghost use Rattle.povfix.specs.Moments.{AllStay, OthersStay};

use shelf::{Failed, HoldFail, Shelf};
use std::alloc::Global;

/// Writes a file, cuts it to its length and syncs it.
pub fn store<S: Shelf>(
    alloc: Global,
    shelf: &mut S,
    name: &[u8],
    file: &[u8],
) -> Result<(), HoldFail>
    ensures stored { OnOk result ((c : List ℕ) → S.holds shelf.new name.now c → c ≡ file.now) }
    ensures durable { OnOk result ((c : List ℕ) → S.images shelf.new (S.moment shelf.new) name.now c → c ≡ file.now) }
    ensures memory { IsErrOf result HoldFail.NoMemory → SameContents (S.holds shelf.old) (S.holds shelf.new) }
    ensures crash_memory { IsErrOf result HoldFail.NoMemory → AllStay (S.moment shelf.old) (S.moment shelf.new) (S.images shelf.old) (S.images shelf.new) }
    ensures others { SameOthers name.now (S.holds shelf.old) (S.holds shelf.new) }
    ensures crash_others { OthersStay name.now (S.moment shelf.old) (S.moment shelf.new) (S.images shelf.old) (S.images shelf.new) }
    ensures tells { Tells (S.holds shelf.old) (S.holds shelf.new) }
    ensures cause { HasCause (S.faults shelf.old) (S.faults shelf.new) (IsErrOf result HoldFail.Failed) }
{
    shelf.let_go();
    let slot = match shelf.hold(alloc, name, file.len() as u64) {
        Ok(slot) => slot,
        Err(fail) => return Err(fail),
    };
    match write_whole(shelf, slot, file) {
        Ok(()) => Ok(()),
        Err(_) => Err(HoldFail::Failed),
    }
}

/// Writes the file from its start, cuts it to its length and syncs it.
fn write_whole<S: Shelf>(shelf: &mut S, slot: u32, file: &[u8]) -> Result<(), Failed>
    requires held { IsSome (S.slots shelf.old slot) }
    requires fits { length file.now ≤ most_at (S.slots shelf.old slot) }
    ensures stored { OnOk result ((c : List ℕ) → S.holds shelf.new (name_at (S.slots shelf.old slot)) c → c ≡ file.now) }
    ensures durable { OnOk result ((c : List ℕ) → S.images shelf.new (S.moment shelf.new) (name_at (S.slots shelf.old slot)) c → c ≡ file.now) }
    ensures others { SameOthers (name_at (S.slots shelf.old slot)) (S.holds shelf.old) (S.holds shelf.new) }
    ensures crash_others { OthersStay (name_at (S.slots shelf.old slot)) (S.moment shelf.old) (S.moment shelf.new) (S.images shelf.old) (S.images shelf.new) }
    ensures tells { Tells (S.holds shelf.old) (S.holds shelf.new) }
    ensures cause { HasCause (S.faults shelf.old) (S.faults shelf.new) (IsErr result) }
{
    shelf.write_at(slot, 0, file)?;
    shelf.cut(slot, file.len() as u64)?;
    shelf.sync(slot)
}
