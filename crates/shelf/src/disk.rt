// The storage of a run, as its callers see it.
ghost use Rattle.std.specs.Prelude.{◌≡◌, ◌+◌, ◌≤◌, ℕ, List, length, IfOk, OnOk, OnErr, IsErr, IsErrOf, IsSome, None};
ghost use Rattle.shelf.specs.Causes.{HasCause};
ghost use Rattle.shelf.specs.Disk.{Contents, Images, Slots, name_at, most_at, IsFree, SameSlots, Holds, Follows, Within, SameContents, SameOthers, Tells, Written, Torn, Shortened, Cut, Trimmed, bytes_from};
ghost use Rattle.shelf.specs.Moments.{Passes};

use crate::Failed;
use std::alloc::Global;

/// Why a file can't be held.
#[derive(Clone, Copy, Debug, PartialEq, Eq)]
pub enum HoldFail {
    /// The storage failed; its count of faults rose.
    Failed,
    /// There is no memory for the file.
    NoMemory,
}

/// The storage: files by name, of which some are held open, each under a slot number.
/// A file that isn't there and one of length 0 are the same.
/// A shelf may tell what a read of each name gives, and what a crash may leave: the present images
/// and those of earlier moments. Over one that doesn't tell, the clauses on these say nothing.
/// Between two syncs of a file each range that was written, and all past the old end, may hold any
/// bytes, and the file may have any length that it had since the sync or one between; its other
/// bytes stay. After a sync that succeeds, a crash leaves what a read gives.
pub trait Shelf: Drop {
    /// A read of this name gives these bytes.
    ghost holds: { Self → Contents };

    /// At this moment a crash may leave these bytes under this name. A moment that isn't told has
    /// none at all.
    ghost images: { Self → Images };

    /// The present moment. It never falls.
    ghost moment: { Self → ℕ };

    /// The files that are held.
    ghost slots: { Self → Slots };

    /// How often the storage has failed.
    ghost faults: { Self → ℕ };

    /// What a read gives is one of the present images.
    ghost reads_an_image: { (shelf : Self) (name bytes : List ℕ) → holds shelf name bytes →
        images shelf (moment shelf) name bytes };

    /// Makes the name ready, and takes all memory that its file needs up to `most` bytes.
    fn hold(&mut self, alloc: Global, name: &[u8], most: u64) -> Result<u32, HoldFail>
        requires { IsFree (slots self.old) name.now }
        ensures held { IfOk result (λ slot.
            Holds (slots self.old) (slots self.new) slot name.now most) }
        ensures refused { OnErr result (SameSlots (slots self.old) (slots self.new)) }
        ensures contents { SameContents (holds self.old) (holds self.new) }
        ensures tells { Tells (holds self.old) (holds self.new) }
        ensures crash { SameContents (images self.old (moment self.old))
            (images self.new (moment self.new)) }
        ensures time { Passes (moment self.old) (moment self.new) (images self.old) (images self.new) }
        ensures cause { HasCause (faults self.old) (faults self.new)
            (IsErrOf result HoldFail.Failed) };

    /// Gives up all slots.
    fn let_go(&mut self)
        ensures free { (k : ℕ) → slots self.new k ≡ None }
        ensures contents { SameContents (holds self.old) (holds self.new) }
        ensures tells { Tells (holds self.old) (holds self.new) }
        ensures crash { SameContents (images self.old (moment self.old))
            (images self.new (moment self.new)) }
        ensures time { Passes (moment self.old) (moment self.new) (images self.old) (images self.new) }
        ensures later { faults self.old ≤ faults self.new };

    /// How many bytes the file has.
    fn length(&mut self, slot: u32) -> Result<u64, Failed>
        requires { IsSome (slots self.old slot) }
        ensures value { IfOk result (λ size. (c : List ℕ) →
            holds self.old (name_at (slots self.old slot)) c → size ≡ length c) }
        ensures contents { SameContents (holds self.old) (holds self.new) }
        ensures stays { SameContents (holds self.new) (holds self.old) }
        ensures tells { Tells (holds self.old) (holds self.new) }
        ensures crash { SameContents (images self.old (moment self.old))
            (images self.new (moment self.new)) }
        ensures time { Passes (moment self.old) (moment self.new) (images self.old) (images self.new) }
        ensures slots { SameSlots (slots self.old) (slots self.new) }
        ensures cause { HasCause (faults self.old) (faults self.new) (IsErr result) };

    /// Fills `out` with the file's bytes from `at` on.
    fn read(&mut self, slot: u32, at: u64, out: &mut [u8]) -> Result<(), Failed>
        requires held { IsSome (slots self.old slot) }
        requires within { (c : List ℕ) → holds self.old (name_at (slots self.old slot)) c →
            at + length out.old ≤ length c }
        ensures value { OnOk result ((c : List ℕ) →
            holds self.old (name_at (slots self.old slot)) c →
            out.new ≡ bytes_from at (length out.old) c) }
        ensures contents { SameContents (holds self.old) (holds self.new) }
        ensures stays { SameContents (holds self.new) (holds self.old) }
        ensures tells { Tells (holds self.old) (holds self.new) }
        ensures crash { SameContents (images self.old (moment self.old))
            (images self.new (moment self.new)) }
        ensures time { Passes (moment self.old) (moment self.new) (images self.old) (images self.new) }
        ensures slots { SameSlots (slots self.old) (slots self.new) }
        ensures cause { HasCause (faults self.old) (faults self.new) (IsErr result) };

    /// Writes over what is there, and past the end.
    fn write_at(&mut self, slot: u32, at: u64, bytes: &[u8]) -> Result<(), Failed>
        requires held { IsSome (slots self.old slot) }
        requires begins { (c : List ℕ) → holds self.old (name_at (slots self.old slot)) c →
            at ≤ length c }
        requires fits { at + length bytes.now ≤ most_at (slots self.old slot) }
        ensures written { OnOk result (Follows (Written at bytes.now)
            (holds self.old (name_at (slots self.old slot)))
            (holds self.new (name_at (slots self.old slot)))) }
        ensures torn { Follows (Torn at (length bytes.now))
            (holds self.old (name_at (slots self.old slot)))
            (holds self.new (name_at (slots self.old slot))) }
        ensures others { SameOthers (name_at (slots self.old slot))
            (holds self.old) (holds self.new) }
        ensures tells { Tells (holds self.old) (holds self.new) }
        ensures crash { Follows (Torn at (length bytes.now))
            (images self.old (moment self.old) (name_at (slots self.old slot)))
            (images self.new (moment self.new) (name_at (slots self.old slot))) }
        ensures crash_others { SameOthers (name_at (slots self.old slot))
            (images self.old (moment self.old)) (images self.new (moment self.new)) }
        ensures time { Passes (moment self.old) (moment self.new) (images self.old) (images self.new) }
        ensures slots { SameSlots (slots self.old) (slots self.new) }
        ensures cause { HasCause (faults self.old) (faults self.new) (IsErr result) };

    /// Cuts the file to a length that it has or passes.
    fn cut(&mut self, slot: u32, size: u64) -> Result<(), Failed>
        requires held { IsSome (slots self.old slot) }
        requires shortens { (c : List ℕ) → holds self.old (name_at (slots self.old slot)) c →
            size ≤ length c }
        ensures shortened { OnOk result (Follows (Shortened size)
            (holds self.old (name_at (slots self.old slot)))
            (holds self.new (name_at (slots self.old slot)))) }
        ensures trimmed { Follows (Trimmed size)
            (holds self.old (name_at (slots self.old slot)))
            (holds self.new (name_at (slots self.old slot))) }
        ensures others { SameOthers (name_at (slots self.old slot))
            (holds self.old) (holds self.new) }
        ensures tells { Tells (holds self.old) (holds self.new) }
        ensures crash_cut { OnOk result (Follows (Cut size)
            (images self.old (moment self.old) (name_at (slots self.old slot)))
            (images self.new (moment self.new) (name_at (slots self.old slot)))) }
        ensures crash { Follows (Trimmed size)
            (images self.old (moment self.old) (name_at (slots self.old slot)))
            (images self.new (moment self.new) (name_at (slots self.old slot))) }
        ensures crash_others { SameOthers (name_at (slots self.old slot))
            (images self.old (moment self.old)) (images self.new (moment self.new)) }
        ensures time { Passes (moment self.old) (moment self.new) (images self.old) (images self.new) }
        ensures slots { SameSlots (slots self.old) (slots self.new) }
        ensures cause { HasCause (faults self.old) (faults self.new) (IsErr result) };

    /// Makes sure that what a read gives outlives a crash.
    fn sync(&mut self, slot: u32) -> Result<(), Failed>
        requires { IsSome (slots self.old slot) }
        ensures durable { OnOk result (Within
            (holds self.new (name_at (slots self.old slot)))
            (images self.new (moment self.new) (name_at (slots self.old slot)))) }
        ensures contents { SameContents (holds self.old) (holds self.new) }
        ensures tells { Tells (holds self.old) (holds self.new) }
        ensures crash { SameContents (images self.old (moment self.old))
            (images self.new (moment self.new)) }
        ensures time { Passes (moment self.old) (moment self.new) (images self.old) (images self.new) }
        ensures slots { SameSlots (slots self.old) (slots self.new) }
        ensures cause { HasCause (faults self.old) (faults self.new) (IsErr result) };
}
