// A commit, step by step.
ghost use Rattle.std.specs.Prelude.{◌≡◌, ◌≢◌, ◌+◌, ◌<◌, ◌≤◌, ℕ, List, length, OnOk, OnErr, IsErr, Option, None};
ghost use Rattle.shelf.specs.Causes.{HasCause};
ghost use Rattle.shelf.specs.Disk.{SameSlots, name_at};
ghost use Rattle.state_file.specs.declared.mark.Mark.TheVariants.{Shut, Ready, Open};
ghost use Rattle.state_file.specs.Blocks.{AreBlocks, AreTrue, AreMarked, AreClosed, Marks, MarksOnly};
ghost use Rattle.state_file.specs.Frames.{layout};
ghost use Rattle.state_file.specs.Marks.{Fits, mark_at};
ghost use Rattle.state_file.specs.Order.{HasRoom, KeepsOrder};

use crate::frame::Frame;
use crate::write::{finish, settle, write_gates, write_pixels};
use crate::{DoneBlock, Mark};
use shelf::{Failed, Shelf};

/// Writes the pixels of these blocks and makes them safe.
fn save_pixels<S: Shelf>(
    shelf: &mut S,
    slot: u32,
    frame: &Frame,
    marks: &mut [Mark],
    blocks: &[DoneBlock],
) -> Result<(), Failed>
    requires room { HasRoom (layout frame.now) (S.slots shelf.old slot) }
    requires marked { length marks.old ≡ (layout frame.now).count }
    requires given { AreBlocks (layout frame.now) blocks.now }
    requires closed { AreClosed blocks.now marks.old }
    requires fits { (c : List ℕ) → S.images shelf.old (S.moment shelf.old) (name_at (S.slots shelf.old slot)) c →
        Fits (layout frame.now) None marks.old c }
    ensures order { KeepsOrder S.moment S.images (name_at (S.slots shelf.old slot)) (layout frame.now)
        (AreTrue (layout frame.now) blocks.now) marks.old marks.new shelf.old shelf.new }
    ensures marks { OnOk result (Marks Ready blocks.now marks.old marks.new) }
    ensures same { OnErr result (marks.new ≡ marks.old) }
    ensures slots { SameSlots (S.slots shelf.old) (S.slots shelf.new) }
    ensures cause { HasCause (S.faults shelf.old) (S.faults shelf.new) (IsErr result) }
{
    write_pixels(shelf, slot, frame, marks, blocks)?;
    settle(shelf, slot, frame, marks, blocks)?;
    Ok(())
}

/// Opens the gates of these blocks and makes sure that they stand open.
fn open_gates<S: Shelf>(
    shelf: &mut S,
    slot: u32,
    frame: &Frame,
    marks: &mut [Mark],
    blocks: &[DoneBlock],
) -> Result<(), Failed>
    requires room { HasRoom (layout frame.now) (S.slots shelf.old slot) }
    requires marked { length marks.old ≡ (layout frame.now).count }
    requires given { AreBlocks (layout frame.now) blocks.now }
    requires ready { AreMarked Ready blocks.now marks.old }
    requires fits { (c : List ℕ) → S.images shelf.old (S.moment shelf.old) (name_at (S.slots shelf.old slot)) c →
        Fits (layout frame.now) None marks.old c }
    ensures order { KeepsOrder S.moment S.images (name_at (S.slots shelf.old slot)) (layout frame.now)
        (λ _. Unit {0}) marks.old marks.new shelf.old shelf.new }
    ensures marks { OnOk result (Marks Open blocks.now marks.old marks.new) }
    ensures same { OnErr result (marks.new ≡ marks.old) }
    ensures slots { SameSlots (S.slots shelf.old) (S.slots shelf.new) }
    ensures cause { HasCause (S.faults shelf.old) (S.faults shelf.new) (IsErr result) }
{
    write_gates(shelf, slot, frame, marks, blocks)?;
    finish(shelf, slot, frame, marks, blocks)?;
    Ok(())
}

/// Writes these blocks: first the pixels, then, once they are safe, the gates.
fn save<S: Shelf>(
    shelf: &mut S,
    slot: u32,
    frame: &Frame,
    marks: &mut [Mark],
    blocks: &[DoneBlock],
) -> Result<(), Failed>
    requires room { HasRoom (layout frame.now) (S.slots shelf.old slot) }
    requires marked { length marks.old ≡ (layout frame.now).count }
    requires given { AreBlocks (layout frame.now) blocks.now }
    requires closed { AreClosed blocks.now marks.old }
    requires fits { (c : List ℕ) → S.images shelf.old (S.moment shelf.old) (name_at (S.slots shelf.old slot)) c →
        Fits (layout frame.now) None marks.old c }
    ensures order { KeepsOrder S.moment S.images (name_at (S.slots shelf.old slot)) (layout frame.now)
        (AreTrue (layout frame.now) blocks.now) marks.old marks.new shelf.old shelf.new }
    ensures marks { OnOk result (Marks Open blocks.now marks.old marks.new) }
    ensures tried { OnErr result (MarksOnly Ready blocks.now marks.old marks.new) }
    ensures slots { SameSlots (S.slots shelf.old) (S.slots shelf.new) }
    ensures cause { HasCause (S.faults shelf.old) (S.faults shelf.new) (IsErr result) }
{
    save_pixels(shelf, slot, frame, marks, blocks)?;
    open_gates(shelf, slot, frame, marks, blocks)?;
    Ok(())
}

/// The same over a row of marks that owns them.
pub(crate) fn save_in<S: Shelf>(
    shelf: &mut S,
    slot: u32,
    frame: &Frame,
    marks: &mut Vec<Mark>,
    blocks: &[DoneBlock],
) -> Result<(), Failed>
    requires room { HasRoom (layout frame.now) (S.slots shelf.old slot) }
    requires marked { length marks.old.items ≡ (layout frame.now).count }
    requires given { AreBlocks (layout frame.now) blocks.now }
    requires closed { AreClosed blocks.now marks.old.items }
    requires fits { (c : List ℕ) → S.images shelf.old (S.moment shelf.old) (name_at (S.slots shelf.old slot)) c →
        Fits (layout frame.now) None marks.old.items c }
    ensures order { KeepsOrder S.moment S.images (name_at (S.slots shelf.old slot)) (layout frame.now)
        (AreTrue (layout frame.now) blocks.now) marks.old.items marks.new.items shelf.old shelf.new }
    ensures marks { OnOk result (Marks Open blocks.now marks.old.items marks.new.items) }
    ensures tried { OnErr result (MarksOnly Ready blocks.now marks.old.items marks.new.items) }
    ensures slots { SameSlots (S.slots shelf.old) (S.slots shelf.new) }
    ensures cause { HasCause (S.faults shelf.old) (S.faults shelf.new) (IsErr result) }
    ensures long { length marks.new.items ≡ length marks.old.items }
{
    save(shelf, slot, frame, marks, blocks)?;
    Ok(())
}
