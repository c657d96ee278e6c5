// The writes of a commit.
ghost use Rattle.std.specs.Prelude.{◌≡◌, ◌≢◌, ◌+◌, ◌<◌, ◌≤◌, ℕ, List, length, OnOk, OnErr, IsErr, Option, None};
ghost use Rattle.shelf.specs.Causes.{HasCause};
ghost use Rattle.shelf.specs.Disk.{SameSlots, Follows, name_at};
ghost use Rattle.state_file.specs.declared.block.DoneBlock.{DoneBlock};
ghost use Rattle.state_file.specs.declared.mark.Mark.TheVariants.{Shut, Ready, Open};
ghost use Rattle.state_file.specs.Blocks.{IsAt, AreBlocks, AreTrue, AreThere, AreOpened, AreMarked, AreClosed, Marks, PutsPixels, PutsShut, OpensGate};
ghost use Rattle.state_file.specs.Frames.{layout};
ghost use Rattle.state_file.specs.Marks.{Fits, mark_at};
ghost use Rattle.state_file.specs.Order.{HasRoom, KeepsOrder};

use crate::frame::Frame;
use crate::{DoneBlock, Mark};
use shelf::{Failed, Shelf};

/// Writes a block's pixels.
fn put_pixels<S: Shelf>(
    shelf: &mut S,
    slot: u32,
    frame: &Frame,
    marks: &[Mark],
    block: &DoneBlock,
) -> Result<(), Failed>
    requires room { HasRoom (layout frame.now) (S.slots shelf.old slot) }
    requires index { block.now.index < (layout frame.now).count }
    requires size { length block.now.pixels.items ≡ (layout frame.now).size block.now.index }
    requires shut { mark_at marks.now block.now.index ≡ Shut }
    requires fits { (c : List ℕ) → S.images shelf.old (S.moment shelf.old) (name_at (S.slots shelf.old slot)) c →
        Fits (layout frame.now) None marks.now c }
    ensures order { KeepsOrder S.moment S.images (name_at (S.slots shelf.old slot)) (layout frame.now)
        (λ _. Unit {0}) marks.now marks.now shelf.old shelf.new }
    ensures written { OnOk result (Follows (PutsPixels (layout frame.now) block.now)
        (S.holds shelf.old (name_at (S.slots shelf.old slot))) (S.holds shelf.new (name_at (S.slots shelf.old slot)))) }
    ensures slots { SameSlots (S.slots shelf.old) (S.slots shelf.new) }
    ensures cause { HasCause (S.faults shelf.old) (S.faults shelf.new) (IsErr result) }
{
    let _ = marks;
    shelf.write_at(slot, frame.pixels_at(block.index), &block.pixels)?;
    Ok(())
}

/// Writes the pixels of a block that is shut.
fn put_shut<S: Shelf>(
    shelf: &mut S,
    slot: u32,
    frame: &Frame,
    marks: &[Mark],
    block: &DoneBlock,
) -> Result<(), Failed>
    requires room { HasRoom (layout frame.now) (S.slots shelf.old slot) }
    requires marked { length marks.now ≡ (layout frame.now).count }
    requires index { block.now.index < (layout frame.now).count }
    requires size { length block.now.pixels.items ≡ (layout frame.now).size block.now.index }
    requires fits { (c : List ℕ) → S.images shelf.old (S.moment shelf.old) (name_at (S.slots shelf.old slot)) c →
        Fits (layout frame.now) None marks.now c }
    ensures order { KeepsOrder S.moment S.images (name_at (S.slots shelf.old slot)) (layout frame.now)
        (λ _. Unit {0}) marks.now marks.now shelf.old shelf.new }
    ensures written { OnOk result (Follows (PutsShut (layout frame.now) marks.now block.now)
        (S.holds shelf.old (name_at (S.slots shelf.old slot))) (S.holds shelf.new (name_at (S.slots shelf.old slot)))) }
    ensures slots { SameSlots (S.slots shelf.old) (S.slots shelf.new) }
    ensures cause { HasCause (S.faults shelf.old) (S.faults shelf.new) (IsErr result) }
{
    match marks[block.index as usize] {
        Mark::Shut => {
            put_pixels(shelf, slot, frame, marks, block)?;
            Ok(())
        }
        Mark::Ready => Ok(()),
        Mark::Open => Ok(()),
    }
}

/// Writes the pixels of each block that is shut.
pub(crate) fn write_pixels<S: Shelf>(
    shelf: &mut S,
    slot: u32,
    frame: &Frame,
    marks: &[Mark],
    blocks: &[DoneBlock],
) -> Result<(), Failed>
    requires room { HasRoom (layout frame.now) (S.slots shelf.old slot) }
    requires marked { length marks.now ≡ (layout frame.now).count }
    requires given { AreBlocks (layout frame.now) blocks.now }
    requires fits { (c : List ℕ) → S.images shelf.old (S.moment shelf.old) (name_at (S.slots shelf.old slot)) c →
        Fits (layout frame.now) None marks.now c }
    ensures order { KeepsOrder S.moment S.images (name_at (S.slots shelf.old slot)) (layout frame.now)
        (λ _. Unit {0}) marks.now marks.now shelf.old shelf.new }
    ensures there { OnOk result ((c : List ℕ) → S.holds shelf.new (name_at (S.slots shelf.old slot)) c →
        AreThere (layout frame.now) marks.now blocks.now (length blocks.now) c) }
    ensures slots { SameSlots (S.slots shelf.old) (S.slots shelf.new) }
    ensures cause { HasCause (S.faults shelf.old) (S.faults shelf.new) (IsErr result) }
{
    for block in blocks {
        put_shut(shelf, slot, frame, marks, block)?;
    }
    Ok(())
}

/// Notes a mark for each of these blocks.
fn mark_all(marks: &mut [Mark], blocks: &[DoneBlock], mark: Mark)
    requires { (j : ℕ) (block : DoneBlock) → IsAt blocks.now j block → block.index < length marks.old }
    ensures marks { Marks mark blocks.now marks.old marks.new }
{
    for block in blocks {
        marks[block.index as usize] = mark;
    }
}

/// Makes the pixels of these blocks safe.
pub(crate) fn settle<S: Shelf>(
    shelf: &mut S,
    slot: u32,
    frame: &Frame,
    marks: &mut [Mark],
    blocks: &[DoneBlock],
) -> Result<(), Failed>
    requires room { HasRoom (layout frame.now) (S.slots shelf.old slot) }
    requires marked { length marks.old ≡ (layout frame.now).count }
    requires given { AreBlocks (layout frame.now) blocks.now }
    requires closed { AreClosed blocks.now marks.old }
    requires there { (c : List ℕ) → S.holds shelf.old (name_at (S.slots shelf.old slot)) c →
        AreThere (layout frame.now) marks.old blocks.now (length blocks.now) c }
    ensures order { KeepsOrder S.moment S.images (name_at (S.slots shelf.old slot)) (layout frame.now)
        (AreTrue (layout frame.now) blocks.now) marks.old marks.new shelf.old shelf.new }
    ensures marks { OnOk result (Marks Ready blocks.now marks.old marks.new) }
    ensures same { OnErr result (marks.new ≡ marks.old) }
    ensures slots { SameSlots (S.slots shelf.old) (S.slots shelf.new) }
    ensures cause { HasCause (S.faults shelf.old) (S.faults shelf.new) (IsErr result) }
{
    let _ = frame;
    shelf.sync(slot)?;
    mark_all(marks, blocks, Mark::Ready);
    Ok(())
}

/// Opens a block's gate.
fn put_gate<S: Shelf>(
    shelf: &mut S,
    slot: u32,
    frame: &Frame,
    marks: &[Mark],
    block: u32,
) -> Result<(), Failed>
    requires room { HasRoom (layout frame.now) (S.slots shelf.old slot) }
    requires index { block < (layout frame.now).count }
    requires ready { mark_at marks.now block ≡ Ready }
    requires fits { (c : List ℕ) → S.images shelf.old (S.moment shelf.old) (name_at (S.slots shelf.old slot)) c →
        Fits (layout frame.now) None marks.now c }
    ensures order { KeepsOrder S.moment S.images (name_at (S.slots shelf.old slot)) (layout frame.now)
        (λ _. Unit {0}) marks.now marks.now shelf.old shelf.new }
    ensures written { OnOk result (Follows (OpensGate (layout frame.now) block)
        (S.holds shelf.old (name_at (S.slots shelf.old slot))) (S.holds shelf.new (name_at (S.slots shelf.old slot)))) }
    ensures slots { SameSlots (S.slots shelf.old) (S.slots shelf.new) }
    ensures cause { HasCause (S.faults shelf.old) (S.faults shelf.new) (IsErr result) }
{
    let _ = marks;
    shelf.write_at(slot, frame.gate_at(block), &[1])?;
    Ok(())
}

/// Opens the gates of these blocks.
pub(crate) fn write_gates<S: Shelf>(
    shelf: &mut S,
    slot: u32,
    frame: &Frame,
    marks: &[Mark],
    blocks: &[DoneBlock],
) -> Result<(), Failed>
    requires room { HasRoom (layout frame.now) (S.slots shelf.old slot) }
    requires given { AreBlocks (layout frame.now) blocks.now }
    requires ready { AreMarked Ready blocks.now marks.now }
    requires fits { (c : List ℕ) → S.images shelf.old (S.moment shelf.old) (name_at (S.slots shelf.old slot)) c →
        Fits (layout frame.now) None marks.now c }
    ensures order { KeepsOrder S.moment S.images (name_at (S.slots shelf.old slot)) (layout frame.now)
        (λ _. Unit {0}) marks.now marks.now shelf.old shelf.new }
    ensures opened { OnOk result ((c : List ℕ) → S.holds shelf.new (name_at (S.slots shelf.old slot)) c →
        AreOpened (layout frame.now) blocks.now (length blocks.now) c) }
    ensures slots { SameSlots (S.slots shelf.old) (S.slots shelf.new) }
    ensures cause { HasCause (S.faults shelf.old) (S.faults shelf.new) (IsErr result) }
{
    for block in blocks {
        put_gate(shelf, slot, frame, marks, block.index)?;
    }
    Ok(())
}

/// Makes sure that the gates of these blocks stand open.
pub(crate) fn finish<S: Shelf>(
    shelf: &mut S,
    slot: u32,
    frame: &Frame,
    marks: &mut [Mark],
    blocks: &[DoneBlock],
) -> Result<(), Failed>
    requires room { HasRoom (layout frame.now) (S.slots shelf.old slot) }
    requires marked { length marks.old ≡ (layout frame.now).count }
    requires given { AreBlocks (layout frame.now) blocks.now }
    requires ready { AreMarked Ready blocks.now marks.old }
    requires opened { (c : List ℕ) → S.holds shelf.old (name_at (S.slots shelf.old slot)) c →
        AreOpened (layout frame.now) blocks.now (length blocks.now) c }
    ensures order { KeepsOrder S.moment S.images (name_at (S.slots shelf.old slot)) (layout frame.now)
        (λ _. Unit {0}) marks.old marks.new shelf.old shelf.new }
    ensures marks { OnOk result (Marks Open blocks.now marks.old marks.new) }
    ensures same { OnErr result (marks.new ≡ marks.old) }
    ensures slots { SameSlots (S.slots shelf.old) (S.slots shelf.new) }
    ensures cause { HasCause (S.faults shelf.old) (S.faults shelf.new) (IsErr result) }
{
    let _ = frame;
    shelf.sync(slot)?;
    mark_all(marks, blocks, Mark::Open);
    Ok(())
}
