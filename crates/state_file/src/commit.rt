// Commits, and what a pen answers.
ghost use Rattle.std.specs.Prelude.{◌≡◌, ◌≢◌, ◌<◌, ◌↔◌, ◌⊎◌, ◌||◌, ◌++◌, ◌∷◌, [], IsTrue, IsErr, IfOk, OnOk, OnErr, ℕ, List, length, slice_index, is_err};
ghost use Rattle.shelf.specs.Causes.{HasCause};
ghost use Rattle.shelf.specs.Disk.{SameSlots};
ghost use Rattle.state_file.specs.Blocks.{IsAt, AreBlocks, AreClosed, IsNamed, IsTrueBlock};
ghost use Rattle.state_file.specs.Layout.{IsOpenBlock};
ghost use Rattle.state_file.specs.declared.block.DoneBlock.{DoneBlock};

use crate::lay::lay_in;
use crate::save::save_in;
use crate::{DoneBlock, Mark, Pen};
use shelf::{Failed, Shelf};
use std::alloc::{AllocError, Global};

impl<S: Shelf> Pen<S> {
    ghost use Rattle.state_file.specs.Pens.{knows_open, is_tried, layout_in, name_in, images_in, StaysInOrder, StaysSafe, BeginsInOrder, IsTodo};

    /// The numbers of the blocks that aren't known to be open, ascending.
    pub fn todo(&self, alloc: Global) -> Result<Vec<u32>, AllocError>
        ensures { IfOk result (λ list. IsTodo self.now list.items) }
    {
        let mut list = Vec::new(alloc);
        for (index, mark) in self.marks.iter().enumerate() {
            note_left(&mut list, index as u32, mark)?;
        }
        Ok(list)
    }

    /// Whether the block is known to be open: it was open when the file was opened, or a commit
    /// that succeeded has named it.
    pub fn knows(&self, index: u32) -> bool
        requires { index < (layout_in self.now).count }
        ensures { IsTrue result ↔ knows_open self.now index }
    {
        matches!(self.marks[index as usize], Mark::Open)
    }

    /// The picture by rows. Blocks that aren't known to be open are zero bytes.
    pub fn picture(&self) -> &[u8]
        ensures value { result.now ≡ self.now.picture.items }
        ensures long { length result.now ≡ (layout_in self.now).picture }
        ensures blank { (b k : ℕ) → b < (layout_in self.now).count → ¬ (knows_open self.now b) →
            k < (layout_in self.now).size b → slice_index result.now ((layout_in self.now).spot b k) ≡ 0 }
    {
        &self.picture
    }

    /// Whether a commit has failed.
    pub fn failed(&self) -> bool
        ensures value { result ≡ self.now.failed }
        ensures begins { BeginsInOrder self.now }
    {
        self.failed
    }

    /// The storage, and the picture.
    pub fn into_shelf(self) -> (S, Vec<u8>)
        ensures shelf { result.0 ≡ self.shelf }
        ensures picture { result.1 ≡ self.picture }
    {
        let Pen {
            shelf,
            slot: _,
            frame: _,
            marks: _,
            picture,
            failed: _,
        } = self;
        (shelf, picture)
    }

    /// Writes these blocks. After Ok each stands open, whatever a crash leaves. After Failed each
    /// may stand open or not, and the pen can be used again. No other block's gate is touched.
    pub fn commit(self, blocks: &[DoneBlock]) -> (Pen<S>, Result<(), Failed>)
        requires given { AreBlocks (layout_in self) blocks.now }
        requires closed { AreClosed blocks.now self.marks.items }
        ensures order { StaysInOrder blocks.now self result.0 }
        ensures moments { StaysSafe self result.0 }
        ensures opened { OnOk result.1 ((c : List ℕ) → images_in result.0 c → (b : ℕ) → IsNamed blocks.now b →
            IsOpenBlock (layout_in self) b c) }
        ensures known { OnOk result.1 ((b : ℕ) → knows_open result.0 b ↔ (knows_open self b ⊎ IsNamed blocks.now b)) }
        ensures no_more { OnErr result.1 ((b : ℕ) → knows_open result.0 b ↔ knows_open self b) }
        ensures tried { (b : ℕ) → is_tried result.0 b → is_tried self b ⊎ (IsErr result.1 × IsNamed blocks.now b) }
        ensures drawn { OnOk result.1 ((j : ℕ) (block : DoneBlock) → IsAt blocks.now j block →
            IsTrueBlock (layout_in self) result.0.picture.items block) }
        ensures kept { (b k : ℕ) → b < (layout_in self).count → ¬ (IsNamed blocks.now b) → k < (layout_in self).size b →
            slice_index result.0.picture.items ((layout_in self).spot b k)
            ≡ slice_index self.picture.items ((layout_in self).spot b k) }
        ensures undrawn { OnErr result.1 (result.0.picture ≡ self.picture) }
        ensures failed { result.0.failed ≡ (self.failed || is_err result.1) }
        ensures frame { result.0.frame ≡ self.frame }
        ensures slot { result.0.slot ≡ self.slot }
        ensures slots { SameSlots (S.slots self.shelf) (S.slots result.0.shelf) }
        ensures cause { HasCause (S.faults self.shelf) (S.faults result.0.shelf) (IsErr result.1) }
    {
        let Pen {
            mut shelf,
            slot,
            frame,
            mut marks,
            mut picture,
            failed,
        } = self;
        let result = save_in(&mut shelf, slot, &frame, &mut marks, blocks);
        match result {
            Ok(()) => {
                lay_in(&mut picture, &frame, blocks);
                let pen = Pen {
                    shelf,
                    slot,
                    frame,
                    marks,
                    picture,
                    failed,
                };
                (pen, Ok(()))
            }
            Err(Failed) => {
                let pen = Pen {
                    shelf,
                    slot,
                    frame,
                    marks,
                    picture,
                    failed: true,
                };
                (pen, Err(Failed))
            }
        }
    }
}

/// Appends the block's number, where it isn't known to be open.
fn note_left(list: &mut Vec<u32>, index: u32, mark: &Mark) -> Result<(), AllocError>
    ensures known { OnOk result (mark.now ≡ Mark.Open → list.new.items ≡ list.old.items) }
    ensures left { OnOk result (mark.now ≢ Mark.Open → list.new.items ≡ list.old.items ++ index ∷ []) }
{
    match mark {
        Mark::Open => Ok(()),
        Mark::Ready => {
            list.push(index)?;
            Ok(())
        }
        Mark::Shut => {
            list.push(index)?;
            Ok(())
        }
    }
}
