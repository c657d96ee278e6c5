// A state file that is continued.
ghost use Rattle.std.specs.Prelude.{◌≡◌, ◌≢◌, ◌+◌, ◌<◌, ◌≤◌, ℕ, List, length, slice_index, slice_set, OnOk, IsErr};
ghost use Rattle.shelf.specs.Causes.{HasCause};
ghost use Rattle.shelf.specs.Disk.{SameContents, SameSlots, Tells, name_at};
ghost use Rattle.state_file.specs.declared.mark.Mark.TheVariants.{Open};
ghost use Rattle.state_file.specs.Frames.{layout};
ghost use Rattle.state_file.specs.Layout.{IsThisFrame};
ghost use Rattle.state_file.specs.Opening.{Ran};
ghost use Rattle.state_file.specs.Order.{HasRoom};
ghost use Rattle.state_file.specs.Taking.{IsTaken};

use crate::Mark;
use crate::frame::Frame;
use crate::lay::lay_bytes;
use shelf::{Failed, Shelf};

/// Reads the whole file.
pub(crate) fn load<S: Shelf>(
    shelf: &mut S,
    slot: u32,
    frame: &Frame,
    image: &mut [u8],
) -> Result<(), Failed>
    requires room { HasRoom (layout frame.now) (S.slots shelf.old slot) }
    requires long { length image.old ≡ (layout frame.now).all }
    requires same { (c : List ℕ) → S.holds shelf.old (name_at (S.slots shelf.old slot)) c → IsThisFrame (layout frame.now) c }
    ensures value { OnOk result ((c : List ℕ) → S.holds shelf.old (name_at (S.slots shelf.old slot)) c → image.new ≡ c) }
    ensures contents { SameContents (S.holds shelf.old) (S.holds shelf.new) }
    ensures tells { Tells (S.holds shelf.old) (S.holds shelf.new) }
    ensures crash { SameContents (S.images shelf.old (S.moment shelf.old)) (S.images shelf.new (S.moment shelf.new)) }
    ensures ran { Ran S.moment S.images (name_at (S.slots shelf.old slot))
        (S.images shelf.old (S.moment shelf.old) (name_at (S.slots shelf.old slot))) shelf.old shelf.new }
    ensures slots { SameSlots (S.slots shelf.old) (S.slots shelf.new) }
    ensures cause { HasCause (S.faults shelf.old) (S.faults shelf.new) (IsErr result) }
{
    let _ = frame;
    shelf.read(slot, 0, image)?;
    Ok(())
}

/// The place of a block's gate, which lies in the file.
fn gate_within(frame: &Frame, index: u32) -> usize
    requires { index < (layout frame.now).count }
    ensures value { result ≡ (layout frame.now).gates + index }
    ensures within { result < (layout frame.now).all }
{
    frame.gate_at(index) as usize
}

/// The place of a block's pixels, and where they end, in the file.
fn pixels_within(frame: &Frame, index: u32) -> (usize, usize)
    requires { index < (layout frame.now).count }
    ensures begins { result.0 ≡ (layout frame.now).pixels index }
    ensures ends { result.1 ≡ (layout frame.now).pixels index + (layout frame.now).size index }
    ensures within { result.1 ≤ (layout frame.now).all }
    ensures order { result.0 ≤ result.1 }
{
    let at = frame.pixels_at(index) as usize;
    (at, at + frame.size_of(index) as usize)
}

/// Takes over a block whose gate stands open.
fn take_block(frame: &Frame, image: &[u8], index: u32, marks: &mut [Mark], picture: &mut [u8])
    requires image { length image.now ≡ (layout frame.now).all }
    requires index { index < (layout frame.now).count }
    requires marked { length marks.old ≡ (layout frame.now).count }
    requires drawn { length picture.old ≡ (layout frame.now).picture }
    ensures closed_marks { slice_index image.now ((layout frame.now).gates + index) ≡ 0 → marks.new ≡ marks.old }
    ensures closed_picture { slice_index image.now ((layout frame.now).gates + index) ≡ 0 → picture.new ≡ picture.old }
    ensures marks { slice_index image.now ((layout frame.now).gates + index) ≢ 0 → marks.new ≡ slice_set marks.old index Mark.Open }
    ensures here { slice_index image.now ((layout frame.now).gates + index) ≢ 0 →
        (k : ℕ) → k < (layout frame.now).size index →
        slice_index picture.new ((layout frame.now).spot index k) ≡ slice_index image.now ((layout frame.now).pixels index + k) }
    ensures others { (b k : ℕ) → b < (layout frame.now).count → b ≢ index → k < (layout frame.now).size b →
        slice_index picture.new ((layout frame.now).spot b k) ≡ slice_index picture.old ((layout frame.now).spot b k) }
{
    if image[gate_within(frame, index)] == 0 {
        return;
    }
    marks[index as usize] = Mark::Open;
    let (from, to) = pixels_within(frame, index);
    lay_bytes(picture, frame, index, &image[from..to]);
}

/// Takes over each block whose gate stands open, over marks that are all shut and a blank picture.
fn take_blocks(frame: &Frame, image: &[u8], marks: &mut [Mark], picture: &mut [u8])
    requires image { length image.now ≡ (layout frame.now).all }
    requires marked { length marks.old ≡ (layout frame.now).count }
    requires drawn { length picture.old ≡ (layout frame.now).picture }
    requires start { IsTaken (layout frame.now) image.now 0 marks.old picture.old }
    ensures { IsTaken (layout frame.now) image.now (layout frame.now).count marks.new picture.new }
{
    for index in 0..frame.count() {
        take_block(frame, image, index, marks, picture);
    }
}

/// The same over marks and a picture that own their memory.
pub(crate) fn take_in(frame: &Frame, image: &[u8], marks: &mut Vec<Mark>, picture: &mut Vec<u8>)
    requires image { length image.now ≡ (layout frame.now).all }
    requires marked { length marks.old.items ≡ (layout frame.now).count }
    requires drawn { length picture.old.items ≡ (layout frame.now).picture }
    requires start { IsTaken (layout frame.now) image.now 0 marks.old.items picture.old.items }
    ensures taken { IsTaken (layout frame.now) image.now (layout frame.now).count marks.new.items picture.new.items }
    ensures marked { length marks.new.items ≡ length marks.old.items }
    ensures drawn { length picture.new.items ≡ length picture.old.items }
{
    take_blocks(frame, image, marks, picture);
}
