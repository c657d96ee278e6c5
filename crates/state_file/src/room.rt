// The memory that a pen takes.
ghost use Rattle.std.specs.Prelude.{◌≡◌, ◌+◌, ◌<◌, ◌≤◌, ℕ, List, length, slice_index, IfOk};
ghost use Rattle.state_file.specs.declared.mark.Mark.TheVariants.{Shut};
ghost use Rattle.state_file.specs.Frames.{layout};
ghost use Rattle.state_file.specs.Marks.{mark_at};

use crate::Mark;
use crate::frame::{Frame, picture_size};
use crate::head::fresh_file;
use std::alloc::{AllocError, Global};

/// What a pen takes: a mark a block, a picture, a whole file, and the file's front.
#[derive(Drop)]
pub(crate) struct Room {
    pub(crate) marks: Vec<Mark>,
    pub(crate) picture: Vec<u8>,
    pub(crate) image: Vec<u8>,
    pub(crate) front: Vec<u8>,
}

/// A mark a block, all shut.
fn shut_marks(alloc: Global, frame: &Frame) -> Result<Vec<Mark>, AllocError>
    ensures long { IfOk result (λ marks. length marks.items ≡ (layout frame.now).count) }
    ensures shut { IfOk result (λ marks. (b : ℕ) → mark_at marks.items b ≡ Shut) }
{
    let mut marks = Vec::new(alloc);
    marks.resize(frame.count() as usize, Mark::Shut)?;
    Ok(marks)
}

/// A picture of zero bytes.
fn blank_picture(alloc: Global, frame: &Frame) -> Result<Vec<u8>, AllocError>
    ensures long { IfOk result (λ picture. length picture.items ≡ (layout frame.now).picture) }
    ensures blank { IfOk result (λ picture. (k : ℕ) → slice_index picture.items k ≡ 0) }
{
    let mut picture = Vec::new(alloc);
    picture.resize(picture_size(&frame.geometry) as usize, 0)?;
    Ok(picture)
}

/// Room for all but gates and pixels.
fn front_room(alloc: Global, frame: &Frame) -> Result<Vec<u8>, AllocError>
    ensures { IfOk result (λ front. length front.items ≡ (layout frame.now).gates) }
{
    let mut front = Vec::new(alloc);
    front.resize(18 + frame.key.len(), 0)?;
    Ok(front)
}

pub(crate) fn make_room(alloc: Global, frame: &Frame) -> Result<Room, AllocError>
    ensures marked { IfOk result (λ room. length room.marks.items ≡ (layout frame.now).count) }
    ensures shut { IfOk result (λ room. (b : ℕ) → mark_at room.marks.items b ≡ Shut) }
    ensures drawn { IfOk result (λ room. length room.picture.items ≡ (layout frame.now).picture) }
    ensures blank { IfOk result (λ room. (k : ℕ) → slice_index room.picture.items k ≡ 0) }
    ensures long { IfOk result (λ room. length room.image.items ≡ (layout frame.now).all) }
    ensures head { IfOk result (λ room. (k : ℕ) → k < length (layout frame.now).head →
        slice_index room.image.items (1 + k) ≡ slice_index (layout frame.now).head k) }
    ensures bare { IfOk result (λ room. (k : ℕ) → 1 + length (layout frame.now).head ≤ k →
        slice_index room.image.items k ≡ 0) }
    ensures front { IfOk result (λ room. length room.front.items ≡ (layout frame.now).gates) }
{
    let marks = shut_marks(alloc, frame)?;
    let picture = blank_picture(alloc, frame)?;
    let image = fresh_file(alloc, frame)?;
    let front = front_room(alloc, frame)?;
    Ok(Room {
        marks,
        picture,
        image,
        front,
    })
}
