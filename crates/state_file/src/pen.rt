// The one writer of a state file.
ghost use Rattle.std.specs.Prelude.{◌≡◌, ◌≢◌, ◌<◌, ℕ, List, length, slice_index, false};
ghost use Rattle.shelf.specs.Disk.{name_at};
ghost use Rattle.state_file.specs.declared.mark.Mark.TheVariants.{Ready, Open};
ghost use Rattle.state_file.specs.Frames.{layout};
ghost use Rattle.state_file.specs.Marks.{Fits, mark_at, believed};
ghost use Rattle.state_file.specs.Order.{HasRoom};

use crate::Mark;
use crate::frame::Frame;
use shelf::Shelf;

/// A state file that is held open for one frame, with what is known of its blocks. There is one
/// pen for it, and only a pen writes it.
#[derive(Drop)]
pub struct Pen<S: Shelf> {
    pub(crate) shelf: S,
    pub(crate) slot: u32,
    pub(crate) frame: Frame,
    pub(crate) marks: Vec<Mark>,
    pub(crate) picture: Vec<u8>,
    pub(crate) failed: bool,
    ghost room: { HasRoom (layout frame) (S.slots shelf slot) },
    ghost marked: { length marks.items ≡ (layout frame).count },
    ghost drawn: { length picture.items ≡ (layout frame).picture },
    ghost fits: { (c : List ℕ) → S.images shelf (S.moment shelf) (name_at (S.slots shelf slot)) c →
        Fits (layout frame) (believed failed picture.items) marks.items c },
    ghost calm: { failed ≡ false → (b : ℕ) → mark_at marks.items b ≢ Ready },
    ghost blank: { (b k : ℕ) → b < (layout frame).count → mark_at marks.items b ≢ Open → k < (layout frame).size b →
        slice_index picture.items ((layout frame).spot b k) ≡ 0 },
}
