// A state file looked at, and made anew or read.
ghost use Rattle.std.specs.Prelude.{◌≡◌, ◌+◌, ◌<◌, ◌≤◌, ℕ, List, length, slice_index, IfOk, IsErr, Bool, true, false};
ghost use Rattle.shelf.specs.Causes.{HasCause};
ghost use Rattle.shelf.specs.Disk.{SameContents, SameSlots, name_at};
ghost use Rattle.state_file.specs.Attaching.{IsAttached, IsForeign, IsLeft, IsRenewed};
ghost use Rattle.state_file.specs.Frames.{layout};
ghost use Rattle.state_file.specs.Layout.{IsAcknowledged, IsOpenBlock};
ghost use Rattle.state_file.specs.Opening.{IsMade, Ran, Read};
ghost use Rattle.state_file.specs.Order.{HasRoom};

use crate::attached::Attached;
use crate::found::Found;
use crate::frame::Frame;
use crate::load::load;
use crate::look::look;
use crate::make::make;
use shelf::{Failed, Shelf};

/// All but the first byte.
fn body_of(image: &[u8]) -> &[u8]
    requires { 1 ≤ length image.now }
    ensures long { 1 + length result.now ≡ length image.now }
    ensures bytes { (k : ℕ) → k < length result.now → slice_index result.now k ≡ slice_index image.now (1 + k) }
{
    &image[1..]
}

/// Looks at the file and makes it anew or reads it whole. `image` is a fresh file before, and the
/// whole file where it was read; `front` has room for all but gates and pixels.
pub(crate) fn attach<S: Shelf>(
    shelf: &mut S,
    slot: u32,
    frame: &Frame,
    image: &mut [u8],
    front: &mut [u8],
    resume: bool,
) -> Result<Attached, Failed>
    requires room { HasRoom (layout frame.now) (S.slots shelf.old slot) }
    requires long { length image.old ≡ (layout frame.now).all }
    requires head { (k : ℕ) → k < length (layout frame.now).head →
        slice_index image.old (1 + k) ≡ slice_index (layout frame.now).head k }
    requires blank { (k : ℕ) → 1 + length (layout frame.now).head ≤ k → slice_index image.old k ≡ 0 }
    requires front { length front.old ≡ (layout frame.now).gates }
    ensures attached { IfOk result (λ attached. (c : List ℕ) →
        S.images shelf.new (S.moment shelf.new) (name_at (S.slots shelf.old slot)) c → IsLeft (layout frame.now) image.new c attached) }
    ensures read { IfOk result (λ attached. Read (S.holds shelf.old (name_at (S.slots shelf.old slot)))
        (λ c. IsAttached (layout frame.now) resume image.new c attached)) }
    ensures anew { IfOk result (λ attached. resume ≡ false → IsRenewed attached) }
    ensures foreign { IfOk result (λ attached. IsForeign attached →
        SameContents (S.images shelf.old (S.moment shelf.old)) (S.images shelf.new (S.moment shelf.new))) }
    ensures same { IfOk result (λ attached. IsForeign attached → SameContents (S.holds shelf.old) (S.holds shelf.new)) }
    ensures ran { Ran S.moment S.images (name_at (S.slots shelf.old slot)) (IsMade (layout frame.now)
        (S.images shelf.old (S.moment shelf.old) (name_at (S.slots shelf.old slot)))) shelf.old shelf.new }
    ensures kept { resume ≡ true → (b : ℕ) →
        IsAcknowledged (layout frame.now) b (S.holds shelf.old (name_at (S.slots shelf.old slot)))
        (S.images shelf.old (S.moment shelf.old) (name_at (S.slots shelf.old slot))) →
        Ran S.moment S.images (name_at (S.slots shelf.old slot)) (IsOpenBlock (layout frame.now) b) shelf.old shelf.new }
    ensures reads { (c : List ℕ) → S.holds shelf.new (name_at (S.slots shelf.old slot)) c →
        IsMade (layout frame.now) (S.holds shelf.old (name_at (S.slots shelf.old slot))) c }
    ensures long { length image.new ≡ length image.old }
    ensures slots { SameSlots (S.slots shelf.old) (S.slots shelf.new) }
    ensures cause { HasCause (S.faults shelf.old) (S.faults shelf.new) (IsErr result) }
{
    match look(shelf, slot, frame, image, front, resume)? {
        Found::New { size, gate } => {
            make(shelf, slot, frame, size, gate, body_of(image))?;
            Ok(Attached::Fresh)
        }
        Found::Other { place, kept } => Ok(Attached::Other { place, kept }),
        Found::Same => {
            load(shelf, slot, frame, image)?;
            Ok(Attached::Loaded)
        }
    }
}
