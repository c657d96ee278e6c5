// Opening a state file.
ghost use Rattle.std.specs.Prelude.{◌≡◌, ◌+◌, ◌^◌, ◌<◌, ◌≤◌, ℕ, Bool, List, length, slice_index, IfOk, IfErr, MatchResult, Some, true, false};
ghost use Rattle.std.specs.Vec.{vec_len};
ghost use Rattle.shelf.specs.Causes.{HasCause};
ghost use Rattle.shelf.specs.Disk.{Held, Holds, IsFree, SameContents, SameSlots, name_at};
ghost use Rattle.state_file.specs.declared.mark.Mark.TheVariants.{Shut};
ghost use Rattle.state_file.specs.declared.fault.OpenFault.TheVariants.{ShelfFault};
ghost use Rattle.state_file.specs.Frames.{layout};
ghost use Rattle.state_file.specs.Layout.{IsAcknowledged, IsHonest, IsOpenBlock, IsOwn};
ghost use Rattle.state_file.specs.Marks.{mark_at};
ghost use Rattle.state_file.specs.Opened.{IsForeignFault, IsReadAs, IsRefused};
ghost use Rattle.state_file.specs.Opening.{IsMade, Ran, Read};
ghost use Rattle.state_file.specs.Order.{HasRoom};
ghost use Rattle.state_file.specs.Pens.{knows_open};
ghost use Rattle.state_file.specs.Shape.{IsInLimits, layout_of};

use crate::attach::attach;
use crate::attached::Attached;
use crate::frame::Frame;
use crate::load::take_in;
use crate::room::{Room, make_room};
use crate::{Geometry, Mark, OpenFault, Pen};
use shelf::{Failed, HoldFail, Shelf};
use std::alloc::Global;

/// Makes a pen of a file that is held.
fn enter<S: Shelf>(
    shelf: S,
    slot: u32,
    frame: Frame,
    marks: Vec<Mark>,
    picture: Vec<u8>,
    image: &mut [u8],
    front: &mut [u8],
    resume: bool,
) -> Result<Pen<S>, (OpenFault, S)>
    requires room { HasRoom (layout frame) (S.slots shelf slot) }
    requires marked { length marks.items ≡ (layout frame).count }
    requires shut { (b : ℕ) → mark_at marks.items b ≡ Shut }
    requires drawn { length picture.items ≡ (layout frame).picture }
    requires bare { (k : ℕ) → slice_index picture.items k ≡ 0 }
    requires long { length image.old ≡ (layout frame).all }
    requires head { (k : ℕ) → k < length (layout frame).head →
        slice_index image.old (1 + k) ≡ slice_index (layout frame).head k }
    requires blank { (k : ℕ) → 1 + length (layout frame).head ≤ k → slice_index image.old k ≡ 0 }
    requires front { length front.old ≡ (layout frame).gates }
    ensures frame { IfOk result (λ pen. pen.frame ≡ frame) }
    ensures slot { IfOk result (λ pen. pen.slot ≡ slot) }
    ensures failed { IfOk result (λ pen. pen.failed ≡ false) }
    ensures read { IfOk result (λ pen. Read (S.holds shelf (name_at (S.slots shelf slot))) (λ c. IsReadAs resume pen c)) }
    ensures nothing { IfOk result (λ pen. resume ≡ false → (b : ℕ) → ¬ (knows_open pen b)) }
    ensures refused { IfErr result (λ e. IsRefused (layout frame) resume (S.holds shelf (name_at (S.slots shelf slot))) e.0) }
    ensures foreign { IfErr result (λ e. IsForeignFault e.0 →
        SameContents (S.images shelf (S.moment shelf)) (S.images e.1 (S.moment e.1))) }
    ensures same { IfErr result (λ e. IsForeignFault e.0 → SameContents (S.holds shelf) (S.holds e.1)) }
    ensures ran { MatchResult result
        (λ pen. Ran S.moment S.images (name_at (S.slots shelf slot)) (IsMade (layout frame)
        (S.images shelf (S.moment shelf) (name_at (S.slots shelf slot)))) shelf pen.shelf)
        (λ e. Ran S.moment S.images (name_at (S.slots shelf slot)) (IsMade (layout frame)
        (S.images shelf (S.moment shelf) (name_at (S.slots shelf slot)))) shelf e.1) }
    ensures kept { resume ≡ true → (b : ℕ) →
        IsAcknowledged (layout frame) b (S.holds shelf (name_at (S.slots shelf slot)))
        (S.images shelf (S.moment shelf) (name_at (S.slots shelf slot))) →
        MatchResult result
        (λ pen. Ran S.moment S.images (name_at (S.slots shelf slot)) (IsOpenBlock (layout frame) b) shelf pen.shelf)
        (λ e. Ran S.moment S.images (name_at (S.slots shelf slot)) (IsOpenBlock (layout frame) b) shelf e.1) }
    ensures reads { MatchResult result
        (λ pen. (c : List ℕ) → S.holds pen.shelf (name_at (S.slots shelf slot)) c →
        IsMade (layout frame) (S.holds shelf (name_at (S.slots shelf slot))) c)
        (λ e. (c : List ℕ) → S.holds e.1 (name_at (S.slots shelf slot)) c →
        IsMade (layout frame) (S.holds shelf (name_at (S.slots shelf slot))) c) }
    ensures slots { MatchResult result (λ pen. SameSlots (S.slots shelf) (S.slots pen.shelf)) (λ e. SameSlots (S.slots shelf) (S.slots e.1)) }
    ensures cause { MatchResult result (λ pen. S.faults shelf ≤ S.faults pen.shelf)
        (λ e. HasCause (S.faults shelf) (S.faults e.1) (e.0 ≡ OpenFault.ShelfFault)) }
{
    let mut shelf = shelf;
    let mut marks = marks;
    let mut picture = picture;
    match attach(&mut shelf, slot, &frame, image, front, resume) {
        Ok(Attached::Fresh) => Ok(Pen {
            shelf,
            slot,
            frame,
            marks,
            picture,
            failed: false,
        }),
        Ok(Attached::Loaded) => {
            take_in(&frame, image, &mut marks, &mut picture);
            Ok(Pen {
                shelf,
                slot,
                frame,
                marks,
                picture,
                failed: false,
            })
        }
        Ok(Attached::Other { place, kept }) => Err((OpenFault::OtherState { place, kept }, shelf)),
        Err(Failed) => Err((OpenFault::ShelfFault, shelf)),
    }
}

/// Takes the memory, holds the file and enters it.
fn begin<S: Shelf>(
    alloc: Global,
    shelf: S,
    name: &[u8],
    key: Vec<u8>,
    g: Geometry,
    resume: bool,
) -> Result<Pen<S>, (OpenFault, S)>
    requires limits { IsInLimits g }
    requires short { vec_len key ≤ 2 ^ 25 }
    requires free { IsFree (S.slots shelf) name.now }
    ensures frame { IfOk result (λ pen. (pen.frame.geometry ≡ g) × (pen.frame.key ≡ key)) }
    ensures failed { IfOk result (λ pen. pen.failed ≡ false) }
    ensures held { IfOk result (λ pen. Holds (S.slots shelf) (S.slots pen.shelf) pen.slot name.now (layout_of g key.items).all) }
    ensures read { IfOk result (λ pen. Read (S.holds shelf name.now) (λ c. IsReadAs resume pen c)) }
    ensures nothing { IfOk result (λ pen. resume ≡ false → (b : ℕ) → ¬ (knows_open pen b)) }
    ensures refused { IfErr result (λ e. IsRefused (layout_of g key.items) resume (S.holds shelf name.now) e.0) }
    ensures foreign { IfErr result (λ e. IsForeignFault e.0 →
        SameContents (S.images shelf (S.moment shelf)) (S.images e.1 (S.moment e.1))) }
    ensures same { IfErr result (λ e. IsForeignFault e.0 → SameContents (S.holds shelf) (S.holds e.1)) }
    ensures ran { MatchResult result
        (λ pen. Ran S.moment S.images name.now (IsMade (layout_of g key.items) (S.images shelf (S.moment shelf) name.now)) shelf pen.shelf)
        (λ e. Ran S.moment S.images name.now (IsMade (layout_of g key.items) (S.images shelf (S.moment shelf) name.now)) shelf e.1) }
    ensures kept { resume ≡ true → (b : ℕ) →
        IsAcknowledged (layout_of g key.items) b (S.holds shelf name.now) (S.images shelf (S.moment shelf) name.now) →
        MatchResult result
        (λ pen. Ran S.moment S.images name.now (IsOpenBlock (layout_of g key.items) b) shelf pen.shelf)
        (λ e. Ran S.moment S.images name.now (IsOpenBlock (layout_of g key.items) b) shelf e.1) }
    ensures reads { MatchResult result
        (λ pen. (c : List ℕ) → S.holds pen.shelf name.now c → IsMade (layout_of g key.items) (S.holds shelf name.now) c)
        (λ e. (c : List ℕ) → S.holds e.1 name.now c → IsMade (layout_of g key.items) (S.holds shelf name.now) c) }
    ensures slots { IfErr result (λ e. (k : ℕ) (h : Held) → S.slots shelf k ≡ Some h → S.slots e.1 k ≡ Some h) }
    ensures cause { MatchResult result (λ pen. S.faults shelf ≤ S.faults pen.shelf)
        (λ e. HasCause (S.faults shelf) (S.faults e.1) (e.0 ≡ OpenFault.ShelfFault)) }
{
    let mut shelf = shelf;
    let frame = Frame::new(g, key);
    let Ok(room) = make_room(alloc, &frame) else {
        return Err((OpenFault::NoMemory, shelf));
    };
    let Room {
        marks,
        picture,
        mut image,
        mut front,
    } = room;
    match shelf.hold(alloc, name, frame.length()) {
        Ok(slot) => enter(
            shelf, slot, frame, marks, picture, &mut image, &mut front, resume,
        ),
        Err(HoldFail::Failed) => Err((OpenFault::ShelfFault, shelf)),
        Err(HoldFail::NoMemory) => Err((OpenFault::NoMemory, shelf)),
    }
}

/// Opens the state file of a frame, under a further slot: with `resume` it is continued where it
/// stands open, else it is made anew. The file is synced before what was read of it counts. `name`
/// is its name, `key` what the picture shows, and `g` its shape.
pub fn open<S: Shelf>(
    alloc: Global,
    shelf: S,
    name: &[u8],
    key: Vec<u8>,
    g: Geometry,
    resume: bool,
) -> Result<Pen<S>, (OpenFault, S)>
    requires limits { IsInLimits g }
    requires short { vec_len key ≤ 2 ^ 25 }
    requires free { IsFree (S.slots shelf) name.now }
    ensures frame { IfOk result (λ pen. (pen.frame.geometry ≡ g) × (pen.frame.key ≡ key)) }
    ensures failed { IfOk result (λ pen. pen.failed ≡ false) }
    ensures held { IfOk result (λ pen. Holds (S.slots shelf) (S.slots pen.shelf) pen.slot name.now (layout_of g key.items).all) }
    ensures read { IfOk result (λ pen. Read (S.holds shelf name.now) (λ c. IsReadAs resume pen c)) }
    ensures nothing { IfOk result (λ pen. resume ≡ false → (b : ℕ) → ¬ (knows_open pen b)) }
    ensures refused { IfErr result (λ e. IsRefused (layout_of g key.items) resume (S.holds shelf name.now) e.0) }
    ensures foreign { IfErr result (λ e. IsForeignFault e.0 →
        SameContents (S.images shelf (S.moment shelf)) (S.images e.1 (S.moment e.1))) }
    ensures same { IfErr result (λ e. IsForeignFault e.0 → SameContents (S.holds shelf) (S.holds e.1)) }
    ensures ran { MatchResult result
        (λ pen. Ran S.moment S.images name.now (IsMade (layout_of g key.items) (S.images shelf (S.moment shelf) name.now)) shelf pen.shelf)
        (λ e. Ran S.moment S.images name.now (IsMade (layout_of g key.items) (S.images shelf (S.moment shelf) name.now)) shelf e.1) }
    ensures kept { resume ≡ true → (b : ℕ) →
        IsAcknowledged (layout_of g key.items) b (S.holds shelf name.now) (S.images shelf (S.moment shelf) name.now) →
        MatchResult result
        (λ pen. Ran S.moment S.images name.now (IsOpenBlock (layout_of g key.items) b) shelf pen.shelf)
        (λ e. Ran S.moment S.images name.now (IsOpenBlock (layout_of g key.items) b) shelf e.1) }
    ensures slots { IfErr result (λ e. (k : ℕ) (h : Held) → S.slots shelf k ≡ Some h → S.slots e.1 k ≡ Some h) }
    ensures cause { MatchResult result (λ pen. S.faults shelf ≤ S.faults pen.shelf)
        (λ e. HasCause (S.faults shelf) (S.faults e.1) (e.0 ≡ OpenFault.ShelfFault)) }
    ensures acknowledged { IfErr result (λ e. (b : ℕ) → b < (layout_of g key.items).count →
        IsAcknowledged (layout_of g key.items) b (S.holds e.1 name.now) (S.images e.1 (S.moment e.1) name.now) →
        (d : List ℕ) × S.holds shelf name.now d × IsOpenBlock (layout_of g key.items) b d) }
    ensures honest { (picture : List ℕ) → ((c : List ℕ) → S.images shelf (S.moment shelf) name.now c → IsHonest (layout_of g key.items) picture c) →
        MatchResult result (λ pen. Ran S.moment S.images name.now (IsHonest (layout_of g key.items) picture) shelf pen.shelf)
        (λ e. Ran S.moment S.images name.now (IsHonest (layout_of g key.items) picture) shelf e.1) }
    ensures own { ((c : List ℕ) → S.images shelf (S.moment shelf) name.now c → IsOwn (layout_of g key.items) c) →
        MatchResult result (λ pen. Ran S.moment S.images name.now (IsOwn (layout_of g key.items)) shelf pen.shelf)
        (λ e. Ran S.moment S.images name.now (IsOwn (layout_of g key.items)) shelf e.1) }
{
    begin(alloc, shelf, name, key, g, resume)
}
