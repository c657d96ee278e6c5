// What stands in a state file.
ghost use Rattle.std.specs.Prelude.{◌≡◌, ◌≢◌, ◌+◌, ◌-◌, ◌<◌, ◌≤◌, ℕ, List, length, slice_index, min, OnOk, IfOk, IfSome, IfNone, IsErr, IsSome, IsTrue, true, false};
ghost use Rattle.shelf.specs.Causes.{HasCause};
ghost use Rattle.shelf.specs.Disk.{SameContents, SameSlots, Tells, Within, name_at};
ghost use Rattle.state_file.specs.Finding.{IsAnew, IsFound, IsFront};
ghost use Rattle.state_file.specs.Frames.{layout};
ghost use Rattle.state_file.specs.Opening.{Ran};
ghost use Rattle.state_file.specs.Order.{HasRoom};

use crate::found::Found;
use crate::frame::Frame;
use shelf::{Failed, Shelf};

/// Whether two rows agree from the second byte on, as far as the first one goes.
fn agree(a: &[u8], b: &[u8]) -> bool
    requires some { 1 ≤ length a.now }
    requires room { length a.now ≤ length b.now }
    ensures { IsTrue result → (k : ℕ) → 0 < k → k < length a.now → slice_index a.now k ≡ slice_index b.now k }
{
    a[1..] == b[1..a.len()]
}

/// The first place from the second byte on at which two rows differ.
fn first_difference(a: &[u8], b: &[u8]) -> Option<usize>
    requires some { 1 ≤ length a.now }
    requires room { length a.now ≤ length b.now }
    ensures some { IfSome result (λ at. (0 < at) × (at < length a.now) × (slice_index a.now at ≢ slice_index b.now at)
        × ((k : ℕ) → 0 < k → k < at → slice_index a.now k ≡ slice_index b.now k)) }
    ensures none { IfNone result ((k : ℕ) → 0 < k → k < length a.now → slice_index a.now k ≡ slice_index b.now k) }
{
    if agree(a, b) {
        return None;
    }
    for i in 1..a.len() {
        if a[i] != b[i] {
            return Some(i);
        }
    }
    None
}

/// Whether the file is made anew.
fn is_new(front: &[u8], resume: bool) -> bool
    ensures new { IsTrue result → resume ≡ true → 2 ≤ length front.now → slice_index front.now 0 ≡ 0 }
    ensures kept { result ≡ false → (resume ≡ true) × (2 ≤ length front.now) × (slice_index front.now 0 ≢ 0) }
{
    if !resume {
        return true;
    }
    if front.len() < 2 {
        return true;
    }
    front[0] == 0
}

/// The first byte, where there is one.
fn gate_of(front: &[u8]) -> u8
    ensures { result ≡ slice_index front.now 0 }
{
    if front.is_empty() { 0 } else { front[0] }
}

/// What an open file is, by its front.
fn compare(front: &[u8], size: u64, frame: &Frame, fresh: &[u8]) -> Found
    requires some { 2 ≤ length front.now }
    requires gate { slice_index front.now 0 ≢ 0 }
    requires long { length front.now ≡ min size (layout frame.now).gates }
    requires room { length fresh.now ≡ (layout frame.now).all }
    requires head { (k : ℕ) → k < length (layout frame.now).head →
        slice_index fresh.now (1 + k) ≡ slice_index (layout frame.now).head k }
    ensures { (c : List ℕ) → IsFront front.now size c → IsFound (layout frame.now) true c result }
{
    match first_difference(front, fresh) {
        Some(at) => Found::Other {
            place: at as u64,
            kept: Some(front[at]),
        },
        None => {
            if size == frame.length() {
                Found::Same
            } else {
                Found::Other {
                    place: size,
                    kept: None,
                }
            }
        }
    }
}

/// What a file of this length with this front is: `fresh` is a fresh file.
fn judge(front: &[u8], size: u64, frame: &Frame, fresh: &[u8], resume: bool) -> Found
    requires long { length front.now ≡ min size (layout frame.now).gates }
    requires room { length fresh.now ≡ (layout frame.now).all }
    requires head { (k : ℕ) → k < length (layout frame.now).head →
        slice_index fresh.now (1 + k) ≡ slice_index (layout frame.now).head k }
    ensures found { (c : List ℕ) → IsFront front.now size c → IsFound (layout frame.now) resume c result }
    ensures anew { resume ≡ false → IsAnew result }
{
    if is_new(front, resume) {
        let gate = gate_of(front);
        return Found::New { size, gate };
    }
    compare(front, size, frame, fresh)
}

/// Syncs the file and then reads its length and its front, so that what is read is what a crash
/// leaves. `front` has room for all but gates and pixels.
pub(crate) fn look<S: Shelf>(
    shelf: &mut S,
    slot: u32,
    frame: &Frame,
    fresh: &[u8],
    front: &mut [u8],
    resume: bool,
) -> Result<Found, Failed>
    requires room { HasRoom (layout frame.now) (S.slots shelf.old slot) }
    requires long { length fresh.now ≡ (layout frame.now).all }
    requires head { (k : ℕ) → k < length (layout frame.now).head →
        slice_index fresh.now (1 + k) ≡ slice_index (layout frame.now).head k }
    requires front { length front.old ≡ (layout frame.now).gates }
    ensures found { IfOk result (λ found. (c : List ℕ) → S.holds shelf.new (name_at (S.slots shelf.old slot)) c →
        IsFound (layout frame.now) resume c found) }
    ensures anew { IfOk result (λ found. resume ≡ false → IsAnew found) }
    ensures synced { OnOk result (Within (S.holds shelf.new (name_at (S.slots shelf.old slot)))
        (S.images shelf.new (S.moment shelf.new) (name_at (S.slots shelf.old slot)))) }
    ensures contents { SameContents (S.holds shelf.old) (S.holds shelf.new) }
    ensures tells { Tells (S.holds shelf.old) (S.holds shelf.new) }
    ensures crash { SameContents (S.images shelf.old (S.moment shelf.old)) (S.images shelf.new (S.moment shelf.new)) }
    ensures ran { Ran S.moment S.images (name_at (S.slots shelf.old slot))
        (S.images shelf.old (S.moment shelf.old) (name_at (S.slots shelf.old slot))) shelf.old shelf.new }
    ensures slots { SameSlots (S.slots shelf.old) (S.slots shelf.new) }
    ensures cause { HasCause (S.faults shelf.old) (S.faults shelf.new) (IsErr result) }
{
    let size = synced_length(shelf, slot)?;
    let known = known_part(size, front.len());
    read_front(shelf, slot, &mut front[..known])?;
    Ok(judge(&front[..known], size, frame, fresh, resume))
}

/// How much of the front the file has.
fn known_part(size: u64, most: usize) -> usize
    ensures { result ≡ min size most }
{
    if size < most as u64 {
        size as usize
    } else {
        most
    }
}

/// Syncs the file, and reads its length.
fn synced_length<S: Shelf>(shelf: &mut S, slot: u32) -> Result<u64, Failed>
    requires { IsSome (S.slots shelf.old slot) }
    ensures value { IfOk result (λ size. (c : List ℕ) → S.holds shelf.new (name_at (S.slots shelf.old slot)) c → size ≡ length c) }
    ensures synced { OnOk result (Within (S.holds shelf.new (name_at (S.slots shelf.old slot)))
        (S.images shelf.new (S.moment shelf.new) (name_at (S.slots shelf.old slot)))) }
    ensures contents { SameContents (S.holds shelf.old) (S.holds shelf.new) }
    ensures tells { Tells (S.holds shelf.old) (S.holds shelf.new) }
    ensures crash { SameContents (S.images shelf.old (S.moment shelf.old)) (S.images shelf.new (S.moment shelf.new)) }
    ensures ran { Ran S.moment S.images (name_at (S.slots shelf.old slot))
        (S.images shelf.old (S.moment shelf.old) (name_at (S.slots shelf.old slot))) shelf.old shelf.new }
    ensures slots { SameSlots (S.slots shelf.old) (S.slots shelf.new) }
    ensures cause { HasCause (S.faults shelf.old) (S.faults shelf.new) (IsErr result) }
{
    shelf.sync(slot)?;
    let size = shelf.length(slot)?;
    Ok(size)
}

/// Reads the front of a file that is synced.
fn read_front<S: Shelf>(shelf: &mut S, slot: u32, out: &mut [u8]) -> Result<(), Failed>
    requires held { IsSome (S.slots shelf.old slot) }
    requires within { (c : List ℕ) → S.holds shelf.old (name_at (S.slots shelf.old slot)) c → length out.old ≤ length c }
    requires synced { Within (S.holds shelf.old (name_at (S.slots shelf.old slot)))
        (S.images shelf.old (S.moment shelf.old) (name_at (S.slots shelf.old slot))) }
    ensures value { OnOk result ((c : List ℕ) → S.holds shelf.new (name_at (S.slots shelf.old slot)) c →
        (k : ℕ) → k < length out.new → slice_index out.new k ≡ slice_index c k) }
    ensures synced { OnOk result (Within (S.holds shelf.new (name_at (S.slots shelf.old slot)))
        (S.images shelf.new (S.moment shelf.new) (name_at (S.slots shelf.old slot)))) }
    ensures contents { SameContents (S.holds shelf.old) (S.holds shelf.new) }
    ensures tells { Tells (S.holds shelf.old) (S.holds shelf.new) }
    ensures crash { SameContents (S.images shelf.old (S.moment shelf.old)) (S.images shelf.new (S.moment shelf.new)) }
    ensures ran { Ran S.moment S.images (name_at (S.slots shelf.old slot))
        (S.images shelf.old (S.moment shelf.old) (name_at (S.slots shelf.old slot))) shelf.old shelf.new }
    ensures slots { SameSlots (S.slots shelf.old) (S.slots shelf.new) }
    ensures cause { HasCause (S.faults shelf.old) (S.faults shelf.new) (IsErr result) }
{
    shelf.read(slot, 0, out)?;
    Ok(())
}
