// A state file made anew, in three steps.
ghost use Rattle.std.specs.Prelude.{◌≡◌, ◌≢◌, ◌+◌, ◌<◌, ◌≤◌, ℕ, List, length, slice_index, max, min, OnOk, IsErr, IsTrue, false};
ghost use Rattle.shelf.specs.Causes.{HasCause};
ghost use Rattle.shelf.specs.Disk.{SameSlots, Within, name_at};
ghost use Rattle.state_file.specs.Frames.{layout};
ghost use Rattle.state_file.specs.Opening.{IsBlank, IsBody, IsFresh, IsMade, Ran};
ghost use Rattle.state_file.specs.Order.{HasRoom};

use crate::frame::Frame;
use shelf::{Failed, Shelf};

/// Whether the file's gate is there, and closed.
fn is_closed(size: u64, gate: u8) -> bool
    ensures closed { IsTrue result → (0 < size) × (gate ≡ 0) }
    ensures other { result ≡ false → 0 < size → gate ≢ 0 }
{
    size > 0 && gate == 0
}

/// Closes the file. A gate that is closed already isn't written, since until the sync it may hold
/// anything.
fn shut<S: Shelf>(
    shelf: &mut S,
    slot: u32,
    frame: &Frame,
    size: u64,
    gate: u8,
) -> Result<(), Failed>
    requires room { HasRoom (layout frame.now) (S.slots shelf.old slot) }
    requires reads { (c : List ℕ) → S.holds shelf.old (name_at (S.slots shelf.old slot)) c →
        (length c ≡ size) × (0 < size → slice_index c 0 ≡ gate) }
    requires synced { Within (S.holds shelf.old (name_at (S.slots shelf.old slot)))
        (S.images shelf.old (S.moment shelf.old) (name_at (S.slots shelf.old slot))) }
    ensures ran { Ran S.moment S.images (name_at (S.slots shelf.old slot)) (IsMade (layout frame.now)
        (S.images shelf.old (S.moment shelf.old) (name_at (S.slots shelf.old slot)))) shelf.old shelf.new }
    ensures closed { OnOk result ((c : List ℕ) → S.images shelf.new (S.moment shelf.new) (name_at (S.slots shelf.old slot)) c →
        (length c ≡ max size 1) × (slice_index c 0 ≡ 0)) }
    ensures slots { SameSlots (S.slots shelf.old) (S.slots shelf.new) }
    ensures cause { HasCause (S.faults shelf.old) (S.faults shelf.new) (IsErr result) }
{
    let _ = frame;
    if is_closed(size, gate) {
        return Ok(());
    }
    shelf.write_at(slot, 0, &[0])?;
    shelf.sync(slot)?;
    Ok(())
}

/// Cuts a longer file.
fn trim<S: Shelf>(shelf: &mut S, slot: u32, frame: &Frame, size: u64) -> Result<(), Failed>
    requires room { HasRoom (layout frame.now) (S.slots shelf.old slot) }
    requires closed { (c : List ℕ) → S.images shelf.old (S.moment shelf.old) (name_at (S.slots shelf.old slot)) c →
        (length c ≡ size) × (slice_index c 0 ≡ 0) }
    requires some { 0 < size }
    ensures ran { Ran S.moment S.images (name_at (S.slots shelf.old slot)) (IsBlank (layout frame.now)) shelf.old shelf.new }
    ensures closed { OnOk result ((c : List ℕ) → S.images shelf.new (S.moment shelf.new) (name_at (S.slots shelf.old slot)) c →
        (0 < length c) × (slice_index c 0 ≡ 0)) }
    ensures short { OnOk result ((c : List ℕ) → S.holds shelf.new (name_at (S.slots shelf.old slot)) c →
        length c ≤ (layout frame.now).all) }
    ensures slots { SameSlots (S.slots shelf.old) (S.slots shelf.new) }
    ensures cause { HasCause (S.faults shelf.old) (S.faults shelf.new) (IsErr result) }
{
    let all = frame.length();
    if size <= all {
        return Ok(());
    }
    shelf.cut(slot, all)?;
    Ok(())
}

/// Writes all but the gate, with no block open.
fn fill<S: Shelf>(shelf: &mut S, slot: u32, frame: &Frame, body: &[u8]) -> Result<(), Failed>
    requires room { HasRoom (layout frame.now) (S.slots shelf.old slot) }
    requires long { 1 + length body.now ≡ (layout frame.now).all }
    requires head { (k : ℕ) → k < length (layout frame.now).head → slice_index body.now k ≡ slice_index (layout frame.now).head k }
    requires blank { (k : ℕ) → length (layout frame.now).head ≤ k → k < length body.now → slice_index body.now k ≡ 0 }
    requires closed { (c : List ℕ) → S.images shelf.old (S.moment shelf.old) (name_at (S.slots shelf.old slot)) c →
        (0 < length c) × (slice_index c 0 ≡ 0) }
    requires short { (c : List ℕ) → S.holds shelf.old (name_at (S.slots shelf.old slot)) c → length c ≤ (layout frame.now).all }
    ensures ran { Ran S.moment S.images (name_at (S.slots shelf.old slot)) (IsBlank (layout frame.now)) shelf.old shelf.new }
    ensures filled { OnOk result ((c : List ℕ) → S.images shelf.new (S.moment shelf.new) (name_at (S.slots shelf.old slot)) c →
        IsBody (layout frame.now) c) }
    ensures slots { SameSlots (S.slots shelf.old) (S.slots shelf.new) }
    ensures cause { HasCause (S.faults shelf.old) (S.faults shelf.new) (IsErr result) }
{
    let _ = frame;
    shelf.write_at(slot, 1, body)?;
    shelf.sync(slot)?;
    Ok(())
}

/// Opens the file.
fn raise<S: Shelf>(shelf: &mut S, slot: u32, frame: &Frame) -> Result<(), Failed>
    requires room { HasRoom (layout frame.now) (S.slots shelf.old slot) }
    requires filled { (c : List ℕ) → S.images shelf.old (S.moment shelf.old) (name_at (S.slots shelf.old slot)) c →
        IsBody (layout frame.now) c }
    ensures ran { Ran S.moment S.images (name_at (S.slots shelf.old slot)) (IsBlank (layout frame.now)) shelf.old shelf.new }
    ensures fresh { OnOk result ((c : List ℕ) → S.images shelf.new (S.moment shelf.new) (name_at (S.slots shelf.old slot)) c →
        IsFresh (layout frame.now) c) }
    ensures slots { SameSlots (S.slots shelf.old) (S.slots shelf.new) }
    ensures cause { HasCause (S.faults shelf.old) (S.faults shelf.new) (IsErr result) }
{
    let _ = frame;
    shelf.write_at(slot, 0, &[1])?;
    shelf.sync(slot)?;
    Ok(())
}

/// Cuts and fills a file that is closed.
fn refill<S: Shelf>(
    shelf: &mut S,
    slot: u32,
    frame: &Frame,
    size: u64,
    body: &[u8],
) -> Result<(), Failed>
    requires room { HasRoom (layout frame.now) (S.slots shelf.old slot) }
    requires long { 1 + length body.now ≡ (layout frame.now).all }
    requires head { (k : ℕ) → k < length (layout frame.now).head → slice_index body.now k ≡ slice_index (layout frame.now).head k }
    requires blank { (k : ℕ) → length (layout frame.now).head ≤ k → k < length body.now → slice_index body.now k ≡ 0 }
    requires closed { (c : List ℕ) → S.images shelf.old (S.moment shelf.old) (name_at (S.slots shelf.old slot)) c →
        (length c ≡ size) × (slice_index c 0 ≡ 0) }
    requires some { 0 < size }
    ensures ran { Ran S.moment S.images (name_at (S.slots shelf.old slot)) (IsBlank (layout frame.now)) shelf.old shelf.new }
    ensures filled { OnOk result ((c : List ℕ) → S.images shelf.new (S.moment shelf.new) (name_at (S.slots shelf.old slot)) c →
        IsBody (layout frame.now) c) }
    ensures slots { SameSlots (S.slots shelf.old) (S.slots shelf.new) }
    ensures cause { HasCause (S.faults shelf.old) (S.faults shelf.new) (IsErr result) }
{
    trim(shelf, slot, frame, size)?;
    fill(shelf, slot, frame, body)?;
    Ok(())
}

/// Makes a file that is closed a fresh one.
fn renew<S: Shelf>(
    shelf: &mut S,
    slot: u32,
    frame: &Frame,
    size: u64,
    body: &[u8],
) -> Result<(), Failed>
    requires room { HasRoom (layout frame.now) (S.slots shelf.old slot) }
    requires long { 1 + length body.now ≡ (layout frame.now).all }
    requires head { (k : ℕ) → k < length (layout frame.now).head → slice_index body.now k ≡ slice_index (layout frame.now).head k }
    requires blank { (k : ℕ) → length (layout frame.now).head ≤ k → k < length body.now → slice_index body.now k ≡ 0 }
    requires closed { (c : List ℕ) → S.images shelf.old (S.moment shelf.old) (name_at (S.slots shelf.old slot)) c →
        (length c ≡ size) × (slice_index c 0 ≡ 0) }
    requires some { 0 < size }
    ensures ran { Ran S.moment S.images (name_at (S.slots shelf.old slot)) (IsBlank (layout frame.now)) shelf.old shelf.new }
    ensures fresh { OnOk result ((c : List ℕ) → S.images shelf.new (S.moment shelf.new) (name_at (S.slots shelf.old slot)) c →
        IsFresh (layout frame.now) c) }
    ensures slots { SameSlots (S.slots shelf.old) (S.slots shelf.new) }
    ensures cause { HasCause (S.faults shelf.old) (S.faults shelf.new) (IsErr result) }
{
    refill(shelf, slot, frame, size, body)?;
    raise(shelf, slot, frame)?;
    Ok(())
}

/// Makes the file anew: closes it, writes all but its gate, and opens it. `body` is all but the
/// gate; `size` and `gate` are the file's length and its first byte now.
pub(crate) fn make<S: Shelf>(
    shelf: &mut S,
    slot: u32,
    frame: &Frame,
    size: u64,
    gate: u8,
    body: &[u8],
) -> Result<(), Failed>
    requires room { HasRoom (layout frame.now) (S.slots shelf.old slot) }
    requires long { 1 + length body.now ≡ (layout frame.now).all }
    requires head { (k : ℕ) → k < length (layout frame.now).head → slice_index body.now k ≡ slice_index (layout frame.now).head k }
    requires blank { (k : ℕ) → length (layout frame.now).head ≤ k → k < length body.now → slice_index body.now k ≡ 0 }
    requires reads { (c : List ℕ) → S.holds shelf.old (name_at (S.slots shelf.old slot)) c →
        (length c ≡ size) × (0 < size → slice_index c 0 ≡ gate) }
    requires synced { Within (S.holds shelf.old (name_at (S.slots shelf.old slot)))
        (S.images shelf.old (S.moment shelf.old) (name_at (S.slots shelf.old slot))) }
    ensures ran { Ran S.moment S.images (name_at (S.slots shelf.old slot)) (IsMade (layout frame.now)
        (S.images shelf.old (S.moment shelf.old) (name_at (S.slots shelf.old slot)))) shelf.old shelf.new }
    ensures fresh { OnOk result ((c : List ℕ) → S.images shelf.new (S.moment shelf.new) (name_at (S.slots shelf.old slot)) c →
        IsFresh (layout frame.now) c) }
    ensures slots { SameSlots (S.slots shelf.old) (S.slots shelf.new) }
    ensures cause { HasCause (S.faults shelf.old) (S.faults shelf.new) (IsErr result) }
{
    shut(shelf, slot, frame, size, gate)?;
    renew(shelf, slot, frame, size.max(1), body)?;
    Ok(())
}
