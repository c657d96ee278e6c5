// The storage in memory, with failures on demand.
ghost use Rattle.std.specs.Prelude.{◌≡◌, ◌+◌, ◌≤◌, ℕ, List, [], ◌∷◌, true, false, drop, length, Some, IfOk, IfSome, IfNone, OnOk, OnErr, IsErr, IsErrOf, IsSome, IsSomeAnd, None, slice_get};
ghost use Rattle.shelf.specs.Causes.{HasCause};
ghost use Rattle.shelf.specs.Disk.{name_at, most_at, IsFree, SameSlots, Holds, Follows, Within, SameContents, SameOthers, Tells, Written, Torn, Shortened, Cut, Trimmed, bytes_from, Becomes, Stay};
ghost use Rattle.shelf.specs.Moments.{Passes};
ghost use Rattle.shelf.specs.Past.{past_of, AllSound};
ghost use Rattle.shelf.specs.Picks.{ArePicked};
ghost use Rattle.shelf.specs.Stored.{Stored, slots_in, texts_in, images_in, IsAbsent, OneEach, AreSound, IsChange};
ghost use Rattle.shelf.specs.Turns.{IsDue, TakesTurn};

use crate::mem_file::MemFile;
use crate::past::Past;
use crate::turns::Turns;
use crate::{Failed, HoldFail, Shelf};
use std::alloc::Global;

/// Files in memory. It tells what a read of each name gives, and of every moment since it was made
/// all that a crash then may leave.
#[derive(Drop)]
pub struct MemShelf {
    files: Vec<MemFile>,
    past: Option<Past>,
    turns: Turns,
    ghost one_each: { OneEach files.items },
    ghost sound: { AllSound (files.items ∷ past_of past) },
}

impl MemShelf {
    ghost use Rattle.shelf.specs.Memory.{files_of, held_by, images_of, left_by, told_by, moment_of, slots_of, turns_of, failures_of};

    pub fn new(alloc: Global) -> MemShelf
        ensures empty { (name : List ℕ) → held_by result name [] }
        ensures no_more { (name text : List ℕ) → held_by result name text → text ≡ [] }
        ensures free { (k : ℕ) → slots_of result k ≡ None }
        ensures left { (name text : List ℕ) → left_by result name text → text ≡ [] }
        ensures moment { moment_of result ≡ 0 }
        ensures failures { failures_of result ≡ 0 }
        ensures failing { ¬ IsDue (turns_of result) }
    {
        MemShelf {
            files: Vec::new(alloc),
            past: None,
            turns: Turns::new(0),
        }
    }

    /// From now on the call of this number, from 1, fails, and no other; what `stop_after` said
    /// stays. `let_go` isn't counted.
    pub fn fail_on(&mut self, call: u64)
        ensures turns { turns_of self.new ≡ record (turns_of self.old) { countdown = call } }
        ensures files { told_by self.new ≡ told_by self.old }
        ensures slots { SameSlots (slots_of self.old) (slots_of self.new) }
        ensures contents { SameContents (held_by self.old) (held_by self.new) }
        ensures tells { Tells (held_by self.old) (held_by self.new) }
    {
        self.turns.countdown = call;
    }

    /// After so many calls of `write_at`, `cut` and `sync` from now on every call but `let_go`
    /// fails.
    pub fn stop_after(&mut self, changes: u64)
        ensures turns { turns_of self.new ≡ record (turns_of self.old) { changes_left = Some changes } }
        ensures files { told_by self.new ≡ told_by self.old }
        ensures slots { SameSlots (slots_of self.old) (slots_of self.new) }
        ensures contents { SameContents (held_by self.old) (held_by self.new) }
        ensures tells { Tells (held_by self.old) (held_by self.new) }
    {
        self.turns.changes_left = Some(changes);
    }

    /// What a crash now leaves, chosen by the bytes of `picks`. Each place of each file takes two of
    /// them, in the order in which the files were first held, up to the file's greatest length
    /// since its last sync; past the end of `picks` they are 0. The first is 0 for the byte as at
    /// the last sync, 1 for the byte that a read gives, 3 for the end of the file, and for any
    /// other the second is the byte. A byte that wasn't written since the last sync stays, and a
    /// file ends only where it may. Nothing is held afterwards, no call is to fail, and a new
    /// record begins.
    pub fn crash(mut self, picks: &[u8]) -> MemShelf
        ensures picked { ArePicked (files_of self) picks.now (files_of result) }
        ensures left { SameContents (left_by self) (held_by result) }
        ensures told { (name : List ℕ) → (text : List ℕ) × held_by result name text }
        ensures settled { SameContents (held_by result) (left_by result) }
        ensures free { (k : ℕ) → slots_of result k ≡ None }
        ensures moment { moment_of result ≡ 0 }
        ensures turns { ¬ IsDue (turns_of result) }
        ensures failures { failures_of result ≡ failures_of self }
    {
        crash_all(&mut self.files, picks);
        self.past = None;
        self.turns = Turns::new(self.turns.failures);
        self
    }

    /// Whether the record of moments was given up. It takes no memory, and so it never is.
    pub fn lost(&self) -> bool
        ensures kept { result ≡ false }
        ensures told { (m : ℕ) → m ≤ moment_of self.now → (name : List ℕ) →
            (text : List ℕ) × images_of self.now m name text }
    {
        false
    }

    /// What a read of this name gives, and no bytes where there is no such file.
    pub fn contents(&self, name: &[u8]) -> &[u8]
        ensures held { held_by self.now name.now result.now }
        ensures alone { (text : List ℕ) → held_by self.now name.now text → text ≡ result.now }
    {
        match find(&self.files, name) {
            Some(place) => self.files[place].text(),
            None => &[],
        }
    }
}

impl Shelf for MemShelf {
    ghost use Rattle.shelf.specs.Reads.{reads_left};
    ghost use Rattle.shelf.specs.Memory.{held_by, images_of, left_by, moment_of, slots_of, turns_of, failures_of, NoMoment, OneMoment};

    ghost holds = { λ shelf. held_by shelf };

    ghost images = { λ shelf. images_of shelf };

    ghost moment = { λ shelf. moment_of shelf };

    ghost slots = { λ shelf. slots_of shelf };

    ghost faults = { λ shelf. failures_of shelf };

    ghost reads_an_image = { λ shelf name bytes held. reads_left shelf.files.items (past_of shelf.past) shelf.sound name bytes held };

    fn hold(&mut self, alloc: Global, name: &[u8], most: u64) -> Result<u32, HoldFail>
        requires { IsFree (slots_of self.old) name.now }
        ensures held { IfOk result (λ slot.
            Holds (slots_of self.old) (slots_of self.new) slot name.now most) }
        ensures refused { OnErr result (SameSlots (slots_of self.old) (slots_of self.new)) }
        ensures contents { SameContents (held_by self.old) (held_by self.new) }
        ensures tells { Tells (held_by self.old) (held_by self.new) }
        ensures crash { SameContents (images_of self.old (moment_of self.old))
            (images_of self.new (moment_of self.new)) }
        ensures time { Passes (moment_of self.old) (moment_of self.new) (images_of self.old) (images_of self.new) }
        ensures cause { HasCause (failures_of self.old) (failures_of self.new)
            (IsErrOf result HoldFail.Failed) }
        ensures turn { TakesTurn false (turns_of self.old) (turns_of self.new) (IsErrOf result HoldFail.Failed) }
        ensures moments { NoMoment self.old self.new }
        ensures exact { Stay (left_by self.old) (left_by self.new) }
    {
        if self.turns.take(false) {
            return Err(HoldFail::Failed);
        }
        match hold_in(&mut self.files, alloc, name, most) {
            Some(slot) => Ok(slot),
            None => Err(HoldFail::NoMemory),
        }
    }

    fn let_go(&mut self)
        ensures free { (k : ℕ) → slots_of self.new k ≡ None }
        ensures contents { SameContents (held_by self.old) (held_by self.new) }
        ensures tells { Tells (held_by self.old) (held_by self.new) }
        ensures crash { SameContents (images_of self.old (moment_of self.old))
            (images_of self.new (moment_of self.new)) }
        ensures time { Passes (moment_of self.old) (moment_of self.new) (images_of self.old) (images_of self.new) }
        ensures later { failures_of self.old ≤ failures_of self.new }
        ensures turns { turns_of self.new ≡ turns_of self.old }
        ensures moments { NoMoment self.old self.new }
        ensures exact { Stay (left_by self.old) (left_by self.new) }
    {
        let_go_all(&mut self.files);
    }

    fn length(&mut self, slot: u32) -> Result<u64, Failed>
        requires { IsSome (slots_of self.old slot) }
        ensures value { IfOk result (λ size. (c : List ℕ) →
            held_by self.old (name_at (slots_of self.old slot)) c → size ≡ length c) }
        ensures contents { SameContents (held_by self.old) (held_by self.new) }
        ensures stays { SameContents (held_by self.new) (held_by self.old) }
        ensures tells { Tells (held_by self.old) (held_by self.new) }
        ensures crash { SameContents (images_of self.old (moment_of self.old))
            (images_of self.new (moment_of self.new)) }
        ensures time { Passes (moment_of self.old) (moment_of self.new) (images_of self.old) (images_of self.new) }
        ensures slots { SameSlots (slots_of self.old) (slots_of self.new) }
        ensures cause { HasCause (failures_of self.old) (failures_of self.new) (IsErr result) }
        ensures turn { TakesTurn false (turns_of self.old) (turns_of self.new) (IsErr result) }
        ensures moments { NoMoment self.old self.new }
        ensures exact { Stay (left_by self.old) (left_by self.new) }
    {
        if self.turns.take(false) {
            return Err(Failed);
        }
        Ok(text_at(&self.files, slot).len() as u64)
    }

    fn read(&mut self, slot: u32, at: u64, out: &mut [u8]) -> Result<(), Failed>
        requires held { IsSome (slots_of self.old slot) }
        requires within { (c : List ℕ) → held_by self.old (name_at (slots_of self.old slot)) c →
            at + length out.old ≤ length c }
        ensures value { OnOk result ((c : List ℕ) →
            held_by self.old (name_at (slots_of self.old slot)) c →
            out.new ≡ bytes_from at (length out.old) c) }
        ensures contents { SameContents (held_by self.old) (held_by self.new) }
        ensures stays { SameContents (held_by self.new) (held_by self.old) }
        ensures tells { Tells (held_by self.old) (held_by self.new) }
        ensures crash { SameContents (images_of self.old (moment_of self.old))
            (images_of self.new (moment_of self.new)) }
        ensures time { Passes (moment_of self.old) (moment_of self.new) (images_of self.old) (images_of self.new) }
        ensures slots { SameSlots (slots_of self.old) (slots_of self.new) }
        ensures cause { HasCause (failures_of self.old) (failures_of self.new) (IsErr result) }
        ensures turn { TakesTurn false (turns_of self.old) (turns_of self.new) (IsErr result) }
        ensures untouched { OnErr result (out.new ≡ out.old) }
        ensures moments { NoMoment self.old self.new }
        ensures exact { Stay (left_by self.old) (left_by self.new) }
    {
        if self.turns.take(false) {
            return Err(Failed);
        }
        let text = text_at(&self.files, slot);
        let start = at as usize;
        out.copy_from_slice(&text[start..start + out.len()]);
        Ok(())
    }

    fn write_at(&mut self, slot: u32, at: u64, bytes: &[u8]) -> Result<(), Failed>
        requires held { IsSome (slots_of self.old slot) }
        requires begins { (c : List ℕ) → held_by self.old (name_at (slots_of self.old slot)) c →
            at ≤ length c }
        requires fits { at + length bytes.now ≤ most_at (slots_of self.old slot) }
        ensures written { OnOk result (Follows (Written at bytes.now)
            (held_by self.old (name_at (slots_of self.old slot)))
            (held_by self.new (name_at (slots_of self.old slot)))) }
        ensures torn { Follows (Torn at (length bytes.now))
            (held_by self.old (name_at (slots_of self.old slot)))
            (held_by self.new (name_at (slots_of self.old slot))) }
        ensures others { SameOthers (name_at (slots_of self.old slot))
            (held_by self.old) (held_by self.new) }
        ensures tells { Tells (held_by self.old) (held_by self.new) }
        ensures crash { Follows (Torn at (length bytes.now))
            (images_of self.old (moment_of self.old) (name_at (slots_of self.old slot)))
            (images_of self.new (moment_of self.new) (name_at (slots_of self.old slot))) }
        ensures crash_others { SameOthers (name_at (slots_of self.old slot))
            (images_of self.old (moment_of self.old)) (images_of self.new (moment_of self.new)) }
        ensures time { Passes (moment_of self.old) (moment_of self.new) (images_of self.old) (images_of self.new) }
        ensures slots { SameSlots (slots_of self.old) (slots_of self.new) }
        ensures cause { HasCause (failures_of self.old) (failures_of self.new) (IsErr result) }
        ensures turn { TakesTurn true (turns_of self.old) (turns_of self.new) (IsErr result) }
        ensures untouched { OnErr result (SameContents (held_by self.old) (held_by self.new)) }
        ensures moments { OneMoment self.old self.new }
        ensures exact { Becomes (name_at (slots_of self.old slot)) (Torn at (length bytes.now))
            (left_by self.old) (left_by self.new) }
    {
        self.past = Some(Past::after(&self.past, &self.files));
        if self.turns.take(true) {
            tear_in(&mut self.files, slot, at, bytes.len());
            return Err(Failed);
        }
        write_in(&mut self.files, slot, at, bytes);
        Ok(())
    }

    fn cut(&mut self, slot: u32, size: u64) -> Result<(), Failed>
        requires held { IsSome (slots_of self.old slot) }
        requires shortens { (c : List ℕ) → held_by self.old (name_at (slots_of self.old slot)) c →
            size ≤ length c }
        ensures shortened { OnOk result (Follows (Shortened size)
            (held_by self.old (name_at (slots_of self.old slot)))
            (held_by self.new (name_at (slots_of self.old slot)))) }
        ensures trimmed { Follows (Trimmed size)
            (held_by self.old (name_at (slots_of self.old slot)))
            (held_by self.new (name_at (slots_of self.old slot))) }
        ensures others { SameOthers (name_at (slots_of self.old slot))
            (held_by self.old) (held_by self.new) }
        ensures tells { Tells (held_by self.old) (held_by self.new) }
        ensures crash_cut { OnOk result (Follows (Cut size)
            (images_of self.old (moment_of self.old) (name_at (slots_of self.old slot)))
            (images_of self.new (moment_of self.new) (name_at (slots_of self.old slot)))) }
        ensures crash { Follows (Trimmed size)
            (images_of self.old (moment_of self.old) (name_at (slots_of self.old slot)))
            (images_of self.new (moment_of self.new) (name_at (slots_of self.old slot))) }
        ensures crash_others { SameOthers (name_at (slots_of self.old slot))
            (images_of self.old (moment_of self.old)) (images_of self.new (moment_of self.new)) }
        ensures time { Passes (moment_of self.old) (moment_of self.new) (images_of self.old) (images_of self.new) }
        ensures slots { SameSlots (slots_of self.old) (slots_of self.new) }
        ensures cause { HasCause (failures_of self.old) (failures_of self.new) (IsErr result) }
        ensures turn { TakesTurn true (turns_of self.old) (turns_of self.new) (IsErr result) }
        ensures untouched { OnErr result (SameContents (held_by self.old) (held_by self.new)) }
        ensures moments { OneMoment self.old self.new }
        ensures exact { OnOk result (Becomes (name_at (slots_of self.old slot)) (Cut size)
            (left_by self.old) (left_by self.new)) }
        ensures exact_begun { OnErr result (Becomes (name_at (slots_of self.old slot)) (Trimmed size)
            (left_by self.old) (left_by self.new)) }
    {
        self.past = Some(Past::after(&self.past, &self.files));
        if self.turns.take(true) {
            fray_in(&mut self.files, slot, size);
            return Err(Failed);
        }
        cut_in(&mut self.files, slot, size);
        Ok(())
    }

    fn sync(&mut self, slot: u32) -> Result<(), Failed>
        requires { IsSome (slots_of self.old slot) }
        ensures durable { OnOk result (Within
            (held_by self.new (name_at (slots_of self.old slot)))
            (images_of self.new (moment_of self.new) (name_at (slots_of self.old slot)))) }
        ensures contents { SameContents (held_by self.old) (held_by self.new) }
        ensures tells { Tells (held_by self.old) (held_by self.new) }
        ensures crash { SameContents (images_of self.old (moment_of self.old))
            (images_of self.new (moment_of self.new)) }
        ensures time { Passes (moment_of self.old) (moment_of self.new) (images_of self.old) (images_of self.new) }
        ensures slots { SameSlots (slots_of self.old) (slots_of self.new) }
        ensures cause { HasCause (failures_of self.old) (failures_of self.new) (IsErr result) }
        ensures turn { TakesTurn true (turns_of self.old) (turns_of self.new) (IsErr result) }
        ensures moments { OneMoment self.old self.new }
        ensures exact { SameOthers (name_at (slots_of self.old slot)) (left_by self.new) (left_by self.old) }
        ensures exact_begun { OnErr result (Stay (left_by self.old) (left_by self.new)) }
    {
        self.past = Some(Past::after(&self.past, &self.files));
        if self.turns.take(true) {
            return Err(Failed);
        }
        sync_in(&mut self.files, slot);
        Ok(())
    }
}

/// The place of the file with this name.
fn find(files: &[MemFile], name: &[u8]) -> Option<usize>
    ensures found { IfSome result (λ place.
        IsSomeAnd (slice_get files.now place) (λ file. file.name ≡ name.now)) }
    ensures absent { IfNone result (IsAbsent files.now name.now) }
{
    for (place, file) in files.iter().enumerate() {
        if file.has_name(name) {
            return Some(place);
        }
    }
    None
}

/// What the file in a slot reads as.
fn text_at(files: &[MemFile], slot: u32) -> &[u8]
    requires one_each { OneEach files.now }
    requires held { IsSome (slots_in files.now slot) }
    ensures held { texts_in files.now (name_at (slots_in files.now slot)) result.now }
    ensures alone { (c : List ℕ) → texts_in files.now (name_at (slots_in files.now slot)) c →
        c ≡ result.now }
{
    files[slot as usize].text()
}

/// Writes into the file in a slot.
fn write_in(files: &mut Vec<MemFile>, slot: u32, at: u64, bytes: &[u8])
    requires one_each { OneEach files.old.items }
    requires sound { AreSound files.old.items }
    requires held { IsSome (slots_in files.old.items slot) }
    requires begins { (c : List ℕ) → texts_in files.old.items (name_at (slots_in files.old.items slot)) c →
        at ≤ length c }
    requires fits { at + length bytes.now ≤ most_at (slots_in files.old.items slot) }
    ensures written { Follows (Written at bytes.now)
        (texts_in files.old.items (name_at (slots_in files.old.items slot)))
        (texts_in files.new.items (name_at (slots_in files.old.items slot))) }
    ensures changed { IsChange slot (Torn at (length bytes.now)) files.old.items files.new.items }
{
    files[slot as usize].write(at, bytes);
}

/// Begins a write into the file in a slot.
fn tear_in(files: &mut Vec<MemFile>, slot: u32, at: u64, count: usize)
    requires one_each { OneEach files.old.items }
    requires sound { AreSound files.old.items }
    requires held { IsSome (slots_in files.old.items slot) }
    requires begins { (c : List ℕ) → texts_in files.old.items (name_at (slots_in files.old.items slot)) c →
        at ≤ length c }
    requires fits { at + count ≤ most_at (slots_in files.old.items slot) }
    ensures contents { SameContents (texts_in files.old.items) (texts_in files.new.items) }
    ensures changed { IsChange slot (Torn at count) files.old.items files.new.items }
{
    files[slot as usize].tear(at, count);
}

/// Cuts the file in a slot.
fn cut_in(files: &mut Vec<MemFile>, slot: u32, size: u64)
    requires one_each { OneEach files.old.items }
    requires sound { AreSound files.old.items }
    requires held { IsSome (slots_in files.old.items slot) }
    requires shortens { (c : List ℕ) → texts_in files.old.items (name_at (slots_in files.old.items slot)) c →
        size ≤ length c }
    ensures shortened { Follows (Shortened size)
        (texts_in files.old.items (name_at (slots_in files.old.items slot)))
        (texts_in files.new.items (name_at (slots_in files.old.items slot))) }
    ensures changed { IsChange slot (Cut size) files.old.items files.new.items }
{
    files[slot as usize].cut(size);
}

/// Begins to cut the file in a slot.
fn fray_in(files: &mut Vec<MemFile>, slot: u32, size: u64)
    requires one_each { OneEach files.old.items }
    requires sound { AreSound files.old.items }
    requires held { IsSome (slots_in files.old.items slot) }
    requires shortens { (c : List ℕ) → texts_in files.old.items (name_at (slots_in files.old.items slot)) c →
        size ≤ length c }
    ensures contents { SameContents (texts_in files.old.items) (texts_in files.new.items) }
    ensures changed { IsChange slot (Trimmed size) files.old.items files.new.items }
{
    files[slot as usize].fray(size);
}

/// Syncs the file in a slot.
fn sync_in(files: &mut Vec<MemFile>, slot: u32)
    requires one_each { OneEach files.old.items }
    requires sound { AreSound files.old.items }
    requires held { IsSome (slots_in files.old.items slot) }
    ensures contents { SameContents (texts_in files.old.items) (texts_in files.new.items) }
    ensures contents_before { SameContents (texts_in files.new.items) (texts_in files.old.items) }
    ensures changed { IsChange slot (λ _ c. texts_in files.old.items (name_at (slots_in files.old.items slot)) c) files.old.items files.new.items }
{
    files[slot as usize].sync();
}

/// Holds the file with this name, or a new one, and answers its slot. None is want of memory.
fn hold_in(files: &mut Vec<MemFile>, alloc: Global, name: &[u8], most: u64) -> Option<u32>
    requires one_each { OneEach files.old.items }
    requires free { IsFree (slots_in files.old.items) name.now }
    ensures held { IfSome result (λ slot.
        Holds (slots_in files.old.items) (slots_in files.new.items) slot name.now most) }
    ensures refused { IfNone result
        (SameSlots (slots_in files.old.items) (slots_in files.new.items)) }
    ensures contents { SameContents (texts_in files.old.items) (texts_in files.new.items) }
    ensures tells { Tells (texts_in files.old.items) (texts_in files.new.items) }
    ensures left { SameContents (images_in files.old.items) (images_in files.new.items) }
    ensures left_before { SameContents (images_in files.new.items) (images_in files.old.items) }
    ensures one_each { OneEach files.new.items }
    ensures sound { AreSound files.old.items → AreSound files.new.items }
{
    let place = find(files, name);
    let Ok(slot) = u32::try_from(place.unwrap_or(files.len())) else {
        return None;
    };
    match place {
        Some(place) => {
            if files[place].hold(most).is_err() {
                return None;
            }
        }
        None => {
            let Ok(file) = MemFile::new(alloc, name, most) else {
                return None;
            };
            if files.push(file).is_err() {
                return None;
            }
        }
    }
    Some(slot)
}

/// What is left of `picks` behind so many.
fn behind(picks: &[u8], used: usize) -> &[u8]
    ensures { result.now ≡ drop used picks.now }
{
    if used < picks.len() {
        &picks[used..]
    } else {
        &[]
    }
}

/// Leaves of each file what the picks choose.
fn crash_all(files: &mut Vec<MemFile>, picks: &[u8])
    requires sound { AreSound files.old.items }
    requires one_each { OneEach files.old.items }
    ensures picked { ArePicked files.old.items picks.now files.new.items }
    ensures one_each { OneEach files.new.items }
    ensures sound { AreSound files.new.items }
{
    let mut rest = picks;
    for place in 0..files.len() {
        let used = files[place].crash(rest);
        rest = behind(rest, used);
    }
}

/// Gives up every slot.
fn let_go_all(files: &mut [MemFile])
    requires { OneEach files.old }
    ensures free { (k : ℕ) → slots_in files.new k ≡ None }
    ensures contents { SameContents (texts_in files.old) (texts_in files.new) }
    ensures tells { Tells (texts_in files.old) (texts_in files.new) }
    ensures left { SameContents (images_in files.old) (images_in files.new) }
    ensures left_before { SameContents (images_in files.new) (images_in files.old) }
    ensures one_each { OneEach files.new }
    ensures sound { AreSound files.old → AreSound files.new }
{
    for file in files.iter_mut() {
        file.let_go();
    }
}
