// One file in memory, and what a crash may leave of it.
ghost use Rattle.std.specs.Prelude.{◌≡◌, ◌+◌, ◌*◌, ◌<◌, ◌≤◌, ◌↔◌, ℕ, List, [], true, false, length, take, min, IsTrue, MatchBool, IfOk, OnOk, OnErr, slice_index, slice_index_or, vec_len};
ghost use Rattle.shelf.specs.Disk.{Written};
ghost use Rattle.shelf.specs.Picks.{byte_by, EndsBy, IsPickedFile};
ghost use Rattle.shelf.specs.Stored.{IsOpened, IsSettled, IsSound, IsTouched};

use std::alloc::{AllocError, Global};
use std::marker::Model;

/// The three lists have room for all that the file may take while it is held, so no write takes memory.
#[derive(Drop)]
pub(crate) struct MemFile {
    name: Vec<u8>,
    /// What it reads as, in front.
    buffer: Vec<u8>,
    len: usize,
    /// What it had at its last sync, in front.
    synced: Vec<u8>,
    synced_len: usize,
    /// Which places may hold anything since the last sync.
    touched: Vec<bool>,
    /// The least and the greatest length since the last sync.
    shortest: usize,
    longest: usize,
    is_held: bool,
    most: u64,
}

impl Model for MemFile {
    ghost use Rattle.std.specs.Prelude.{◌≤◌, take, vec_len};
    ghost use Rattle.shelf.specs.Stored.{Stored};

    ghost Value = { Stored };

    ghost view = { λ file. record {
      name = file.name.items;
      text = take file.len file.buffer.items;
      left = record {
        synced = take file.synced_len file.synced.items;
        touched = take file.longest file.touched.items;
        shortest = file.shortest;
      };
      is_held = file.is_held;
      most = file.most;
    } };

    ghost invariant = { λ file.
        (file.len ≤ file.longest) × (file.longest ≤ vec_len file.buffer) × (file.longest ≤ vec_len file.synced)
        × (file.longest ≤ vec_len file.touched) × (file.synced_len ≤ vec_len file.synced)
        × (file.most ≤ vec_len file.buffer) × (file.most ≤ vec_len file.synced) × (file.most ≤ vec_len file.touched) };
}

impl MemFile {
    /// An empty file that is held.
    pub(crate) fn new(alloc: Global, name: &[u8], most: u64) -> Result<MemFile, AllocError>
        ensures named { IfOk result (λ file. file.name ≡ name.now) }
        ensures empty { IfOk result (λ file. file.text ≡ []) }
        ensures settled { IfOk result (λ file. IsSettled [] file.left) }
        ensures held { IfOk result (λ file. file.is_held ≡ true) }
        ensures most { IfOk result (λ file. file.most ≡ most) }
    {
        Ok(MemFile {
            name: Vec::from_slice(alloc, name)?,
            buffer: vec![in alloc; 0; most as usize]?,
            len: 0,
            synced: vec![in alloc; 0; most as usize]?,
            synced_len: 0,
            touched: vec![in alloc; false; most as usize]?,
            shortest: 0,
            longest: 0,
            is_held: true,
            most,
        })
    }

    pub(crate) fn has_name(&self, name: &[u8]) -> bool
        ensures { IsTrue result ↔ (self.now.name ≡ name.now) }
    {
        self.name.as_slice() == name
    }

    /// What it reads as.
    pub(crate) fn text(&self) -> &[u8]
        ensures { result.now ≡ self.now.text }
    {
        &self.buffer[..self.len]
    }

    /// Takes the memory for `most` bytes, and keeps all that the file has.
    pub(crate) fn hold(&mut self, most: u64) -> Result<(), AllocError>
        ensures held { OnOk result (self.new ≡ record self.old { is_held = true; most = most }) }
        ensures refused { OnErr result (self.new ≡ self.old) }
    {
        let room = most as usize;
        grow(&mut self.buffer, room, 0)?;
        grow(&mut self.synced, room, 0)?;
        grow(&mut self.touched, room, false)?;
        self.is_held = true;
        self.most = most;
        Ok(())
    }

    pub(crate) fn let_go(&mut self)
        ensures { self.new ≡ record self.old { is_held = false } }
    {
        self.is_held = false;
    }

    pub(crate) fn write(&mut self, at: u64, bytes: &[u8])
        requires begins { at ≤ length self.old.text }
        requires fits { at + length bytes.now ≤ self.old.most }
        ensures written { Written at bytes.now self.old.text self.new.text }
        ensures touched { IsTouched at (length bytes.now) self.old.left self.new.left }
        ensures others { self.new ≡ record self.old { text = self.new.text; left = self.new.left } }
    {
        let start = at as usize;
        overwrite(&mut self.buffer, start, bytes);
        let end = start + bytes.len();
        touch(&mut self.touched, start, end);
        self.len = self.len.max(end);
        self.longest = self.longest.max(end);
    }

    /// A write is begun, and nothing of it is read.
    pub(crate) fn tear(&mut self, at: u64, count: usize)
        requires begins { at ≤ length self.old.text }
        requires fits { at + count ≤ self.old.most }
        ensures touched { IsTouched at count self.old.left self.new.left }
        ensures others { self.new ≡ record self.old { left = self.new.left } }
    {
        let longest = self.longest;
        let start = at as usize;
        let end = start + count;
        touch(&mut self.touched, start, end);
        self.longest = longest.max(end);
    }

    pub(crate) fn cut(&mut self, size: u64)
        requires { size ≤ length self.old.text }
        ensures cut { self.new ≡ record self.old {
          text = take size self.old.text;
          left = record self.old.left { shortest = min self.old.left.shortest size };
        } }
    {
        self.len = size as usize;
        self.shortest = self.shortest.min(self.len);
    }

    /// A cut is begun, and the file reads as before.
    pub(crate) fn fray(&mut self, size: u64)
        requires { size ≤ length self.old.text }
        ensures opened { IsOpened size self.old.left self.new.left }
        ensures others { self.new ≡ record self.old { left = self.new.left } }
    {
        let start = size as usize;
        touch(&mut self.touched, start, self.longest);
        self.shortest = self.shortest.min(start);
    }

    pub(crate) fn sync(&mut self)
        ensures settled { IsSettled self.new.text self.new.left }
        ensures others { self.new ≡ record self.old { left = self.new.left } }
    {
        overwrite(&mut self.synced, 0, &self.buffer[..self.len]);
        clear(&mut self.touched);
        self.synced_len = self.len;
        self.shortest = self.len;
        self.longest = self.len;
    }

    /// Leaves what the picks choose, and answers how many of them are this file's.
    pub(crate) fn crash(&mut self, picks: &[u8]) -> usize
        requires { IsSound self.old }
        ensures picked { IsPickedFile self.old picks.now self.new }
        ensures used { result ≡ 2 * length self.old.left.touched }
    {
        let touched = &self.touched[..self.longest];
        let used = 2 * touched.len();
        let end = end_of(touched, picks, self.shortest, self.synced_len, self.len);
        choose(
            &mut self.buffer,
            self.len,
            &self.synced[..self.synced_len],
            touched,
            picks,
            end,
        );
        self.len = end;
        self.is_held = false;
        self.sync();
        used
    }
}

/// Makes the list as long as `room` at least.
fn grow<T: Copy>(list: &mut Vec<T>, room: usize, value: T) -> Result<(), AllocError>
    ensures roomy { OnOk result (room ≤ vec_len list.new) }
    ensures longer { vec_len list.old ≤ vec_len list.new }
    ensures kept { (n : ℕ) → n ≤ vec_len list.old → take n list.new.items ≡ take n list.old.items }
{
    if room > list.len() {
        list.resize(room, value)?;
    }
    Ok(())
}

fn overwrite(buffer: &mut Vec<u8>, at: usize, bytes: &[u8])
    requires { at + length bytes.now ≤ vec_len buffer.old }
    ensures long { vec_len buffer.new ≡ vec_len buffer.old }
    ensures below { (k : ℕ) → k < at → slice_index buffer.new.items k ≡ slice_index buffer.old.items k }
    ensures within { (k : ℕ) → k < length bytes.now →
        slice_index buffer.new.items (at + k) ≡ slice_index bytes.now k }
    ensures above { (k : ℕ) → at + length bytes.now ≤ k →
        slice_index buffer.new.items k ≡ slice_index buffer.old.items k }
{
    buffer[at..at + bytes.len()].copy_from_slice(bytes);
}

/// The places from one to another may hold anything.
fn touch(touched: &mut Vec<bool>, from: usize, to: usize)
    requires order { from ≤ to }
    requires within { to ≤ vec_len touched.old }
    ensures long { vec_len touched.new ≡ vec_len touched.old }
    ensures within { (k : ℕ) → from ≤ k → k < to → slice_index_or touched.new.items k true ≡ true }
    ensures below { (k : ℕ) → k < from →
        slice_index_or touched.new.items k true ≡ slice_index_or touched.old.items k true }
    ensures above { (k : ℕ) → to ≤ k →
        slice_index_or touched.new.items k true ≡ slice_index_or touched.old.items k true }
{
    for place in from..to {
        touched[place] = true;
    }
}

/// No place was written.
fn clear(touched: &mut Vec<bool>)
    ensures long { vec_len touched.new ≡ vec_len touched.old }
    ensures kept { (k : ℕ) → k < vec_len touched.old → slice_index_or touched.new.items k true ≡ false }
{
    for place in 0..touched.len() {
        touched[place] = false;
    }
}

/// The pick of a number.
fn pick(picks: &[u8], number: usize) -> u8
    ensures { result ≡ slice_index picks.now number }
{
    if number < picks.len() {
        picks[number]
    } else {
        0
    }
}

/// Whether a file of these lengths ends at a place by its pick.
fn ends_by(shortest: usize, synced: usize, now: usize, pick: u8, place: usize) -> bool
    ensures { MatchBool result (EndsBy shortest synced now pick place) (¬ EndsBy shortest synced now pick place) }
{
    shortest <= place && (pick == 0 && synced <= place || pick == 1 && now <= place || pick == 3)
}

/// Where the file ends by the picks, at its greatest length at the latest.
fn end_of(touched: &[bool], picks: &[u8], shortest: usize, synced: usize, now: usize) -> usize
    ensures no_longer { result ≤ length touched.now }
    ensures goes_on { (k : ℕ) → k < result → ¬ EndsBy shortest synced now (slice_index picks.now (2 * k)) k }
    ensures ends { result < length touched.now →
        EndsBy shortest synced now (slice_index picks.now (2 * result)) result }
{
    for place in 0..touched.len() {
        if ends_by(shortest, synced, now, pick(picks, 2 * place), place) {
            return place;
        }
    }
    touched.len()
}

/// The byte at a place, by its two picks.
fn byte_of(touched: bool, synced: u8, now: u8, pick: u8, value: u8) -> u8
    ensures { result ≡ byte_by touched synced now pick value }
{
    match pick {
        _ if !touched => synced,
        0 => synced,
        1 => now,
        _ => value,
    }
}

fn is_touched(touched: &[bool], place: usize) -> bool
    requires { place < length touched.now }
    ensures { result ≡ slice_index_or touched.now place true }
{
    touched[place]
}

/// The byte at a place of the buffer's front, and 0 behind it.
fn read_at(buffer: &Vec<u8>, place: usize, len: usize) -> u8
    requires { place < vec_len buffer.now }
    ensures { result ≡ slice_index (take len buffer.now.items) place }
{
    if place < len { buffer[place] } else { 0 }
}

/// Puts the bytes that the picks choose into the front of the buffer.
fn choose(
    buffer: &mut Vec<u8>,
    len: usize,
    synced: &[u8],
    touched: &[bool],
    picks: &[u8],
    end: usize,
)
    requires room { end ≤ vec_len buffer.old }
    requires within { end ≤ length touched.now }
    ensures long { vec_len buffer.new ≡ vec_len buffer.old }
    ensures bytes { (k : ℕ) → k < end → slice_index buffer.new.items k ≡ byte_by (slice_index_or touched.now k true)
        (slice_index synced.now k) (slice_index (take len buffer.old.items) k)
        (slice_index picks.now (2 * k)) (slice_index picks.now (2 * k + 1)) }
{
    for place in 0..end {
        let now = read_at(buffer, place, len);
        let was = pick(synced, place);
        let how = pick(picks, 2 * place);
        let value = pick(picks, 2 * place + 1);
        let byte = byte_of(is_touched(touched, place), was, now, how, value);
        buffer[place] = byte;
    }
}
