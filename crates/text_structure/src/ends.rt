// The ends of all lists of a text, found in one pass from its end to its start.
ghost use Rattle.std.specs.Prelude.{◌≡◌, ◌<◌, ◌≤◌, ◌^◌, ◌+◌, ◌*◌, length, slice_index};
ghost use Rattle.text_structure.specs.Tables.{number_of, numbered, IsEntry, IsTable, IsPlain, may_open, closes};

use crate::closer::{Closer, Turn, closing, past, sign_at, turn_at};
use crate::mark::Mark;

/// How many kinds of closers a table tells apart.
const KINDS: usize = 10;

impl Closer {
    pub fn number(self) -> usize
        ensures value { result ≡ number_of self }
        ensures small { result < 10 }
        ensures back { numbered result ≡ self }
    {
        match self {
            Closer::End => 0,
            Closer::Branch => 1,
            Closer::Parenthesis => 2,
            Closer::Brace => 3,
            Closer::Semicolon => 4,
            Closer::Comma => 5,
            Closer::Round => 6,
            Closer::Square => 7,
            Closer::Curly => 8,
            Closer::Angle => 9,
        }
    }

    fn numbered(number: usize) -> Closer
        ensures { result ≡ numbered number }
    {
        if number == 0 {
            Closer::End
        } else if number == 1 {
            Closer::Branch
        } else if number == 2 {
            Closer::Parenthesis
        } else if number == 3 {
            Closer::Brace
        } else if number == 4 {
            Closer::Semicolon
        } else if number == 5 {
            Closer::Comma
        } else if number == 6 {
            Closer::Round
        } else if number == 7 {
            Closer::Square
        } else if number == 8 {
            Closer::Curly
        } else {
            Closer::Angle
        }
    }
}

/// The end of a list that begins at a place, from a table that is filled from there on.
#[inline(always)]
pub fn end_in(marks: &[Mark], table: &[u32], from: usize, closer: Closer, at: usize) -> usize
    requires small { length marks.now ≤ 2 ^ 24 }
    requires within { at ≤ length marks.now }
    requires length { length table.now ≡ (length marks.now + 1) * 10 }
    requires from { from ≤ at * 10 }
    requires filled { IsTable marks.now from table.now }
    ensures entry { IsEntry marks.now closer at result }
    ensures value { result ≡ slice_index table.now (at * 10 + number_of closer) }
{
    table[at * KINDS + closer.number()] as usize
}

/// The end of a list that begins at a place, from the ends of those that begin behind it.
#[inline(always)]
fn entry(marks: &[Mark], closer: Closer, at: usize, from: usize, table: &[u32]) -> usize
    requires small { length marks.now ≤ 2 ^ 24 }
    requires within { at ≤ length marks.now }
    requires length { length table.now ≡ (length marks.now + 1) * 10 }
    requires from { from ≤ (at + 1) * 10 }
    requires filled { IsTable marks.now from table.now }
    ensures { IsEntry marks.now closer at result }
{
    match turn_at(marks, closer, at) {
        Turn::Stop => at,
        Turn::Over(next) => end_in(marks, table, from, closer, next),
        Turn::Inside { inner, start } => {
            let last = end_in(marks, table, from, inner, start);
            end_in(marks, table, from, closer, past(marks, inner, last))
        }
    }
}

/// Whether a list may begin at a sign: at a bracket that opens one, or at the `#` of a directive.
#[inline(always)]
fn may_open(code: u8) -> bool
    ensures { result ≡ may_open code }
{
    code == b'#' || code == b'(' || code == b'[' || code == b'{' || code == b'<'
}

/// Whether a sign closes a list.
#[inline(always)]
fn closes(code: u8, closer: Closer) -> bool
    ensures { result ≡ closes code closer }
{
    code > 0 && code == closing(closer)
}

/// The end of a list that begins at a token that opens nothing.
#[inline(always)]
fn plain_entry(marks: &[Mark], closer: Closer, at: usize, code: u8, table: &[u32]) -> usize
    requires small { length marks.now ≤ 2 ^ 24 }
    requires plain { IsPlain marks.now at code }
    requires length { length table.now ≡ (length marks.now + 1) * 10 }
    requires filled { IsTable marks.now ((at + 1) * 10) table.now }
    ensures { IsEntry marks.now closer at result }
{
    if closes(code, closer) {
        at
    } else {
        end_in(marks, table, (at + 1) * KINDS, closer, at + 1)
    }
}

/// Puts an entry down.
#[inline(always)]
fn put(marks: &[Mark], table: &mut [u32], at: usize, kind: usize, end: usize)
    requires small { length marks.now ≤ 2 ^ 24 }
    requires within { at ≤ length marks.now }
    requires kind { kind < 10 }
    requires length { length table.old ≡ (length marks.now + 1) * 10 }
    requires entry { IsEntry marks.now (numbered kind) at end }
    requires filled { IsTable marks.now (at * 10 + kind + 1) table.old }
    ensures length { length table.new ≡ (length marks.now + 1) * 10 }
    ensures filled { IsTable marks.now (at * 10 + kind) table.new }
{
    table[at * KINDS + kind] = end as u32;
}

/// Fills the entries of a place where a list of its own may begin.
#[inline(never)]
fn open_row(marks: &[Mark], at: usize, table: &mut [u32])
    requires small { length marks.now ≤ 2 ^ 24 }
    requires within { at ≤ length marks.now }
    requires length { length table.old ≡ (length marks.now + 1) * 10 }
    requires filled { IsTable marks.now ((at + 1) * 10) table.old }
    ensures length { length table.new ≡ (length marks.now + 1) * 10 }
    ensures filled { IsTable marks.now (at * 10) table.new }
{
    let mut left = KINDS;
    'kinds: while left > 0 {
        let kind = left - 1;
        let from = at * KINDS + left;
        let end = entry(marks, Closer::numbered(kind), at, from, table);
        put(marks, table, at, kind, end);
        left = kind;
    }
}

/// Fills the entries of a token that opens nothing: it closes the lists of its own kind, and all others go on behind it.
#[inline(always)]
fn plain_row(marks: &[Mark], at: usize, code: u8, table: &mut [u32])
    requires small { length marks.now ≤ 2 ^ 24 }
    requires plain { IsPlain marks.now at code }
    requires length { length table.old ≡ (length marks.now + 1) * 10 }
    requires filled { IsTable marks.now ((at + 1) * 10) table.old }
    ensures length { length table.new ≡ (length marks.now + 1) * 10 }
    ensures filled { IsTable marks.now (at * 10) table.new }
{
    let mut left = KINDS;
    'kinds: while left > 0 {
        let kind = left - 1;
        let end = plain_entry(marks, Closer::numbered(kind), at, code, table);
        put(marks, table, at, kind, end);
        left = kind;
    }
}

/// Fills the entries of a place.
#[inline(always)]
fn row(marks: &[Mark], at: usize, table: &mut [u32])
    requires small { length marks.now ≤ 2 ^ 24 }
    requires within { at ≤ length marks.now }
    requires length { length table.old ≡ (length marks.now + 1) * 10 }
    requires filled { IsTable marks.now ((at + 1) * 10) table.old }
    ensures length { length table.new ≡ (length marks.now + 1) * 10 }
    ensures filled { IsTable marks.now (at * 10) table.new }
{
    let code = sign_at(marks, at);
    if at < marks.len() && !may_open(code) {
        plain_row(marks, at, code, table);
    } else {
        open_row(marks, at, table);
    }
}

/// Fills the table of a text.
pub fn fill(marks: &[Mark], table: &mut [u32])
    requires small { length marks.now ≤ 2 ^ 24 }
    requires length { length table.old ≡ (length marks.now + 1) * 10 }
    ensures length { length table.new ≡ (length marks.now + 1) * 10 }
    ensures filled { IsTable marks.now 0 table.new }
{
    let mut left = marks.len() + 1;
    'rows: while left > 0 {
        let at = left - 1;
        row(marks, at, table);
        left = at;
    }
}
