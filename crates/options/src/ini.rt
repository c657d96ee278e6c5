// INI files. (Reference manual, INI files)
ghost use Rattle.std.specs.Prelude.{◌≡◌, ◌+◌, ◌==◌, ◌≤◌, length, drop, true};
ghost use Rattle.std.specs.List.{list_all, position_or_len};
ghost use Rattle.std.specs.Option.{option_copied};
ghost use Rattle.std.specs.Str.{bytes_eq};
ghost use Rattle.std.specs.Str.Lines.{lines, strip_carriage_return};
ghost use Rattle.options.specs.Drafts.{IsRead, IsDraft};
ghost use Rattle.options.specs.Ini.{is_blank, trim_start, trim_end, trimmed, bare, enclosed, unquoted, is_signed, is_fine, pieces, piece_read, pieces_read, named_read, pair_read, line_read, first_line, counts_in, counts_behind, line_step, lines_read, is_named, has_section};

use crate::draft::Draft;
use crate::fault::{OptionFault, Where};
use crate::reading::{switch, take};
use crate::table::name_of;
use std::alloc::Global;

fn is_blank(byte: u8) -> bool
    ensures { result ≡ is_blank byte }
{
    byte == b' ' || byte == b'\t'
}

/// How many bytes stand before the first one of this kind.
fn length_before(stop: u8, text: &[u8]) -> usize
    ensures value { result ≡ position_or_len (λ b. b == stop) text.now }
    ensures within { result ≤ length text.now }
{
    let mut at = 0;
    for byte in text {
        if *byte == stop {
            return at;
        }
        at += 1;
    }
    at
}

/// How many bytes stand before the first blank.
fn length_before_blank(text: &[u8]) -> usize
    ensures value { result ≡ position_or_len is_blank text.now }
    ensures within { result ≤ length text.now }
{
    let mut at = 0;
    for byte in text {
        if is_blank(*byte) {
            return at;
        }
        at += 1;
    }
    at
}

fn trim_start(text: &[u8]) -> &[u8]
    ensures { result.now ≡ trim_start text.now }
{
    let mut rest = text;
    while let [byte, more @ ..] = rest {
        if !is_blank(*byte) {
            return rest;
        }
        rest = more;
    }
    rest
}

fn trim_end(text: &[u8]) -> &[u8]
    ensures { result.now ≡ trim_end text.now }
{
    let mut rest = text;
    while let [more @ .., byte] = rest {
        if !is_blank(*byte) {
            return rest;
        }
        rest = more;
    }
    rest
}

fn trimmed(text: &[u8]) -> &[u8]
    ensures { result.now ≡ trimmed text.now }
{
    trim_end(trim_start(text))
}

/// A line without its comment, and without blanks at its ends.
fn bare(line: &[u8]) -> &[u8]
    ensures { result.now ≡ bare line.now }
{
    trimmed(&line[..length_before(b';', line)])
}

/// What stands between two marks; none where the text doesn't begin with the one and end with the other.
pub fn enclosed(first: u8, last: u8, text: &[u8]) -> Option<&[u8]>
    ensures { option_copied result ≡ enclosed first last text.now }
{
    let [front, rest @ ..] = text else {
        return None;
    };
    let [within @ .., back] = rest else {
        return None;
    };
    if *front == first && *back == last {
        Some(within)
    } else {
        None
    }
}

fn unquoted(value: &[u8]) -> &[u8]
    ensures { result.now ≡ unquoted value.now }
{
    match enclosed(b'"', b'"', value) {
        Some(within) => within,
        None => value,
    }
}

pub fn is_signed(piece: &[u8]) -> bool
    ensures { result ≡ is_signed piece.now }
{
    match piece {
        [] => false,
        [first, ..] => *first == b'+' || *first == b'-',
    }
}

/// The bytes behind so many and one more.
fn after(bytes: &[u8], count: usize) -> &[u8]
    requires { count ≤ length bytes.now }
    ensures { result.now ≡ drop (count + 1) bytes.now }
{
    if count < bytes.len() {
        &bytes[count + 1..]
    } else {
        &bytes[bytes.len()..]
    }
}

/// Whether a piece is empty, or begins with a sign.
fn is_fine(piece: &[u8]) -> bool
    ensures { result ≡ is_fine piece.now }
{
    piece.is_empty() || is_signed(piece)
}

/// Whether each piece of a line, between blanks, begins with a sign.
fn are_signed(line: &[u8]) -> bool
    ensures { result ≡ list_all is_signed (pieces line.now) }
{
    let mut rest = line;
    while !rest.is_empty() {
        let end = length_before_blank(rest);
        if !is_fine(&rest[..end]) {
            return false;
        }
        rest = after(rest, end);
    }
    true
}

/// Reads a switch of a line.
fn read_piece(alloc: Global, place: Where, piece: &[u8], draft: Draft) -> Result<Draft, OptionFault>
    requires { IsDraft draft }
    ensures { IsRead (piece_read place piece.now draft) result }
{
    match piece {
        [] => Ok(draft),
        [first, letters @ ..] => switch(alloc, place, *first == b'-', letters, draft),
    }
}

/// Reads the switches of a line, one after another.
fn read_pieces(alloc: Global, place: Where, line: &[u8], draft: Draft) -> Result<Draft, OptionFault>
    requires { IsDraft draft }
    ensures { IsRead (pieces_read place (pieces line.now) draft) result }
{
    let mut draft = draft;
    let mut rest = line;
    while !rest.is_empty() {
        let end = length_before_blank(rest);
        draft = match read_piece(alloc, place, &rest[..end], draft) {
            Ok(next) => next,
            Err(fault) => return Err(fault),
        };
        rest = after(rest, end);
    }
    Ok(draft)
}

/// Reads the value of an INI name.
fn read_name(
    alloc: Global,
    place: Where,
    name: &[u8],
    value: &[u8],
    draft: Draft,
) -> Result<Draft, OptionFault>
    requires { IsDraft draft }
    ensures { IsRead (named_read place name.now value.now draft) result }
{
    match name_of(name) {
        Some(reading) => take(alloc, place, reading, value, draft),
        None => Err(OptionFault::UnknownWord(place)),
    }
}

/// Reads a name and its value.
fn read_pair(alloc: Global, place: Where, line: &[u8], draft: Draft) -> Result<Draft, OptionFault>
    requires { IsDraft draft }
    ensures { IsRead (pair_read place line.now draft) result }
{
    let at = length_before(b'=', line);
    let name = trimmed(&line[..at]);
    if at >= line.len() || name.is_empty() {
        return Err(OptionFault::BadLine(place));
    }
    read_name(
        alloc,
        place,
        name,
        unquoted(trimmed(after(line, at))),
        draft,
    )
}

/// Reads a line that doesn't name a section.
fn read_line(alloc: Global, place: Where, line: &[u8], draft: Draft) -> Result<Draft, OptionFault>
    requires { IsDraft draft }
    ensures { IsRead (line_read place line.now draft) result }
{
    if line.is_empty() {
        return Ok(draft);
    }
    if !is_signed(line) {
        return read_pair(alloc, place, line, draft);
    }
    if !are_signed(line) {
        return Err(OptionFault::BadLine(place));
    }
    read_pieces(alloc, place, line, draft)
}

/// A line without the carriage return at its end.
fn uncarried(line: &[u8]) -> &[u8]
    ensures { result.now ≡ strip_carriage_return line.now }
{
    let length = line.len();
    if length > 0 && line[length - 1] == b'\r' {
        return &line[..length - 1];
    }
    line
}

/// The first line of a text, whose first line feed stands at this place, or which has none and so many bytes.
fn first_line(text: &[u8], end: usize) -> &[u8]
    requires { end ≤ length text.now }
    ensures { result.now ≡ first_line text.now end }
{
    if end < text.len() {
        uncarried(&text[..end])
    } else {
        text
    }
}

/// Whether two names are the same.
fn is_same(name: &[u8], other: &[u8]) -> bool
    ensures { result ≡ bytes_eq name.now other.now }
{
    name == other
}

/// Whether the lines behind a section's name count.
fn counts_in(chosen: Option<&[u8]>, name: &[u8]) -> bool
    ensures { result ≡ counts_in (option_copied chosen.entry) name.now }
{
    match chosen {
        Some(chosen) => is_same(name, chosen),
        None => false,
    }
}

/// Whether the lines behind this one count.
fn counts_behind(chosen: Option<&[u8]>, counts: bool, section: Option<&[u8]>) -> bool
    ensures { result ≡ counts_behind (option_copied chosen.entry) counts (option_copied section.entry) }
{
    match section {
        Some(name) => counts_in(chosen, name),
        None => counts,
    }
}

/// Reads a line where it counts and names no section.
fn read_step(
    alloc: Global,
    place: Where,
    counts: bool,
    section: Option<&[u8]>,
    line: &[u8],
    draft: Draft,
) -> Result<Draft, OptionFault>
    requires { IsDraft draft }
    ensures { IsRead (line_step place counts (option_copied section.entry) line.now draft) result }
{
    match section {
        Some(_) => Ok(draft),
        None => {
            if counts {
                read_line(alloc, place, line, draft)
            } else {
                Ok(draft)
            }
        }
    }
}

/// Whether some line names this section.
pub fn has_section(name: &[u8], text: &[u8]) -> bool
    ensures { result ≡ has_section name.now (lines text.now) }
{
    let mut rest = text;
    while !rest.is_empty() {
        let end = length_before(b'\n', rest);
        let line = bare(first_line(rest, end));
        if is_named(name, enclosed(b'[', b']', line)) {
            return true;
        }
        rest = after(rest, end);
    }
    false
}

fn is_named(name: &[u8], section: Option<&[u8]>) -> bool
    ensures { result ≡ is_named name.now (option_copied section.entry) }
{
    match section {
        Some(section) => is_same(section, name),
        None => false,
    }
}

/// Reads the lines of an INI file: those before the first section, and those of the chosen one.
pub fn read_lines(
    alloc: Global,
    chosen: Option<&[u8]>,
    text: &[u8],
    draft: Draft,
) -> Result<Draft, OptionFault>
    requires short { length text.now ≤ 16777216 }
    requires sound { IsDraft draft }
    ensures { IsRead (lines_read (option_copied chosen.entry) 1 true (lines text.now) draft) result }
{
    let mut draft = draft;
    let mut rest = text;
    let mut number = 1;
    let mut counts = true;
    while !rest.is_empty() {
        let end = length_before(b'\n', rest);
        let line = bare(first_line(rest, end));
        let section = enclosed(b'[', b']', line);
        draft = match read_step(alloc, Where::Line(number), counts, section, line, draft) {
            Ok(next) => next,
            Err(fault) => return Err(fault),
        };
        counts = counts_behind(chosen, counts, section);
        number += 1;
        rest = after(rest, end);
    }
    Ok(draft)
}
