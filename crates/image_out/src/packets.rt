// Rows as run-length packets.
ghost use Rattle.std.specs.Prelude.{◌≡◌, ◌+◌, ◌*◌, ◌-◌, ◌/◌, ◌<◌, ◌≤◌, ◌++◌, min, length, take, vec_len, vec_capacity};
ghost use Rattle.image_out.specs.Pixels.{pixels_of, pixel_at, is_same, IsWhole, rows_of};
ghost use Rattle.image_out.specs.Packets.{Run, Raw, alike_here, unlike, packet_here, packet_bytes, pixel_count, packets_of, row_bytes, packed};

use crate::append::{append, append_turned};

/// The greatest number of pixels in a packet.
const MOST_PIXELS: usize = 128;

/// Whether two pixels of a row are alike.
#[inline]
fn is_same(row: &[u8], i: usize, j: usize) -> bool
    requires left { 3 * i + 3 ≤ length row.now }
    requires right { 3 * j + 3 ≤ length row.now }
    ensures { result ≡ is_same (pixel_at row.now i) (pixel_at row.now j) }
{
    row[3 * i] == row[3 * j] && row[3 * i + 1] == row[3 * j + 1] && row[3 * i + 2] == row[3 * j + 2]
}

/// How many pixels are like the first one, from there on, up to a packet's most.
fn run_length(row: &[u8]) -> usize
    requires whole { IsWhole row.now }
    requires some { 3 ≤ length row.now }
    ensures length { result ≡ min 128 (alike_here (pixels_of row.now)) }
{
    let pixels = row.len() / 3;
    let mut count = 1;
    while count < MOST_PIXELS && count < pixels && is_same(row, 0, count) {
        count += 1;
    }
    count
}

/// How many pixels stand before the next run, up to a packet's most.
fn raw_length(row: &[u8]) -> usize
    requires whole { IsWhole row.now }
    requires some { 3 ≤ length row.now }
    ensures length { result ≡ min 128 (unlike (pixels_of row.now)) }
{
    let last = row.len() / 3 - 1;
    let mut count = 0;
    while count < MOST_PIXELS {
        if count == last {
            return count + 1;
        }
        if is_same(row, count, count + 1) {
            return count;
        }
        count += 1;
    }
    count
}

/// Appends a packet of one pixel and how often it stands there.
fn put_run(count: usize, pixel: &[u8], out: &mut Vec<u8>)
    requires count { count ≤ 128 }
    requires pixel { length pixel.now ≡ 3 }
    requires room { vec_len out.old + 4 ≤ vec_capacity out.old }
    ensures items { out.new.items ≡ out.old.items ++ packet_bytes (Run count (pixel_at pixel.now 0)) }
    ensures length { vec_len out.new ≤ vec_len out.old + 4 }
    ensures capacity { vec_capacity out.new ≡ vec_capacity out.old }
{
    append(out, &[127 + count as u8]);
    append_turned(out, pixel);
}

/// Appends a packet of these pixels.
fn put_raw(pixels: &[u8], out: &mut Vec<u8>)
    requires whole { IsWhole pixels.now }
    requires some { 3 ≤ length pixels.now }
    requires most { length pixels.now ≤ 384 }
    requires room { vec_len out.old + 1 + length pixels.now ≤ vec_capacity out.old }
    ensures items { out.new.items ≡ out.old.items ++ packet_bytes (Raw (pixels_of pixels.now)) }
    ensures length { vec_len out.new ≤ vec_len out.old + 1 + length pixels.now }
    ensures capacity { vec_capacity out.new ≡ vec_capacity out.old }
{
    append(out, &[(pixels.len() / 3 - 1) as u8]);
    append_turned(out, pixels);
}

/// Appends the first packet, and says how many pixels it holds.
fn put_packet(row: &[u8], out: &mut Vec<u8>) -> usize
    requires whole { IsWhole row.now }
    requires some { 3 ≤ length row.now }
    requires room { vec_len out.old + 4 * length (pixels_of row.now) ≤ vec_capacity out.old }
    ensures count { result ≡ pixel_count (packet_here (pixels_of row.now)) }
    ensures items { out.new.items ≡ out.old.items ++ packet_bytes (packet_here (pixels_of row.now)) }
    ensures length { vec_len out.new ≤ vec_len out.old + 4 * result }
    ensures capacity { vec_capacity out.new ≡ vec_capacity out.old }
{
    let run = run_length(row);
    if run > 1 {
        put_run(run, row.split_at(3).0, out);
        return run;
    }
    let raw = raw_length(row);
    put_raw(row.split_at(3 * raw).0, out);
    raw
}

/// Appends the packets of a row.
fn put_row(row: &[u8], out: &mut Vec<u8>)
    requires whole { IsWhole row.now }
    requires room { vec_len out.old + 4 * length (pixels_of row.now) ≤ vec_capacity out.old }
    ensures items { out.new.items ≡ out.old.items ++ row_bytes (packets_of (pixels_of row.now)) }
    ensures length { vec_len out.new ≤ vec_len out.old + 4 * length (pixels_of row.now) }
    ensures capacity { vec_capacity out.new ≡ vec_capacity out.old }
{
    let mut rest = row;
    while rest.len() >= 3 {
        let count = put_packet(rest, out);
        rest = rest.split_at(3 * count).1;
    }
}

/// Appends the packets of all rows.
pub(crate) fn put_rows(samples: &[u8], width: usize, height: usize, out: &mut Vec<u8>)
    requires whole { length samples.now ≡ 3 * width * height }
    requires width { width ≤ 8192 }
    requires room { vec_len out.old + 4 * width * height ≤ vec_capacity out.old }
    ensures items { out.new.items
        ≡ out.old.items ++ packed (rows_of width height (pixels_of samples.now)) }
    ensures length { vec_len out.new ≤ vec_len out.old + 4 * width * height }
    ensures capacity { vec_capacity out.new ≡ vec_capacity out.old }
{
    let mut rest = samples;
    for _row in 0..height {
        let (row, below) = rest.split_at(3 * width);
        put_row(row, out);
        rest = below;
    }
}
