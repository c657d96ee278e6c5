// The bytes of a file.
ghost use Rattle.std.specs.Prelude.{◌≡◌, ◌+◌, ◌≤◌, ◌++◌, List, ℕ, length, drop, vec_len, vec_capacity};
ghost use Rattle.image_out.specs.Sizes.{IsSide, IsDepth, HasDepth, picture_length, room_of};
ghost use Rattle.image_out.specs.Pixels.{pixels_of, rows_of};
ghost use Rattle.image_out.specs.Unpacking.{Unpacks};
ghost use Rattle.image_out.specs.Files.{file_of, greatest_line, ppm_header, targa_header};

use crate::append::{append, append_decimal, append_turned, append_u16};
use crate::packets::put_rows;
use crate::{Picture, Sort};

/// At least the length of the file, whatever the picture holds.
pub fn room(sort: Sort, width: u32, height: u32, bits: u32) -> u64
    requires width { IsSide width }
    requires height { IsSide height }
    requires bits { IsDepth bits }
    ensures value { result ≡ room_of sort width height bits }
    ensures enough { (bytes : List ℕ) → HasDepth sort bits →
        length bytes ≡ picture_length width height bits →
        length (file_of sort width height bits bytes) ≤ result }
{
    let samples = (bits / 8) as u64 * 3 * width as u64 * height as u64;
    match sort {
        Sort::Ppm => 19 + samples,
        Sort::Targa => 18 + samples,
        Sort::TargaRle => 18 + 4 * width as u64 * height as u64,
    }
}

/// Appends the file's bytes. The list has the room from the start, so no memory is taken. Behind a
/// run-length file's header of 18 bytes stand packets that unpack to the picture.
pub fn put(sort: Sort, p: &Picture, out: &mut Vec<u8>)
    requires width { IsSide p.now.width }
    requires height { IsSide p.now.height }
    requires bits { HasDepth sort p.now.bits }
    requires whole { length p.now.bytes.now ≡ picture_length p.now.width p.now.height p.now.bits }
    requires room { vec_len out.old + room_of sort p.now.width p.now.height p.now.bits
        ≤ vec_capacity out.old }
    ensures file { out.new.items ≡ out.old.items
        ++ file_of sort p.now.width p.now.height p.now.bits p.now.bytes.now }
    ensures unpacks { sort ≡ Sort.TargaRle →
        Unpacks p.now.width (drop (length out.old.items + 18) out.new.items)
        (rows_of p.now.width p.now.height (pixels_of p.now.bytes.now)) }
    ensures capacity { vec_capacity out.new ≡ vec_capacity out.old }
{
    match sort {
        Sort::Ppm => {
            put_ppm_header(p.width, p.height, p.bits, out);
            append(out, p.bytes);
        }
        Sort::Targa => {
            put_targa_header(2, p.width, p.height, out);
            append_turned(out, p.bytes);
        }
        Sort::TargaRle => {
            put_targa_header(10, p.width, p.height, out);
            put_rows(p.bytes, p.width as usize, p.height as usize, out);
        }
    }
}

/// The line of the greatest sample.
fn greatest_line(bits: u32) -> &'static [u8]
    ensures value { result.now ≡ greatest_line bits }
    ensures length { length result.now ≤ 6 }
{
    if bits == 8 { b"255\n" } else { b"65535\n" }
}

#[tactic(auto, using(crate::proofs::FileLemmas::side_digits))]
fn put_ppm_header(width: u32, height: u32, bits: u32, out: &mut Vec<u8>)
    requires width { IsSide width }
    requires height { IsSide height }
    requires bits { IsDepth bits }
    requires room { vec_len out.old + 19 ≤ vec_capacity out.old }
    ensures items { out.new.items ≡ out.old.items ++ ppm_header width height bits }
    ensures length { vec_len out.new ≤ vec_len out.old + 19 }
    ensures capacity { vec_capacity out.new ≡ vec_capacity out.old }
{
    append(out, b"P6\n");
    append_decimal(out, width);
    append(out, b" ");
    append_decimal(out, height);
    append(out, b"\n");
    append(out, greatest_line(bits));
}

fn put_targa_header(kind: u8, width: u32, height: u32, out: &mut Vec<u8>)
    requires width { IsSide width }
    requires height { IsSide height }
    requires room { vec_len out.old + 18 ≤ vec_capacity out.old }
    ensures items { out.new.items ≡ out.old.items ++ targa_header kind width height }
    ensures length { vec_len out.new ≡ vec_len out.old + 18 }
    ensures capacity { vec_capacity out.new ≡ vec_capacity out.old }
{
    append(out, &[0, 0, kind]);
    append(out, &[0; 9]);
    append_u16(out, width as u16);
    append_u16(out, height as u16);
    append(out, &[24, 32]);
}
