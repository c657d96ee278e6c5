// Bytes at the end of a list that has room for them.
ghost use Rattle.std.specs.Prelude.{◌≡◌, ◌+◌, ◌≤◌, ◌++◌, length, vec_len, vec_capacity, decimal};
ghost use Rattle.byteorder.specs.Endian.{little_bytes};
ghost use Rattle.std.specs.List.{flat_map};
ghost use Rattle.image_out.specs.Pixels.{pixels_of, turned};

use byteorder::{ByteOrder, LittleEndian};
use itoa::Buffer;
use std::mem::replace;

/// Appends bytes. The loop owns the list, since writes through a borrow might change its length
/// for all that a compiler knows, and then it wouldn't copy whole blocks.
pub(crate) fn append(out: &mut Vec<u8>, bytes: &[u8])
    requires { vec_len out.old + length bytes.now ≤ vec_capacity out.old }
    ensures items { out.new.items ≡ out.old.items ++ bytes.now }
    ensures length { vec_len out.new ≡ vec_len out.old + length bytes.now }
    ensures capacity { vec_capacity out.new ≡ vec_capacity out.old }
{
    let empty = Vec::new(*out.allocator());
    let mut list = replace(out, empty);
    for byte in bytes {
        list.push_reserved(*byte);
    }
    *out = list;
}

/// Appends the samples of each pixel in the order blue, green, red.
pub(crate) fn append_turned(out: &mut Vec<u8>, samples: &[u8])
    requires { vec_len out.old + length samples.now ≤ vec_capacity out.old }
    ensures items { out.new.items ≡ out.old.items ++ flat_map turned (pixels_of samples.now) }
    ensures length { vec_len out.new ≤ vec_len out.old + length samples.now }
    ensures capacity { vec_capacity out.new ≡ vec_capacity out.old }
{
    let empty = Vec::new(*out.allocator());
    let mut list = replace(out, empty);
    let mut at = 0;
    while at + 3 <= samples.len() {
        list.push_reserved(samples[at + 2]);
        list.push_reserved(samples[at + 1]);
        list.push_reserved(samples[at]);
        at += 3;
    }
    *out = list;
}

/// Appends a number's decimal digits.
pub(crate) fn append_decimal(out: &mut Vec<u8>, number: u32)
    requires { vec_len out.old + length (decimal number) ≤ vec_capacity out.old }
    ensures items { out.new.items ≡ out.old.items ++ decimal number }
    ensures length { vec_len out.new ≡ vec_len out.old + length (decimal number) }
    ensures capacity { vec_capacity out.new ≡ vec_capacity out.old }
{
    let mut buffer = Buffer::new();
    append(out, buffer.format(number).as_bytes());
}

/// Appends a number as two bytes, the low one first.
pub(crate) fn append_u16(out: &mut Vec<u8>, number: u16)
    requires { vec_len out.old + 2 ≤ vec_capacity out.old }
    ensures items { out.new.items ≡ out.old.items ++ little_bytes 2 number }
    ensures length { vec_len out.new ≡ vec_len out.old + 2 }
    ensures capacity { vec_capacity out.new ≡ vec_capacity out.old }
{
    let mut bytes = [0; 2];
    LittleEndian::write_u16(&mut bytes, number);
    append(out, &bytes);
}
