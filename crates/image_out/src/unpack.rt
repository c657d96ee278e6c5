// Run-length packets, read.
ghost use Rattle.std.specs.Prelude.{◌≡◌, ◌++◌, ℕ, List, IfOk, IfErr, OnOk, MatchResult};
ghost use Rattle.std.specs.List.{repeat};
ghost use Rattle.image_out.specs.Reading.{ReadsPacket, ReadsPart};
ghost use Rattle.image_out.specs.Unpacking.{IsFault, IsOneFault, IsPacketFault, IsRowFault, ReadsPicture};

use std::alloc::{AllocError, Global};

/// Why bytes aren't the packets of a picture. The first fault counts; a packet stands where its
/// first byte does.
#[derive(Clone, Copy, Debug, PartialEq, Eq)]
pub enum RleFault {
    /// The bytes end before the last pixel.
    Short,
    /// A packet goes on past the end of a row.
    PastRow,
    /// Bytes follow the last pixel.
    Long,
    /// There is no memory for the pixels.
    NoMemory,
}

/// The picture of run-length packets: blue, green and red of each pixel, by rows.
pub fn read_rle(alloc: Global, bytes: &[u8], width: u32, height: u32) -> Result<Vec<u8>, RleFault>
    ensures unpacked { IfOk result (λ triples.
        ReadsPicture width height bytes.now triples.items) }
    ensures fault { IfErr result (λ fault. IsFault width height bytes.now fault) }
    ensures every_picture { (triples : List ℕ) → ReadsPicture width height bytes.now triples →
        MatchResult result (λ found. found.items ≡ triples) (λ fault. fault ≡ RleFault.NoMemory) }
    ensures every_fault { (fault : RleFault) → IsFault width height bytes.now fault →
        MatchResult result (λ _. fault ≡ RleFault.NoMemory) (λ found. IsOneFault found fault) }
{
    let mut out = Vec::new(alloc);
    let mut rest = bytes;
    for _row in 0..height {
        match read_row(rest, width, &mut out) {
            Ok(below) => rest = below,
            Err(fault) => return Err(fault),
        }
    }
    if rest.is_empty() {
        Ok(out)
    } else {
        Err(RleFault::Long)
    }
}

/// Reads the packets of one row, and answers the bytes behind them.
fn read_row<'a>(bytes: &'a [u8], width: u32, out: &mut Vec<u8>) -> Result<&'a [u8], RleFault>
    ensures read { IfOk result (λ rest.
        ReadsPart width 0 bytes.now rest.now out.old.items out.new.items) }
    ensures fault { IfErr result (λ fault. IsRowFault width bytes.now fault) }
{
    let mut rest = bytes;
    let mut left = width;
    while left > 0 {
        match read_packet(rest, left, out) {
            Ok((count, behind)) => {
                left -= count;
                rest = behind;
            }
            Err(fault) => return Err(fault),
        }
    }
    Ok(rest)
}

/// Reads a packet, and answers how many pixels it has and the bytes behind it.
fn read_packet<'a>(
    bytes: &'a [u8],
    left: u32,
    out: &mut Vec<u8>,
) -> Result<(u32, &'a [u8]), RleFault>
    ensures read { IfOk result (λ found.
        ReadsPacket left found.0 bytes.now found.1.now out.old.items out.new.items) }
    ensures fault { IfErr result (λ fault. IsPacketFault left bytes.now fault) }
{
    let [head, body @ ..] = bytes else {
        return Err(RleFault::Short);
    };
    let count = (*head % 128) as u32 + 1;
    if count > left {
        return Err(RleFault::PastRow);
    }
    let length = if *head < 128 { 3 * count as usize } else { 3 };
    if body.len() < length {
        return Err(RleFault::Short);
    }
    let (pixels, behind) = body.split_at(length);
    let times = if *head < 128 { 1 } else { count };
    if repeat_triples(pixels, times, out).is_err() {
        return Err(RleFault::NoMemory);
    }
    Ok((count, behind))
}

/// Appends the triples so many times.
fn repeat_triples(triples: &[u8], times: u32, out: &mut Vec<u8>) -> Result<(), AllocError>
    ensures { OnOk result (out.new.items ≡ out.old.items ++ repeat times triples.now) }
{
    for _time in 0..times {
        if out.extend_from_slice(triples).is_err() {
            return Err(AllocError);
        }
    }
    Ok(())
}
