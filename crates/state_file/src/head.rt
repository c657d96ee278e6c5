// The bytes of a fresh state file.
ghost use Rattle.std.specs.Prelude.{◌≡◌, ◌+◌, ◌-◌, ◌<◌, ◌≤◌, ◌++◌, ◌∷◌, [], ℕ, List, length, slice_index, OnOk, IfOk};
ghost use Rattle.byteorder.specs.Endian.{little_bytes};
ghost use Rattle.state_file.specs.Frames.{layout};
ghost use Rattle.state_file.specs.Shape.{head_of};

use crate::frame::Frame;
use byteorder::{ByteOrder, LittleEndian};
use std::alloc::{AllocError, Global};

/// Appends a number of four bytes, the lowest first.
fn append_number(out: &mut Vec<u8>, number: u32) -> Result<(), AllocError>
    ensures { OnOk result (out.new.items ≡ out.old.items ++ little_bytes 4 number) }
{
    let mut bytes = [0u8; 4];
    LittleEndian::write_u32(&mut bytes, number);
    out.extend_from_slice(&bytes)?;
    Ok(())
}

/// The version, the sizes and the key.
fn append_head(out: &mut Vec<u8>, frame: &Frame) -> Result<(), AllocError>
    ensures { OnOk result (out.new.items ≡ out.old.items ++ head_of frame.now.geometry frame.now.key.items) }
{
    out.push((frame.geometry.bits / 8) as u8)?;
    append_number(out, frame.key.len() as u32)?;
    append_number(out, frame.geometry.width)?;
    append_number(out, frame.geometry.height)?;
    append_number(out, frame.count())?;
    out.extend_from_slice(&frame.key)?;
    Ok(())
}

/// A fresh state file with its gate closed.
pub(crate) fn fresh_file(alloc: Global, frame: &Frame) -> Result<Vec<u8>, AllocError>
    ensures long { IfOk result (λ file. length file.items ≡ (layout frame.now).all) }
    ensures head { IfOk result (λ file. (k : ℕ) → k < length (layout frame.now).head →
        slice_index file.items (1 + k) ≡ slice_index (layout frame.now).head k) }
    ensures blank { IfOk result (λ file. (k : ℕ) → 1 + length (layout frame.now).head ≤ k →
        slice_index file.items k ≡ 0) }
{
    let mut file = Vec::new(alloc);
    file.push(0)?;
    append_head(&mut file, frame)?;
    file.resize(frame.length() as usize, 0)?;
    Ok(file)
}
