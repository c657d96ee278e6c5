// Blocks in a picture by rows.
ghost use Rattle.std.specs.Prelude.{◌≡◌, ◌≢◌, ◌+◌, ◌-◌, ◌*◌, ◌^◌, ◌<◌, ◌≤◌, ℕ, List, length, slice_index};
ghost use Rattle.state_file.specs.declared.block.DoneBlock.{DoneBlock};
ghost use Rattle.state_file.specs.Blocks.{IsAt, AreBlocks, IsNamed, IsTrueBlock};
ghost use Rattle.state_file.specs.Frames.{layout};
ghost use Rattle.state_file.specs.Lines.{LaysLines};

use crate::DoneBlock;
use crate::frame::{Frame, lines_of};

/// Copies bytes to a place.
fn put_at(out: &mut [u8], at: usize, bytes: &[u8])
    requires { at + length bytes.now ≤ length out.old }
    ensures within { (k : ℕ) → k < length bytes.now → slice_index out.new (at + k) ≡ slice_index bytes.now k }
    ensures below { (k : ℕ) → k < at → slice_index out.new k ≡ slice_index out.old k }
    ensures above { (k : ℕ) → at + length bytes.now ≤ k → slice_index out.new k ≡ slice_index out.old k }
{
    out[at..at + bytes.len()].copy_from_slice(bytes);
}

/// Copies lines that lie behind one another to places a stride apart.
fn lay_lines(out: &mut [u8], start: usize, stride: usize, line: usize, count: usize, bytes: &[u8])
    requires long { length bytes.now ≡ count * line }
    requires apart { line ≤ stride }
    requires room { start + stride * count ≤ length out.old + (stride - line) }
    requires small { length out.old < 2 ^ 32 }
    ensures { LaysLines start stride line count bytes.now out.old out.new }
{
    for row in 0..count {
        put_at(
            out,
            start + stride * row,
            &bytes[line * row..line * row + line],
        );
    }
}

/// Copies a block's bytes to their places in the picture.
pub(crate) fn lay_bytes(picture: &mut [u8], frame: &Frame, index: u32, bytes: &[u8])
    requires drawn { length picture.old ≡ (layout frame.now).picture }
    requires index { index < (layout frame.now).count }
    requires size { length bytes.now ≡ (layout frame.now).size index }
    ensures here { (k : ℕ) → k < (layout frame.now).size index →
        slice_index bytes.now k ≡ slice_index picture.new ((layout frame.now).spot index k) }
    ensures others { (b k : ℕ) → b < (layout frame.now).count → b ≢ index → k < (layout frame.now).size b →
        slice_index picture.new ((layout frame.now).spot b k) ≡ slice_index picture.old ((layout frame.now).spot b k) }
{
    let lines = lines_of(&frame.geometry, index);
    lay_lines(
        picture,
        lines.start,
        lines.stride,
        lines.line,
        lines.count,
        bytes,
    );
}

/// Copies a block's pixels to their places in the picture.
fn lay_block(picture: &mut [u8], frame: &Frame, block: &DoneBlock)
    requires drawn { length picture.old ≡ (layout frame.now).picture }
    requires index { block.now.index < (layout frame.now).count }
    requires size { length block.now.pixels.items ≡ (layout frame.now).size block.now.index }
    ensures here { IsTrueBlock (layout frame.now) picture.new block.now }
    ensures others { (b k : ℕ) → b < (layout frame.now).count → b ≢ block.now.index → k < (layout frame.now).size b →
        slice_index picture.new ((layout frame.now).spot b k) ≡ slice_index picture.old ((layout frame.now).spot b k) }
{
    lay_bytes(picture, frame, block.index, &block.pixels);
}

/// Copies each block's pixels to their places in the picture.
fn lay_all(picture: &mut [u8], frame: &Frame, blocks: &[DoneBlock])
    requires drawn { length picture.old ≡ (layout frame.now).picture }
    requires given { AreBlocks (layout frame.now) blocks.now }
    ensures here { (j : ℕ) (block : DoneBlock) → IsAt blocks.now j block → IsTrueBlock (layout frame.now) picture.new block }
    ensures others { (b k : ℕ) → b < (layout frame.now).count → ¬ (IsNamed blocks.now b) → k < (layout frame.now).size b →
        slice_index picture.new ((layout frame.now).spot b k) ≡ slice_index picture.old ((layout frame.now).spot b k) }
{
    for block in blocks {
        lay_block(picture, frame, block);
    }
}

/// The same over a picture that owns its bytes.
pub(crate) fn lay_in(picture: &mut Vec<u8>, frame: &Frame, blocks: &[DoneBlock])
    requires drawn { length picture.old.items ≡ (layout frame.now).picture }
    requires given { AreBlocks (layout frame.now) blocks.now }
    ensures here { (j : ℕ) (block : DoneBlock) → IsAt blocks.now j block → IsTrueBlock (layout frame.now) picture.new.items block }
    ensures others { (b k : ℕ) → b < (layout frame.now).count → ¬ (IsNamed blocks.now b) → k < (layout frame.now).size b →
        slice_index picture.new.items ((layout frame.now).spot b k) ≡ slice_index picture.old.items ((layout frame.now).spot b k) }
    ensures long { length picture.new.items ≡ length picture.old.items }
{
    lay_all(picture, frame, blocks);
}
