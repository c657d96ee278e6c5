// Where the parts of a frame's state file lie.
ghost use Rattle.std.specs.Prelude.{◌≡◌, ◌+◌, ◌-◌, ◌*◌, ◌/◌, ◌%◌, ◌≤◌, ◌<◌, ◌^◌, min};
ghost use Rattle.std.specs.Vec.{vec_len};
ghost use Rattle.state_file.specs.Shape.{IsInLimits, picture_row, columns, blocks, block_width, block_height, block_row, pixel_bytes, bytes_before, block_bytes, picture_bytes};

use crate::Geometry;

/// Pixels along the side of a block.
const SIDE: u64 = 32;

/// A picture's shape, and the key of what it shows.
#[derive(Drop)]
pub(crate) struct Frame {
    pub(crate) geometry: Geometry,
    pub(crate) key: Vec<u8>,
    ghost limits: { IsInLimits geometry },
    ghost short: { vec_len key ≤ 2 ^ 25 },
}

impl Frame {
    ghost use Rattle.state_file.specs.Frames.{layout};

    pub(crate) fn new(geometry: Geometry, key: Vec<u8>) -> Frame
        requires limits { IsInLimits geometry }
        requires short { vec_len key ≤ 2 ^ 25 }
        ensures geometry { result.geometry ≡ geometry }
        ensures key { result.key ≡ key }
    {
        Frame { geometry, key }
    }

    /// How many blocks there are.
    pub(crate) fn count(&self) -> u32
        ensures { result ≡ (layout self.now).count }
    {
        blocks_of(&self.geometry)
    }

    /// The place of a block's gate.
    pub(crate) fn gate_at(&self, block: u32) -> u64
        requires { block < (layout self.now).count }
        ensures { result ≡ (layout self.now).gates + block }
    {
        18 + self.key.len() as u64 + u64::from(block)
    }

    /// The place of a block's pixels.
    pub(crate) fn pixels_at(&self, block: u32) -> u64
        requires { block < (layout self.now).count }
        ensures { result ≡ (layout self.now).pixels block }
    {
        let before = before(&self.geometry, block);
        18 + self.key.len() as u64 + u64::from(blocks_of(&self.geometry)) + before
    }

    /// How many bytes a block has.
    pub(crate) fn size_of(&self, block: u32) -> u64
        requires { block < (layout self.now).count }
        ensures { result ≡ (layout self.now).size block }
    {
        size(&self.geometry, block)
    }

    /// How long the file is.
    pub(crate) fn length(&self) -> u64
        ensures { result ≡ (layout self.now).all }
    {
        let pixels = picture_size(&self.geometry);
        18 + self.key.len() as u64 + u64::from(blocks_of(&self.geometry)) + pixels
    }
}

/// Bytes of a pixel.
fn pixel(g: &Geometry) -> u64
    requires { IsInLimits g.now }
    ensures value { result ≡ pixel_bytes g.now }
    ensures most { result ≤ 6 }
{
    3 * u64::from(g.bits / 8)
}

/// Blocks in a row of blocks.
fn columns_of(g: &Geometry) -> u32
    requires { IsInLimits g.now }
    ensures value { result ≡ columns g.now }
    ensures some { 0 < result }
    ensures within { result ≤ g.now.width }
{
    (g.width + 31) / 32
}

fn blocks_of(g: &Geometry) -> u32
    requires { IsInLimits g.now }
    ensures { result ≡ blocks g.now }
{
    columns_of(g) * ((g.height + 31) / 32)
}

/// The pixels along one side of a block in this column or row of blocks.
fn side(whole: u32, step: u32) -> u64
    requires { step < 2 ^ 24 }
    ensures value { result ≡ min 32 (whole - 32 * step) }
{
    SIDE.min(u64::from(whole.saturating_sub(32 * step)))
}

fn size(g: &Geometry, block: u32) -> u64
    requires limits { IsInLimits g.now }
    requires some { block < blocks g.now }
    ensures value { result ≡ block_bytes g.now block }
{
    let columns = columns_of(g);
    let row = pixel(g) * side(g.width, block % columns);
    row * side(g.height, block / columns)
}

/// The bytes of the blocks before this one.
fn before(g: &Geometry, block: u32) -> u64
    requires limits { IsInLimits g.now }
    requires some { block < blocks g.now }
    ensures value { result ≡ bytes_before g.now block }
    ensures most { result < 2 ^ 60 }
{
    let columns = columns_of(g);
    let pixel = pixel(g);
    let above = pixel * u64::from(g.width) * (SIDE * u64::from(block / columns));
    let left = pixel * (SIDE * u64::from(block % columns)) * side(g.height, block / columns);
    above + left
}

pub(crate) fn picture_size(g: &Geometry) -> u64
    requires { IsInLimits g.now }
    ensures value { result ≡ picture_bytes g.now }
    ensures most { result ≤ 6 * 2 ^ 24 }
{
    pixel(g) * u64::from(g.width) * u64::from(g.height)
}

/// Where the rows of a block lie in the picture: the first byte, from one row to the next, the
/// bytes of a row, and the rows.
#[derive(Clone, Copy)]
pub(crate) struct Lines {
    pub(crate) start: usize,
    pub(crate) stride: usize,
    pub(crate) line: usize,
    pub(crate) count: usize,
}

pub(crate) fn lines_of(g: &Geometry, block: u32) -> Lines
    requires limits { IsInLimits g.now }
    requires some { block < blocks g.now }
    ensures start { result.start ≡ picture_row g.now * (32 * (block / columns g.now)) + pixel_bytes g.now * (32 * (block % columns g.now)) }
    ensures stride { result.stride ≡ picture_row g.now }
    ensures line { result.line ≡ block_row g.now block }
    ensures count { result.count ≡ block_height g.now block }
{
    let columns = columns_of(g);
    let pixel = pixel(g);
    let stride = pixel * u64::from(g.width);
    let above = stride * (SIDE * u64::from(block / columns));
    let left = pixel * (SIDE * u64::from(block % columns));
    Lines {
        start: (above + left) as usize,
        stride: stride as usize,
        line: (pixel * side(g.width, block % columns)) as usize,
        count: side(g.height, block / columns) as usize,
    }
}
