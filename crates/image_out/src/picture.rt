// Pictures, and the sorts of files for them.

/// How a file stores a picture.
#[derive(Clone, Copy, Debug, PartialEq, Eq)]
pub enum Sort {
    /// Portable pixmap, the binary kind (`P6`).
    Ppm,
    /// Truevision Targa, true colour without packets.
    Targa,
    /// The same with run-length packets, each within one row.
    TargaRle,
}

/// The samples red, green and blue of each pixel, by rows from the top.
#[derive(Clone, Copy)]
pub struct Picture<'a> {
    /// Pixels in a row.
    pub width: u32,
    /// Rows.
    pub height: u32,
    /// Bits of a sample: one byte for 8, and two for 16, the high one first.
    pub bits: u32,
    pub bytes: &'a [u8],
}
