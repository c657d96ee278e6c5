// The shape of a picture and of its blocks.

/// The sides of a picture in pixels, and the bits of a sample.
#[derive(Clone, Copy, Debug, PartialEq, Eq)]
pub struct Geometry {
    /// Pixels in a row.
    pub width: u32,
    /// Rows.
    pub height: u32,
    /// 8, or 16 for samples of two bytes, the high one first.
    pub bits: u32,
}
