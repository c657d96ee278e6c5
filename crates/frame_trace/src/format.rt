// What a picture is drawn as.
use fix_math::Fix;

/// How a pixel is looked at again where it differs from a neighbour. (Reference manual, supersampling method 1)
#[derive(Clone, Copy, Debug, PartialEq, Eq)]
pub struct Antialias {
    /// How much a pixel may differ from a neighbour, all channels together, from 0 to 3 units.
    pub threshold: Fix,
    /// The root of the count of parts, from 1 to 9.
    pub depth: u32,
}

/// The sides of a picture in pixels, the bits of its samples, and how its edges are smoothed.
#[derive(Clone, Copy, Debug, PartialEq, Eq)]
pub struct Format {
    /// Pixels in a row.
    pub width: u32,
    /// Rows.
    pub height: u32,
    /// 8, or 16 for samples of two bytes, the high one first.
    pub bits: u32,
    pub antialias: Option<Antialias>,
}

/// A part of a picture, in pixels from the left and from the top.
#[derive(Clone, Copy, Debug, PartialEq, Eq)]
pub struct Rectangle {
    pub x: u32,
    pub y: u32,
    pub width: u32,
    pub height: u32,
}
