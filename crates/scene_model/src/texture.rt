// Colours, patterns and finishes.
use fix_math::{Fix, V3};
use xform::Xform;

/// Red, green and blue: 1 unit is full.
pub type Rgb = [Fix; 3];

/// Red, green, blue, filter and transmit. (Reference manual, colours)
pub type Rgbft = [Fix; 5];

/// How a surface looks. (Reference manual, textures)
#[derive(Debug, Drop)]
pub struct Texture {
    pub pigment: Pigment,
    pub finish: Finish,
}

/// The colour at each point. (Reference manual, pigments)
#[derive(Debug, Drop)]
pub struct Pigment {
    pub pattern: Pattern,
    /// From the pattern's own space to the world.
    pub xform: Xform,
}

/// Where which colour is. (Reference manual, patterns)
#[derive(Debug, Drop)]
pub enum Pattern {
    Plain(Rgbft),
    Checker([Rgbft; 2]),
    Brick {
        mortar: Rgbft,
        brick: Rgbft,
        /// How far it is from brick to brick along each axis.
        size: V3,
        /// How wide the mortar is.
        width: Fix,
    },
    Hexagon([Rgbft; 3]),
    Gradient {
        axis: V3,
        /// The colour map, in ascending order of places.
        map: Vec<Entry>,
    },
}

/// An entry of a colour map: from this place on, this colour turns into the next entry's.
#[derive(Clone, Copy, Debug, PartialEq, Eq)]
pub struct Entry {
    pub at: Fix,
    pub colour: Rgbft,
}

/// How a surface gives light back. (Reference manual, finish)
#[derive(Clone, Copy, Debug, PartialEq, Eq)]
pub struct Finish {
    pub ambient: Rgb,
    pub diffuse: Fix,
    pub phong: Fix,
    /// The exponent of the phong highlight.
    pub phong_size: u32,
    pub specular: Fix,
    /// The exponent of the specular highlight: 1 over the roughness.
    pub gloss: u32,
    pub reflection: Rgb,
}
