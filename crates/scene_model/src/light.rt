// Lamps.
use crate::texture::Rgb;
use fix_math::{Fix, V3};

/// A lamp. (Reference manual, light_source)
#[derive(Clone, Copy, Debug, PartialEq, Eq)]
pub struct Light {
    /// Where it stands, in raw numbers of the world.
    pub at: V3,
    pub colour: Rgb,
    /// Whether its light passes through everything.
    pub shadowless: bool,
    /// The cone of a spotlight.
    pub spot: Option<Spotlight>,
    /// How its light grows weaker with the distance.
    pub fade: Option<Fade>,
}

/// The cone of a spotlight. (Reference manual, spotlights)
#[derive(Clone, Copy, Debug, PartialEq, Eq)]
pub struct Spotlight {
    /// The direction in which it shines, of length 1 unit up to rounding.
    pub axis: V3,
    /// The cosine of the angle up to which its light is whole.
    pub inner: Fix,
    /// The cosine of the angle from which on there is none.
    pub outer: Fix,
    /// How fast the light falls from the axis outwards: an exponent.
    pub tightness: u32,
}

/// How a lamp's light grows weaker with the distance. (Reference manual, light fading)
#[derive(Clone, Copy, Debug, PartialEq, Eq)]
pub struct Fade {
    /// The distance at which the light is as strong as its colour says.
    pub distance: Fix,
    pub power: u32,
}
