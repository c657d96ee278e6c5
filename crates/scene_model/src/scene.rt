// Scenes.
use crate::camera::Camera;
use crate::light::Light;
use crate::shape::{Leaf, Shape};
use crate::texture::{Rgb, Texture};
use fix_math::{Fix, V3};

/// All that one picture shows.
#[derive(Debug, Drop)]
pub struct Scene {
    pub camera: Camera,
    pub lights: Vec<Light>,
    pub objects: Vec<Object>,
    /// The solids of all objects, in the order as written.
    pub leaves: Vec<Leaf>,
    /// The triangles, in the order as written.
    pub sheets: Vec<Sheet>,
    pub textures: Vec<Texture>,
    pub background: Rgb,
    pub ambient_light: Rgb,
    /// How many rays may follow one another: max_trace_level.
    pub levels: u32,
    /// The weight below which a ray isn't followed: adc_bailout.
    pub adc: Fix,
}

/// A top-level object.
#[derive(Debug, Drop)]
pub struct Object {
    pub shape: Shape,
    pub no_shadow: bool,
}

/// A triangle, flat or smooth, with its corners in the world. It has no inside.
/// (Reference manual, triangle and smooth_triangle)
#[derive(Clone, Copy, Debug, PartialEq, Eq)]
pub struct Sheet {
    pub a: V3,
    pub b: V3,
    pub c: V3,
    pub smooth: bool,
    /// The normals at the corners of a smooth one.
    pub na: V3,
    pub nb: V3,
    pub nc: V3,
    /// The number of its texture.
    pub texture: u32,
    /// The index of refraction.
    pub ior: Fix,
    pub no_shadow: bool,
}
