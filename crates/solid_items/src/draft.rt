// Solids and triangles as they are said.
use fix_math::{Fix, V3};
use scene_model::Primitive;
use xform::Frame;

/// A solid in its own space. (Reference manual, solid primitives)
#[derive(Clone, Copy, Debug, PartialEq, Eq)]
pub struct SolidDraft {
    pub prim: Primitive,
    /// The axes that it is described by.
    pub frame: Frame,
    /// What it is measured from.
    pub middle: V3,
    /// The number of the token at which its parameters begin.
    pub at: usize,
}

/// A corner of a triangle in its own space, and the normal there, which is <0, 0, 0> in a flat one.
#[derive(Clone, Copy, Debug, PartialEq, Eq)]
pub struct Corner {
    pub point: V3,
    /// The number of the token at which it begins.
    pub at: usize,
    pub normal: V3,
    /// The number of the token at which its normal begins; in a flat one that of the corner.
    pub normal_at: usize,
}

/// A triangle in its own space. (Reference manual, triangle and smooth_triangle)
#[derive(Clone, Copy, Debug, PartialEq, Eq)]
pub struct SheetDraft {
    pub smooth: bool,
    pub a: Corner,
    pub b: Corner,
    pub c: Corner,
}

/// Why a solid or a triangle can't be placed, with the number of the token at fault.
#[derive(Clone, Copy, Debug, PartialEq, Eq)]
pub enum Misplaced {
    /// The middle of a solid or a corner of a triangle leaves the world.
    Outside(usize),
    /// A normal becomes <0, 0, 0>.
    NoNormal(usize),
}

/// A corner of a triangle in the world, and the normal there.
#[derive(Clone, Copy, Debug, PartialEq, Eq)]
pub struct PlacedCorner {
    pub point: V3,
    pub normal: V3,
}

/// What a solid is in its object, and what it is made of.
#[derive(Clone, Copy, Debug, PartialEq, Eq)]
pub struct LeafRole {
    /// Whether the leaf holds where its solid doesn't.
    pub inverse: bool,
    /// Whether going into the object is going out of the solid.
    pub negated: bool,
    /// The number of its object.
    pub object: u32,
    /// The number of its texture.
    pub texture: u32,
    /// The index of refraction.
    pub ior: Fix,
}
