// Solids, and the shapes that are made of them.
use fix_math::{Fix, V3};
use xform::{Spot, Xform};

/// A leaf by its number, or a group of shapes. (Reference manual, constructive solid geometry)
#[derive(Debug, Drop)]
pub enum Shape {
    Leaf(u32),
    Group {
        op: Op,
        parts: Vec<Shape>,
        /// Whether the group's inside is its outside.
        inverse: bool,
    },
}

/// How the parts of a group make a shape.
#[derive(Clone, Copy, Debug, PartialEq, Eq)]
pub enum Op {
    Union,
    Merge,
    Intersection,
    /// The first part without the others.
    Difference,
}

/// One solid of a shape, with its place and what it is made of.
#[derive(Clone, Copy, Debug, PartialEq, Eq)]
pub struct Leaf {
    pub prim: Primitive,
    /// From the solid's own space to the world.
    pub xform: Xform,
    /// Where the solid stands: its middle, and its axes.
    pub spot: Spot,
    /// Whether the leaf holds where its solid doesn't.
    pub inverse: bool,
    /// Whether going in, of the whole object, is going out of the leaf's solid: by the parity of its
    /// inversions and of its places behind the first of a difference, with those of its groups.
    pub negated: bool,
    /// The number of its object.
    pub object: u32,
    /// The number of its texture.
    pub texture: u32,
    /// The index of refraction.
    pub ior: Fix,
}

/// A solid by its lengths along its own axes, in raw numbers. What it is measured from is its middle,
/// which its spot places.
#[derive(Clone, Copy, Debug, PartialEq, Eq)]
pub enum Primitive {
    /// By its radius; the middle is its centre. (Reference manual, sphere)
    Sphere {
        r: Fix,
    },
    /// By its sides; the middle is its lower corner. (Reference manual, box)
    Box {
        size: V3,
    },
    /// By the direction in which it ends, of length 1 unit up to rounding, and how far from the middle,
    /// the origin, it ends. (Reference manual, plane)
    Plane {
        normal: V3,
        d: Fix,
    },
    /// By its radius and height; the middle is its first end. (Reference manual, cylinder)
    Cylinder {
        r: Fix,
        h: Fix,
        uncapped: bool,
    },
    /// By the radii of its ends, its height, and the direction from end to end, which is the third row
    /// of its spot's frame; the middle is its first end. (Reference manual, cone)
    Cone {
        ra: Fix,
        rb: Fix,
        h: Fix,
        axis: V3,
        uncapped: bool,
    },
    /// By the coefficients of x², y², z², xy, xz, yz, x, y, z and 1; the middle is the origin.
    /// (Reference manual, quadric)
    Quadric {
        c: [Fix; 10],
    },
}
