// The types of transforms and places.
use fix_math::{Fix, V3};

/// A step of a transform, in the words of a scene.
#[derive(Clone, Copy, Debug, PartialEq, Eq)]
pub enum Step {
    Translate(V3),
    /// Factors along the axes.
    Scale(V3),
    /// Angles in degrees about x, then y, then z.
    Rotate(V3),
    /// Four rows of three numbers: the images of the axes, and a translation.
    Matrix([Fix; 12]),
}

/// Where an object stands: a point c of it is at anchor + m c, and n leads back. The entries have
/// 32 fraction bits.
#[derive(Clone, Copy, Debug, PartialEq, Eq)]
pub struct Xform {
    pub m: [[i64; 3]; 3],
    pub n: [[i64; 3]; 3],
    pub anchor: V3,
}

/// Why a step isn't taken.
#[derive(Clone, Copy, Debug, PartialEq, Eq)]
pub enum XformFault {
    /// A factor is 0, or a matrix has the determinant 0.
    Singular = 1,
    /// An entry is too large.
    EntryRange = 2,
    /// The anchor leaves the world.
    AnchorRange = 3,
}

/// Three directions, row by row: the axes that an object is described by. The entries have 16
/// fraction bits.
pub type Frame = [[i64; 3]; 3];

/// An object's place: the image of its middle, and the ways between the world and the object's
/// axes. n leads from the world to them and has e fraction bits, m leads back and has 32.
#[derive(Clone, Copy, Debug, PartialEq, Eq)]
pub struct Spot {
    pub anchor: V3,
    pub e: u32,
    pub n: [[i64; 3]; 3],
    pub m: [[i64; 3]; 3],
    /// What m n differs by from 2^(32 + e) times the identity.
    pub residual: [[i128; 3]; 3],
}
