// Rotations about the axes.
ghost use Rattle.std.specs.Prelude.{◌≡◌, ◌^◌};
ghost use Rattle.fix_math.specs.Matrices.{IsMatrixWithin};
ghost use Rattle.fix_math.specs.Rotations.{about_x, about_y, about_z};

use crate::angles::sincos;
use crate::fix::Fix;
use crate::vectors::Rows;

const ONE: i64 = 1 << 32;

/// The rotation about the x axis by an angle in degrees, in the left-handed system. The entries
/// have 32 fraction bits.
pub fn rotation_x(deg: Fix) -> Rows
    ensures value { result ≡ about_x deg }
    ensures small { IsMatrixWithin (2 ^ 32) result }
{
    let (s, c) = sincos(deg);
    [[ONE, 0, 0], [0, c, -s], [0, s, c]]
}

/// The rotation about the y axis, as `rotation_x`.
pub fn rotation_y(deg: Fix) -> Rows
    ensures value { result ≡ about_y deg }
    ensures small { IsMatrixWithin (2 ^ 32) result }
{
    let (s, c) = sincos(deg);
    [[c, 0, s], [0, ONE, 0], [-s, 0, c]]
}

/// The rotation about the z axis, as `rotation_x`.
pub fn rotation_z(deg: Fix) -> Rows
    ensures value { result ≡ about_z deg }
    ensures small { IsMatrixWithin (2 ^ 32) result }
{
    let (s, c) = sincos(deg);
    [[c, -s, 0], [s, c, 0], [0, 0, ONE]]
}
