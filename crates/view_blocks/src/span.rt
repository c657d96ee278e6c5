// What a camera spans before its steps.
ghost use Rattle.std.specs.Prelude.{◌^◌};
ghost use Rattle.fix_math.specs.Matrices.{IsRowWithin, IsVectorWithin};

use fix_math::V3;

/// What a camera spans before its steps. Its direction may be longer than any value.
#[derive(Clone, Copy)]
pub struct View {
    pub location: V3,
    pub direction: [i64; 3],
    pub right: V3,
    pub up: V3,
    pub orthographic: bool,
    ghost location_small: { IsVectorWithin (2 ^ 28) location },
    ghost direction_small: { IsRowWithin (2 ^ 52) direction },
}
