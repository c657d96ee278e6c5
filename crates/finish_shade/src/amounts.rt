// Numbers from 0 to 1.
ghost use Rattle.std.specs.Prelude.{◌≡◌, pos};
ghost use Rattle.std.specs.Int.{int_min};
ghost use Rattle.scene_model.specs.Amounts.{IsAmount};
ghost use Rattle.finish_shade.specs.Amounts.{from_0_to_1, unit_power};

use fix_math::{Fix, power_unit};

/// One unit.
pub const ONE: i64 = 65536;

/// The number, or 0 or 1 where it is below or above.
#[inline]
pub fn from_0_to_1(number: i64) -> Fix
    ensures value { result ≡ from_0_to_1 number }
    ensures amount { IsAmount 65536 result }
{
    Fix(number.max(0).min(ONE))
}

/// The power of a number from 0 to 1.
pub fn unit_power(x: Fix, n: u32) -> Fix
    requires { IsAmount 65536 x }
    ensures value { result ≡ unit_power x n }
    ensures amount { IsAmount 65536 result }
{
    power_unit(x, n)
}
