// Powers with a natural exponent, by squaring.
ghost use Rattle.std.specs.Prelude.{◌≡◌, ◌≤◌, pos, ◌≤ℤ◌, Ok};
ghost use Rattle.fix_math.specs.Outcomes.{multiplied};
ghost use Rattle.fix_math.specs.Powers.{power_of};

use crate::arithmetic::mul;
use crate::fix::{Fix, NumFault};

/// The power. Range stands for any product on the way that is out of range.
pub fn power(x: Fix, n: u32) -> Result<Fix, NumFault>
    ensures value { result ≡ power_of x n }
{
    if n == 0 {
        return Ok(Fix(65536));
    }
    let half = power(x, n / 2)?;
    let square = mul(half, half)?;
    if n % 2 == 0 {
        Ok(square)
    } else {
        mul(square, x)
    }
}

/// The power of a value from 0 to 1, which is one again and is always in range.
pub fn power_unit(x: Fix, n: u32) -> Fix
    requires not_negative { pos 0 ≤ℤ x }
    requires at_most_one { x ≤ℤ pos 65536 }
    ensures value { Ok result ≡ power_of x n }
    ensures not_negative { pos 0 ≤ℤ result }
    ensures at_most_one { result ≤ℤ pos 65536 }
{
    if n == 0 {
        return Fix(65536);
    }
    let half = power_unit(x, n / 2);
    let square = unit_product(half, half);
    if n % 2 == 0 {
        square
    } else {
        unit_product(square, x)
    }
}

// The product of two values from 0 to 1.
#[inline]
fn unit_product(a: Fix, b: Fix) -> Fix
    requires a_not_negative { pos 0 ≤ℤ a }
    requires a_at_most_one { a ≤ℤ pos 65536 }
    requires b_not_negative { pos 0 ≤ℤ b }
    requires b_at_most_one { b ≤ℤ pos 65536 }
    ensures value { Ok result ≡ multiplied a b }
    ensures not_negative { pos 0 ≤ℤ result }
    ensures at_most_one { result ≤ℤ pos 65536 }
{
    Fix((a.raw() * b.raw() + 32768) >> 16)
}
