// Ends of boxes: sums that lose their last digits.
ghost use Rattle.std.specs.Prelude.{◌≡◌, ◌≤◌, ◌<◌, ◌+◌, ◌*◌, ◌^◌, pos, neg_ℤ, ◌+ℤ◌, ◌-ℤ◌, ◌*ℤ◌, unsigned_abs};
ghost use Rattle.fix_math.specs.Matrices.{IsRowWithin};
ghost use Rattle.leaf_boxes.specs.Boxes.{ceiling, cut, floor, margin};

use fix_math::Fix;

/// A sum with digits of which an end of a box has none.
#[derive(Clone, Copy)]
pub struct End {
    pub value: i128,
    ghost small: { unsigned_abs value < 2 ^ 126 },
}

/// How far a sum may be off.
#[derive(Clone, Copy)]
pub struct Margin {
    pub value: i128,
    ghost small: { unsigned_abs value ≤ 3 * 2 ^ 123 },
}

/// How far what leads back to the world may be off for a point of the world.
pub fn margin_of(off: &[i128; 3]) -> Margin
    requires { IsRowWithin (2 ^ 78) off.now }
    ensures { result.value ≡ pos (margin off.now) }
{
    let sum = off[0].unsigned_abs() + off[1].unsigned_abs() + off[2].unsigned_abs();
    Margin {
        value: sum as i128 * (1 << 45),
    }
}

impl End {
    pub fn less(self, margin: Margin) -> End
        requires { unsigned_abs self.value < 2 ^ 125 }
        ensures { result.value ≡ self.value -ℤ margin.value }
    {
        End {
            value: self.value - margin.value,
        }
    }

    pub fn more(self, margin: Margin) -> End
        requires { unsigned_abs self.value < 2 ^ 125 }
        ensures { result.value ≡ self.value +ℤ margin.value }
    {
        End {
            value: self.value + margin.value,
        }
    }

    /// The number without its last bits, rounded down, as seen from the world's middle and in the world.
    pub fn below(self, bits: u32, anchor: Fix) -> i64
        requires few { bits ≤ 64 }
        requires anchor { unsigned_abs anchor ≤ 2 ^ 28 }
        ensures { result ≡ cut (floor self.value bits +ℤ pos 65536 *ℤ anchor) }
    {
        cut(moved(floored(self.value, bits), anchor))
    }

    /// The same, rounded up.
    pub fn above(self, bits: u32, anchor: Fix) -> i64
        requires few { bits ≤ 64 }
        requires anchor { unsigned_abs anchor ≤ 2 ^ 28 }
        ensures { result ≡ cut (ceiling self.value bits +ℤ pos 65536 *ℤ anchor) }
    {
        cut(moved(negated(floored(negated(self.value), bits)), anchor))
    }
}

fn negated(value: i128) -> i128
    requires { unsigned_abs value < 2 ^ 126 }
    ensures value { result ≡ neg_ℤ value }
    ensures small { unsigned_abs result < 2 ^ 126 }
{
    -value
}

fn floored(value: i128, bits: u32) -> i128
    requires small { unsigned_abs value < 2 ^ 126 }
    requires few { bits ≤ 64 }
    ensures value { result ≡ floor value bits }
    ensures small { unsigned_abs result < 2 ^ 126 }
{
    value.div_euclid(power(bits))
}

fn power(bits: u32) -> i128
    requires { bits ≤ 64 }
    ensures { result ≡ pos (2 ^ bits) }
{
    1 << bits
}

/// As seen from the world's middle.
fn moved(value: i128, anchor: Fix) -> i128
    requires small { unsigned_abs value < 2 ^ 126 }
    requires anchor { unsigned_abs anchor ≤ 2 ^ 28 }
    ensures { result ≡ value +ℤ pos 65536 *ℤ anchor }
{
    value + 65536 * anchor.wide()
}

/// The number itself where it is in the world, else the world's end on its side.
fn cut(value: i128) -> i64
    ensures { result ≡ cut value }
{
    value.clamp(-1 << 44, 1 << 44) as i64
}
