// Numbers that are squared.
ghost use Rattle.std.specs.Prelude.{◌≡◌, ℕ, ◌<◌, ◌≤◌, ◌^◌, ◌+ℤ◌, ◌-ℤ◌, ◌≤ℤ◌, pos, unsigned_abs};
ghost use Rattle.shapes.specs.Lines.{wide_at};
ghost use Rattle.shapes.specs.Spheres.{square};

use crate::wide::{Length, WideLine};

/// A number that is squared.
#[derive(Clone, Copy)]
pub struct Measure {
    pub value: i64,
    ghost small: { unsigned_abs value ≤ 2 ^ 62 },
}

/// A square.
#[derive(Clone, Copy)]
pub struct WideSquare {
    pub value: i128,
    ghost low: { pos 0 ≤ℤ value },
    ghost small: { unsigned_abs value ≤ 2 ^ 124 },
}

impl Measure {
    #[inline]
    pub fn square(self) -> WideSquare
        ensures { result.value ≡ square self.value }
    {
        WideSquare {
            value: self.value as i128 * self.value as i128,
        }
    }
}

impl Length {
    #[inline]
    pub fn measure(self) -> Measure
        ensures { result.value ≡ self.value }
    {
        Measure { value: self.value }
    }
}

impl WideLine {
    /// The value at `t`, where it is small.
    #[inline]
    pub fn measure(&self, t: u64) -> Measure
        requires low { t < 2 ^ 32 }
        requires small { unsigned_abs (wide_at self.now t) ≤ 2 ^ 62 }
        ensures { result.value ≡ wide_at self.now t }
    {
        Measure {
            value: self.value(t) as i64,
        }
    }
}

/// The sum of two squares less a third.
#[inline]
pub fn less_square(x: WideSquare, y: WideSquare, r: WideSquare) -> i128
    ensures value { result ≡ x.value +ℤ y.value -ℤ r.value }
    ensures small { unsigned_abs result < 2 ^ 126 }
{
    x.value + y.value - r.value
}

/// The sum of three squares less a fourth.
#[inline]
pub fn less_square_of_three(x: WideSquare, y: WideSquare, z: WideSquare, r: WideSquare) -> i128
    ensures value { result ≡ x.value +ℤ y.value +ℤ z.value -ℤ r.value }
    ensures small { unsigned_abs result < 2 ^ 126 }
{
    x.value + y.value + z.value - r.value
}
