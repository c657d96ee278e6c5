// Lines of solids that are turned: sums of products with the coordinates of a ray.
ghost use Rattle.std.specs.Prelude.{◌≡◌, ◌↔◌, ℕ, pos, ◌+ℤ◌, ◌-ℤ◌, ◌*ℤ◌, ◌<◌, ◌≤◌, ◌^◌, ◌≤ℤ◌, ◌<ℤ◌, unsigned_abs};

use crate::search::{Test, first_near};
use crate::span::{Line, Span};

/// A number that grows by `step` from each whole number to the next, and is `at` at 0.
#[derive(Clone, Copy)]
pub struct WideLine {
    pub at: i128,
    pub step: i128,
    ghost at_small: { unsigned_abs at ≤ 2 ^ 113 },
    ghost step_small: { unsigned_abs step ≤ 2 ^ 84 },
}

/// A length along an axis of a solid.
#[derive(Clone, Copy)]
pub struct Length {
    pub value: i64,
    ghost low: { pos 0 ≤ℤ value },
    ghost high: { unsigned_abs value ≤ 2 ^ 62 },
}

/// How far from its anchor a plane ends.
#[derive(Clone, Copy)]
pub struct Limit {
    pub value: i128,
    ghost small: { unsigned_abs value ≤ 2 ^ 80 },
}

/// What a coordinate is multiplied by.
#[derive(Clone, Copy)]
pub struct Factor {
    pub value: i64,
    ghost small: { unsigned_abs value ≤ 2 ^ 59 },
}

/// The same, for planes.
#[derive(Clone, Copy)]
pub struct WideFactor {
    pub value: i128,
    ghost small: { unsigned_abs value ≤ 2 ^ 64 },
}

/// Whether a line is above 0.
#[derive(Clone, Copy)]
struct IsAbove<'a> {
    line: &'a WideLine,
}

/// Whether a line is at most 0.
#[derive(Clone, Copy)]
struct IsAtMost<'a> {
    line: &'a WideLine,
}

impl<'a> Test for IsAbove<'a> {
    ghost use Rattle.std.specs.Prelude.{pos, ◌<◌, ◌^◌, int_lt};
    ghost use Rattle.shapes.specs.Lines.{wide_at};

    ghost answer = { λ test t. int_lt (pos 0) (wide_at test.line.now t) };

    ghost can_ask = { λ _ t. t < 2 ^ 32 };

    #[inline]
    fn ask(&self, t: u64) -> bool {
        self.line.value(t) > 0
    }
}

impl<'a> Test for IsAtMost<'a> {
    ghost use Rattle.std.specs.Prelude.{pos, ◌<◌, ◌^◌, int_le};
    ghost use Rattle.shapes.specs.Lines.{wide_at};

    ghost answer = { λ test t. int_le (wide_at test.line.now t) (pos 0) };

    ghost can_ask = { λ _ t. t < 2 ^ 32 };

    #[inline]
    fn ask(&self, t: u64) -> bool {
        self.line.value(t) <= 0
    }
}

impl Length {
    /// The greatest length.
    #[inline]
    pub fn longest() -> Length
        ensures { result.value ≡ pos (2 ^ 62) }
    {
        Length { value: 1 << 62 }
    }
}

impl Factor {
    ghost use Rattle.shapes.specs.Lines.{value_at, wide_at};

    /// A line of products.
    #[inline]
    pub fn times(self, line: &Line) -> WideLine
        requires { unsigned_abs line.now.at ≤ 2 ^ 45 }
        ensures value { (t : ℕ) → wide_at result t ≡ self.value *ℤ value_at line.now t }
        ensures at_small { unsigned_abs result.at ≤ 2 ^ 104 }
        ensures step_small { unsigned_abs result.step ≤ 2 ^ 76 }
    {
        WideLine {
            at: self.value as i128 * line.at as i128,
            step: self.value as i128 * line.step as i128,
        }
    }
}

impl WideFactor {
    ghost use Rattle.shapes.specs.Lines.{value_at, wide_at};

    /// A line of products.
    #[inline]
    pub fn times(self, line: &Line) -> WideLine
        requires { unsigned_abs line.now.at ≤ 2 ^ 45 }
        ensures value { (t : ℕ) → wide_at result t ≡ self.value *ℤ value_at line.now t }
        ensures at_small { unsigned_abs result.at ≤ 2 ^ 109 }
        ensures step_small { unsigned_abs result.step ≤ 2 ^ 81 }
    {
        WideLine {
            at: self.value * line.at as i128,
            step: self.value * line.step as i128,
        }
    }
}

impl WideLine {
    ghost use Rattle.shapes.specs.Lines.{IsWithin, wide_at};

    /// The sum of three lines.
    #[inline]
    pub fn sum(x: WideLine, y: WideLine, z: WideLine) -> WideLine
        requires x_at { unsigned_abs x.at ≤ 2 ^ 109 }
        requires y_at { unsigned_abs y.at ≤ 2 ^ 109 }
        requires z_at { unsigned_abs z.at ≤ 2 ^ 109 }
        requires x_step { unsigned_abs x.step ≤ 2 ^ 81 }
        requires y_step { unsigned_abs y.step ≤ 2 ^ 81 }
        requires z_step { unsigned_abs z.step ≤ 2 ^ 81 }
        ensures value { (t : ℕ) → wide_at result t ≡ wide_at x t +ℤ wide_at y t +ℤ wide_at z t }
        ensures small { unsigned_abs result.at ≤ 2 ^ 111 }
        ensures near { unsigned_abs result.at ≡ unsigned_abs (x.at +ℤ y.at +ℤ z.at) }
    {
        WideLine {
            at: x.at + y.at + z.at,
            step: x.step + y.step + z.step,
        }
    }

    /// The line with all its values less by a length.
    #[inline]
    pub fn less(&self, by: Length) -> WideLine
        requires { unsigned_abs self.now.at ≤ 2 ^ 112 }
        ensures { (t : ℕ) → wide_at result t ≡ wide_at self.now t -ℤ by.value }
    {
        WideLine {
            at: self.at - by.value as i128,
            step: self.step,
        }
    }

    /// The same by a limit.
    #[inline]
    pub fn less_limit(&self, by: Limit) -> WideLine
        requires { unsigned_abs self.now.at ≤ 2 ^ 112 }
        ensures { (t : ℕ) → wide_at result t ≡ wide_at self.now t -ℤ by.value }
    {
        WideLine {
            at: self.at - by.value,
            step: self.step,
        }
    }

    /// The line with all its values more by a length.
    #[inline]
    pub fn more(&self, by: Length) -> WideLine
        requires { unsigned_abs self.now.at ≤ 2 ^ 111 }
        ensures value { (t : ℕ) → wide_at result t ≡ wide_at self.now t +ℤ by.value }
        ensures small { unsigned_abs result.at ≤ 2 ^ 112 }
    {
        WideLine {
            at: self.at + by.value as i128,
            step: self.step,
        }
    }

    /// The line with the signs of its values turned.
    #[inline]
    pub fn turned(&self) -> WideLine
        ensures value { (t : ℕ) → wide_at result t ≡ pos 0 -ℤ wide_at self.now t }
        ensures size { unsigned_abs result.at ≡ unsigned_abs self.now.at }
    {
        WideLine {
            at: -self.at,
            step: -self.step,
        }
    }

    /// The value at `t`.
    #[inline]
    pub fn value(&self, t: u64) -> i128
        requires { t < 2 ^ 32 }
        ensures value { result ≡ wide_at self.now t }
        ensures small { unsigned_abs result < 2 ^ 118 }
    {
        self.at + t as i128 * self.step
    }

    /// About where the line is 0. A guess: nothing is promised.
    #[inline]
    fn crossing(&self) -> u64 {
        if (self.at < 0) == (self.step < 0) {
            return 0;
        }
        let size = self.step.unsigned_abs();
        let lost = (128 - size.leading_zeros()).saturating_sub(32);
        if lost >= 128 || size >> lost == 0 {
            return 0;
        }
        let by = u64::try_from(size >> lost).unwrap_or(1);
        let whole = u64::try_from(self.at.unsigned_abs() >> lost).unwrap_or(u64::MAX);
        if by == 0 { 0 } else { whole / by }
    }

    /// The numbers of the span at which the line is from 0 to a length.
    #[inline]
    pub fn between_ends(&self, length: Length, span: Span) -> Span
        requires at_small { unsigned_abs self.now.at ≤ 2 ^ 112 }
        requires low { (t : ℕ) → IsWithin span t → t < 2 ^ 32 }
        ensures { (t : ℕ) → IsWithin result t
            ↔ (IsWithin span t × (pos 0 ≤ℤ wide_at self.now t) × (wide_at self.now t ≤ℤ length.value)) }
    {
        let below = self.turned();
        let above = self.less(length);
        span.narrow_wide(&below).narrow_wide(&above)
    }

    /// The numbers of the span at which the line's size is at most the bound.
    #[inline]
    pub fn slab(&self, bound: Length, span: Span) -> Span
        requires at_small { unsigned_abs self.now.at ≤ 2 ^ 112 }
        requires low { (t : ℕ) → IsWithin span t → t < 2 ^ 32 }
        ensures { (t : ℕ) → IsWithin result t
            ↔ (IsWithin span t × (unsigned_abs (wide_at self.now t) ≤ unsigned_abs bound.value)) }
    {
        let above = self.less(bound);
        let below = self.turned().less(bound);
        span.narrow_wide(&above).narrow_wide(&below)
    }
}

impl Span {
    ghost use Rattle.shapes.specs.Lines.{IsWithin, wide_at};

    /// The numbers of the span at which the line is at most 0.
    pub fn narrow_wide(self, line: &WideLine) -> Span
        requires { (t : ℕ) → IsWithin self t → t < 2 ^ 32 }
        ensures { (t : ℕ) → IsWithin result t ↔ (IsWithin self t × (wide_at line.now t ≤ℤ pos 0)) }
    {
        if self.from >= self.end {
            return self;
        }
        let guess = line.crossing();
        if line.step > 0 {
            let end = first_near(&IsAbove { line }, self.from, self.end, guess);
            Span {
                from: self.from,
                end,
            }
        } else {
            let from = first_near(&IsAtMost { line }, self.from, self.end, guess);
            Span {
                from,
                end: self.end,
            }
        }
    }
}
