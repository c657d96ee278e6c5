// About where a curve of the second degree is 0. Nothing is promised of a guess but that it is made.
ghost use Rattle.std.specs.Prelude.{◌≡◌, ℕ, pos, ◌<◌, ◌≤◌, ◌^◌, ◌+ℤ◌, ◌-ℤ◌, ◌≤ℤ◌, ◌<ℤ◌, ◌*ℤ◌, ◌↔◌, IsTrue, unsigned_abs};

use crate::aim::root_guess;

/// A curve's values at three numbers, each as far from the next.
#[derive(Clone, Copy)]
pub struct Three {
    pub first: i128,
    pub middle: i128,
    pub last: i128,
    ghost first_small: { unsigned_abs first < 2 ^ 126 },
    ghost middle_small: { unsigned_abs middle < 2 ^ 126 },
    ghost last_small: { unsigned_abs last < 2 ^ 126 },
}

impl Three {
    /// Whether the second step is at least the first.
    #[inline]
    pub fn opens(&self) -> bool
        ensures { IsTrue result ↔ ((self.now.middle -ℤ self.now.first) ≤ℤ (self.now.last -ℤ self.now.middle)) }
    {
        self.middle - self.first <= self.last - self.middle
    }

    #[inline]
    pub fn turned(&self) -> Three {
        Three {
            first: -self.first,
            middle: -self.middle,
            last: -self.last,
        }
    }

    /// The three numbers without the digits that don't fit.
    #[inline]
    fn shortened(&self) -> (i64, i64, i64) {
        let most = self
            .first
            .unsigned_abs()
            .max(self.middle.unsigned_abs())
            .max(self.last.unsigned_abs());
        let lost = (128 - most.leading_zeros()).saturating_sub(58);
        (
            short(self.first, lost),
            short(self.middle, lost),
            short(self.last, lost),
        )
    }
}

#[inline]
fn short(number: i128, lost: u32) -> i64 {
    if lost >= 128 {
        return 0;
    }
    i64::try_from(number >> lost).unwrap_or(0)
}

/// About how far behind the first of three numbers a curve that opens upward turns, and about how far from
/// there it is 0. `half` is how far each of the three is from the next.
#[inline]
pub fn guess_roots(three: &Three, half: u64) -> (u64, u64) {
    let (a, b, c) = three.shortened();
    let bend = a.wrapping_sub(b).wrapping_add(c.wrapping_sub(b));
    let fall = a
        .wrapping_mul(3)
        .wrapping_add(c)
        .wrapping_sub(b.wrapping_mul(4));
    let size = bend.unsigned_abs();
    let lost = (64 - size.leading_zeros()).saturating_sub(32);
    if lost >= 64 || size >> lost == 0 {
        return (0, 0);
    }
    let inverse = (1u64 << 63) / (size >> lost);
    let square = (fall as i128)
        .wrapping_mul(fall as i128)
        .wrapping_sub((bend as i128).wrapping_mul(a as i128).wrapping_mul(8));
    let root = if square < 0 {
        0
    } else {
        root_guess(square.unsigned_abs())
    };
    let turn = if fall < 0 { 0 } else { fall.unsigned_abs() };
    (
        scaled(turn, half, inverse, lost),
        scaled(root, half, inverse, lost),
    )
}

/// About number · half · inverse / 2^(64 + lost).
#[inline]
fn scaled(number: u64, half: u64, inverse: u64, lost: u32) -> u64 {
    if lost >= 64 {
        return 0;
    }
    let wide = (number as u128)
        .wrapping_mul(half as u128)
        .wrapping_mul(inverse as u128)
        >> 64
        >> lost;
    if wide < 1 << 40 { wide as u64 } else { 1 << 40 }
}
