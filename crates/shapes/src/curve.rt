// Numbers that fall and then rise along a ray: where they are small.
ghost use Rattle.std.specs.Prelude.{◌≡◌, ◌↔◌, ℕ, ℤ, pos, ◌<◌, ◌≤◌, ◌^◌, ◌≤ℤ◌, unsigned_abs};
ghost use Rattle.shapes.specs.Bends.{IsConvex, HasBend};

use crate::search::{Test, first_near};
use crate::span::Span;

/// A number for each whole number, whose steps change evenly. It is asked for only where it is small.
pub trait Curve {
    ghost value: { Self → ℕ → ℤ };

    ghost can_eval: { Self → ℕ → Type 0 };

    ghost bend: { Self → ℤ };

    fn at(&self, t: u64) -> i128
        requires { can_eval self.now t }
        ensures value { result ≡ value self.now t }
        ensures small { unsigned_abs result < 2 ^ 126 };

    ghost bends: { (curve : Self) → HasBend (value curve) (bend curve) };
}

/// Whether a curve doesn't fall from t to t + 1.
#[derive(Clone, Copy)]
struct Climbs<'a, C> {
    curve: &'a C,
}

/// Whether a curve is at most a limit.
#[derive(Clone, Copy)]
pub struct AtMost<'a, C> {
    pub curve: &'a C,
    pub limit: i128,
}

/// Whether a curve is above a limit.
#[derive(Clone, Copy)]
pub struct Above<'a, C> {
    pub curve: &'a C,
    pub limit: i128,
}

impl<'a, C: Curve> Test for Climbs<'a, C> {
    ghost use Rattle.std.specs.Prelude.{◌+◌, ◌<◌, ◌^◌, int_le};

    ghost answer = { λ test t. int_le (C.value test.curve.now t) (C.value test.curve.now (t + 1)) };

    ghost can_ask = { λ test t. (t + 1 < 2 ^ 64) × C.can_eval test.curve.now t × C.can_eval test.curve.now (t + 1) };

    #[inline]
    fn ask(&self, t: u64) -> bool {
        self.curve.at(t) <= self.curve.at(t + 1)
    }
}

impl<'a, C: Curve> Test for AtMost<'a, C> {
    ghost use Rattle.std.specs.Prelude.{int_le};

    ghost answer = { λ test t. int_le (C.value test.curve.now t) test.limit };

    ghost can_ask = { λ test t. C.can_eval test.curve.now t };

    #[inline]
    fn ask(&self, t: u64) -> bool {
        self.curve.at(t) <= self.limit
    }
}

impl<'a, C: Curve> Test for Above<'a, C> {
    ghost use Rattle.std.specs.Prelude.{int_lt};

    ghost answer = { λ test t. int_lt test.limit (C.value test.curve.now t) };

    ghost can_ask = { λ test t. C.can_eval test.curve.now t };

    #[inline]
    fn ask(&self, t: u64) -> bool {
        self.curve.at(t) > self.limit
    }
}

ghost use Rattle.shapes.specs.Lines.{IsWithin};

/// The numbers of the span at which a curve whose steps grow is at most the limit, by its turning point,
/// which is looked for near a guess.
#[inline(never)]
pub fn valley<C: Curve>(curve: &C, limit: i128, span: Span, guess: u64) -> Span
    requires opens { IsConvex (C.value curve.now) }
    requires near { (t : ℕ) → IsWithin span t → C.can_eval curve.now t }
    ensures { (t : ℕ) → IsWithin result t ↔ (IsWithin span t × (C.value curve.now t ≤ℤ limit)) }
{
    if span.from >= span.end {
        return span;
    }
    let turn = first_near(&Climbs { curve }, span.from, span.end - 1, guess);
    let from = first_near(&AtMost { curve, limit }, span.from, turn, turn);
    let end = first_near(&Above { curve, limit }, turn, span.end, turn);
    Span { from, end }
}

/// A curve with the signs of its values turned.
#[derive(Clone, Copy)]
pub struct Turned<'a, C> {
    pub curve: &'a C,
}

impl<'a, C: Curve> Curve for Turned<'a, C> {
    ghost use Rattle.std.specs.Prelude.{pos, ◌-ℤ◌};
    ghost use Rattle.shapes.specs.Bends.{HasBend-neg};

    ghost value = { λ turned t. pos 0 -ℤ C.value turned.curve.now t };

    ghost can_eval = { λ turned t. C.can_eval turned.curve.now t };

    ghost bend = { λ turned. pos 0 -ℤ C.bend turned.curve.now };

    ghost bends = { λ turned. HasBend-neg (C.value turned.curve.now) (C.bend turned.curve.now) (C.bends turned.curve.now) };

    #[inline]
    fn at(&self, t: u64) -> i128 {
        -self.curve.at(t)
    }
}
