// The numbers at which a curve of the second degree isn't above 0: at most two stretches of them.
ghost use Rattle.std.specs.Prelude.{◌≡◌, ◌↔◌, ◌⊎◌, ℕ, ℤ, pos, negsuc, ◌+◌, ◌<◌, ◌≤◌, ◌^◌, ◌-ℤ◌, ◌<ℤ◌, ◌≤ℤ◌, IsTrue, unsigned_abs};

use crate::curve::{Curve, Turned};
use crate::near::valley_near;
use crate::roots::{Three, guess_roots};
use crate::span::Span;

/// At most two stretches of whole numbers, each half open; one is empty where it has no numbers. They
/// have no number in common.
#[derive(Clone, Copy)]
pub struct Stretches {
    pub one: Span,
    pub two: Span,
}

ghost use Rattle.shapes.specs.Lines.{IsWithin, IsInStretches, is_in_span, is_in_stretches};
ghost use Rattle.shapes.specs.Bends.{HasBend};

impl Stretches {
    /// Whether a number is in one of the stretches.
    #[inline]
    pub fn has(&self, t: u64) -> bool
        ensures { result ≡ is_in_stretches self.now t }
    {
        self.one.has(t) || self.two.has(t)
    }
}

impl Span {
    /// Whether a number is in the span.
    #[inline]
    pub fn has(self, t: u64) -> bool
        ensures { result ≡ is_in_span self t }
    {
        self.from <= t && t < self.end
    }

    /// The span alone.
    #[inline]
    pub fn alone(self) -> Stretches
        ensures { (t : ℕ) → IsInStretches result t ↔ IsWithin self t }
    {
        Stretches {
            one: self,
            two: Span { from: 0, end: 0 },
        }
    }

    /// The numbers of the span without those of a part of it.
    #[inline]
    fn without(self, part: Span) -> Stretches
        requires { (t : ℕ) → IsWithin part t → IsWithin self t }
        ensures { (t : ℕ) → IsInStretches result t ↔ (IsWithin self t × ¬ IsWithin part t) }
    {
        if part.from >= part.end {
            return self.alone();
        }
        Stretches {
            one: Span {
                from: self.from,
                end: part.from,
            },
            two: Span {
                from: part.end,
                end: self.end,
            },
        }
    }
}

/// The number itself, where the curve isn't above 0 there.
#[inline]
fn single<C: Curve>(curve: &C, t: u64) -> Span
    requires near { C.can_eval curve.now t }
    requires low { t < 2 ^ 63 }
    ensures { (s : ℕ) → IsWithin result s ↔ ((s ≡ t) × (C.value curve.now t ≤ℤ pos 0)) }
{
    if curve.at(t) <= 0 {
        Span {
            from: t,
            end: t + 1,
        }
    } else {
        Span { from: 0, end: 0 }
    }
}

/// The same as `parts`, for at most two numbers.
#[inline(never)]
fn few_parts<C: Curve>(curve: &C, span: Span) -> Stretches
    requires near { (t : ℕ) → IsWithin span t → C.can_eval curve.now t }
    requires low { (t : ℕ) → IsWithin span t → t < 2 ^ 32 }
    requires some { span.from < span.end }
    requires few { span.end ≤ span.from + 2 }
    ensures { (t : ℕ) → IsInStretches result t ↔ (IsWithin span t × (C.value curve.now t ≤ℤ pos 0)) }
{
    let one = single(curve, span.from);
    let two = if span.from + 1 < span.end {
        single(curve, span.from + 1)
    } else {
        Span { from: 0, end: 0 }
    };
    Stretches { one, two }
}

/// The numbers of the span at which a curve isn't above 0.
pub fn parts<C: Curve>(curve: &C, span: Span) -> Stretches
    requires near { (t : ℕ) → IsWithin span t → C.can_eval curve.now t }
    requires low { (t : ℕ) → IsWithin span t → t < 2 ^ 32 }
    ensures { (t : ℕ) → IsInStretches result t ↔ (IsWithin span t × (C.value curve.now t ≤ℤ pos 0)) }
{
    if span.from >= span.end {
        return span.alone();
    }
    if span.end - span.from < 3 {
        return few_parts(curve, span);
    }
    let half = (span.end - 1 - span.from) / 2;
    let three = Three {
        first: curve.at(span.from),
        middle: curve.at(span.from + half),
        last: curve.at(span.from + half + half),
    };
    if three.opens() {
        opening_parts(curve, span, &three, half)
    } else {
        closing_parts(curve, span, &three, half)
    }
}

/// The same as `parts`, for a curve whose steps grow.
#[inline]
fn opening_parts<C: Curve>(curve: &C, span: Span, three: &Three, half: u64) -> Stretches
    requires opens { pos 0 ≤ℤ C.bend curve.now }
    requires near { (t : ℕ) → IsWithin span t → C.can_eval curve.now t }
    ensures { (t : ℕ) → IsInStretches result t ↔ (IsWithin span t × (C.value curve.now t ≤ℤ pos 0)) }
{
    let (turn, reach) = guess_roots(three, half);
    let turn = span.from.saturating_add(turn);
    let first = turn.saturating_sub(reach);
    let last = turn.saturating_add(reach);
    valley_near(curve, 0, span, turn, first, last).alone()
}

/// The same as `parts`, for a curve whose steps shrink.
#[inline]
fn closing_parts<C: Curve>(curve: &C, span: Span, three: &Three, half: u64) -> Stretches
    requires closes { C.bend curve.now ≤ℤ pos 0 }
    requires near { (t : ℕ) → IsWithin span t → C.can_eval curve.now t }
    ensures { (t : ℕ) → IsInStretches result t ↔ (IsWithin span t × (C.value curve.now t ≤ℤ pos 0)) }
{
    let (turn, reach) = guess_roots(&three.turned(), half);
    let turn = span.from.saturating_add(turn);
    let first = turn.saturating_sub(reach);
    let last = turn.saturating_add(reach);
    let above = valley_near(&Turned { curve }, -1, span, turn, first, last);
    span.without(above)
}
