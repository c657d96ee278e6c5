// The numbers at which a curve that opens upward is small, from a guess of where they end.
ghost use Rattle.std.specs.Prelude.{◌↔◌, ℕ, ◌<◌, ◌≤◌, ◌≤ℤ◌, ◌<ℤ◌, IsTrue};
ghost use Rattle.shapes.specs.Bends.{IsConvex};
ghost use Rattle.shapes.specs.Lines.{IsWithin};

use crate::curve::{Above, AtMost, Curve, valley};
use crate::search::{clamped, first_near};
use crate::span::Span;

/// Whether it shows at a number of the span that the curve is above the limit in all the span: it falls
/// up to there, and climbs from there on.
fn is_passed<C: Curve>(curve: &C, limit: i128, span: Span, at: u64) -> bool
    requires opens { IsConvex (C.value curve.now) }
    requires near { (t : ℕ) → IsWithin span t → C.can_eval curve.now t }
    requires low { span.from ≤ at }
    requires high { at < span.end }
    requires above { limit <ℤ C.value curve.now at }
    ensures { IsTrue result → (t : ℕ) → IsWithin span t → limit <ℤ C.value curve.now t }
{
    if at == span.from {
        at + 1 == span.end || curve.at(at) <= curve.at(at + 1)
    } else if at + 1 == span.end {
        curve.at(at - 1) > curve.at(at)
    } else {
        curve.at(at - 1) > curve.at(at) && curve.at(at) <= curve.at(at + 1)
    }
}

/// The numbers of the span at which a curve whose steps grow is at most the limit, from guesses of
/// its turning point and of the first and the last number.
pub fn valley_near<C: Curve>(
    curve: &C,
    limit: i128,
    span: Span,
    turn: u64,
    first: u64,
    last: u64,
) -> Span
    requires opens { IsConvex (C.value curve.now) }
    requires near { (t : ℕ) → IsWithin span t → C.can_eval curve.now t }
    ensures { (t : ℕ) → IsWithin result t ↔ (IsWithin span t × (C.value curve.now t ≤ℤ limit)) }
{
    if span.from >= span.end {
        return span;
    }
    let inside = clamped(turn, span.from, span.end);
    if curve.at(inside) > limit {
        if is_passed(curve, limit, span, inside) {
            return Span { from: 0, end: 0 };
        }
        return valley(curve, limit, span, inside);
    }
    let from = first_near(&AtMost { curve, limit }, span.from, inside, first);
    let end = first_near(
        &Above { curve, limit },
        inside,
        span.end,
        last.saturating_add(1),
    );
    Span { from, end }
}
