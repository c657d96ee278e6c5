// The numbers of a ray inside a solid.
ghost use Rattle.std.specs.Prelude.{◌≡◌, ◌↔◌, ◌⊎◌, ◌≤◌, ℕ};

use crate::parts::Stretches;
use crate::span::Span;

/// At most two ranges of whole numbers, each with its first and its last number.
/// The first `count` of the spans are meant; the others are zeros.
#[derive(Clone, Copy, Debug, PartialEq, Eq)]
pub struct Ranges {
    pub count: u32,
    pub spans: [(u64, u64); 2],
}

impl Ranges {
    ghost use Rattle.shapes.specs.Lines.{IsWithin, IsInStretches};
    ghost use Rattle.shapes.specs.Rows.{IsInRanges, IsInOrder};

    /// No range.
    pub fn none() -> Ranges
        ensures numbers { (t : ℕ) → ¬ IsInRanges result t }
        ensures order { IsInOrder result }
    {
        Ranges {
            count: 0,
            spans: [(0, 0), (0, 0)],
        }
    }

    /// The range of a span's numbers.
    pub fn of_span(span: Span) -> Ranges
        ensures numbers { (t : ℕ) → IsInRanges result t ↔ IsWithin span t }
        ensures order { IsInOrder result }
    {
        if span.from < span.end {
            Ranges {
                count: 1,
                spans: [(span.from, span.end - 1), (0, 0)],
            }
        } else {
            Ranges::none()
        }
    }

    /// The ranges of two stretches' numbers, in order, as one where no number is between them.
    pub fn of_stretches(stretches: &Stretches) -> Ranges
        ensures numbers { (t : ℕ) → IsInRanges result t ↔ IsInStretches stretches.now t }
        ensures order { IsInOrder result }
    {
        let Stretches { one, two } = *stretches;
        if one.from <= two.from {
            Ranges::of_two(one, two)
        } else {
            Ranges::of_two(two, one)
        }
    }

    fn of_two(low: Span, high: Span) -> Ranges
        requires { low.from ≤ high.from }
        ensures numbers { (t : ℕ) → IsInRanges result t ↔ (IsWithin low t ⊎ IsWithin high t) }
        ensures order { IsInOrder result }
    {
        if low.from >= low.end {
            return Ranges::of_span(high);
        }
        if high.from >= high.end {
            return Ranges::of_span(low);
        }
        if high.from <= low.end {
            return Ranges::of_span(low.up_to(high.end));
        }
        Ranges {
            count: 2,
            spans: [(low.from, low.end - 1), (high.from, high.end - 1)],
        }
    }
}

impl Span {
    ghost use Rattle.std.specs.Prelude.{max};

    /// The span with what follows it up to a number.
    fn up_to(self, end: u64) -> Span
        ensures from { result.from ≡ self.from }
        ensures end { result.end ≡ max self.end end }
    {
        Span {
            from: self.from,
            end: self.end.max(end),
        }
    }
}
