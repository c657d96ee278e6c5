// The numbers of a path at which a leaf holds.
ghost use Rattle.std.specs.Prelude.{◌≡◌, ℕ, ◌<◌, ◌≤◌, ◌^◌, ◌-◌, true, false};
ghost use Rattle.shapes.specs.Lines.{is_in_span};
ghost use Rattle.csg_hits.specs.Rows.{row_crossing, row_holds, side_crossed};

use shapes::{Span, Stretches};

/// The numbers of a path at which a leaf holds: those at which its solid does, or all others.
#[derive(Clone, Copy)]
pub struct Row {
    pub inside: Stretches,
    /// Of a solid with open ends, the numbers at which its side holds.
    pub side: Option<Stretches>,
    pub inverse: bool,
}

/// A number above t, before which the span is neither entered nor left.
#[inline]
fn next_end(span: Span, t: u64) -> u64
    ensures above { t < 2 ^ 64 - 1 → t < result }
    ensures same { (s : ℕ) → t ≤ s → s < result → is_in_span span s ≡ is_in_span span t }
{
    if t < span.from {
        span.from
    } else if t < span.end {
        span.end
    } else {
        u64::MAX
    }
}

/// Whether a side that counts is crossed at t.
#[inline]
fn crosses(side: &Option<Stretches>, t: u64) -> bool
    requires { 1 ≤ t }
    ensures { result ≡ side_crossed side.now t }
{
    match side {
        Some(side) => side.has(t - 1) != side.has(t),
        None => true,
    }
}

impl Row {
    /// The row of a leaf that holds nowhere.
    #[inline]
    pub fn empty() -> Row
        ensures { (t : ℕ) → row_holds result t ≡ false }
    {
        let none = Span { from: 0, end: 0 };
        Row {
            inside: Stretches {
                one: none,
                two: none,
            },
            side: None,
            inverse: false,
        }
    }

    /// Whether it is seen at once that the leaf holds nowhere.
    #[inline(always)]
    pub fn is_nowhere(&self) -> bool
        ensures { result ≡ true → (t : ℕ) → row_holds self.now t ≡ false }
    {
        self.inside.one.end == 0 && self.inside.two.end == 0 && !self.inverse
    }

    /// Whether the leaf holds at t.
    #[inline]
    pub fn holds(&self, t: u64) -> bool
        ensures { result ≡ row_holds self.now t }
    {
        self.inside.has(t) != self.inverse
    }

    /// Whether the leaf is struck at t.
    #[inline]
    pub fn is_struck(&self, t: u64) -> bool
        requires { 1 ≤ t }
        ensures { result ≡ (row_crossing self.now t).struck }
    {
        let before = self.holds(t - 1);
        let now = self.holds(t);
        before != now && crosses(&self.side, t)
    }

    /// A number above t, before which the leaf stays as it is at t.
    #[inline]
    pub fn next(&self, t: u64) -> u64
        ensures above { t < 2 ^ 64 - 1 → t < result }
        ensures same { (s : ℕ) → t ≤ s → s < result → row_holds self.now s ≡ row_holds self.now t }
    {
        next_end(self.inside.one, t).min(next_end(self.inside.two, t))
    }
}
