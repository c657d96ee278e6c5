// Pixels that are compared with their neighbours.
ghost use Rattle.std.specs.Prelude.{◌≡◌, ◌<◌, ◌≤◌, ◌+◌, ◌-◌, ◌*◌, ◌/◌, pos, suc, true, false, ◌^◌, ◌<ℤ◌, ◌≤ℤ◌, ◌-ℤ◌, unsigned_abs, length, vec_len, vec_capacity};
ghost use Rattle.csg_hits.specs.Hits.{Fits};
ghost use Rattle.fix_math.specs.Matrices.{component, row_at};
ghost use Rattle.frame_trace.specs.Pictures.{difference, IsColour, IsEven, IsUneven, IsSmooth};
ghost use Rattle.frame_trace.specs.Ready.{view_in, Compares, IsReady, IsDeep, IsInside, IsSpan, IsAmid, AreKept, HasRoom, StandsAround};
ghost use Rattle.scene_model.specs.Amounts.{AreAmounts};

use crate::colours::{fine, plain};
use crate::format::{Antialias, Format, Rectangle};
use crate::rows::{Rows, Span};
use crate::tracing::Tracing;
use csg_hits::{Scratch, World};
use fix_math::Fix;
use scene_model::Rgb;
use std::mem::swap;

/// The columns of a rectangle, with one further on either side where the picture has it.
pub fn span_of(format: &Format, part: &Rectangle) -> Span
    requires { IsInside format.now part.now }
    ensures { IsSpan format.now part.now result }
{
    let width = format.width;
    let from = part.x.saturating_sub(1);
    let end = part.x + part.width;
    let further = if end < width { end + 1 } else { end };
    Span {
        from,
        count: further - from,
    }
}

/// Traces the plain colours of a row.
pub fn trace_row<W: World>(
    t: &Tracing<W>,
    s: &mut Scratch,
    span: &Span,
    row: u32,
    colours: &mut [Rgb],
)
    requires ready { IsReady (view_in W.surfaces t.now) }
    requires row_within { row < t.now.format.height }
    requires columns_within { span.now.from + span.now.count ≤ t.now.format.width }
    requires room { span.now.count ≤ length colours.old }
    requires fits { Fits (W.surfaces t.now.world) s.old }
    ensures fits { Fits (W.surfaces t.now.world) s.new }
    ensures kept { AreKept (view_in W.surfaces t.now) span.now row colours.new }
{
    // In range, so that no column's number wraps.
    let _width = t.format.width;
    let Span { from, count } = *span;
    for k in 0..count {
        let colour = plain(t, s, from + k, row);
        colours[k as usize] = colour;
    }
}

/// Goes down by one row: the memory of the uppermost one is that of the lowest.
pub fn advance(rows: &mut Rows)
    ensures above { rows.new.above ≡ rows.old.here }
    ensures here { rows.new.here ≡ rows.old.below }
    ensures below { rows.new.below ≡ rows.old.above }
{
    swap(&mut rows.above, &mut rows.here);
    swap(&mut rows.here, &mut rows.below);
}

/// The colour of a pixel of a rectangle, with the plain colours of the rows around it.
pub fn smooth<W: World>(
    t: &Tracing<W>,
    s: &mut Scratch,
    a: &Antialias,
    rows: &Rows,
    span: &Span,
    column: u32,
    row: u32,
) -> Rgb
    requires ready { IsReady (view_in W.surfaces t.now) }
    requires deep { IsDeep a.now }
    requires some { pos 0 <ℤ a.now.threshold }
    requires amid { IsAmid t.now.format span.now column }
    requires row_within { row < t.now.format.height }
    requires room { HasRoom rows.now span.now.count }
    requires rows { StandsAround (view_in W.surfaces t.now) span.now row rows.now }
    requires fits { Fits (W.surfaces t.now.world) s.old }
    ensures fits { Fits (W.surfaces t.now.world) s.new }
    ensures smooth { IsSmooth (view_in W.surfaces t.now) a.now column row result }
    ensures amounts { AreAmounts 65536 result }
{
    if is_even(t, a.threshold, rows, span, column, row) {
        stored(&rows.here, (column - span.from) as usize)
    } else {
        fine(t, s, a.depth, column, row)
    }
}

/// Whether no neighbour's plain colour differs by more than a threshold.
fn is_even<W: World>(
    t: &Tracing<W>,
    threshold: Fix,
    rows: &Rows,
    span: &Span,
    column: u32,
    row: u32,
) -> bool
    requires amid { IsAmid t.now.format span.now column }
    requires row_within { row < t.now.format.height }
    requires room { HasRoom rows.now span.now.count }
    requires rows { StandsAround (view_in W.surfaces t.now) span.now row rows.now }
    ensures even { result ≡ true → IsEven (view_in W.surfaces t.now) threshold column row
        (row_at rows.now.here.items (column - span.now.from)) }
    ensures uneven { result ≡ false → IsUneven (view_in W.surfaces t.now) threshold column row
        (row_at rows.now.here.items (column - span.now.from)) }
{
    let width = t.format.width;
    let height = t.format.height;
    let at = (column - span.from) as usize;
    if column > 0 && differ(&rows.here, at, &rows.here, at - 1, threshold) {
        return false;
    }
    if row > 0 && differ(&rows.here, at, &rows.above, at, threshold) {
        return false;
    }
    if column + 1 < width && differ(&rows.here, at, &rows.here, at + 1, threshold) {
        return false;
    }
    if row + 1 < height && differ(&rows.here, at, &rows.below, at, threshold) {
        return false;
    }
    true
}

/// Whether two stored colours differ by more than a threshold.
#[inline]
fn differ(a: &Vec<Rgb>, i: usize, b: &Vec<Rgb>, k: usize, threshold: Fix) -> bool
    requires i_within { i < length a.now.items }
    requires k_within { k < length b.now.items }
    ensures more { result ≡ true → threshold <ℤ pos (difference (row_at a.now.items i) (row_at b.now.items k)) }
    ensures no_more { result ≡ false → pos (difference (row_at a.now.items i) (row_at b.now.items k)) ≤ℤ threshold }
{
    let first = stored(a, i);
    let second = stored(b, k);
    differs(&first, &second, threshold)
}

/// A colour of a row.
#[inline]
fn stored(colours: &Vec<Rgb>, k: usize) -> Rgb
    requires { k < length colours.now.items }
    ensures { result ≡ row_at colours.now.items k }
{
    colours[k]
}

/// Whether two colours differ by more than a threshold.
#[inline]
fn differs(a: &Rgb, b: &Rgb, threshold: Fix) -> bool
    ensures more { result ≡ true → threshold <ℤ pos (difference a.now b.now) }
    ensures no_more { result ≡ false → pos (difference a.now b.now) ≤ℤ threshold }
{
    threshold.raw() < difference(a, b) as i64
}

/// How much two colours differ, all channels together.
#[inline]
fn difference(a: &Rgb, b: &Rgb) -> u64
    ensures value { result ≡ difference a.now b.now }
    ensures small { result < 2 ^ 60 }
{
    distance(a[0], b[0]) + distance(a[1], b[1]) + distance(a[2], b[2])
}

#[inline]
fn distance(a: Fix, b: Fix) -> u64
    ensures value { result ≡ unsigned_abs (a -ℤ b) }
    ensures small { result < 2 ^ 48 }
{
    (a.raw() - b.raw()).unsigned_abs()
}
