// Rectangles of a picture.
ghost use Rattle.std.specs.Prelude.{◌≡◌, ◌<◌, ◌≤◌, ◌+◌, ◌*◌, ◌/◌, ℕ, ◌<ℤ◌, ◌≤ℤ◌, pos, true, false, vec_len, vec_capacity};
ghost use Rattle.csg_hits.specs.Hits.{Fits};
ghost use Rattle.frame_trace.specs.Pictures.{IsColour, IsPixel, IsRow, IsRectangle};
ghost use Rattle.frame_trace.specs.Ready.{view_in, rectangle_length, Adds, AreKept, Compares, HasRoom, KeepsRoom, IsAmid, IsFit, IsInside, IsReady, IsSpan, StandsAt, StandsAround};
ghost use Rattle.scene_model.specs.Amounts.{AreAmounts};

use crate::colours::{fine, plain};
use crate::format::{Format, Rectangle};
use crate::rows::{Rows, Span};
use crate::samples::put;
use crate::smooth::{advance, smooth, span_of, trace_row};
use crate::tracing::Tracing;
use crate::work::Work;
use csg_hits::{Scratch, World};
use fix_math::Fix;
use scene_model::Rgb;

/// Appends the bytes of a rectangle of the picture, by rows from the top: the whole picture or a part of it. The
/// list has the room from the start, so no memory is taken. Each plain colour is traced once, and those around the
/// rectangle too where pixels are compared.
pub fn draw<W: World>(t: &Tracing<W>, work: &mut Work, part: &Rectangle, out: &mut Vec<u8>)
    requires ready { IsReady (view_in W.surfaces t.now) }
    requires inside { IsInside t.now.format part.now }
    requires fit { IsFit (W.surfaces t.now.world) part.now.width work.old }
    requires room { vec_len out.old + rectangle_length t.now.format.bits part.now ≤ vec_capacity out.old }
    ensures drawn { Adds (IsRectangle (view_in W.surfaces t.now) part.now.x part.now.y part.now.width part.now.height)
        out.old.items out.new.items }
    ensures length { vec_len out.new ≡ vec_len out.old + rectangle_length t.now.format.bits part.now }
    ensures capacity { vec_capacity out.new ≡ vec_capacity out.old }
    ensures fit { IsFit (W.surfaces t.now.world) part.now.width work.new }
{
    let span = span_of(&t.format, part);
    // In range, so that no row's number wraps.
    let _height = t.format.height;
    let Rectangle { y, height, .. } = *part;
    if compares(&t.format) {
        begin(t, work, &span, y);
    }
    for k in 0..height {
        draw_row(t, work, &span, y + k, part, out);
    }
}

/// Whether pixels are compared with their neighbours.
fn compares(format: &Format) -> bool
    ensures compares { result ≡ true → Compares format.now.antialias }
    ensures never { result ≡ false → Compares format.now.antialias → ⊥ }
{
    match format.antialias {
        Some(antialias) => is_some(antialias.threshold),
        None => false,
    }
}

/// Whether a threshold is above 0.
#[inline]
fn is_some(threshold: Fix) -> bool
    ensures some { result ≡ true → pos 0 <ℤ threshold }
    ensures none { result ≡ false → threshold ≤ℤ pos 0 }
{
    threshold.raw() > 0
}

/// Traces the plain colours of a row and of the one above it.
fn begin<W: World>(t: &Tracing<W>, work: &mut Work, span: &Span, row: u32)
    requires ready { IsReady (view_in W.surfaces t.now) }
    requires row_within { row < t.now.format.height }
    requires columns_within { span.now.from + span.now.count ≤ t.now.format.width }
    requires fits { Fits (W.surfaces t.now.world) work.old.scratch }
    requires room { HasRoom work.old.rows span.now.count }
    ensures fits { Fits (W.surfaces t.now.world) work.new.scratch }
    ensures keeps { KeepsRoom work.old.rows work.new.rows }
    ensures stands { StandsAt (view_in W.surfaces t.now) span.now row work.new.rows }
{
    trace_above(t, work, span, row);
    trace_row(t, &mut work.scratch, span, row, &mut work.rows.here);
}

/// Traces the plain colours of the row above, where the picture has it.
fn trace_above<W: World>(t: &Tracing<W>, work: &mut Work, span: &Span, row: u32)
    requires ready { IsReady (view_in W.surfaces t.now) }
    requires row_within { row < t.now.format.height }
    requires columns_within { span.now.from + span.now.count ≤ t.now.format.width }
    requires fits { Fits (W.surfaces t.now.world) work.old.scratch }
    requires room { HasRoom work.old.rows span.now.count }
    ensures fits { Fits (W.surfaces t.now.world) work.new.scratch }
    ensures keeps { KeepsRoom work.old.rows work.new.rows }
    ensures above { (r : ℕ) → r + 1 ≡ row → AreKept (view_in W.surfaces t.now) span.now r work.new.rows.above.items }
{
    if row > 0 {
        trace_row(t, &mut work.scratch, span, row - 1, &mut work.rows.above);
    }
}

/// Traces the plain colours of the row below, where the picture has it.
fn trace_below<W: World>(t: &Tracing<W>, work: &mut Work, span: &Span, row: u32)
    requires ready { IsReady (view_in W.surfaces t.now) }
    requires row_within { row < t.now.format.height }
    requires columns_within { span.now.from + span.now.count ≤ t.now.format.width }
    requires fits { Fits (W.surfaces t.now.world) work.old.scratch }
    requires room { HasRoom work.old.rows span.now.count }
    requires stands { StandsAt (view_in W.surfaces t.now) span.now row work.old.rows }
    ensures fits { Fits (W.surfaces t.now.world) work.new.scratch }
    ensures keeps { KeepsRoom work.old.rows work.new.rows }
    ensures stands { StandsAround (view_in W.surfaces t.now) span.now row work.new.rows }
{
    let height = t.format.height;
    if row + 1 < height {
        trace_row(t, &mut work.scratch, span, row + 1, &mut work.rows.below);
    }
}

/// Draws a row of a rectangle, and goes on to the next.
fn draw_row<W: World>(
    t: &Tracing<W>,
    work: &mut Work,
    span: &Span,
    row: u32,
    part: &Rectangle,
    out: &mut Vec<u8>,
)
    requires ready { IsReady (view_in W.surfaces t.now) }
    requires row_within { row < t.now.format.height }
    requires span { IsSpan t.now.format part.now span.now }
    requires fits { Fits (W.surfaces t.now.world) work.old.scratch }
    requires rows_room { HasRoom work.old.rows span.now.count }
    requires stands { Compares t.now.format.antialias → StandsAt (view_in W.surfaces t.now) span.now row work.old.rows }
    requires room { vec_len out.old + 3 * (t.now.format.bits / 8) * part.now.width ≤ vec_capacity out.old }
    ensures fits { Fits (W.surfaces t.now.world) work.new.scratch }
    ensures keeps { KeepsRoom work.old.rows work.new.rows }
    ensures stands { Compares t.now.format.antialias → StandsAt (view_in W.surfaces t.now) span.now (row + 1) work.new.rows }
    ensures drawn { Adds (IsRow (λ column. IsPixel (view_in W.surfaces t.now) column row) part.now.x part.now.width)
        out.old.items out.new.items }
    ensures length { vec_len out.new ≡ vec_len out.old + 3 * (t.now.format.bits / 8) * part.now.width }
    ensures capacity { vec_capacity out.new ≡ vec_capacity out.old }
{
    if compares(&t.format) {
        trace_below(t, work, span, row);
    }
    put_row(t, &mut work.scratch, &work.rows, span, row, part, out);
    advance(&mut work.rows);
}

/// Appends the bytes of a row of a rectangle.
fn put_row<W: World>(
    t: &Tracing<W>,
    s: &mut Scratch,
    rows: &Rows,
    span: &Span,
    row: u32,
    part: &Rectangle,
    out: &mut Vec<u8>,
)
    requires ready { IsReady (view_in W.surfaces t.now) }
    requires row_within { row < t.now.format.height }
    requires span { IsSpan t.now.format part.now span.now }
    requires rows_room { HasRoom rows.now span.now.count }
    requires stands { Compares t.now.format.antialias → StandsAround (view_in W.surfaces t.now) span.now row rows.now }
    requires fits { Fits (W.surfaces t.now.world) s.old }
    requires room { vec_len out.old + 3 * (t.now.format.bits / 8) * part.now.width ≤ vec_capacity out.old }
    ensures fits { Fits (W.surfaces t.now.world) s.new }
    ensures drawn { Adds (IsRow (λ column. IsPixel (view_in W.surfaces t.now) column row) part.now.x part.now.width)
        out.old.items out.new.items }
    ensures length { vec_len out.new ≡ vec_len out.old + 3 * (t.now.format.bits / 8) * part.now.width }
    ensures capacity { vec_capacity out.new ≡ vec_capacity out.old }
{
    // In range, so that no column's number wraps.
    let _width = t.format.width;
    let Rectangle { x, width, .. } = *part;
    for k in 0..width {
        let colour = colour(t, s, rows, span, x + k, row);
        put(t.format.bits, &colour, out);
    }
}

/// The colour of a pixel.
fn colour<W: World>(
    t: &Tracing<W>,
    s: &mut Scratch,
    rows: &Rows,
    span: &Span,
    column: u32,
    row: u32,
) -> Rgb
    requires ready { IsReady (view_in W.surfaces t.now) }
    requires row_within { row < t.now.format.height }
    requires amid { IsAmid t.now.format span.now column }
    requires rows_room { HasRoom rows.now span.now.count }
    requires stands { Compares t.now.format.antialias → StandsAround (view_in W.surfaces t.now) span.now row rows.now }
    requires fits { Fits (W.surfaces t.now.world) s.old }
    ensures fits { Fits (W.surfaces t.now.world) s.new }
    ensures colour { IsColour t.now.format.antialias (view_in W.surfaces t.now) column row result }
    ensures amounts { AreAmounts 65536 result }
{
    match t.format.antialias {
        None => plain(t, s, column, row),
        Some(antialias) => {
            if is_some(antialias.threshold) {
                smooth(t, s, &antialias, rows, span, column, row)
            } else {
                fine(t, s, antialias.depth, column, row)
            }
        }
    }
}
