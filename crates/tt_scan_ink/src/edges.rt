//! The box of the pixels that a glyph's edges blacken by rules 1 and 2.

ghost use Rattle.std.specs.Prelude.{◌≡◌, ◌+◌, ◌*◌, ◌^◌, ◌<◌, ◌≤◌, ◌-ℤ◌, pos, unsigned_abs, [], ◌∷◌, length, IfOk, IfSome};
ghost use Rattle.tt_core.specs.Limits.{height_limit};
ghost use Rattle.tt_scan_edges.specs.Winding.{FrameFits};
ghost use Rattle.tt_scan_ink.specs.Ink.{count_of, edges_ink};
ghost use Rattle.tt_bitmap.specs.Inks.{IsInk};
ghost use Rattle.tt_scan_ink.specs.Least.{AreNear, IsNear, covered, is_inked_by, shown};

use crate::lines::count_of;
use std::alloc::{AllocError, Global};
use tt_bitmap::{LeastBox, joined};
use tt_core::HEIGHT_LIMIT;
use tt_scan::{EdgeList, Frame, Span, Sweep, Tape};
use tt_scan_dropouts::{Columns, box_of};

/// The box of a span on a line, cut to some columns.
#[inline(always)]
fn span_ink(span: Span, columns: Columns, line: i64) -> Option<LeastBox>
    ensures { IsInk (covered columns line (span ∷ [])) result }
{
    let left = span.first.max(columns.first);
    let right = span.last.min(columns.last);
    if left <= right {
        Some(LeastBox {
            left,
            bottom: line,
            right,
            top: line,
        })
    } else {
        None
    }
}

/// The box of spans on a line, cut to some columns.
fn spans_ink(spans: &[Span], columns: Columns, line: i64) -> Option<LeastBox>
    ensures { IsInk (covered columns line spans.now) result }
{
    let mut ink = None;
    for span in spans {
        ink = joined(ink, span_ink(*span, columns, line));
    }
    ink
}

/// The box of the pixels that edges blacken in some columns of the rows of a tape's frame. The highest row is the line
/// below line `past`.
fn rows_ink(tape: &mut Tape, sweep: &mut Sweep, columns: Columns, past: i64) -> Option<LeastBox>
    requires columns { AreNear columns }
    requires margin { tape.old.frame.margin ≡ 0 }
    requires past { tape.old.frame.rise ≡ past }
    requires count { tape.old.crosses + tape.old.frame.height * length tape.old.edges ≤ 2 ^ 63 }
    requires room { length tape.old.edges ≤ sweep.old.room }
    ensures exact { IsInk (shown columns (past -ℤ pos tape.old.frame.height) tape.old.frame.height
        (is_inked_by tape.old.edges)) result }
    ensures tape { tape.new ≡ record tape.old { crosses = tape.new.crosses } }
{
    let height = tape.frame().height;
    let mut ink = None;
    for r in 0..height {
        let row = i64::from(r);
        sweep.cut(tape, row);
        ink = joined(ink, spans_ink(sweep.spans(), columns, past - 1 - row));
    }
    ink
}

/// A frame of `height` rows. The highest is the line below line `past`; columns count from the pen.
fn frame_of(past: i64, height: u32) -> Frame
    requires some { 1 ≤ height }
    requires few { height ≤ height_limit }
    requires past { unsigned_abs past < 2 ^ 20 }
    ensures exact { result ≡ record { width = 1; height = height; margin = 0; rise = past } }
    ensures fits { FrameFits result }
{
    Frame {
        width: 1,
        height,
        margin: 0,
        rise: past as i32,
    }
}

/// The box of the pixels that edges blacken in some columns of `height` lines below line `past`, and the edges given
/// back. Error: memory ran out.
fn band_ink(
    alloc: Global,
    list: EdgeList,
    columns: Columns,
    past: i64,
    height: u32,
) -> Result<(EdgeList, Option<LeastBox>), AllocError>
    requires edges { length list.edges ≤ 2 ^ 19 }
    requires columns { AreNear columns }
    requires past { unsigned_abs past < 2 ^ 20 }
    requires some { 1 ≤ height }
    requires few { height ≤ height_limit }
    ensures exact { IfOk result (λ found. IsInk (shown columns (past -ℤ pos height) height
        (is_inked_by list.edges)) found.1) }
    ensures edges { IfOk result (λ found. found.0.edges ≡ list.edges) }
{
    let mut tape = Tape::of(alloc, frame_of(past, height), list)?;
    let mut sweep = Sweep::new(alloc, tape.edges())?;
    let ink = rows_ink(&mut tape, &mut sweep, columns, past);
    Ok((tape.into_list(), ink))
}

/// The box of the pixels that edges blacken in some columns and rows. The rows are done band after band from the lowest
/// on, because a tape has no more rows than a picture. Error: memory ran out.
fn bands_ink(
    alloc: Global,
    list: EdgeList,
    columns: Columns,
    rows: Columns,
) -> Result<Option<LeastBox>, AllocError>
    requires edges { length list.edges ≤ 2 ^ 19 }
    requires columns { AreNear columns }
    requires rows { AreNear rows }
    ensures { IfOk result (IsInk (shown columns rows.first (count_of rows) (is_inked_by list.edges))) }
{
    let count = count_of(rows);
    let mut list = list;
    let mut ink = None;
    let mut done = 0;
    while done < count {
        let height = (count - done).min(HEIGHT_LIMIT);
        let past = rows.first + i64::from(done + height);
        let (same, band) = band_ink(alloc, list, columns, past, height)?;
        list = same;
        ink = joined(ink, band);
        done += height;
    }
    Ok(ink)
}

/// The least box that holds the pixels that edges blacken by the scan converter's rules 1 and 2, in the box of the
/// edges; None where no pixel is black there. Closed contours blacken nothing outside the box of the edges. Edges are
/// in 1/8192 pixel. Error: memory ran out.
pub fn edges_ink(alloc: Global, list: EdgeList) -> Result<Option<LeastBox>, AllocError>
    requires few { length list.edges ≤ 2 ^ 19 }
    ensures exact { IfOk result (λ ink. ink ≡ edges_ink list.edges) }
    ensures near { IfOk result (λ ink. IfSome ink IsNear) }
{
    // A list does not lend its edges; a tape in any frame does.
    let tape = Tape::of(alloc, frame_of(0, 1), list)?;
    let (columns, rows) = box_of(tape.lend());
    bands_ink(alloc, tape.into_list(), columns, rows)
}
