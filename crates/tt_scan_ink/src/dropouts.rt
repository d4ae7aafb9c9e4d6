//! The box of a glyph's dropouts.

ghost use Rattle.std.specs.Prelude.{◌≡◌, ◌+◌, ◌^◌, ◌<◌, ◌≤◌, [], ◌∷◌, length, unsigned_abs, IfOk, IfSome};
ghost use Rattle.tt_core.specs.Limits.{height_limit};
ghost use Rattle.tt_scan.specs.Contours.{AreEnds, contours_at};
ghost use Rattle.tt_scan_gaps.specs.Boxes.{IsBoxOf};
ghost use Rattle.tt_scan_dropouts.specs.Dropouts.{is_dropout};
ghost use Rattle.tt_scan_dropouts.specs.Passes.{has_pixel};
ghost use Rattle.tt_scan_dropouts.specs.Windows.{WindowFits, widened};
ghost use Rattle.tt_scan_ink.specs.Ink.{count_of, dropouts_ink};
ghost use Rattle.tt_bitmap.specs.Inks.{IsInk};
ghost use Rattle.tt_scan_ink.specs.Least.{AreNear, IsNear, shown};

use crate::lines::count_of;
use std::alloc::{AllocError, Global};
use tt_bitmap::{LeastBox, joined};
use tt_scan::Tape;
use tt_scan_dropouts::{
    BAND_ROWS, BoxedRules, Columns, Outlined, Pixel, Window, dropouts, may_have_dropouts,
    pixels_reached,
};

/// The box of one pixel.
#[inline(always)]
fn pixel_ink(pixel: Pixel) -> Option<LeastBox>
    ensures { IsInk (has_pixel (pixel ∷ [])) result }
{
    Some(LeastBox {
        left: pixel.column,
        bottom: pixel.row,
        right: pixel.column,
        top: pixel.row,
    })
}

/// The box of some pixels.
fn pixels_ink(pixels: &[Pixel]) -> Option<LeastBox>
    ensures { IsInk (has_pixel pixels.now) result }
{
    let mut ink = None;
    for pixel in pixels {
        ink = joined(ink, pixel_ink(*pixel));
    }
    ink
}

/// The window of some columns and of `height` lines from `bottom` on.
fn window_of(columns: Columns, bottom: i64, height: u32) -> Window
    requires columns { AreNear columns }
    requires some { 1 ≤ height }
    requires few { height ≤ height_limit }
    requires bottom { unsigned_abs bottom < 2 ^ 19 }
    ensures exact { result
        ≡ record { left = columns.first; bottom = bottom; width = count_of columns; height = height } }
    ensures fits { WindowFits (widened 2 result) }
{
    Window {
        left: columns.first as i32,
        bottom: bottom as i32,
        width: count_of(columns),
        height,
    }
}

/// The box of a glyph's dropouts in some columns and rows. The rows are done band after band from the lowest on: bitmaps
/// of more rows take memory that the system clears anew each time. Error: memory ran out.
fn windows_ink(
    alloc: Global,
    glyph: Outlined,
    columns: Columns,
    rows: Columns,
) -> Result<Option<LeastBox>, AllocError>
    requires columns { AreNear columns }
    requires rows { AreNear rows }
    ensures { IfOk result (IsInk (shown columns rows.first (count_of rows)
        (is_dropout glyph.entry.rules (contours_at glyph.entry.tape.now.edges glyph.entry.ends.now)))) }
{
    let count = count_of(rows);
    let mut ink = None;
    let mut done = 0;
    while done < count {
        let height = (count - done).min(BAND_ROWS);
        let window = window_of(columns, rows.first + i64::from(done), height);
        let found = dropouts(alloc, glyph, window)?;
        ink = joined(ink, pixels_ink(&found));
        done += height;
    }
    Ok(ink)
}

/// The least box that holds all dropouts of a glyph; None where it has no dropout. The tape has the glyph's edges, which
/// lie in the rules' box. Each contour ends before the edge of a number in `ends`. The tape's frame does not matter.
/// Error: memory ran out.
pub fn dropouts_ink(
    alloc: Global,
    rules: BoxedRules,
    tape: &Tape,
    ends: &[usize],
) -> Result<Option<LeastBox>, AllocError>
    requires few { length tape.now.edges ≤ 2 ^ 32 }
    requires boxed { IsBoxOf rules.extents tape.now.edges }
    requires ends { AreEnds (length tape.now.edges) ends.now }
    ensures exact { IfOk result (λ ink. ink ≡ dropouts_ink rules (contours_at tape.now.edges ends.now)) }
    ensures near { IfOk result (λ ink. IfSome ink IsNear) }
{
    // The question reads all edges, and one answer holds for all windows.
    let edges = tape.lend();
    if !may_have_dropouts(rules.rules, edges, ends) {
        return Ok(None);
    }
    let (columns, rows) = pixels_reached(rules.extents, rules.rules.dots);
    windows_ink(alloc, Outlined { rules, tape, ends }, columns, rows)
}
