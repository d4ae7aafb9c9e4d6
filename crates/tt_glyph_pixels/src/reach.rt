//! The columns and the lines that the black pixels of a glyph may lie in.

ghost use Rattle.std.specs.Prelude.{◌≡◌, ◌⊎◌, ◌*◌, ◌^◌, ◌<◌, ◌≤◌, IfNone, IfSome};
ghost use Rattle.tt_bitmap.specs.Bitmaps.{strips};
ghost use Rattle.tt_core.specs.Limits.{height_limit, width_limit};
ghost use Rattle.tt_glyph_pixels.specs.Reach.{IsLarge, columns_by, count_of, rows_by, window_by};
ghost use Rattle.tt_scan_dropouts.specs.Windows.{WindowFits, widened};
ghost use Rattle.tt_scan_edges.specs.Winding.{FrameFits};
ghost use Rattle.tt_scan_gaps.specs.Boxes.{ColumnsFit, ColumnsNear, ExtentsFit};

use tt_bitmap::bytes_of;
use tt_core::{HEIGHT_LIMIT, WIDTH_LIMIT};
use tt_scan::Frame;
use tt_scan_dropouts::{BoxedRules, Columns, Extents, Window, pixels_reached};

/// The columns and the lines that the black pixels of a glyph may lie in: those of its box, and one more on each side where
/// dots are drawn.
#[inline(always)]
fn reached(extents: Extents, filled: Option<BoxedRules>) -> (Columns, Columns)
    requires { ExtentsFit extents }
    ensures columns { result.0 ≡ columns_by extents filled }
    ensures rows { result.1 ≡ rows_by extents filled }
    ensures fit { ColumnsFit result.0 × ColumnsFit result.1 }
    ensures near { ColumnsNear result.0 × ColumnsNear result.1 }
{
    match filled {
        Some(rules) => pixels_reached(extents, rules.rules.dots),
        None => pixels_reached(extents, false),
    }
}

/// The count of numbers from a first to a last.
fn count_of(numbers: Columns) -> u32
    requires { ColumnsFit numbers }
    ensures exact { result ≡ count_of numbers }
    ensures small { result < 2 ^ 20 }
{
    (numbers.last - numbers.first).unsigned_abs() as u32 + 1
}

/// The window of some columns and lines; None where they are more than those of the greatest picture.
fn window_of(columns: Columns, rows: Columns) -> Option<Window>
    requires columns { ColumnsFit columns }
    requires rows { ColumnsFit rows }
    ensures exact { IfSome result (λ w. w ≡ window_by columns rows) }
    ensures fits { IfSome result WindowFits }
    ensures near { IfSome result (λ w. ColumnsNear columns → ColumnsNear rows → WindowFits (widened 2 w)) }
    ensures large { IfNone result ((width_limit < count_of columns) ⊎ (height_limit < count_of rows)) }
{
    let width = count_of(columns);
    let height = count_of(rows);
    if width > WIDTH_LIMIT || height > HEIGHT_LIMIT {
        return None;
    }
    Some(Window {
        left: columns.first as i32,
        bottom: rows.first as i32,
        width,
        height,
    })
}

/// The window that the black pixels of a glyph lie in, by its box. None where it has more columns or lines than the greatest
/// picture, or its bitmap takes more than `most` bytes.
pub(crate) fn window_within(
    extents: Extents,
    filled: Option<BoxedRules>,
    most: usize,
) -> Option<Window>
    requires { ExtentsFit extents }
    ensures exact { IfSome result (λ w. w ≡ window_by (columns_by extents filled) (rows_by extents filled)) }
    ensures fits { IfSome result WindowFits }
    ensures near { IfSome result (λ w. WindowFits (widened 2 w)) }
    ensures held { IfSome result (λ w. 8 * (strips w.width * w.height) ≤ most) }
    ensures large { IfNone result (IsLarge most (columns_by extents filled) (rows_by extents filled)) }
{
    let (columns, rows) = reached(extents, filled);
    let window = window_of(columns, rows)?;
    if bytes_of(window.width, window.height) > most {
        return None;
    }
    Some(window)
}

/// A frame with some lines, from the highest down. It has one line where they are more than those of the greatest picture.
fn frame_by(rows: Columns) -> Frame
    requires { ColumnsFit rows }
    ensures { FrameFits result }
{
    let height = count_of(rows);
    if height > HEIGHT_LIMIT {
        return Frame {
            width: 1,
            height: 1,
            margin: 0,
            rise: 0,
        };
    }
    Frame {
        width: 1,
        height,
        margin: 0,
        rise: rows.last as i32 + 1,
    }
}

/// The frame for a tape of a glyph's edges at pen 0, by the glyph's box. `pixels_of` then cuts the lines without a second
/// tape.
pub fn glyph_frame(extents: Extents, filled: Option<BoxedRules>) -> Frame
    requires { ExtentsFit extents }
    ensures { FrameFits result }
{
    let (_, rows) = reached(extents, filled);
    frame_by(rows)
}
