//! The part of the plane where dropouts are sought, by rows or by columns.

ghost use Rattle.std.specs.Prelude.{◌≡◌, ℤ, pos, true, false, ◌&&◌, ◌+ℤ◌, ◌-ℤ◌, ◌^◌, ◌<◌, ◌≤◌, unsigned_abs, IfNone, IfSome};
ghost use Rattle.std.specs.Int.{int_max, int_min};
ghost use Rattle.tt_scan_dropouts.specs.Counted.{numbers_in};
ghost use Rattle.tt_scan_gaps.specs.Boxes.{ColumnsFit, ColumnsNear, is_column_of};
ghost use Rattle.tt_scan_dropouts.specs.Windows.{IsPart, WindowFits, WindowNear, box_has, has, is_within, widened};

use tt_scan_gaps::Columns;

/// A window of pixels: `width` columns from `left` on, and `height` rows from `bottom` up.
#[derive(Clone, Copy, Debug, PartialEq, Eq)]
pub struct Window {
    pub left: i32,
    pub bottom: i32,
    pub width: u32,
    pub height: u32,
}

/// Whether a number is one of `count` numbers from `first` on.
#[inline(always)]
fn is_within(first: i32, count: u32, n: i64) -> bool
    ensures { result ≡ is_within first count n }
{
    let first = i64::from(first);
    first <= n && n < first + i64::from(count)
}

/// The distance of a number from the first of its range.
#[inline(always)]
pub(crate) fn offset(first: i32, count: u32, n: i64) -> usize
    requires { is_within first count n ≡ true }
    ensures exact { result ≡ unsigned_abs (n -ℤ first) }
    ensures within { result < count }
{
    (n - i64::from(first)) as usize
}

/// Whether a pixel lies in a window.
#[inline(always)]
pub(crate) fn has(window: Window, column: i64, row: i64) -> bool
    ensures { result ≡ has window column row }
{
    is_within(window.left, window.width, column) && is_within(window.bottom, window.height, row)
}

/// The window with some pixels more on each side.
pub(crate) fn widened(window: Window, by: u32) -> Window
    requires few { by ≤ 5 }
    requires fits { WindowFits (widened by window) }
    ensures { result ≡ widened by window }
{
    Window {
        left: window.left - by as i32,
        bottom: window.bottom - by as i32,
        width: window.width + 2 * by,
        height: window.height + 2 * by,
    }
}

/// A range of numbers, by its first and its count.
#[derive(Clone, Copy)]
struct Part {
    from: i32,
    count: u32,
}

/// The first number of a range that may be a column of a box.
fn start_of(first: i32, columns: Columns) -> i64
    requires { ColumnsFit columns }
    ensures exact { result ≡ int_max first columns.first }
    ensures small { unsigned_abs result < 2 ^ 32 }
{
    i64::from(first).max(columns.first)
}

/// One past the last number of a range that may be a column of a box.
fn end_of(first: i32, count: u32, columns: Columns) -> i64
    requires { ColumnsFit columns }
    ensures exact { result ≡ int_min (first +ℤ pos count) (columns.last +ℤ pos 1) }
    ensures small { unsigned_abs result < 2 ^ 33 }
{
    (i64::from(first) + i64::from(count)).min(columns.last + 1)
}

/// The numbers of a range that are columns of a box; None where there is none.
fn overlap(first: i32, count: u32, columns: Columns) -> Option<Part>
    requires { ColumnsFit columns }
    ensures some { IfSome result (λ p. (n : ℤ) → is_within p.from p.count n
        ≡ (is_within first count n && is_column_of columns n)) }
    ensures within { IfSome result (IsPart first count columns) }
    ensures few { IfSome result (λ p. p.count ≤ numbers_in columns) }
    ensures none { IfNone result ((n : ℤ) → (is_within first count n && is_column_of columns n) ≡ false) }
{
    let from = start_of(first, columns);
    let end = end_of(first, count, columns);
    if from < end {
        Some(Part {
            from: from as i32,
            count: (end - from) as u32,
        })
    } else {
        None
    }
}

/// The part of a window that lies in a box.
pub(crate) fn clipped(window: Window, columns: Columns, rows: Columns) -> Option<Window>
    requires window { WindowFits (widened 2 window) }
    requires columns { ColumnsNear columns }
    requires rows { ColumnsNear rows }
    ensures some { IfSome result (λ w. (c j : ℤ) → has w c j ≡ (has window c j && box_has columns rows c j)) }
    ensures near { IfSome result WindowNear }
    ensures small { IfSome result (λ w. (w.width ≤ numbers_in columns) × (w.height ≤ numbers_in rows)) }
    ensures none { IfNone result ((c j : ℤ) → (has window c j && box_has columns rows c j) ≡ false) }
{
    let across = overlap(window.left, window.width, columns)?;
    let up = overlap(window.bottom, window.height, rows)?;
    Some(Window {
        left: across.from,
        bottom: up.from,
        width: across.count,
        height: up.count,
    })
}
