//! Painting the black columns of a row into a row of bytes, moved and clipped to it.

ghost use Rattle.std.specs.Prelude.{◌≡◌, ℕ, ◌*◌, ◌^◌, ◌<◌, ◌≤◌, ◌+ℤ◌, ◌-ℤ◌, ◌&&◌, nat_le, nat_lt, int_le, pos, length, unsigned_abs};
ghost use Rattle.tt_scan.specs.Blackened.{IsBlackened};
ghost use Rattle.tt_scan_edges.specs.Marks.{covers, covers_from};

use crate::bytes::fill;
use tt_scan_edges::Span;

/// The columns that a row of bytes shows: `width` columns, from `low` on.
#[derive(Clone, Copy)]
struct Shown {
    low: i64,
    width: u32,
}

/// The first place that is shown and whose column is not left of `at`; `width` where there is none.
fn place(at: i64, shown: Shown) -> usize
    requires { unsigned_abs shown.low < 2 ^ 41 }
    ensures { (k : ℕ) → k < shown.width → int_le at (shown.low +ℤ pos k) ≡ nat_le result k }
{
    (at.clamp(shown.low, shown.low + i64::from(shown.width)) - shown.low) as usize
}

/// One past the last place that is shown and whose column is not right of `at`; 0 where there is none.
fn past(at: i64, shown: Shown) -> usize
    requires { unsigned_abs shown.low < 2 ^ 41 }
    ensures { (k : ℕ) → k < shown.width → int_le (shown.low +ℤ pos k) at ≡ nat_lt k result }
{
    let before = shown.low - 1;
    (at.clamp(before, before + i64::from(shown.width)) - before) as usize
}

/// Blackens the row's columns from `from` up to `to`.
fn blacken(row: &mut [u8], width: usize, from: usize, to: usize)
    requires { width ≤ 8 * length row.old }
    ensures { IsBlackened (λ k. nat_lt k width && (nat_le from k && nat_lt k to)) row.old row.new }
{
    let end = to.min(width);
    if from < end {
        fill(row, from, end);
    }
}

/// Blackens a span's columns, as far as they are shown.
fn paint_span(span: Span, shown: Shown, row: &mut [u8])
    requires low { unsigned_abs shown.low < 2 ^ 41 }
    requires width { shown.width ≤ 8 * length row.old }
    ensures { IsBlackened (λ k. nat_lt k shown.width
        && (int_le span.first (shown.low +ℤ pos k) && int_le (shown.low +ℤ pos k) span.last)) row.old row.new }
{
    blacken(
        row,
        shown.width as usize,
        place(span.first, shown),
        past(span.last, shown),
    );
}

/// Blackens the columns of all spans, moved by `shift` columns to the right.
#[cold]
#[inline(never)]
pub(crate) fn paint_spans(spans: &[Span], shift: i64, width: u32, row: &mut [u8])
    requires shift { unsigned_abs shift < 2 ^ 40 }
    requires width { width ≤ 8 * length row.old }
    ensures { IsBlackened (λ k. nat_lt k width && covers spans.now (pos k -ℤ shift)) row.old row.new }
{
    let shown = Shown { low: -shift, width };
    for i in 0..spans.len() {
        paint_span(spans[i], shown, row);
    }
}

/// Blackens the columns of all spans from each pen.
#[cold]
#[inline(never)]
pub(crate) fn paint_spans_at(spans: &[Span], pens: &[u32], width: u32, row: &mut [u8])
    requires width { width ≤ 8 * length row.old }
    ensures { IsBlackened (λ k. nat_lt k width && covers_from spans.now pens.now k) row.old row.new }
{
    for pen in pens {
        paint_spans(spans, i64::from(*pen), width, row);
    }
}
