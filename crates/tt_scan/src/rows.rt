//! The rows of a frame that an edge meets.

ghost use Rattle.std.specs.Prelude.{◌≡◌, ℤ, ◌+◌, ◌^◌, ◌<◌, ◌+ℤ◌, ◌*ℤ◌, ◌-ℤ◌, ◌⊎◌, true, ◌&&◌, pos, int_lt, int_le, ◌<ℤ◌, ◌≤ℤ◌, unsigned_abs, IfSome};
ghost use Rattle.tt_scan_edges.specs.Crossing.{AreRows, has_row, spans};
ghost use Rattle.tt_scan.specs.EdgeList.{IsGapAt, is_in};
ghost use Rattle.tt_scan_edges.specs.Winding.{EdgeFits, FrameFits, is_between};

use tt_scan_edges::{Edge, Frame};

/// From a centre line to the next, in 1/8192 pixel.
const LINE: i32 = 8192;

/// From a centre line to the border of its row.
const HALF: i32 = LINE / 2;

/// The whole rows in `n`, which is in 1/8192 pixel: the floor.
#[inline(always)]
fn whole_lines(n: i32) -> i32
    ensures low { (pos 8192 *ℤ result) ≤ℤ n }
    ensures high { n <ℤ (pos 8192 *ℤ (result +ℤ pos 1)) }
{
    n >> 13
}

/// The first and the last whole number of rows from `low` to `high`, which are in 1/8192 pixel; None where there is
/// none.
#[inline(always)]
fn lines_between(low: i32, high: i32) -> Option<(i32, i32)>
    requires low { unsigned_abs low < 2 ^ 30 + 2 ^ 13 }
    requires high { unsigned_abs high < 2 ^ 30 + 2 ^ 13 }
    ensures exact { (k : ℤ) → spans result k ≡ (int_le low (pos 8192 *ℤ k) && int_le (pos 8192 *ℤ k) high) }
    ensures first { IfSome result (λ t. unsigned_abs t.0 < 2 ^ 24) }
    ensures last { IfSome result (λ t. unsigned_abs t.1 < 2 ^ 24) }
{
    let first = whole_lines(low + (LINE - 1));
    let last = whole_lines(high);
    if first <= last {
        Some((first, last))
    } else {
        None
    }
}

/// The rows from `first` to `last` that a frame of `height` rows has: the first of them, and one past the last.
#[inline(always)]
fn within(first: i32, last: i32, height: i32) -> (i32, i32)
    requires first { unsigned_abs first < 2 ^ 25 }
    requires last { unsigned_abs last < 2 ^ 25 }
    requires height { pos 0 ≤ℤ height }
    ensures met { (k : ℤ) → pos 0 ≤ℤ k → k <ℤ height → (int_le first k && int_le k last) ≡ (int_le result.0 k && int_lt k result.1) }
    ensures low { pos 0 ≤ℤ result.0 }
    ensures order { result.0 ≤ℤ result.1 }
    ensures high { result.1 ≤ℤ height }
{
    // Most edges lie within the frame.
    if 0 <= first && first <= last && last < height {
        return (first, last + 1);
    }
    let from = first.clamp(0, height);
    (from, (last + 1).clamp(from, height))
}

/// The lowest and the highest centre line that meet an edge. Line k runs half a pixel below the height of k pixels over
/// the base line. None where the edge lies between two lines.
#[inline(always)]
fn lines_met(edge: Edge) -> Option<(i32, i32)>
    requires { EdgeFits edge }
    ensures exact { (k : ℤ) → spans result k ≡ is_between edge.ay edge.by (pos 8192 *ℤ k -ℤ pos 4096) }
    ensures low { IfSome result (λ t. unsigned_abs t.0 < 2 ^ 24) }
    ensures high { IfSome result (λ t. unsigned_abs t.1 < 2 ^ 24) }
{
    lines_between(edge.ay.min(edge.by) + HALF, edge.ay.max(edge.by) + HALF)
}

/// Two neighbouring centre lines, or one centre line twice. In 1/8192 pixel.
#[derive(Clone, Copy)]
pub(crate) struct Gap {
    pub(crate) low: i32,
    pub(crate) high: i32,
}

/// The gap around a height; an empty gap where the height is that of a centre line.
#[inline(always)]
pub(crate) fn gap_at(y: i32) -> Gap
    requires { unsigned_abs y < 2 ^ 30 }
    ensures { IsGapAt y result }
{
    let low = LINE * whole_lines(y + HALF) - HALF;
    Gap {
        low,
        high: if low < y { low + LINE } else { low },
    }
}

/// The gap around height `y`. The gap around `at` is given, because one edge often follows on another.
#[inline(always)]
pub(crate) fn gap_from(gap: Gap, at: i32, y: i32) -> Gap
    requires gap { IsGapAt at gap }
    requires fits { unsigned_abs y < 2 ^ 30 }
    ensures { IsGapAt y result }
{
    if y == at { gap } else { gap_at(y) }
}

/// Whether a height lies in a gap.
#[inline(always)]
pub(crate) fn is_in(gap: Gap, y: i32) -> bool
    ensures { result ≡ is_in gap y }
{
    gap.low < y && y < gap.high
}

/// The centre line of row 0.
#[inline(always)]
fn top_line(frame: Frame) -> i32
    requires { FrameFits frame }
    ensures exact { result ≡ frame.rise +ℤ pos frame.margin }
    ensures small { unsigned_abs result < 2 ^ 21 }
{
    frame.rise + frame.margin as i32
}

/// The first of the frame's rows whose centre line meets the edge, its ends included, and one past the last; two equal
/// numbers where no row does.
#[inline(always)]
pub(crate) fn row_range(edge: Edge, frame: Frame) -> (i32, i32)
    requires edge { EdgeFits edge }
    requires frame { FrameFits frame }
    ensures { AreRows edge frame result }
{
    match lines_met(edge) {
        Some((low, high)) => {
            // Rows count downwards.
            let top = top_line(frame);
            within(top - high, top - low, frame.height as i32)
        }
        None => (0, 0),
    }
}

/// A range of rows in the wider type of public calls.
#[inline(always)]
pub(crate) fn widened(rows: (i32, i32)) -> (i64, i64)
    ensures { result ≡ rows }
{
    (i64::from(rows.0), i64::from(rows.1))
}

/// Adds a range of rows to `all`, which becomes the rows from the first to the last of both. An empty range adds
/// nothing.
#[inline(always)]
pub(crate) fn join(all: &mut (i32, i32), more: (i32, i32))
    ensures left { (row : ℤ) → has_row all.old row ≡ true → has_row all.new row ≡ true }
    ensures right { (row : ℤ) → has_row more row ≡ true → has_row all.new row ≡ true }
    ensures first { ((all.new.0 ≡ all.old.0) × (all.new.0 <ℤ all.new.1 → all.old.0 <ℤ all.old.1))
        ⊎ ((all.new.0 ≡ more.0) × (more.0 <ℤ more.1)) }
    ensures last { ((all.new.1 ≡ all.old.1) × (all.new.0 <ℤ all.new.1 → all.old.0 <ℤ all.old.1))
        ⊎ ((all.new.1 ≡ more.1) × (more.0 <ℤ more.1)) }
    ensures order { all.old.0 ≤ℤ all.old.1 → all.new.0 ≤ℤ all.new.1 }
{
    // Most edges meet no row.
    if more.0 >= more.1 {
        return;
    }
    if all.0 >= all.1 {
        *all = more;
        return;
    }
    *all = (all.0.min(more.0), all.1.max(more.1));
}
