//! Whether some free gap is crossed both rising and falling. If closed contours cross a free gap, they cross it both
//! ways. So where no free gap is crossed both ways, no gap needs a pixel. Two tables show which gaps may be crossed
//! both ways, and a look at all edges decides whether one of those may be free.

ghost use Rattle.std.specs.Prelude.{◌≡◌, List, ℕ, ◌<◌, ◌≤◌, ◌^◌, ◌≤ℤ◌, pos, true, false, ◌∷◌, [], ◌+◌, ◌++◌, map, All, unsigned_abs};
ghost use Rattle.std.specs.Int.{int_div_euclid, int_rem_euclid};
ghost use Rattle.tt_scan_edges.specs.Winding.{EdgeFits};
ghost use Rattle.tt_scan_gaps.specs.BothWays.{AreTold, NoneFreeBothWays, has_mark, is_black_seen, slot};
ghost use Rattle.tt_scan_gaps.specs.Crossings.{crossing, line_crossed, lines_crossed};
ghost use Rattle.tt_scan_gaps.specs.Gaps.{is_free};
ghost use Rattle.tt_scan_gaps.specs.Seen.{seen_by};
ghost use Rattle.tt_scan_gaps.specs.declared.seen.Over.TheVariants as over;

use crate::crossings::{gap_at, gap_crossed, line_crossed, lines_crossed};
use crate::looks::{Looks, look};
use crate::seen::{Over, PassEdges, meets, seen_by};
use tt_scan_edges::Edge;

/// The bytes of a table, which distinguishes 128 lines and 128 gaps of a line. Numbers that differ by a multiple share a
/// place. Each byte has eight places.
const BYTES: usize = 2048;

/// The whole tables of 128 in a number of lines or gaps: the floor.
#[inline(always)]
fn whole_tables(n: i64) -> i64
    requires { unsigned_abs n < 2 ^ 40 }
    ensures exact { result ≡ int_div_euclid n (pos 128) }
    ensures small { unsigned_abs result < 2 ^ 40 }
{
    n >> 7
}

/// What is left of a number of lines or gaps after whole tables.
#[inline(always)]
fn left_of(n: i64) -> i64
    requires { unsigned_abs n < 2 ^ 40 }
    ensures exact { result ≡ int_rem_euclid n (pos 128) }
    ensures within { unsigned_abs result < 128 }
    ensures low { pos 0 ≤ℤ result }
{
    n - 128 * whole_tables(n)
}

/// The place of a gap of a line in a table.
#[inline(always)]
fn slot(line: i64, gap: i64) -> usize
    requires line { unsigned_abs line < 2 ^ 40 }
    requires gap { unsigned_abs gap < 2 ^ 40 }
    ensures exact { result ≡ slot line gap }
    ensures within { result < 16384 }
{
    (128 * left_of(line) + left_of(gap)) as usize
}

/// Marks a place in one of two tables. Returns whether the other table has it.
#[inline(always)]
fn mark(table: &mut [u8; BYTES], other: &[u8; BYTES], at: usize) -> bool
    requires { at < 16384 }
    ensures marked { has_mark table.new at ≡ true }
    ensures kept { (s : ℕ) → has_mark table.old s ≡ true → has_mark table.new s ≡ true }
    ensures other { result ≡ has_mark other.now at }
{
    table[at / 8] |= 1 << (at % 8);
    (other[at / 8] >> (at % 8)) % 2 == 1
}

/// Marks in one of two tables the gap where an edge crosses a line, after `k` others. Returns whether that gap is in the
/// other table and may be free.
#[inline(always)]
fn mark_crossing(
    table: &mut [u8; BYTES],
    other: &[u8; BYTES],
    pass: &PassEdges,
    looks: &mut Looks,
    edge: Edge,
    k: u64,
) -> bool
    requires edge { EdgeFits edge }
    requires within { k < lines_crossed edge }
    ensures marked { has_mark table.new (slot (line_crossed edge k) (crossing edge (line_crossed edge k)).gap) ≡ true }
    ensures kept { (s : ℕ) → has_mark table.old s ≡ true → has_mark table.new s ≡ true }
    ensures taken { result ≡ false
        → has_mark other.now (slot (line_crossed edge k) (crossing edge (line_crossed edge k)).gap) ≡ true
        → is_free (is_black_seen pass.now.over pass.now.edges.now) (crossing edge (line_crossed edge k)).gap
        (line_crossed edge k) ≡ false }
    ensures fewer { looks.new ≤ looks.old }
{
    let line = line_crossed(edge, k);
    let gap = gap_crossed(edge, k);
    mark(table, other, slot(line, gap)) && look(*pass, looks, gap, line)
}

/// Marks in one of two tables the gaps where an edge crosses lines. Returns whether such a gap is in the other table
/// and may be free.
#[inline(always)]
fn mark_crossings(
    table: &mut [u8; BYTES],
    other: &[u8; BYTES],
    pass: &PassEdges,
    looks: &mut Looks,
    edge: Edge,
) -> bool
    requires { EdgeFits edge }
    ensures marked { result ≡ false → (k : ℕ) → k < lines_crossed edge
        → has_mark table.new (slot (line_crossed edge k) (crossing edge (line_crossed edge k)).gap) ≡ true }
    ensures kept { (s : ℕ) → has_mark table.old s ≡ true → has_mark table.new s ≡ true }
    ensures taken { result ≡ false → (k : ℕ) → k < lines_crossed edge
        → has_mark other.now (slot (line_crossed edge k) (crossing edge (line_crossed edge k)).gap) ≡ true
        → is_free (is_black_seen pass.now.over pass.now.edges.now) (crossing edge (line_crossed edge k)).gap
        (line_crossed edge k) ≡ false }
    ensures fewer { looks.new ≤ looks.old }
{
    for k in 0..lines_crossed(edge) {
        if mark_crossing(table, other, pass, looks, edge, k) {
            return true;
        }
    }
    false
}

/// Marks the gaps where an edge, as a pass sees it, crosses lines. Returns whether one of them is crossed the other way
/// too and may be free. The pass is lent, since each call would copy it.
#[inline(never)]
fn mark_ways(
    rising: &mut [u8; BYTES],
    falling: &mut [u8; BYTES],
    pass: &PassEdges,
    looks: &mut Looks,
    edge: &Edge,
) -> bool
    requires { EdgeFits edge.now }
    ensures told { result ≡ false → (es : List Edge)
        → AreTold (is_black_seen pass.now.over pass.now.edges.now) es rising.old falling.old
        → AreTold (is_black_seen pass.now.over pass.now.edges.now) (es ++ seen_by pass.now.over edge.now ∷ []) rising.new falling.new }
    ensures fewer { looks.new ≤ looks.old }
{
    let edge = seen_by(pass.over, *edge);
    if edge.ay < edge.by {
        mark_crossings(rising, falling, pass, looks, edge)
    } else {
        mark_crossings(falling, rising, pass, looks, edge)
    }
}

/// Whether an edge crosses one line alone, and lies in one gap there.
#[inline(always)]
fn is_short(edge: Edge) -> bool
    requires { EdgeFits edge }
    ensures { result ≡ true → lines_crossed edge ≡ 1 }
{
    lines_crossed(edge) == 1 && gap_at(edge.ax) == gap_at(edge.bx)
}

/// Marks the gaps where an edge crosses lines, as `mark_ways` does. `seen` is the edge as the pass sees it. Most edges
/// are short and need no call.
#[inline(always)]
fn mark_met(
    rising: &mut [u8; BYTES],
    falling: &mut [u8; BYTES],
    pass: &PassEdges,
    looks: &mut Looks,
    edge: &Edge,
    seen: Edge,
) -> bool
    requires edge { EdgeFits edge.now }
    requires seen { seen ≡ seen_by pass.now.over edge.now }
    requires fits { EdgeFits seen }
    ensures told { result ≡ false → (es : List Edge)
        → AreTold (is_black_seen pass.now.over pass.now.edges.now) es rising.old falling.old
        → AreTold (is_black_seen pass.now.over pass.now.edges.now) (es ++ seen_by pass.now.over edge.now ∷ []) rising.new falling.new }
    ensures fewer { looks.new ≤ looks.old }
{
    if !is_short(seen) {
        return mark_ways(rising, falling, pass, looks, edge);
    }
    if seen.ay < seen.by {
        mark_crossing(rising, falling, pass, looks, seen, 0)
    } else {
        mark_crossing(falling, rising, pass, looks, seen, 0)
    }
}

/// Whether edges may cross some free gap of a row or of a column both rising and falling. False means that they do not.
/// True also where more gaps need a look than remain.
pub(crate) fn mark_edges(edges: &[Edge], looks: &mut Looks) -> bool
    requires { All EdgeFits edges.now }
    ensures rows { result ≡ false
        → NoneFreeBothWays (is_black_seen over.Rows edges.now) (map (seen_by over.Rows) edges.now) }
    ensures columns { result ≡ false
        → NoneFreeBothWays (is_black_seen over.Columns edges.now) (map (seen_by over.Columns) edges.now) }
    ensures fewer { looks.new ≤ looks.old }
{
    let rows = PassEdges {
        over: Over::Rows,
        edges,
    };
    let columns = PassEdges {
        over: Over::Columns,
        edges,
    };
    let mut row_rising = [0u8; BYTES];
    let mut row_falling = [0u8; BYTES];
    let mut column_rising = [0u8; BYTES];
    let mut column_falling = [0u8; BYTES];
    for edge in edges {
        // Most edges are short and meet no line.
        if meets(Over::Rows, false, edge)
            && mark_met(
                &mut row_rising,
                &mut row_falling,
                &rows,
                looks,
                edge,
                seen_by(Over::Rows, *edge),
            )
        {
            return true;
        }
        if meets(Over::Columns, false, edge)
            && mark_met(
                &mut column_rising,
                &mut column_falling,
                &columns,
                looks,
                edge,
                seen_by(Over::Columns, *edge),
            )
        {
            return true;
        }
    }
    false
}
