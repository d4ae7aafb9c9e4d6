//! What the edges of one glyph count where a job's work is bounded. The count knows no picture and no pen.

ghost use Rattle.std.specs.Prelude.{◌≡◌, ◌^◌, ◌*◌, ◌+◌, ◌<◌, ◌≤◌, length, max, All};
ghost use Rattle.tt_scan_edges.specs.Winding.{EdgeFits};
ghost use Rattle.tt_scan_dropouts.specs.Counted.{bands, bands_bytes, edge_rows, edges_counted, filling_counted, numbers_in, rows_counted};
ghost use Rattle.tt_scan_dropouts.specs.Dropouts.{crossed};
ghost use Rattle.tt_scan_gaps.specs.Boxes.{ColumnsFit, ExtentsFit};

use tt_scan::Edge;
use tt_scan_gaps::{Columns, Extents, box_of, lines_crossed, pixels_reached, turned_round};

/// The most rows that are worked on at once where a glyph may have more rows than a picture.
pub const BAND_ROWS: u32 = 2048;

/// How many numbers the columns of a box are, or its rows.
fn numbers_in(numbers: Columns) -> u64
    requires { ColumnsFit numbers }
    ensures exact { result ≡ numbers_in numbers }
    ensures small { result < 2 ^ 20 }
{
    (numbers.last - numbers.first).unsigned_abs() + 1
}

/// How many bands some rows are.
fn bands(rows: u64) -> u64
    requires { rows < 2 ^ 20 }
    ensures exact { result ≡ bands rows }
    ensures small { result ≤ 2 ^ 9 }
{
    rows.div_ceil(u64::from(BAND_ROWS))
}

/// One for each edge and each band.
fn in_each_band(bands: u64, edges: usize) -> u64
    requires bands { bands ≤ 2 ^ 9 }
    requires edges { edges ≤ 2 ^ 32 }
    ensures exact { result ≡ bands * edges }
    ensures bound { result ≤ 2 ^ 9 * edges }
{
    bands * edges as u64
}

/// The count of an edge for the rows that it crosses, this many.
#[inline(always)]
fn edge_rows(crossed: u64) -> u64
    requires { crossed ≤ 2 ^ 20 }
    ensures exact { result ≡ max 7 (5 * crossed) }
    ensures bound { result ≤ 5 * 2 ^ 20 }
{
    (5 * crossed).max(7)
}

/// The count of edges for the rows that they cross.
fn rows_counted(edges: &[Edge]) -> u64
    requires edges { All EdgeFits edges.now }
    requires few { length edges.now ≤ 2 ^ 32 }
    ensures exact { result ≡ rows_counted edges.now }
    ensures bound { result ≤ 5 * 2 ^ 20 * length edges.now }
{
    let mut all = 0;
    for edge in edges {
        all += edge_rows(lines_crossed(*edge));
    }
    all
}

/// The count of edges for the rows that they cross; and how many rows and columns they cross, all together.
fn crossed(edges: &[Edge]) -> (u64, u64)
    requires edges { All EdgeFits edges.now }
    requires few { length edges.now ≤ 2 ^ 32 }
    ensures rows { result.0 ≡ rows_counted edges.now }
    ensures both { result.1 ≡ crossed edges.now }
    ensures rows_bound { result.0 ≤ 5 * 2 ^ 20 * length edges.now }
    ensures both_bound { result.1 ≤ 2 ^ 21 * length edges.now }
{
    let mut rows = 0;
    let mut both = 0;
    for edge in edges {
        let across = lines_crossed(*edge);
        rows += edge_rows(across);
        both += across + lines_crossed(turned_round(*edge));
    }
    (rows, both)
}

/// The bytes of the bitmaps of all bands of a box.
fn bands_bytes(columns: u64, rows: u64) -> u64
    requires columns { columns < 2 ^ 20 }
    requires rows { rows < 2 ^ 20 }
    ensures exact { result ≡ bands_bytes columns rows }
    ensures bound { result ≤ 2 ^ 39 }
{
    (columns + 10).div_ceil(8) * (rows + 10 * bands(rows))
}

/// The count of edges: one for each band of the rows of their box, and what they count for the rows that they cross,
/// which is known. Each row of the box counts one.
#[tactic(auto, unfolding(crate::specs::Counted::edges_counted))]
fn counted_by(edges: &[Edge], counted: u64) -> u64
    requires edges { All EdgeFits edges.now }
    requires few { length edges.now ≤ 2 ^ 32 }
    requires rows { counted ≡ rows_counted edges.now }
    requires bound { counted ≤ 5 * 2 ^ 20 * length edges.now }
    ensures exact { result ≡ edges_counted edges.now }
    ensures bound { result ≤ 2 ^ 23 * length edges.now + 2 ^ 20 }
{
    let (_, rows) = box_of(edges);
    let rows = numbers_in(rows);
    in_each_band(bands(rows), edges.len()) + (counted + rows)
}

/// The count of edges.
pub fn edges_counted(edges: &[Edge]) -> u64
    requires edges { All EdgeFits edges.now }
    requires few { length edges.now ≤ 2 ^ 32 }
    ensures exact { result ≡ edges_counted edges.now }
    ensures bound { result ≤ 2 ^ 23 * length edges.now + 2 ^ 20 }
{
    counted_by(edges, rows_counted(edges))
}

/// What the search for dropouts counts for the rows and columns that edges cross: three for each, and one for each band.
fn searched(bands: u64, crossed: u64) -> u64
    requires bands { bands ≤ 2 ^ 9 }
    requires crossed { crossed ≤ 2 ^ 53 }
    ensures exact { result ≡ (bands + 3) * crossed }
    ensures bound { result ≤ 2 ^ 10 * crossed }
{
    (bands + 3) * crossed
}

/// What the search for dropouts counts besides, by the rows and columns that edges cross: for each three, and one for
/// each band; and one for each 64 bytes of the bitmaps of the glyph's box.
#[tactic(auto, unfolding(crate::specs::Counted::filling_counted))]
fn filling_by(extents: Extents, edges: &[Edge], met: u64) -> u64
    requires extents { ExtentsFit extents }
    requires few { length edges.now ≤ 2 ^ 32 }
    requires crossed { met ≡ crossed edges.now }
    requires bound { met ≤ 2 ^ 21 * length edges.now }
    ensures exact { result ≡ filling_counted extents edges.now }
    ensures bound { result ≤ 2 ^ 31 * length edges.now + 2 ^ 33 }
{
    let (columns, rows) = pixels_reached(extents, true);
    let rows = numbers_in(rows);
    searched(bands(rows), met) + bands_bytes(numbers_in(columns), rows) / 64
}

/// The count of edges where dropouts are filled, with the search for them. One walk over the edges serves both.
pub fn all_counted(extents: Extents, edges: &[Edge]) -> u64
    requires extents { ExtentsFit extents }
    requires edges { All EdgeFits edges.now }
    requires few { length edges.now ≤ 2 ^ 32 }
    ensures exact { result ≡ edges_counted edges.now + filling_counted extents edges.now }
    ensures bound { result ≤ 2 ^ 32 * length edges.now + 2 ^ 34 }
{
    let (rows, both) = crossed(edges);
    counted_by(edges, rows) + filling_by(extents, edges, both)
}
