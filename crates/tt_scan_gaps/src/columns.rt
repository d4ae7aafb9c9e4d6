//! The columns and the rows of a glyph's box.

ghost use Rattle.std.specs.Prelude.{◌≡◌, ◌^◌, ◌<◌, map, unsigned_abs, All};
ghost use Rattle.std.specs.Int.{int_max, int_min};
ghost use Rattle.tt_scan_edges.specs.Winding.{EdgeFits};
ghost use Rattle.tt_scan_gaps.specs.Boxes.{ColumnsFit, ExtentFits, ExtentsFit, ColumnsNear, columns_between, columns_in, columns_of, columns_reached, greatest_x, least_x, reached, rows_in, rows_reached};
ghost use Rattle.tt_scan_gaps.specs.Seen.{turned_round};

use crate::crossings::{PIXEL, gap_at, line_from};
use crate::extent::{Extent, Extents};
use crate::mark::Columns;
use tt_scan_edges::Edge;

/// The columns with a centre from the least to the greatest x; where there is none, the column nearer to the middle.
fn columns_between(low: i32, high: i32) -> Columns
    requires low { unsigned_abs low < 2 ^ 30 }
    requires high { unsigned_abs high < 2 ^ 30 }
    ensures exact { result ≡ columns_between low high }
    ensures small { ColumnsFit result }
{
    let first = line_from(low);
    let last = gap_at(high);
    if first <= last {
        Columns { first, last }
    } else if 2 * PIXEL * first <= i64::from(low) + i64::from(high) {
        Columns { first, last: first }
    } else {
        Columns { first: last, last }
    }
}

/// An extent with two places more.
#[inline(always)]
pub(crate) fn with(extent: Extent, a: i32, b: i32) -> Extent
    requires extent { ExtentFits extent }
    requires a { unsigned_abs a < 2 ^ 30 }
    requires b { unsigned_abs b < 2 ^ 30 }
    ensures low { result.low ≡ int_min extent.low (int_min a b) }
    ensures high { result.high ≡ int_max extent.high (int_max a b) }
    ensures fits { ExtentFits result }
{
    Extent {
        low: extent.low.min(a.min(b)),
        high: extent.high.max(a.max(b)),
    }
}

/// The extents in x and in y of the ends of edges and of a point.
fn extents(x: i32, y: i32, edges: &[Edge]) -> (Extent, Extent)
    requires x { unsigned_abs x < 2 ^ 30 }
    requires y { unsigned_abs y < 2 ^ 30 }
    requires edges { All EdgeFits edges.now }
    ensures left { result.0.low ≡ least_x x edges.now }
    ensures right { result.0.high ≡ greatest_x x edges.now }
    ensures bottom { result.1.low ≡ least_x y (map turned_round edges.now) }
    ensures top { result.1.high ≡ greatest_x y (map turned_round edges.now) }
    ensures fit { ExtentFits result.0 × ExtentFits result.1 }
{
    let mut across = Extent { low: x, high: x };
    let mut up = Extent { low: y, high: y };
    for edge in edges {
        across = with(across, edge.ax, edge.bx);
        up = with(up, edge.ay, edge.by);
    }
    (across, up)
}

/// The columns and the rows of a box: those with a centre in it. Where there is none, the column or row nearer to the
/// middle.
pub fn pixels_in(extents: Extents) -> (Columns, Columns)
    requires { ExtentsFit extents }
    ensures columns { result.0 ≡ columns_in extents }
    ensures rows { result.1 ≡ rows_in extents }
    ensures small { ColumnsFit result.0 × ColumnsFit result.1 }
{
    (
        columns_between(extents.across.low, extents.across.high),
        columns_between(extents.up.low, extents.up.high),
    )
}

/// The columns, or the rows, that black pixels may lie in: where dots are drawn, one more on each side.
fn reached(columns: Columns, dots: bool) -> Columns
    requires { ColumnsFit columns }
    ensures { result ≡ reached dots columns }
{
    if dots {
        Columns {
            first: columns.first - 1,
            last: columns.last + 1,
        }
    } else {
        columns
    }
}

/// The columns and the rows that a glyph's black pixels may lie in, by its box.
pub fn pixels_reached(extents: Extents, dots: bool) -> (Columns, Columns)
    requires { ExtentsFit extents }
    ensures columns { result.0 ≡ columns_reached dots extents }
    ensures rows { result.1 ≡ rows_reached dots extents }
    ensures near { ColumnsNear result.0 × ColumnsNear result.1 }
    ensures small { ColumnsFit result.0 × ColumnsFit result.1 }
{
    let (columns, rows) = pixels_in(extents);
    (reached(columns, dots), reached(rows, dots))
}

/// The columns and the rows of the box of edges: those with a centre from the least to the greatest x and y. Where
/// there is none, the column or row nearer to the middle.
pub fn box_of(edges: &[Edge]) -> (Columns, Columns)
    requires { All EdgeFits edges.now }
    ensures columns { result.0 ≡ columns_of edges.now }
    ensures rows { result.1 ≡ columns_of (map turned_round edges.now) }
    ensures small { ColumnsFit result.0 × ColumnsFit result.1 }
{
    if edges.is_empty() {
        let none = Columns { first: 0, last: 0 };
        return (none, none);
    }
    let (across, up) = extents(edges[0].ax, edges[0].ay, edges);
    (
        columns_between(across.low, across.high),
        columns_between(up.low, up.high),
    )
}
