//! Dots: small contours none of whose crossings needs a pixel, so that dropout control draws nothing of them. A dot gets
//! the pixel that holds the middle of its box.

ghost use Rattle.std.specs.Prelude.{◌≡◌, ℤ, pos, ◌^◌, ◌<◌, ◌&&◌, int_lt, true, false, length, unsigned_abs, Some, All, IfNone, IfOk, IfSome};
ghost use Rattle.std.specs.Ordering.{int_eq};
ghost use Rattle.tt_scan_edges.specs.Winding.{EdgeFits};
ghost use Rattle.tt_scan_gaps.specs.Boxes.{ColumnsFit, ExtentFits, ExtentsFit};
ghost use Rattle.tt_scan_gaps.specs.Dots.{are_two, asks, asks_by_rows, ends_box, has_dot_box, is_dot, is_dot_box, length_of, longer, middle, shorter};
ghost use Rattle.tt_scan_gaps.specs.Gaps.{some_asks};
ghost use Rattle.tt_scan_gaps.specs.Walk.{contour_marks, edge_marks, step_marks, walk_marks};

use crate::columns::{pixels_in, with};
use crate::crossings::{lines_crossed, touch};
use crate::extent::{Extent, Extents};
use crate::mark::{Columns, Step};
use crate::seen::all_turned_round;
use crate::steps::walk;
use crate::stub::is_of_stub;
use std::alloc::{AllocError, Global};
use tt_scan_edges::Edge;

/// The least length one way of a dot's box, and the least length the other way: 3/8 and 1/8 pixel.
const LONG: i64 = 3072;

const SHORT: i64 = 1024;

/// No box of at most two columns is longer: three pixels.
const LONGEST: i64 = 24_576;

/// Where a dot's pixel is: its column and its row.
#[derive(Clone, Copy)]
pub struct Dot {
    pub column: i64,
    pub row: i64,
}

/// Whether step `k` of a closed walk is a crossing that belongs to no stub.
fn step_asks(steps: &[Step], k: usize) -> bool
    requires { k < length steps.now }
    ensures { result ≡ some_asks (step_marks steps.now k) }
{
    match steps[k] {
        Step::Cross(at) => !is_of_stub(steps, k, at),
        Step::End(_) => false,
    }
}

/// Whether some crossing of a closed walk belongs to no stub.
fn walk_asks(steps: &[Step]) -> bool
    ensures { result ≡ some_asks (walk_marks steps.now) }
{
    for k in 0..steps.len() {
        if step_asks(steps, k) {
            return true;
        }
    }
    false
}

/// Whether an edge crosses or touches a line.
fn edge_asks(edge: Edge) -> bool
    requires { EdgeFits edge }
    ensures { result ≡ some_asks (edge_marks edge) }
{
    lines_crossed(edge) != 0 || touch(edge).is_some()
}

/// Whether some edge crosses or touches a line.
fn some_edge_asks(edges: &[Edge]) -> bool
    requires { All EdgeFits edges.now }
    ensures { result ≡ some_asks (contour_marks true edges.now) }
{
    for i in 0..edges.len() {
        if edge_asks(edges[i]) {
            return true;
        }
    }
    false
}

/// Whether some crossing of a contour needs a pixel by rows, whether its gap is free or not. Error: memory ran out.
fn asks_by_rows(alloc: Global, stubs: bool, edges: &[Edge]) -> Result<bool, AllocError>
    requires { All EdgeFits edges.now }
    ensures { IfOk result (λ r. r ≡ asks_by_rows stubs edges.now) }
{
    if stubs {
        return Ok(some_edge_asks(edges));
    }
    let steps = walk(alloc, edges)?;
    Ok(walk_asks(&steps))
}

/// Whether some crossing of a contour needs a pixel, by rows or by columns. Error: memory ran out.
fn asks(alloc: Global, stubs: bool, edges: &[Edge]) -> Result<bool, AllocError>
    requires { All EdgeFits edges.now }
    ensures { IfOk result (λ r. r ≡ asks stubs edges.now) }
{
    if asks_by_rows(alloc, stubs, edges)? {
        return Ok(true);
    }
    let turned = all_turned_round(alloc, edges)?;
    asks_by_rows(alloc, stubs, &turned)
}

/// Whether a box has two columns or rows at most.
fn are_two(columns: Columns) -> bool
    requires { ColumnsFit columns }
    ensures { result ≡ are_two columns }
{
    columns.last - columns.first <= 1
}

/// How far an extent reaches.
#[inline(always)]
fn length_of(extent: Extent) -> i64
    requires { ExtentFits extent }
    ensures exact { result ≡ length_of extent }
    ensures small { unsigned_abs result < 2 ^ 31 }
{
    i64::from(extent.high) - i64::from(extent.low)
}

/// How far a box reaches, the longer way.
#[inline(always)]
fn longer(extents: Extents) -> i64
    requires { ExtentsFit extents }
    ensures { result ≡ longer extents }
{
    length_of(extents.across).max(length_of(extents.up))
}

/// How far a box reaches, the shorter way.
#[inline(always)]
fn shorter(extents: Extents) -> i64
    requires { ExtentsFit extents }
    ensures { result ≡ shorter extents }
{
    length_of(extents.across).min(length_of(extents.up))
}

/// Whether a box is that of a dot.
fn is_dot_box(extents: Extents) -> bool
    requires { ExtentsFit extents }
    ensures { result ≡ is_dot_box extents }
{
    let (columns, rows) = pixels_in(extents);
    (are_two(columns) && are_two(rows)) && (LONG <= longer(extents) && SHORT <= shorter(extents))
}

/// Whether a box is longer one way than the box of any dot.
#[inline(always)]
fn is_too_long(extents: Extents) -> bool
    requires { ExtentsFit extents }
    ensures { result ≡ int_lt (pos 24576) (longer extents) }
{
    LONGEST < longer(extents)
}

/// The box of a contour, if it is that of a dot. Most contours are longer, as their first edges show.
#[inline]
fn dot_box(edges: &[Edge]) -> Option<Extents>
    requires { All EdgeFits edges.now }
    ensures some { IfSome result (λ b. ends_box edges.now ≡ Some b) }
    ensures fits { IfSome result (λ b. ExtentsFit b) }
    ensures small { IfSome result (λ b. is_dot_box b ≡ true) }
    ensures none { IfNone result (has_dot_box edges.now ≡ false) }
{
    if edges.is_empty() {
        return None;
    }
    let mut across = Extent {
        low: edges[0].ax,
        high: edges[0].ax,
    };
    let mut up = Extent {
        low: edges[0].ay,
        high: edges[0].ay,
    };
    for edge in edges {
        across = with(across, edge.ax, edge.bx);
        up = with(up, edge.ay, edge.by);
        if is_too_long(Extents { across, up }) {
            return None;
        }
    }
    let extents = Extents { across, up };
    if is_dot_box(extents) {
        Some(extents)
    } else {
        None
    }
}

/// Whether a contour has the box of a dot, whether it needs a pixel or not.
pub fn has_dot_box(edges: &[Edge]) -> bool
    requires { All EdgeFits edges.now }
    ensures { result ≡ has_dot_box edges.now }
{
    dot_box(edges).is_some()
}

/// The column, or the row, that holds the middle. A middle on a border goes right, or up.
fn middle(extent: Extent) -> i64
    requires { ExtentFits extent }
    ensures { result ≡ middle extent }
{
    (i64::from(extent.low) + i64::from(extent.high)) >> 14
}

/// The pixel of a contour that is a dot; None where the contour is not. Error: memory ran out.
pub fn dot_pixel(alloc: Global, stubs: bool, edges: &[Edge]) -> Result<Option<Dot>, AllocError>
    requires { All EdgeFits edges.now }
    ensures some { IfOk result (λ o. IfSome o (λ d. (c j : ℤ) → is_dot stubs edges.now c j
        ≡ (int_eq d.column c && int_eq d.row j))) }
    ensures none { IfOk result (λ o. IfNone o ((c j : ℤ) → is_dot stubs edges.now c j ≡ false)) }
{
    let Some(extents) = dot_box(edges) else {
        return Ok(None);
    };
    if asks(alloc, stubs, edges)? {
        return Ok(None);
    }
    Ok(Some(Dot {
        column: middle(extents.across),
        row: middle(extents.up),
    }))
}
