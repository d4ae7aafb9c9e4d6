//! Which contours are closed.

ghost use Rattle.std.specs.Prelude.{◌≡◌, true, ◌&&◌, All};
ghost use Rattle.std.specs.Ordering.{int_eq};
ghost use Rattle.tt_scan.specs.Contours.{IsClosed, contours_at};

use crate::contours::Contours;
use tt_scan::Edge;

/// Whether an edge ends where another begins.
#[inline(always)]
fn leads_to(edge: Edge, next: Edge) -> bool
    ensures { result ≡ (int_eq edge.bx next.ax && int_eq edge.by next.ay) }
{
    edge.bx == next.ax && edge.by == next.ay
}

/// Whether each edge of a contour leads to the one after it, and the last to the first.
fn is_closed(edges: &[Edge]) -> bool
    ensures { result ≡ true → IsClosed edges.now }
{
    if edges.is_empty() {
        return true;
    }
    for i in 1..edges.len() {
        if !leads_to(edges[i - 1], edges[i]) {
            return false;
        }
    }
    leads_to(edges[edges.len() - 1], edges[0])
}

/// Whether all contours of an outline are closed.
pub(crate) fn are_closed(contours: Contours) -> bool
    ensures { result ≡ true → All IsClosed (contours_at contours.entry.edges.now contours.entry.ends.now) }
{
    let Contours { edges, ends } = contours;
    let mut from = 0;
    for i in 0..ends.len() {
        if !is_closed(&edges[from..ends[i]]) {
            return false;
        }
        from = ends[i];
    }
    true
}
