//! How often edges wind round a point, by each edge.

ghost use Rattle.std.specs.Prelude.{◌≡◌, false, ℤ, ◌-ℤ◌, ◌*ℤ◌, ◌^◌, ◌<◌, ◌≤◌, pos, unsigned_abs, All};
ghost use Rattle.tt_scan_gaps.specs.BothWays.{turn_by};
ghost use Rattle.tt_scan_edges.specs.Winding.{EdgeFits, turned, winding};

use tt_scan_edges::Edge;

/// Two products; their difference shows the side of a point at an edge.
#[inline(always)]
fn sides(edge: Edge, x: i64, y: i64) -> (i64, i64)
    requires edge { EdgeFits edge }
    requires x { unsigned_abs x < 2 ^ 31 }
    requires y { unsigned_abs y < 2 ^ 31 }
    ensures first { result.0 ≡ (edge.bx -ℤ edge.ax) *ℤ (y -ℤ edge.ay) }
    ensures second { result.1 ≡ (edge.by -ℤ edge.ay) *ℤ (x -ℤ edge.ax) }
{
    (
        edge.run() * (y - i64::from(edge.ay)),
        edge.rise() * (x - i64::from(edge.ax)),
    )
}

/// The turn of an edge from one height to another round a point at a third, by the products of its sides.
#[inline(always)]
fn turn_by(from: i64, to: i64, y: i64, p: i64, q: i64) -> i64
    ensures exact { result ≡ turn_by from to y p q }
    ensures small { unsigned_abs result ≤ 1 }
{
    if from <= y && y < to && p < q {
        return 1;
    }
    if to <= y && y < from && q < p {
        return -1;
    }
    0
}

/// Whether an edge from one height to another goes through a third, its lower end included and its upper not.
#[inline(always)]
fn goes_through(from: i64, to: i64, y: i64) -> bool
    ensures { result ≡ false → (p q : ℤ) → turn_by from to y p q ≡ pos 0 }
{
    (from <= y) != (to <= y)
}

/// The summand of an edge in the winding of a point: 1, 0 or -1.
#[inline(always)]
fn turned(edge: &Edge, x: i64, y: i64) -> i64
    requires edge { EdgeFits edge.now }
    requires x { unsigned_abs x < 2 ^ 31 }
    requires y { unsigned_abs y < 2 ^ 31 }
    ensures exact { result ≡ turned edge.now x y }
    ensures small { unsigned_abs result ≤ 1 }
{
    // Most edges are above or below the point.
    let from = i64::from(edge.ay);
    let to = i64::from(edge.by);
    if !goes_through(from, to, y) {
        return 0;
    }
    let (p, q) = sides(*edge, x, y);
    turn_by(from, to, y, p, q)
}

/// How often edges wind round a point.
pub(crate) fn winding(edges: &[Edge], x: i64, y: i64) -> i64
    requires edges { All EdgeFits edges.now }
    requires x { unsigned_abs x < 2 ^ 31 }
    requires y { unsigned_abs y < 2 ^ 31 }
    ensures { result ≡ winding edges.now x y }
{
    let mut winding = 0i64;
    for edge in edges {
        winding += turned(edge, x, y);
    }
    winding
}
