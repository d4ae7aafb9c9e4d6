//! How an edge crosses the centre line of a row: here an edge that rises from a to b.
//!
//! ```text
//! column   0   1   2   3   4
//!
//! row 0    .   .   .   b   .    touch (3, 3)  turn 0  first 0
//!                     /
//! row 1    .   .   . / .   .    touch None    turn 1  first 3
//!                   /
//! row 2    .   .   /   .   .    touch (2, 2)  turn 1  first 3
//!                 /
//! row 3    .   . a .   .   .    touch None    turn 1  first 2
//! ```
//!
//! `turn` and `first` serve rule 1: a centre inside is black. From column `first` on the centres lie strictly right of
//! the edge, and it adds `turn` to the winding number there. The lower end counts and the upper does not, so that a
//! joint of two edges counts once. `touch` serves rule 2: a centre on the contour is black. Both ends count.

ghost use Rattle.std.specs.Prelude.{◌≡◌, true, ℕ, ℤ, ◌+◌, ◌^◌, ◌<◌, ◌≤◌, ◌&&◌, pos, int_lt, ◌-ℤ◌, ◌≤ℤ◌, unsigned_abs, IfSome};
ghost use Rattle.tt_scan_edges.specs.Crossing.{spans, IsCross};
ghost use Rattle.tt_scan_edges.specs.Walks.{StandsAt, turned_round};
ghost use Rattle.tt_scan_edges.specs.Winding.{EdgeFits, column_x, side, is_between, is_zero};
ghost use Rattle.tt_scan_edges.specs.declared.edge.Edge.{Edge};

use crate::edge::{Cross, Edge};
use crate::quotient::{HALF, PIXEL, Quotient, divided, pixels_between, product};
use crate::rising::RisingEdge;
use crate::row_at::RowAt;

/// How far a place is right of the centres of column 0. Both are in 1/8192 pixel.
#[inline(always)]
fn from_centre(x: i32, at: RowAt) -> i64
    requires { unsigned_abs x < 2 ^ 30 }
    ensures exact { result ≡ x -ℤ column_x at.frame.margin (pos 0) }
    ensures bound { unsigned_abs result < 2 ^ 31 }
{
    i64::from(x) + (PIXEL * i64::from(at.frame.margin) - HALF)
}

/// The last column whose centre is not right of an edge, in a row whose centres are between its ends. The rest is 0
/// where that centre lies on the edge.
#[inline(always)]
pub(crate) fn standing(up: RisingEdge, at: RowAt) -> Quotient
    requires low { up.edge.ay ≤ℤ at.y }
    requires high { at.y ≤ℤ up.edge.by }
    ensures on { (c : ℤ) → is_zero (side up.edge (column_x at.frame.margin c) at.y)
        ≡ (is_zero result.rest && is_zero (result.whole -ℤ c)) }
    ensures right { (c : ℤ) → int_lt (side up.edge (column_x at.frame.margin c) at.y) (pos 0) ≡ int_lt result.whole c }
    ensures near { unsigned_abs result.whole < 2 ^ 20 }
    ensures stands { StandsAt up.edge at.frame.margin at.y result }
{
    let rise = up.edge.rise();
    let sum = product(up.edge.run(), at.y - i64::from(up.edge.ay))
        + product(rise, from_centre(up.edge.ax, at));
    divided(sum, PIXEL * rise)
}

/// The column that an edge touches, by its quotient at that height; None where the rest is not 0.
#[inline(always)]
pub(crate) fn touched(at: Quotient) -> Option<(i64, i64)>
    ensures exact { (c : ℤ) → spans result c ≡ (is_zero at.rest && is_zero (at.whole -ℤ c)) }
    ensures order { IfSome result (λ t. t.0 ≤ℤ t.1) }
{
    if at.rest == 0 {
        Some((at.whole, at.whole))
    } else {
        None
    }
}

/// The crossing at a height that an edge does not reach.
#[inline(always)]
fn apart() -> Cross
    ensures touch { result.touch ≡ None }
    ensures turn { result.turn ≡ pos 0 }
    ensures first { result.first ≡ pos 0 }
{
    Cross {
        touch: None,
        turn: 0,
        first: 0,
    }
}

/// The crossing of an edge with a row whose centres are between its ends, by the edge's quotient there.
#[inline(always)]
pub(crate) fn risen(up: RisingEdge, at: RowAt, stands: Quotient) -> Cross
    requires low { up.edge.ay ≤ℤ at.y }
    requires high { at.y ≤ℤ up.edge.by }
    requires near { unsigned_abs stands.whole < 2 ^ 20 }
    requires stands { StandsAt up.edge at.frame.margin at.y stands }
    ensures { IsCross up.edge at.frame.margin at.y result }
{
    let touch = touched(stands);
    if at.y < i64::from(up.edge.by) {
        return Cross {
            touch,
            turn: 1,
            first: stands.whole + 1,
        };
    }
    Cross {
        touch,
        turn: 0,
        first: 0,
    }
}

/// The crossing of an edge with a row whose centres are between its ends.
#[inline(always)]
fn rising(up: RisingEdge, at: RowAt) -> Cross
    requires low { up.edge.ay ≤ℤ at.y }
    requires high { at.y ≤ℤ up.edge.by }
    ensures { IsCross up.edge at.frame.margin at.y result }
{
    risen(up, at, standing(up, at))
}

/// The edge from b to a.
#[inline(always)]
pub(crate) fn reversed(edge: Edge) -> Edge
    ensures { result ≡ turned_round edge }
{
    Edge {
        ax: edge.bx,
        ay: edge.by,
        bx: edge.ax,
        by: edge.ay,
    }
}

/// The crossing of the edge from b to a, by that of the edge from a to b: the turn is reversed.
#[inline(always)]
pub(crate) fn turned_back(up: Cross) -> Cross
    ensures { (e : Edge) (m : ℕ) (y : ℤ) → IsCross (turned_round e) m y up → IsCross e m y result }
{
    Cross {
        touch: up.touch,
        turn: -up.turn,
        first: up.first,
    }
}

/// The crossing of an edge with a and b at the height of a row; a and b may be one point.
#[inline(always)]
fn flat(edge: Edge, at: RowAt) -> Cross
    requires edge { EdgeFits edge }
    requires level { edge.ay ≡ edge.by }
    requires here { at.y ≡ edge.ay }
    ensures { IsCross edge at.frame.margin at.y result }
{
    let left = from_centre(edge.ax.min(edge.bx), at);
    let right = from_centre(edge.ax.max(edge.bx), at);
    Cross {
        touch: pixels_between(left, right),
        turn: 0,
        first: 0,
    }
}

/// The crossing of an edge with a row that it reaches.
#[inline(always)]
pub(crate) fn crossing_met(edge: Edge, at: RowAt) -> Cross
    requires edge { EdgeFits edge }
    requires met { is_between edge.ay edge.by at.y ≡ true }
    ensures { IsCross edge at.frame.margin at.y result }
{
    if edge.ay < edge.by {
        rising(RisingEdge { edge }, at)
    } else if edge.by < edge.ay {
        let edge = reversed(edge);
        turned_back(rising(RisingEdge { edge }, at))
    } else {
        flat(edge, at)
    }
}

/// Whether a place along an axis lies between two others, both included.
#[inline(always)]
pub(crate) fn is_between(a: i64, b: i64, z: i64) -> bool
    ensures { result ≡ is_between a b z }
{
    (a <= z && z <= b) || (b <= z && z <= a)
}

/// Whether an edge reaches a height, its ends included.
#[inline(always)]
fn reaches(edge: Edge, y: i64) -> bool
    ensures { result ≡ is_between edge.ay edge.by y }
{
    is_between(i64::from(edge.ay), i64::from(edge.by), y)
}

/// The crossing of an edge with a row.
pub(crate) fn crossing(edge: Edge, at: RowAt) -> Cross
    requires { EdgeFits edge }
    ensures { IsCross edge at.frame.margin at.y result }
{
    if reaches(edge, at.y) {
        crossing_met(edge, at)
    } else {
        apart()
    }
}
