//! The quadratic curve of a point off the curve, cut into chords. Apple TrueType Reference Manual, "Digitizing
//! Letterform Designs".
//!
//! ```text
//!            c            a, b    the ends of the quadratic (`CurveEnd`), in 1/128 pixel: the neighbours of point c,
//!          .   .                  or midway between c and a neighbour that is off the curve too
//!        _-------_        c       its control point, the point off the curve (`PlacedPoint`), in 26.6
//!      /           \      chords  n, between the places at t = 0, 1/n, .., 1 (`EdgeEnd`), in 1/8192 pixel
//!    a               b
//! ```
//!
//! There are 1, 2, 4, 8, 16 or 32 chords. So each end of a chord is one of 33 places of the curve. Along an axis these
//! places are values of a polynomial of degree 2. The values are whole in 1/131072 pixel, and are rounded to 1/8192 pixel.
//! Each value follows from the preceding one by sums alone. The sums take its first difference, and the second
//! difference, which is constant (`Differences`). The ends of up to eight chords need no rounding: exact.rt.

ghost use Rattle.std.specs.Prelude.{◌≡◌, ◌+◌, ◌*◌, ◌^◌, ◌<◌, ◌≤◌, pos, ◌+ℤ◌, ◌-ℤ◌, ◌*ℤ◌, unsigned_abs, OnOk};
ghost use Rattle.tt_core.specs.Numbers.{nearest_quotient};
ghost use Rattle.tt_scan_edges.specs.Winding.{EdgeFits};
ghost use Rattle.tt_arc.specs.Chords.{PointFits, CurveEndFits, QuadraticFits, CoordinatesFit, EdgeEndFits, AreDifferences, along_x, along_y, curve_end_of, quadratic_of, signed_bend, chords_of_bend, chord_count, chords_by, edge_between};
ghost use Rattle.tt_arc.specs.Added.{AreAdded};

use crate::joining::push_edge;
use crate::point::{Corner, PlacedPoint};
use crate::rule::ChordRule;
use std::alloc::AllocError;
use tt_scan::{Edge, EdgeList, Last};

/// An end of a quadratic, in 1/128 pixel.
#[derive(Clone, Copy)]
pub(crate) struct CurveEnd {
    pub(crate) x: i64,
    pub(crate) y: i64,
}

/// The quadratic curve of a point off the curve.
#[derive(Clone, Copy)]
pub(crate) struct Quadratic {
    pub(crate) from: CurveEnd,
    pub(crate) control: PlacedPoint,
    pub(crate) to: CurveEnd,
}

/// The end of the quadratic of a point off the curve, towards a neighbour. The end is the neighbour, or the point
/// midway if the neighbour is off the curve too.
#[inline(always)]
fn curve_end_of(neighbour: PlacedPoint, p: PlacedPoint) -> CurveEnd
    requires neighbour { PointFits neighbour }
    requires point { PointFits p }
    ensures exact { result ≡ curve_end_of neighbour p }
    ensures valid { CurveEndFits result }
{
    if neighbour.on {
        CurveEnd {
            x: 2 * neighbour.x,
            y: 2 * neighbour.y,
        }
    } else {
        CurveEnd {
            x: neighbour.x + p.x,
            y: neighbour.y + p.y,
        }
    }
}

/// The quadratic of a point off the curve, between its neighbours.
#[inline(always)]
pub(crate) fn quadratic_of(corner: Corner) -> Quadratic
    ensures exact { result ≡ quadratic_of corner.before corner.point corner.after }
    ensures valid { QuadraticFits result }
{
    Quadratic {
        from: curve_end_of(corner.before, corner.point),
        control: corner.point,
        to: curve_end_of(corner.after, corner.point),
    }
}

/// The coordinates of a quadratic along one axis.
#[derive(Clone, Copy)]
pub(crate) struct Coordinates {
    /// Of its start, in 1/128 pixel.
    pub(crate) from: i64,
    /// Of its control point, in 26.6.
    pub(crate) control: i64,
    /// Of its end, in 1/128 pixel.
    to: i64,
}

/// The coordinates of a quadratic along x.
#[inline(always)]
pub(crate) fn along_x(curve: Quadratic) -> Coordinates
    ensures { result ≡ along_x curve }
{
    Coordinates {
        from: curve.from.x,
        control: curve.control.x,
        to: curve.to.x,
    }
}

/// The coordinates of a quadratic along y.
#[inline(always)]
pub(crate) fn along_y(curve: Quadratic) -> Coordinates
    ensures { result ≡ along_y curve }
{
    Coordinates {
        from: curve.from.y,
        control: curve.control.y,
        to: curve.to.y,
    }
}

/// How far a quadratic bends along an axis, with its sign, in 1/128 pixel.
#[inline(always)]
pub(crate) fn signed_bend(coordinates: Coordinates) -> i64
    requires { CoordinatesFit coordinates }
    ensures exact { result ≡ signed_bend coordinates }
    ensures bound { unsigned_abs result ≤ 2 ^ 26 }
{
    coordinates.from - 4 * coordinates.control + coordinates.to
}

/// The least number of chords that leave a quadratic by 1/1024 pixel at most, or 32, by its bend in 1/128 pixel.
#[inline(always)]
fn chords_of_bend(bend: u64) -> u32
    requires { bend ≤ 2 ^ 26 }
    ensures { result ≡ chords_of_bend bend }
{
    let twice = 2 * bend;
    if twice <= 1 {
        return 1;
    }
    if twice <= 4 {
        return 2;
    }
    if twice <= 16 {
        return 4;
    }
    if twice <= 64 {
        return 8;
    }
    if twice <= 256 { 16 } else { 32 }
}

/// How many chords a quadratic has.
#[inline(always)]
pub(crate) fn chord_count(curve: Quadratic, rule: ChordRule) -> u32
    requires { QuadraticFits curve }
    ensures { result ≡ chord_count rule curve }
{
    match rule {
        ChordRule::Eight => 8,
        ChordRule::ByBend => {
            let across = signed_bend(along_x(curve)).unsigned_abs();
            let up = signed_bend(along_y(curve)).unsigned_abs();
            chords_of_bend(across.max(up))
        }
    }
}

/// The end of a chord along one axis, the first difference to the next chord's end, and the second difference. They are
/// in 1/131072 pixel, and of an exact end in 1/8192 pixel.
#[derive(Clone, Copy)]
pub(crate) struct Differences {
    pub(crate) value: i64,
    pub(crate) first: i64,
    pub(crate) second: i64,
}

/// `count * v`, with a contract that names the product of integers.
#[inline(always)]
pub(crate) fn times(count: u32, v: i64) -> i64
    requires count { count ≤ 32 }
    requires length { unsigned_abs v ≤ 2 ^ 33 }
    ensures exact { result ≡ pos count *ℤ v }
    ensures few { unsigned_abs result ≤ 32 * unsigned_abs v }
{
    i64::from(count) * v
}

/// The rise of a quadratic at its start, by one thirty-second of it, without its bend.
#[inline(always)]
fn slope(coordinates: Coordinates) -> i64
    requires { CoordinatesFit coordinates }
    ensures exact { result ≡ pos 64 *ℤ (pos 2 *ℤ coordinates.control -ℤ coordinates.from) }
    ensures bound { unsigned_abs result ≤ 2 ^ 31 }
{
    64 * (2 * coordinates.control - coordinates.from)
}

/// The coordinate and the differences at the start of a quadratic, for chords of `step` thirty-seconds of it.
#[inline(always)]
fn differences_at_start(coordinates: Coordinates, step: u32) -> Differences
    requires coordinates { CoordinatesFit coordinates }
    requires step { step ≤ 32 }
    ensures { AreDifferences coordinates step 0 result }
{
    let part = times(step, signed_bend(coordinates));
    Differences {
        value: 1024 * coordinates.from,
        first: times(step, slope(coordinates) + part),
        second: 2 * times(step, part),
    }
}

/// The differences one chord further.
#[inline(always)]
pub(crate) fn next(s: Differences) -> Differences
    requires value { unsigned_abs s.value < 2 ^ 34 }
    requires first { unsigned_abs s.first < 2 ^ 43 }
    requires second { unsigned_abs s.second ≤ 2 ^ 37 }
    ensures value { result.value ≡ s.value +ℤ s.first }
    ensures first { result.first ≡ s.first +ℤ s.second }
    ensures second { result.second ≡ s.second }
{
    Differences {
        value: s.value + s.first,
        first: s.first + s.second,
        second: s.second,
    }
}

/// An end of an edge, in 1/8192 pixel.
#[derive(Clone, Copy)]
pub(crate) struct EdgeEnd {
    /// To the right of the picture's left edge.
    pub(crate) x: i32,
    /// Above the base line.
    pub(crate) y: i32,
}

/// A place in 1/131072 pixel, rounded to 1/8192 pixel; a half goes up.
#[inline(always)]
fn rounded(place: i64) -> i32
    requires { unsigned_abs place + 2 ^ 11 ≤ 2 ^ 34 }
    ensures exact { result ≡ nearest_quotient (pos 64 *ℤ place) (pos 1024) }
    ensures bound { unsigned_abs result < 2 ^ 30 }
{
    ((place + 8) >> 4) as i32
}

/// The rounded end of a chord.
#[inline(always)]
fn edge_end(x: Differences, y: Differences) -> EdgeEnd
    requires x { unsigned_abs x.value + 2 ^ 11 ≤ 2 ^ 34 }
    requires y { unsigned_abs y.value + 2 ^ 11 ≤ 2 ^ 34 }
    ensures exact { result ≡ record {
      x = nearest_quotient (pos 64 *ℤ x.value) (pos 1024);
      y = nearest_quotient (pos 64 *ℤ y.value) (pos 1024);
    } }
    ensures valid { EdgeEndFits result }
{
    EdgeEnd {
        x: rounded(x.value),
        y: rounded(y.value),
    }
}

/// The straight edge from a to b.
#[inline(always)]
pub(crate) fn edge_between(a: EdgeEnd, b: EdgeEnd) -> Edge
    requires a { EdgeEndFits a }
    requires b { EdgeEndFits b }
    ensures exact { result ≡ edge_between a b }
    ensures valid { EdgeFits result }
{
    Edge {
        ax: a.x,
        ay: a.y,
        bx: b.x,
        by: b.y,
    }
}

/// Adds the chords of a quadratic behind the last edge of a contour, with rounded ends. Error: memory ran out.
#[inline(always)]
pub(crate) fn push_rounded(
    list: &mut EdgeList,
    last: &mut Option<Last>,
    curve: Quadratic,
    rule: ChordRule,
    n: u32,
) -> Result<(), AllocError>
    requires curve { QuadraticFits curve }
    requires count { n ≡ chord_count rule curve }
    ensures added { OnOk result (AreAdded rule list.old.edges last.old (chords_by rule curve) list.new.edges last.new) }
{
    let step = 32 / n;
    list.reserve(n as usize)?;
    let mut x = differences_at_start(along_x(curve), step);
    let mut y = differences_at_start(along_y(curve), step);
    let mut from = edge_end(x, y);
    for k in 0..n {
        x = next(x);
        y = next(y);
        let to = edge_end(x, y);
        push_edge(list, last, edge_between(from, to), rule);
        from = to;
    }
    Ok(())
}
