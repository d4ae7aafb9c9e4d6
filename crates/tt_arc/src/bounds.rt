//! The box of an outline's points.

ghost use Rattle.std.specs.Prelude.{◌≡◌, ◌^◌, ◌<◌, All, map, unsigned_abs};
ghost use Rattle.tt_scan_gaps.specs.Boxes.{ExtentFits, ExtentsFit};
ghost use Rattle.tt_arc.specs.Bounds.{box_at, box_of, box_with, extent_with, points_box};
ghost use Rattle.tt_arc.specs.Chords.{EdgeEndFits, IsNear, edge_end_of, moved};

use crate::contour::edge_end_of;
use crate::point::{Offset, moved};
use crate::quadratic::EdgeEnd;
use tt_fit_outline::Outline;
use tt_scan_gaps::{Extent, Extents};

/// The place of a point of an outline, moved to the glyph's position.
#[inline(always)]
fn place_of(point: (i32, i32, bool), by: Offset) -> EdgeEnd
    requires { IsNear by.dx by.dy point }
    ensures exact { result ≡ edge_end_of (moved by.dx by.dy point) }
    ensures valid { EdgeEndFits result }
{
    edge_end_of(moved(point, by))
}

/// The box of a place.
fn box_at(place: EdgeEnd) -> Extents
    requires { EdgeEndFits place }
    ensures exact { result ≡ box_at place }
    ensures fits { ExtentsFit result }
{
    let x = place.x as i32;
    let y = place.y as i32;
    Extents {
        across: Extent { low: x, high: x },
        up: Extent { low: y, high: y },
    }
}

/// An extent with one more place along its axis.
#[inline(always)]
fn extent_with(v: i32, extent: Extent) -> Extent
    requires place { unsigned_abs v < 2 ^ 30 }
    requires extent { ExtentFits extent }
    ensures exact { result ≡ extent_with v extent }
    ensures fits { ExtentFits result }
{
    Extent {
        low: extent.low.min(v),
        high: extent.high.max(v),
    }
}

/// A box with one more place.
#[inline(always)]
fn box_with(place: EdgeEnd, extents: Extents) -> Extents
    requires place { EdgeEndFits place }
    requires extents { ExtentsFit extents }
    ensures exact { result ≡ box_with place extents }
    ensures fits { ExtentsFit result }
{
    Extents {
        across: extent_with(place.x as i32, extents.across),
        up: extent_with(place.y as i32, extents.up),
    }
}

/// The box of some points, moved to the glyph's position. Without points, that of a place at 0.
fn box_of(points: &[(i32, i32, bool)], by: Offset) -> Extents
    requires { All (IsNear by.dx by.dy) points.now }
    ensures exact { result ≡ box_of (map (moved by.dx by.dy) points.now) }
    ensures fits { ExtentsFit result }
{
    if points.is_empty() {
        return box_at(EdgeEnd { x: 0, y: 0 });
    }
    let first = place_of(points[0], by);
    let mut extents = box_at(first);
    for i in 1..points.len() {
        let place = place_of(points[i], by);
        extents = box_with(place, extents);
    }
    extents
}

/// The box of all points of an outline moved by `dx` and `dy` (in 26.6), on the curve and off it, in 1/8192 pixel.
/// Phantom points do not count.
pub fn points_box(outline: &Outline, dx: i64, dy: i64) -> Extents
    requires { All (IsNear dx dy) outline.now.points.items }
    ensures exact { result ≡ points_box outline.now.points.items dx dy }
    ensures fits { ExtentsFit result }
{
    box_of(&outline.points, Offset { dx, dy })
}
