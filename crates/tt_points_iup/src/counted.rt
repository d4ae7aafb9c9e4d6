//! The points of a contour along an axis, for their interpolation. Only `Contour::is_touched` reads a touch, and it
//! counts the read. No point with its touches leaves this module, nor a slice of such points.

ghost use Rattle.std.specs.Prelude.{◌≡◌, ◌+◌, ◌*◌, ◌^◌, ◌<◌, ◌≤◌, length, get_or, slice_set, None, All, IfOk, unsigned_abs};
ghost use Rattle.tt_core.specs.Limits.{coordinate_limit};
ghost use Rattle.tt_core.specs.Outcomes.{Gives};
ghost use Rattle.tt_state.specs.declared.point.Point.{Point as IsAPoint};
ghost use Rattle.tt_points_zones.specs.Points.{is_touched as touched, org as org_of, put as put_to};
ghost use Rattle.tt_points_zones.specs.Zones.{IsPoint, AreContours};
ghost use Rattle.tt_points_iup.specs.Interpolation as is;
ghost use Rattle.tt_points_iup.specs.Readings.{of_contour, of_contours};

use crate::contour::interpolate_contour;
use crate::place::{Along, AxisPosition, PixelCoordinate};
use tt_core::Why;
use tt_points_zones::{cur, is_touched, org};
use tt_state::{Axis, Point};

/// The points of a contour along an axis, and the count of touches read.
#[derive(Drop)]
pub(crate) struct Contour<'a> {
    points: &'a mut [Point],
    along: Along,
    reads: u64,
    pub(crate) ghost valid: { All IsPoint points.now },
}

/// A point whose touches can't be read.
#[derive(Clone, Copy)]
pub(crate) struct PlainPoint {
    point: Point,
    pub(crate) ghost valid: { IsPoint point },
}

/// A point's original coordinate on an axis in font units.
fn units(p: Point, axis: Axis) -> i32
    requires { IsPoint p }
    ensures exact { result ≡ is.units axis p }
    ensures bound { unsigned_abs result ≤ coordinate_limit }
{
    match axis {
        Axis::X => p.units_x,
        Axis::Y => p.units_y,
    }
}

/// A point's original coordinate: in font units for a zone in these, otherwise in 26.6.
fn measured(p: Point, along: Along) -> i32
    requires { IsPoint p }
    ensures exact { result ≡ is.measured along.originals.units along.axis p }
    ensures bound { unsigned_abs result ≤ coordinate_limit }
    ensures in_pixels { along.originals.units ≡ None → result ≡ org_of along.axis p }
{
    match along.originals.units {
        None => org(p, along.axis),
        Some(_) => units(p, along.axis),
    }
}

impl PlainPoint {
    ghost use Rattle.tt_points_iup.specs.Positions.{IsPosition, position_of};

    /// The point's original and current coordinate.
    pub(crate) fn position(self, along: Along) -> AxisPosition
        ensures exact { position_of result ≡ is.position_at along self.point }
        ensures valid { IsPosition along.originals (position_of result) }
    {
        AxisPosition {
            from: measured(self.point, along),
            org: org(self.point, along.axis),
            cur: cur(self.point, along.axis),
        }
    }
}

impl Contour<'_> {
    pub(crate) fn along(&self) -> Along
        ensures { result ≡ self.now.along }
    {
        self.along
    }

    /// The count of points.
    pub(crate) fn len(&self) -> usize
        ensures { result ≡ length self.now.points.now }
    {
        self.points.len()
    }

    /// Whether point `i` is touched along the axis. Counts one read.
    pub(crate) fn is_touched(&mut self, i: usize) -> bool
        requires there { i < length self.old.points.now }
        requires room { self.old.reads + 1 < 2 ^ 64 }
        ensures exact { (d : IsAPoint) → result ≡ touched self.old.along.axis (get_or self.old.points.now i d) }
        ensures count { self.new.reads ≡ self.old.reads + 1 }
        ensures along { self.new.along ≡ self.old.along }
        ensures unchanged { self.new.points.now ≡ self.old.points.now }
        ensures same_reference { self.new.points.ghost_name ≡ self.old.points.ghost_name }
    {
        self.reads += 1;
        is_touched(self.points[i], self.along.axis)
    }

    /// Point `i`, without its touches.
    pub(crate) fn at(&self, i: usize) -> PlainPoint
        requires { i < length self.now.points.now }
        ensures { (d : IsAPoint) → result.point ≡ get_or self.now.points.now i d }
    {
        PlainPoint {
            point: self.points[i],
        }
    }

    /// Moves point `i` to a coordinate. Its touches are unchanged.
    pub(crate) fn put(&mut self, i: usize, to: PixelCoordinate)
        requires there { i < length self.old.points.now }
        requires limit { unsigned_abs to.0 ≤ coordinate_limit }
        ensures exact { (d : IsAPoint) → self.new.points.now
            ≡ slice_set self.old.points.now i (put_to self.old.along.axis to.0 (get_or self.old.points.now i d)) }
        ensures count { self.new.reads ≡ self.old.reads }
        ensures along { self.new.along ≡ self.old.along }
        ensures same_reference { self.new.points.ghost_name ≡ self.old.points.ghost_name }
    {
        match self.along.axis {
            Axis::X => self.points[i].x = to.0 as i32,
            Axis::Y => self.points[i].y = to.0 as i32,
        }
    }
}

/// Interpolates the points of one contour. Returns the count of touches read. Error: ValueRange.
fn one_contour(points: &mut [Point], along: Along) -> Result<u64, Why>
    requires points { All IsPoint points.old }
    requires room { 3 * length points.old < 2 ^ 64 }
    ensures exact { Gives (λ n. points.new) result (is.limited along.axis (is.contour along points.old)) }
    ensures count { IfOk result (λ n. n ≡ of_contour along.axis points.old) }
    ensures few { IfOk result (λ n. n ≤ 3 * length points.old) }
    ensures valid { All IsPoint points.new }
{
    let mut contour = Contour {
        points,
        along,
        reads: 0,
    };
    interpolate_contour(&mut contour)?;
    Ok(contour.reads)
}

/// Interpolates the points of each contour by itself. Returns the count of touches read. Error: ValueRange.
pub(crate) fn each_contour(
    points: &mut [Point],
    contours: &[(u32, u32)],
    along: Along,
) -> Result<u64, Why>
    requires ranges { AreContours 0 contours.now (length points.old) }
    requires points { All IsPoint points.old }
    requires room { 3 * length points.old < 2 ^ 64 }
    ensures exact { Gives (λ n. points.new) result
        (is.limited along.axis (is.contours along 0 contours.now points.old)) }
    ensures count { IfOk result (λ n. n ≡ of_contours along.axis contours.now points.old) }
    ensures few { IfOk result (λ n. n ≤ 3 * length points.old) }
    ensures valid { All IsPoint points.new }
{
    let mut reads = 0;
    let mut start = 0;
    for range in contours {
        let past = range.1 as usize;
        reads += one_contour(&mut points[start..past], along)?;
        start = past;
    }
    Ok(reads)
}
