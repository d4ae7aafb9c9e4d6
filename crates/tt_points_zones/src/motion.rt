//! How points are measured and moved along vectors. Apple TrueType Reference Manual, "Graphics State" (projection, dual
//! projection and freedom vector) and "Instructing TrueType Glyphs" (touched points). Coordinates and distances are in
//! 26.6 pixels.

ghost use Rattle.std.specs.Prelude.{◌≡◌, ◌≢◌, ◌*◌, ◌^◌, ◌<◌, ◌≤◌, pos, ◌-ℤ◌, ◌*ℤ◌, unsigned_abs, IfOk, IfSome};
ghost use Rattle.tt_core.specs.Limits.{coordinate_limit};
ghost use Rattle.tt_core.specs.Numbers.{rounded_quotient};
ghost use Rattle.tt_core.specs.Outcomes.{Gives};
ghost use Rattle.tt_core.specs.Scales.{IsScale};
ghost use Rattle.tt_points_zones.specs.Motions as is;
ghost use Rattle.tt_points_zones.specs.Originals as originals;
ghost use Rattle.tt_points_zones.specs.Zones.{IsPoint};
ghost use Rattle.tt_state.specs.Vectors.{pair};

use crate::distances::Distance;
use crate::points::is_coordinate;
use tt_core::{Scale, Why, rq};
use tt_state::{GraphicsState, Point, Steps, Vector, dot, laws};

/// The vectors for measuring and moving points.
#[derive(Clone, Copy)]
pub struct Motion {
    /// The projection vector, for current places.
    pub proj: Vector,
    /// The dual projection vector, for original places.
    pub dual: Vector,
    /// The freedom vector: points move along it.
    pub free: Vector,
}

/// The distance from a coordinate to another.
fn way(from: i32, to: i32) -> i32
    requires from { unsigned_abs from ≤ coordinate_limit }
    requires to { unsigned_abs to ≤ coordinate_limit }
    ensures exact { result ≡ to -ℤ from }
    ensures bound { unsigned_abs result ≤ 2 * coordinate_limit }
{
    to - from
}

/// The coordinate `at + by`, or `at` itself where the freedom vector has no part along its axis. Error: ValueRange past
/// the limit of coordinates.
fn pushed_to(part: i32, by: i64, at: i32) -> Result<i32, Why>
    requires at { unsigned_abs at ≤ coordinate_limit }
    requires small { unsigned_abs by < 2 ^ 62 }
    ensures exact { Gives (λ v. v) result (is.pushed_to part by at) }
    ensures limit { IfOk result (λ v. unsigned_abs v ≤ coordinate_limit) }
{
    if part == 0 {
        return Ok(at);
    }
    let to = i64::from(at) + by;
    if !is_coordinate(to) {
        return Err(Why::ValueRange);
    }
    Ok(to as i32)
}

/// A distance times a part of a unit vector.
fn scaled(d: i64, part: i64) -> i64
    requires d { unsigned_abs d < 2 ^ 47 }
    requires part { unsigned_abs part ≤ 2 ^ 14 }
    ensures exact { result ≡ d *ℤ part }
    ensures bound { unsigned_abs result < 2 ^ 61 }
{
    d * part
}

/// The move along an axis, for a move `d` along the projection vector. `part` is the freedom vector's part along the
/// axis, and `whole` the dot product of both vectors.
fn step(d: i64, part: i32, whole: i32) -> i64
    requires d { unsigned_abs d < 2 ^ 47 }
    requires part { unsigned_abs part ≤ 16384 }
    requires low { 1024 ≤ unsigned_abs whole }
    ensures exact { result ≡ rounded_quotient (d *ℤ part) whole }
    ensures bound { unsigned_abs result < 2 ^ 61 }
{
    rq(scaled(d, i64::from(part)), i64::from(whole))
}

#[inline(always)]
fn is_same(v: &Vector, w: &Vector) -> bool
    ensures { result ≡ is.is_same v.now w.now }
{
    v.x() == w.x() && v.y() == w.y()
}

/// Whether the vectors of `Motion::of` may move points. Without the whole instruction set, the freedom vector has to be
/// the projection vector. Error: Perpendicular (profile).
#[inline(always)]
#[tactic(auto, unfolding(crate::specs::Motions::direction))]
pub fn may_move(state: &GraphicsState) -> Result<(), Why>
    ensures { Gives (λ u. is.vectors_of state.now) result (is.direction state.now) }
{
    if state.whole || is_same(&state.proj, &state.free) {
        Ok(())
    } else {
        Err(Why::Perpendicular)
    }
}

impl Motion {
    /// The vectors of a graphics state.
    pub fn of(state: &GraphicsState) -> Motion
        ensures { result ≡ is.vectors_of state.now }
    {
        Motion {
            proj: state.proj,
            dual: state.dual,
            free: state.free,
        }
    }

    /// A point's current coordinate, along the projection vector.
    pub fn cur(&self, p: Point) -> i32
        requires { IsPoint p }
        ensures exact { result ≡ is.cur self.now p }
        ensures bound { unsigned_abs result ≤ 2 * coordinate_limit }
    {
        self.proj.project(p.x, p.y) as i32
    }

    /// A point's original coordinate, along the dual projection vector.
    pub fn org(&self, p: Point) -> i32
        requires { IsPoint p }
        ensures exact { result ≡ is.org self.now p }
        ensures bound { unsigned_abs result ≤ 2 * coordinate_limit }
    {
        self.dual.project(p.org_x, p.org_y) as i32
    }

    /// The current distance between two points, along the projection vector.
    pub fn current_distance(&self, from: Point, to: Point) -> Distance
        requires from { IsPoint from }
        requires to { IsPoint to }
        ensures exact { result.0 ≡ is.current_distance self.now from to }
        ensures few { unsigned_abs result.0 ≤ 4 * coordinate_limit }
    {
        Distance(self.proj.project(way(from.x, to.x), way(from.y, to.y)))
    }

    /// The original distance between two points, along the dual projection vector.
    pub fn original_distance(&self, from: Point, to: Point) -> Distance
        requires from { IsPoint from }
        requires to { IsPoint to }
        ensures exact { result.0 ≡ is.original_distance self.now from to }
        ensures few { unsigned_abs result.0 ≤ 4 * coordinate_limit }
    {
        Distance(
            self.dual
                .project(way(from.org_x, to.org_x), way(from.org_y, to.org_y)),
        )
    }

    /// The original distance between two points in font units.
    pub fn units_distance(&self, from: Point, to: Point) -> i32
        requires from { IsPoint from }
        requires to { IsPoint to }
        ensures exact { result ≡ originals.units_distance self.now from to }
        ensures few { unsigned_abs result ≤ 2 ^ 19 }
    {
        let x = way(from.units_x, to.units_x);
        let y = way(from.units_y, to.units_y);
        self.dual.project(x, y) as i32
    }

    /// The original distance between two points. With a scale, it is measured in font units and then scaled.
    pub fn distance_by(&self, scale: Option<Scale>, from: Point, to: Point) -> Distance
        requires scale { IfSome scale IsScale }
        requires from { IsPoint from }
        requires to { IsPoint to }
        ensures exact { result.0 ≡ originals.distance_by scale self.now from to }
        ensures few { unsigned_abs result.0 < 2 ^ 30 }
    {
        match scale {
            Some(scale) => Distance(scale.scaled(self.units_distance(from, to))),
            None => self.original_distance(from, to),
        }
    }

    /// The distance of a point from its original place. The projection vector measures both places.
    pub fn offset(&self, p: Point) -> i64
        requires { IsPoint p }
        ensures exact { result ≡ is.offset self.now p }
        ensures few { unsigned_abs result ≤ 4 * coordinate_limit }
    {
        self.proj.project(way(p.org_x, p.x), way(p.org_y, p.y))
    }

    /// The point moved by `by` along x and y, on axes where the freedom vector has a part. Its touches are unchanged.
    /// Error: ValueRange past the limit of coordinates.
    fn put_further(&self, p: Point, by: Steps) -> Result<Point, Why>
        requires { IsPoint p }
        ensures exact { Gives (λ q. q) result (is.put_further self.now.free (pair by.x by.y) p) }
        ensures valid { IfOk result IsPoint }
    {
        Ok(Point {
            x: pushed_to(self.free.x(), by.x, p.x)?,
            y: pushed_to(self.free.y(), by.y, p.y)?,
            ..p
        })
    }

    /// The point touched, or untouched, on each axis where the freedom vector has a part.
    pub fn marked(&self, p: Point, touched: bool) -> Point
        requires { IsPoint p }
        ensures exact { result ≡ is.marked self.now.free touched p }
        ensures valid { IsPoint result }
    {
        let (x, y) = (self.free.x(), self.free.y());
        Point {
            touched_x: if x == 0 { p.touched_x } else { touched },
            touched_y: if y == 0 { p.touched_y } else { touched },
            ..p
        }
    }

    /// The move along x and y, for a move `d` along the projection vector.
    fn steps(&self, d: i64) -> Steps
        requires { unsigned_abs d < 2 ^ 47 }
        ensures { pair result.x result.y ≡ is.steps self.now d }
    {
        laws::on_axes();
        match (self.proj, self.free) {
            (Vector::X, Vector::X) => return Steps { x: d, y: 0 },
            (Vector::Y, Vector::Y) => return Steps { x: 0, y: d },
            _ => {}
        }
        let whole = dot(self.proj, self.free);
        Steps {
            x: step(d, self.free.x(), whole),
            y: step(d, self.free.y(), whole),
        }
    }

    /// The point moved along the freedom vector, by `d` along the projection vector. Its touches are unchanged. Error:
    /// ValueRange past the limit of coordinates.
    #[inline(always)]
    pub fn shifted(&self, p: Point, d: i64) -> Result<Point, Why>
        requires point { IsPoint p }
        requires small { unsigned_abs d < 2 ^ 47 }
        ensures exact { Gives (λ q. q) result (is.shifted self.now d p) }
        ensures valid { IfOk result IsPoint }
    {
        self.put_further(p, self.steps(d))
    }

    /// The point moved by `d` along the freedom vector itself, whatever the projection vector. Its touches are
    /// unchanged. Error: ValueRange past the limit of coordinates.
    pub fn shifted_along(&self, p: Point, d: i64) -> Result<Point, Why>
        requires point { IsPoint p }
        requires small { unsigned_abs d ≤ 2 ^ 32 }
        ensures exact { Gives (λ q. q) result (is.shifted_along self.now.free d p) }
        ensures valid { IfOk result IsPoint }
    {
        self.put_further(p, self.free.along(d))
    }

    /// The point moved along the freedom vector, by `d` along the projection vector, and touched. Error: ValueRange
    /// past the limit of coordinates.
    #[inline(always)]
    pub fn moved(&self, p: Point, d: i64) -> Result<Point, Why>
        requires point { IsPoint p }
        requires small { unsigned_abs d < 2 ^ 47 }
        ensures exact { Gives (λ q. q) result (is.moved self.now d p) }
        ensures valid { IfOk result IsPoint }
    {
        Ok(self.marked(self.shifted(p, d)?, true))
    }

    /// The point moved by `d` along the freedom vector itself, whatever the projection vector, and touched. Error:
    /// ValueRange past the limit of coordinates.
    pub fn moved_along(&self, p: Point, d: i64) -> Result<Point, Why>
        requires point { IsPoint p }
        requires small { unsigned_abs d ≤ 2 ^ 32 }
        ensures exact { Gives (λ q. q) result (is.moved_along self.now.free d p) }
        ensures valid { IfOk result IsPoint }
    {
        Ok(self.marked(self.shifted_along(p, d)?, true))
    }
}
