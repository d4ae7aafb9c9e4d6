//! The meeting point of two lines. Apple TrueType Reference Manual, "Instruction Set" (ISECT). Coordinates are in 26.6
//! pixels.

ghost use Rattle.std.specs.Prelude.{◌≡◌, ◌≢◌, ◌<◌, ◌≤◌, ◌^◌, pos, ◌+ℤ◌, ◌*ℤ◌, ◌<ℤ◌, unsigned_abs, IfOk};
ghost use Rattle.std.specs.Bool.{OnFalse};
ghost use Rattle.tt_core.specs.Limits.{coordinate_limit};
ghost use Rattle.tt_core.specs.Numbers.{nearest_quotient, rounded_quotient};
ghost use Rattle.tt_core.specs.Outcomes.{Gives};
ghost use Rattle.tt_points_zones.specs.Meeting as is;
ghost use Rattle.tt_points_zones.specs.Meeting.{IsPlace, far_view, way_view};

use crate::distances::{Distance, distance_between, product};
use crate::straight_line::StraightLine;
use crate::way::{Fraction, Way};
use tt_core::{COORDINATE_LIMIT, Why};

/// A place in 26.6 pixels.
#[derive(Clone, Copy)]
pub struct Place {
    pub x: i32,
    pub y: i32,
}

/// A place that may be past the limit of coordinates.
#[derive(Clone, Copy)]
struct FarPlace {
    x: i128,
    y: i128,
}

fn way_between(from: Place, to: Place) -> Way
    requires from { IsPlace from }
    requires to { IsPlace to }
    ensures { way_view result ≡ is.way_between from to }
{
    Way {
        x: distance_between(from.x, to.x),
        y: distance_between(from.y, to.y),
    }
}

#[tactic(auto, unfolding(crate::specs::Meeting::cross))]
fn cross(a: Way, b: Way) -> i64
    ensures exact { result ≡ is.cross (way_view a) (way_view b) }
    ensures few { unsigned_abs result < 2 ^ 47 }
{
    product(a.x, b.y) - product(a.y, b.x)
}

#[tactic(auto, unfolding(crate::specs::Meeting::dot))]
fn dot(a: Way, b: Way) -> i64
    ensures exact { result ≡ is.dot (way_view a) (way_view b) }
    ensures few { unsigned_abs result < 2 ^ 47 }
{
    product(a.x, b.x) + product(a.y, b.y)
}

/// Whether two ways are parallel, or nearly so: the tangent of their angle is at most 1 / 19 (profile). A way of length
/// 0 is parallel to every way.
#[tactic(auto, unfolding(crate::specs::Meeting::are_parallel))]
fn are_parallel(a: Way, b: Way) -> bool
    ensures exact { result ≡ is.are_parallel (way_view a) (way_view b) }
    ensures crossing { OnFalse result (is.cross (way_view a) (way_view b) ≢ pos 0) }
{
    19 * cross(a, b).unsigned_abs() <= dot(a, b).unsigned_abs()
}

/// `n * d`, which may exceed 64 bits.
fn long_product(n: i64, d: Distance) -> i128
    requires n { unsigned_abs n < 2 ^ 47 }
    requires d { unsigned_abs d.0 < 2 ^ 22 }
    ensures exact { result ≡ n *ℤ d.0 }
    ensures few { unsigned_abs result < 2 ^ 69 }
{
    i128::from(n) * i128::from(d.0)
}

fn long_nearest(n: i128, d: i128) -> i128
    requires numerator { unsigned_abs n < 2 ^ 69 }
    requires denominator { unsigned_abs d < 2 ^ 47 }
    requires positive { pos 0 <ℤ d }
    ensures exact { result ≡ nearest_quotient n d }
    ensures few { unsigned_abs result ≤ unsigned_abs n }
{
    (2 * n + d).div_euclid(2 * d)
}

/// `n / d` rounded to the nearest whole number, a half upwards. It may exceed 64 bits.
fn long_rq(n: i128, d: i128) -> i128
    requires numerator { unsigned_abs n < 2 ^ 69 }
    requires denominator { unsigned_abs d < 2 ^ 47 }
    requires nonzero { d ≢ pos 0 }
    ensures exact { result ≡ rounded_quotient n d }
    ensures few { unsigned_abs result ≤ unsigned_abs n }
{
    if d < 0 {
        long_nearest(-n, -d)
    } else {
        long_nearest(n, d)
    }
}

/// A fraction of a way's length along an axis.
fn part_of(way: Distance, part: Fraction) -> i128
    requires { unsigned_abs way.0 < 2 ^ 22 }
    ensures exact { result ≡ rounded_quotient (part.n *ℤ way.0) part.d }
    ensures few { unsigned_abs result < 2 ^ 69 }
{
    long_rq(long_product(part.n, way), i128::from(part.d))
}

/// `from + by`.
fn further(from: i32, by: i128) -> i128
    requires { unsigned_abs by < 2 ^ 69 }
    ensures { result ≡ from +ℤ by }
{
    i128::from(from) + by
}

/// The place at a fraction of a way from `from`.
fn gone(from: Place, way: Way, part: Fraction) -> FarPlace
    ensures { far_view result ≡ is.gone from (way_view way) part.n part.d }
{
    FarPlace {
        x: further(from.x, part_of(way.x, part)),
        y: further(from.y, part_of(way.y, part)),
    }
}

/// A quarter of the sum of four coordinates, cut toward 0.
fn quarter(a: i32, b: i32, c: i32, d: i32) -> i32
    requires a { unsigned_abs a ≤ coordinate_limit }
    requires b { unsigned_abs b ≤ coordinate_limit }
    requires c { unsigned_abs c ≤ coordinate_limit }
    requires d { unsigned_abs d ≤ coordinate_limit }
    ensures { result ≡ is.quarter a b c d }
{
    (a + b + c + d) / 4
}

/// The middle of the four places of two lines.
#[tactic(auto, unfolding(crate::specs::Meeting::middle))]
fn middle(a: StraightLine, b: StraightLine) -> FarPlace
    ensures { far_view result ≡ is.middle a.from a.to b.from b.to }
{
    FarPlace {
        x: i128::from(quarter(a.from.x, a.to.x, b.from.x, b.to.x)),
        y: i128::from(quarter(a.from.y, a.to.y, b.from.y, b.to.y)),
    }
}

/// The meeting point of two lines, which may be past the limit of coordinates.
#[tactic(auto, unfolding(crate::specs::Meeting::meeting, crate::specs::Meeting::crossing))]
fn far_meeting(a: StraightLine, b: StraightLine) -> FarPlace
    ensures { far_view result ≡ is.meeting a.from a.to b.from b.to }
{
    let way = way_between(a.from, a.to);
    let other = way_between(b.from, b.to);
    if are_parallel(way, other) {
        return middle(a, b);
    }
    let part = Fraction {
        n: cross(way_between(a.from, b.from), other),
        d: cross(way, other),
    };
    gone(a.from, way, part)
}

/// A coordinate within the limit. Error: ValueRange.
fn limited(v: i128) -> Result<i32, Why>
    ensures exact { Gives (λ w. w) result (is.limited v) }
    ensures bound { IfOk result (λ w. unsigned_abs w ≤ coordinate_limit) }
{
    let limit = i128::from(COORDINATE_LIMIT);
    if v < -limit || limit < v {
        return Err(Why::ValueRange);
    }
    Ok(v as i32)
}

/// The meeting point of two lines, or the middle of their four places for lines that are parallel or nearly so. Error:
/// ValueRange past the limit of coordinates.
#[tactic(auto, unfolding(crate::specs::Meeting::met))]
pub fn met(a: StraightLine, b: StraightLine) -> Result<Place, Why>
    ensures exact { Gives (λ p. p) result (is.met a.from a.to b.from b.to) }
    ensures valid { IfOk result IsPlace }
{
    let place = far_meeting(a, b);
    Ok(Place {
        x: limited(place.x)?,
        y: limited(place.y)?,
    })
}
