//! The new place of an untouched point between two touched ones, along one axis. Coordinates are in 26.6 pixels.

ghost use Rattle.std.specs.Prelude.{◌≡◌, ◌<◌, ◌≤◌, ◌^◌, ◌+ℤ◌, ◌-ℤ◌, ◌*ℤ◌, ◌<ℤ◌, unsigned_abs, IfOk};
ghost use Rattle.tt_core.specs.Limits.{coordinate_limit};
ghost use Rattle.tt_core.specs.Outcomes.{Gives};
ghost use Rattle.tt_state.specs.declared.point.Point.{Point as IsAPoint};
ghost use Rattle.tt_points_zones.specs.Points.{put as put_to};
ghost use Rattle.tt_points_iup.specs.Interpolation as is;
ghost use Rattle.tt_points_iup.specs.Positions.{AreNeighbours, IsPosition, position_of};

use crate::counted::PlainPoint;
use tt_core::{Halves, Why, quotient};
use tt_points_zones::{Distance, Originals, distance_between, is_coordinate};
use tt_state::Axis;

/// An axis, and the measure of original places along it.
#[derive(Clone, Copy)]
pub(crate) struct Along {
    pub(crate) axis: Axis,
    pub(crate) originals: Originals,
}

/// A point's original and current coordinate on an axis.
#[derive(Clone, Copy)]
pub(crate) struct AxisPosition {
    /// The coordinate that decides order and proportion: font units for a zone in these, otherwise `org`.
    pub(crate) from: i32,
    pub(crate) org: i32,
    pub(crate) cur: i32,
}

/// Two touched points, the one with the lower original first. A part of the range between their originals, times
/// `multiplier` and divided by `divisor`, is its share of the way between their current places.
#[derive(Clone, Copy)]
pub(crate) struct Neighbours {
    along: Along,
    lo: AxisPosition,
    hi: AxisPosition,
    multiplier: i64,
    divisor: i64,
    ghost are: { AreNeighbours along (position_of lo) (position_of hi) multiplier divisor },
}

/// A coordinate on an axis, in 26.6 pixels.
#[derive(Clone, Copy)]
pub(crate) struct PixelCoordinate(pub(crate) i64);

/// The quotient of a way and a range in 16.16.
fn factor(halves: Halves, way: Distance, range: Distance) -> i64
    requires way { unsigned_abs way.0 < 2 ^ 22 }
    requires range { unsigned_abs range.0 < 2 ^ 22 }
    ensures exact { result ≡ is.factor halves way.0 range.0 }
    ensures few { unsigned_abs result < 2 ^ 38 }
{
    if range.0 == 0 {
        return 0;
    }
    quotient(halves, 65536 * way.0, range.0)
}

fn multiplier(originals: Originals, way: Distance, range: Distance) -> i64
    requires way { unsigned_abs way.0 < 2 ^ 22 }
    requires range { unsigned_abs range.0 < 2 ^ 22 }
    ensures exact { result ≡ is.multiplier originals.units originals.halves way.0 range.0 }
    ensures few { unsigned_abs result < 2 ^ 38 }
{
    match originals.units {
        None => way.0,
        Some(_) => factor(originals.halves, way, range),
    }
}

fn divisor(originals: Originals, range: Distance) -> i64
    ensures { result ≡ is.divisor originals.units range.0 }
{
    match originals.units {
        None => range.0,
        Some(_) => 65536,
    }
}

fn ordered(along: Along, lo: AxisPosition, hi: AxisPosition) -> Neighbours
    requires low { IsPosition along.originals (position_of lo) }
    requires high { IsPosition along.originals (position_of hi) }
    ensures along { result.along ≡ along }
    ensures low { result.lo ≡ lo }
    ensures high { result.hi ≡ hi }
{
    let way = distance_between(lo.cur, hi.cur);
    let range = distance_between(lo.from, hi.from);
    Neighbours {
        along,
        lo,
        hi,
        multiplier: multiplier(along.originals, way, range),
        divisor: divisor(along.originals, range),
    }
}

impl Neighbours {
    /// The touched points before and after a run of untouched ones.
    #[tactic(auto, unfolding(crate::specs::Interpolation::interpolated))]
    pub(crate) fn of(along: Along, before: PlainPoint, after: PlainPoint) -> Neighbours
        ensures along { result.along ≡ along }
        ensures exact { (p : IsAPoint) → is.placed_between along (position_of result.lo) (position_of result.hi) p
            ≡ is.interpolated along before.point after.point p }
    {
        let a = before.position(along);
        let b = after.position(along);
        if b.from < a.from {
            ordered(along, b, a)
        } else {
            ordered(along, a, b)
        }
    }
}

fn added(a: i32, b: i64) -> i64
    requires { unsigned_abs b < 2 ^ 61 }
    ensures { result ≡ a +ℤ b }
{
    i64::from(a) + b
}

/// `u`, moved by the move of a touched point.
fn moved_as(u: i32, position: AxisPosition) -> i64
    requires org { unsigned_abs position.org ≤ coordinate_limit }
    requires cur { unsigned_abs position.cur ≤ coordinate_limit }
    ensures { result ≡ u +ℤ (position.cur -ℤ position.org) }
{
    added(u, distance_between(position.org, position.cur).0)
}

fn multiplied(part: Distance, multiplier: i64) -> i64
    requires part { unsigned_abs part.0 < 2 ^ 22 }
    requires multiplier { unsigned_abs multiplier < 2 ^ 38 }
    ensures exact { result ≡ part.0 *ℤ multiplier }
    ensures few { unsigned_abs result < 2 ^ 60 }
{
    part.0 * multiplier
}

fn in_proportion(p: AxisPosition, between: Neighbours) -> i64
    requires point { IsPosition between.along.originals (position_of p) }
    requires order { between.lo.org <ℤ between.hi.org }
    ensures { result ≡ is.in_proportion between.along.originals (position_of p) (position_of between.lo) (position_of between.hi) }
{
    let part = distance_between(between.lo.from, p.from);
    let share = quotient(
        between.along.originals.halves,
        multiplied(part, between.multiplier),
        between.divisor,
    );
    added(between.lo.cur, share)
}

fn following(p: AxisPosition, between: Neighbours) -> PixelCoordinate
    requires { IsPosition between.along.originals (position_of p) }
    ensures { result.0 ≡ is.following between.along.originals (position_of p) (position_of between.lo) (position_of between.hi) }
{
    if p.org <= between.lo.org {
        PixelCoordinate(moved_as(p.org, between.lo))
    } else if p.org >= between.hi.org {
        PixelCoordinate(moved_as(p.org, between.hi))
    } else {
        PixelCoordinate(in_proportion(p, between))
    }
}

/// The coordinate, if it is within the limit. Error: ValueRange.
fn limited(p: PlainPoint, axis: Axis, to: PixelCoordinate) -> Result<PixelCoordinate, Why>
    ensures exact { Gives (λ v. put_to axis v.0 p.point) result (is.limited_point axis (put_to axis to.0 p.point)) }
    ensures within { IfOk result (λ v. unsigned_abs v.0 ≤ coordinate_limit) }
{
    if is_coordinate(to.0) {
        Ok(to)
    } else {
        Err(Why::ValueRange)
    }
}

/// The new coordinate of an untouched point between touched ones. Error: ValueRange.
pub(crate) fn interpolated(p: PlainPoint, between: Neighbours) -> Result<PixelCoordinate, Why>
    ensures exact { Gives (λ v. put_to between.along.axis v.0 p.point) result (is.limited_point between.along.axis
        (is.placed_between between.along (position_of between.lo) (position_of between.hi) p.point)) }
    ensures within { IfOk result (λ v. unsigned_abs v.0 ≤ coordinate_limit) }
{
    limited(
        p,
        between.along.axis,
        following(p.position(between.along), between),
    )
}
