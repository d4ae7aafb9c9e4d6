//! Points moved one by one: ALIGNRP, IP, SHPIX. Apple TrueType Reference Manual, "Instruction set": managing outlines.
//! Distances are in 26.6 pixels.

ghost use Rattle.std.specs.Prelude.{◌≡◌, ◌^◌, ◌<◌, ◌≤◌, unsigned_abs, IfErr, IfOk, IfSome};
ghost use Rattle.tt_core.specs.Outcomes.{Gives};
ghost use Rattle.tt_core.specs.Scales.{IsScale};
ghost use Rattle.tt_points_loops.specs.Moving as is;
ghost use Rattle.tt_points_zones.specs.Motions as motion;
ghost use Rattle.tt_points_zones.specs.Views.{zones_view};
ghost use Rattle.tt_points_zones.specs.Zones.{IsPoint};

use crate::in_turn::{Change, in_turn};
use tt_core::{Scale, Why, quotient};
use tt_points_zones::{Distance, Motion, Originals, Zones, may_move, product};
use tt_state::{GraphicsState, Point, Tolerance, Zone};

/// The point `p` moved to the current coordinate of `r`, by the vectors of the graphics state. Errors: Perpendicular,
/// ValueRange.
fn aligned(p: Point, r: Point, state: &GraphicsState) -> Result<Point, Why>
    requires p { IsPoint p }
    requires r { IsPoint r }
    ensures exact { Gives (λ q. q) result (is.aligned state.now r p) }
    ensures valid { IfOk result IsPoint }
{
    may_move(state)?;
    let motion = Motion::of(state);
    let now = motion.current_distance(r, p);
    motion.moved(p, 0 - now.0)
}

/// Moves a point of zp1 to the current coordinate of rp0. Errors: PointRange, Perpendicular, ValueRange.
pub(crate) fn align(zones: &mut Zones, state: &GraphicsState, n: i32) -> Result<(), Why>
    ensures exact { Gives (λ u. zones_view zones.new) result (is.align state.now n (zones_view zones.old)) }
    ensures kept { IfErr result (λ why. zones_view zones.new ≡ zones_view zones.old) }
{
    let p = zones.point(state.zp1, n)?;
    let reference = zones.point(state.zp0, state.rp0)?;
    let moved = aligned(p, reference, state)?;
    zones.set(state.zp1, n, moved);
    Ok(())
}

/// ALIGNRP[], 0x3C: loop points of zp1 -> moves each point to the current coordinate of rp0, in zp0. A tolerant machine
/// passes over each missing point, and over all points if rp0 is missing. Errors: PointRange, Perpendicular,
/// ValueRange.
pub fn alignrp(
    zones: &mut Zones,
    state: &mut GraphicsState,
    tolerance: Tolerance,
    numbers: &[i32],
) -> Result<(), Why>
    ensures exact { Gives (λ u. (zones_view zones.new, state.new)) result
        (is.alignrp tolerance numbers.now (zones_view zones.old) state.old) }
{
    in_turn(zones, state, tolerance, Change::Align, numbers)
}

/// The original distance between two points: in font units where the originals have a scale, otherwise in 26.6.
fn unscaled(scale: Option<Scale>, m: &Motion, from: Point, to: Point) -> Distance
    requires from { IsPoint from }
    requires to { IsPoint to }
    ensures exact { result.0 ≡ is.unscaled scale m.now from to }
    ensures few { unsigned_abs result.0 < 2 ^ 23 }
{
    match scale {
        Some(_) => Distance(i64::from(m.units_distance(from, to))),
        None => m.original_distance(from, to),
    }
}

/// The range of IP: both ends, and the measure of original places.
#[derive(Clone, Copy)]
struct Between {
    from: Point,
    to: Point,
    by: Originals,
    ghost from_valid: { IsPoint from },
    ghost to_valid: { IsPoint to },
}

/// The distance from the first end that gives `p` its original share of the way to the second one.
fn interpolated(p: Point, between: Between, m: &Motion) -> Distance
    requires scale { IfSome between.by.units IsScale }
    requires p { IsPoint p }
    ensures exact { result.0 ≡ is.interpolated between.by.halves between.by.units m.now between.from between.to p }
    ensures bound { unsigned_abs result.0 < 2 ^ 46 }
{
    let Between { from, to, by } = between;
    let range = unscaled(by.units, m, from, to);
    if range.0 == 0 {
        return m.distance_by(by.units, from, p);
    }
    let o = unscaled(by.units, m, from, p);
    let now = m.current_distance(from, to);
    Distance(quotient(by.halves, product(o, now), range.0))
}

/// The point moved to its original share of the way, by the vectors of the graphics state. Errors: Perpendicular,
/// ValueRange.
fn kept_between(p: Point, between: Between, state: &GraphicsState) -> Result<Point, Why>
    requires scale { IfSome between.by.units IsScale }
    requires p { IsPoint p }
    ensures exact { Gives (λ q. q) result
        (is.kept_between between.by.halves between.by.units state.now between.from between.to p) }
    ensures valid { IfOk result IsPoint }
{
    may_move(state)?;
    let motion = Motion::of(state);
    let wanted = interpolated(p, between, &motion);
    let now = motion.current_distance(between.from, p);
    motion.moved(p, wanted.0 - now.0)
}

/// The second end of IP's range, rp2 in zp1. A tolerant machine takes the first end, `a`, in place of a missing point.
/// Error: PointRange.
fn other_end(
    zones: &Zones,
    state: &GraphicsState,
    tolerance: Tolerance,
    a: Point,
) -> Result<Point, Why>
    requires a { IsPoint a }
    ensures exact { Gives (λ b. b) result (is.other_end tolerance state.now (zones_view zones.now) a) }
    ensures valid { IfOk result IsPoint }
{
    match zones.point(state.zp1, state.rp2) {
        Err(why) if tolerance.passes_over(why) => Ok(a),
        b => b,
    }
}

/// The measure of the original places among the points of three zones: in 26.6 if one of these is the twilight zone.
fn originals_among(zones: &Zones, state: &GraphicsState) -> Originals
    ensures scale { result.units ≡ is.scale_among state.now (zones_view zones.now) }
    ensures halves { result.halves ≡ zones.now.originals.halves }
    ensures valid { IfSome result.units IsScale }
{
    let units = match state.zp2 {
        Zone::Twilight => None,
        Zone::Glyph => zones.scale_between(state.zp0, state.zp1),
    };
    Originals {
        units,
        halves: zones.originals.halves,
    }
}

/// Moves a point of zp2 to its original share of the way from rp1 to rp2. Errors: PointRange, Perpendicular,
/// ValueRange.
pub(crate) fn interpolate(
    zones: &mut Zones,
    state: &GraphicsState,
    tolerance: Tolerance,
    n: i32,
) -> Result<(), Why>
    ensures exact { Gives (λ u. zones_view zones.new) result
        (is.interpolate tolerance state.now n (zones_view zones.old)) }
    ensures kept { IfErr result (λ why. zones_view zones.new ≡ zones_view zones.old) }
{
    let p = zones.point(state.zp2, n)?;
    let from = zones.point(state.zp0, state.rp1)?;
    let between = Between {
        from,
        to: other_end(zones, state, tolerance, from)?,
        by: originals_among(zones, state),
    };
    let q = kept_between(p, between, state)?;
    zones.set(state.zp2, n, q);
    Ok(())
}

/// IP[], 0x39: loop points of zp2 -> moves each point to its original share of the way from rp1, in zp0, to rp2, in
/// zp1. A tolerant machine uses rp1 in place of a missing rp2. It passes over each missing point, and over all points
/// if rp1 is missing. Errors: PointRange, Perpendicular, ValueRange.
pub fn ip(
    zones: &mut Zones,
    state: &mut GraphicsState,
    tolerance: Tolerance,
    numbers: &[i32],
) -> Result<(), Why>
    ensures exact { Gives (λ u. (zones_view zones.new, state.new)) result
        (is.ip tolerance numbers.now (zones_view zones.old) state.old) }
{
    let change = Change::Interpolate(tolerance);
    in_turn(zones, state, tolerance, change, numbers)
}

/// Moves a point of zp2 along the freedom vector. Errors: PointRange, ValueRange.
pub(crate) fn push(
    zones: &mut Zones,
    state: &GraphicsState,
    by: Distance,
    n: i32,
) -> Result<(), Why>
    requires small { unsigned_abs by.0 ≤ 2 ^ 32 }
    ensures exact { Gives (λ u. zones_view zones.new) result (is.push by.0 state.now n (zones_view zones.old)) }
    ensures kept { IfErr result (λ why. zones_view zones.new ≡ zones_view zones.old) }
{
    let p = zones.point(state.zp2, n)?;
    let q = Motion::of(state).moved_along(p, by.0)?;
    zones.set(state.zp2, n, q);
    Ok(())
}

/// SHPIX[], 0x38: loop points of zp2, amount -> moves each point by the amount along the freedom vector. A tolerant
/// machine passes over each missing point. Errors: PointRange, ValueRange.
pub fn shpix(
    zones: &mut Zones,
    state: &mut GraphicsState,
    tolerance: Tolerance,
    numbers: &[i32],
    amount: i32,
) -> Result<(), Why>
    ensures exact { Gives (λ u. (zones_view zones.new, state.new)) result
        (is.shpix tolerance numbers.now amount (zones_view zones.old) state.old) }
{
    let by = Distance(i64::from(amount));
    in_turn(zones, state, tolerance, Change::Push(by), numbers)
}
