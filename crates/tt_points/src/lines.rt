//! Lines through points: vectors along them, their meeting point, and aligned points. Apple TrueType Reference Manual,
//! "Instruction Set" (SPVTL, SFVTL, SDPVTL, ISECT, ALIGNPTS). Coordinates are in 26.6 pixels.

ghost use Rattle.std.specs.Prelude.{◌≡◌, ◌<◌, ◌≤◌, ◌*◌, ◌^◌, neg_ℤ, unsigned_abs, IfErr};
ghost use Rattle.tt_core.specs.Limits.{coordinate_limit};
ghost use Rattle.tt_core.specs.Outcomes.{Gives};
ghost use Rattle.tt_points_zones.specs.Meeting.{IsPlace};
ghost use Rattle.tt_points_zones.specs.Views.{zones_view};
ghost use Rattle.tt_points_zones.specs.Zones.{IsPoint};
ghost use Rattle.tt_points.specs.Lines as is;

use crate::line_points::LinePoints;
use crate::pairs::seen;
use tt_core::Why;
use tt_points_zones::{Distance, Motion, Place, StraightLine, Zones, may_move, met};
use tt_state::{GraphicsState, Point, Zone};

/// The numbers of two points, between which a line goes or a distance is measured.
#[derive(Clone, Copy)]
pub struct Ends {
    pub from: i32,
    pub to: i32,
}

/// SPVTL[a], 0x06 and 0x07: p2, p1 -> sets the projection and the dual projection vector along a line. The line goes
/// from point p1 of zone pointer 2 to point p2 of zone pointer 1. With `turned`, both vectors are turned a quarter to
/// the left. Error: PointRange.
#[tactic(auto, unfolding(crate::specs::Lines::spvtl))]
pub fn spvtl(zones: &Zones, state: &mut GraphicsState, turned: bool, line: Ends) -> Result<(), Why>
    ensures exact { Gives (λ u. state.new) result
        (is.spvtl turned line.from line.to (zones_view zones.now) state.old) }
    ensures kept { IfErr result (λ why. state.new ≡ state.old) }
{
    let points = LinePoints::of(zones, state, line)?;
    state.proj = points.current(turned);
    state.dual = state.proj;
    Ok(())
}

/// SFVTL[a], 0x08 and 0x09: p2, p1 -> sets the freedom vector along SPVTL's line. With `turned`, the vector is turned a
/// quarter to the left. Error: PointRange.
#[tactic(auto, unfolding(crate::specs::Lines::sfvtl))]
pub fn sfvtl(zones: &Zones, state: &mut GraphicsState, turned: bool, line: Ends) -> Result<(), Why>
    ensures exact { Gives (λ u. state.new) result
        (is.sfvtl turned line.from line.to (zones_view zones.now) state.old) }
    ensures kept { IfErr result (λ why. state.new ≡ state.old) }
{
    let points = LinePoints::of(zones, state, line)?;
    state.free = points.current(turned);
    Ok(())
}

/// SDPVTL[a], 0x86 and 0x87: p2, p1 -> sets the projection vector along SPVTL's line. The dual projection vector goes
/// along the line between the original places of these points. With `turned`, both are turned a quarter to the left.
/// Where one of the lines has no length, its vector alone becomes the x axis (profile). Error: PointRange.
#[tactic(auto, unfolding(crate::specs::Lines::sdpvtl))]
pub fn sdpvtl(zones: &Zones, state: &mut GraphicsState, turned: bool, line: Ends) -> Result<(), Why>
    ensures exact { Gives (λ u. state.new) result
        (is.sdpvtl turned line.from line.to (zones_view zones.now) state.old) }
    ensures kept { IfErr result (λ why. state.new ≡ state.old) }
{
    let points = LinePoints::of(zones, state, line)?;
    state.dual = points.original(turned);
    state.proj = points.current(turned);
    Ok(())
}

/// A point's current place.
fn place_of(q: Point) -> Place
    requires { IsPoint q }
    ensures exact { result ≡ is.place_of q }
    ensures valid { IsPlace result }
{
    Place { x: q.x, y: q.y }
}

/// The line through the current places of two points of a zone. Error: PointRange, of the second point first.
fn line_through(zones: &Zones, zone: Zone, ends: Ends) -> Result<StraightLine, Why>
    ensures { Gives (λ l. (l.from, l.to)) result (is.line_through zone ends (zones_view zones.now)) }
{
    let to = zones.point(zone, ends.to)?;
    let from = zones.point(zone, ends.from)?;
    Ok(StraightLine {
        from: place_of(from),
        to: place_of(to),
    })
}

/// A point moved to a place, and touched along both axes.
fn put_to(q: Point, place: Place) -> Point
    requires q { IsPoint q }
    requires place { IsPlace place }
    ensures exact { result ≡ is.put_to place q }
    ensures valid { IsPoint result }
{
    Point {
        x: place.x,
        y: place.y,
        touched_x: true,
        touched_y: true,
        ..q
    }
}

/// ISECT[], 0x0F: p, a0, a1, b0, b1 -> moves point p of zone pointer 2 to where line a meets line b. The point is
/// touched along both axes, whatever the freedom vector. Line a goes through points a0 and a1 of zone pointer 1, line b
/// through b0 and b1 of zone pointer 0. For parallel or nearly parallel lines (profile), the point goes to the middle
/// of these four. Errors: PointRange of b1, b0, a1, a0, p; ValueRange.
#[tactic(auto, unfolding(crate::specs::Lines::isect))]
pub fn isect(zones: &mut Zones, state: &GraphicsState, p: i32, a: Ends, b: Ends) -> Result<(), Why>
    ensures exact { Gives (λ u. zones_view zones.new) result (is.isect p a b (zones_view zones.old) state.now) }
    ensures kept { IfErr result (λ why. zones_view zones.new ≡ zones_view zones.old) }
{
    let b = line_through(zones, state.zp0, b)?;
    let a = line_through(zones, state.zp1, a)?;
    let q = zones.point(state.zp2, p)?;
    zones.set(state.zp2, p, put_to(q, met(a, b)?));
    Ok(())
}

/// Half a distance, cut toward 0.
fn half(d: Distance) -> Distance
    requires { unsigned_abs d.0 ≤ 4 * coordinate_limit }
    ensures exact { result.0 ≡ is.half d.0 }
    ensures bound { unsigned_abs result.0 < 2 ^ 23 }
{
    Distance(d.0 / 2)
}

fn opposite(d: Distance) -> Distance
    requires { unsigned_abs d.0 < 2 ^ 23 }
    ensures exact { result.0 ≡ neg_ℤ d.0 }
    ensures bound { unsigned_abs result.0 < 2 ^ 23 }
{
    Distance(-d.0)
}

/// ALIGNPTS[], 0x27: p2, p1 -> moves point p1 of zone pointer 1 and point p2 of zone pointer 0 to the middle between
/// them, along the projection vector. Each moves by half the distance, cut toward 0 (profile). Errors: PointRange of
/// p1, of p2; Perpendicular, ValueRange.
#[tactic(auto, unfolding(crate::specs::Lines::alignpts))]
pub fn alignpts(zones: &mut Zones, state: &GraphicsState, p1: i32, p2: i32) -> Result<(), Why>
    ensures exact { Gives (λ u. zones_view zones.new) result (is.alignpts p1 p2 (zones_view zones.old) state.now) }
    ensures kept { IfErr result (λ why. zones_view zones.new ≡ zones_view zones.old) }
{
    let a = zones.point(state.zp1, p1)?;
    let b = zones.point(state.zp0, p2)?;
    may_move(state)?;
    let motion = Motion::of(state);
    let h = half(motion.current_distance(a, b));
    let a = motion.moved(a, h.0)?;
    let b = motion.moved(seen(state, p2, b, p1, a), opposite(h).0)?;
    zones.set(state.zp1, p1, a);
    zones.set(state.zp0, p2, b);
    Ok(())
}
