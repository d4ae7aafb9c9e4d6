//! Coordinates read and set, distances measured, and a touch removed. Apple TrueType Reference Manual, "Instruction
//! Set" (GC, SCFS, MD, UTP). Coordinates are in 26.6 pixels.

ghost use Rattle.std.specs.Prelude.{◌≡◌, ◌-ℤ◌, ◌<◌, ◌^◌, unsigned_abs, IfErr};
ghost use Rattle.tt_core.specs.Outcomes.{Gives};
ghost use Rattle.tt_points_zones.specs.Motions as motion;
ghost use Rattle.tt_points_zones.specs.Views.{zones_view};
ghost use Rattle.tt_points_zones.specs.Zones.{IsPoint};
ghost use Rattle.tt_points.specs.Measuring as is;

use crate::lines::Ends;
use crate::twilight::settled_in;
use tt_core::Why;
use tt_points_zones::{Distance, Motion, Zones, may_move};
use tt_state::{GraphicsState, Point};

/// The place of a point that GC or MD measures.
#[derive(Clone, Copy)]
pub enum Position {
    /// The current place, along the projection vector.
    Current,
    /// The place before the program, along the dual projection vector.
    Original,
}

/// GC[a], 0x46 and 0x47: p -> c, the coordinate of point p of zone pointer 2. Error: PointRange.
#[tactic(auto, unfolding(crate::specs::Measuring::gc))]
pub fn gc(zones: &Zones, state: &GraphicsState, of: Position, p: i32) -> Result<i32, Why>
    ensures { Gives (λ c. c) result (is.gc of p (zones_view zones.now) state.now) }
{
    let q = zones.point(state.zp2, p)?;
    let motion = Motion::of(state);
    match of {
        Position::Current => Ok(motion.cur(q)),
        Position::Original => Ok(motion.org(q)),
    }
}

/// A distance as a value for the stack.
fn stack_value(d: Distance) -> i32
    requires { unsigned_abs d.0 < 2 ^ 31 }
    ensures { result ≡ d.0 }
{
    d.0 as i32
}

/// MD[a], 0x49 and 0x4A: p2, p1 -> d, the distance from point p1 of zone pointer 1 to point p2 of zone pointer 0. The
/// ends go from p1 to p2. Error: PointRange.
#[tactic(auto, unfolding(crate::specs::Measuring::md))]
pub fn md(zones: &Zones, state: &GraphicsState, between: Position, ends: Ends) -> Result<i32, Why>
    ensures { Gives (λ d. d) result (is.md between ends.to ends.from (zones_view zones.now) state.now) }
{
    let a = zones.point(state.zp1, ends.from)?;
    let b = zones.point(state.zp0, ends.to)?;
    let motion = Motion::of(state);
    match between {
        Position::Current => Ok(stack_value(motion.current_distance(a, b))),
        Position::Original => {
            let scale = zones.scale_between(state.zp1, state.zp0);
            Ok(stack_value(motion.distance_by(scale, a, b)))
        }
    }
}

/// The distance from a point's coordinate to `v`.
fn short_of(v: i32, q: Point, m: &Motion) -> i64
    requires { IsPoint q }
    ensures exact { result ≡ v -ℤ motion.cur m.now q }
    ensures bound { unsigned_abs result < 2 ^ 33 }
{
    i64::from(v) - i64::from(m.cur(q))
}

/// SCFS[], 0x48: p, v -> moves point p of zone pointer 2 to the coordinate v. For a twilight point the new place is the
/// original place too (profile). Errors: PointRange, Perpendicular, ValueRange.
#[tactic(auto, unfolding(crate::specs::Measuring::scfs))]
pub fn scfs(zones: &mut Zones, state: &GraphicsState, p: i32, v: i32) -> Result<(), Why>
    ensures exact { Gives (λ u. zones_view zones.new) result (is.scfs p v (zones_view zones.old) state.now) }
    ensures kept { IfErr result (λ why. zones_view zones.new ≡ zones_view zones.old) }
{
    let q = zones.point(state.zp2, p)?;
    may_move(state)?;
    let motion = Motion::of(state);
    let q = motion.moved(q, short_of(v, q, &motion))?;
    zones.set(state.zp2, p, settled_in(state.zp2, q));
    Ok(())
}

/// UTP[], 0x29: p -> makes point p of zone pointer 0 untouched along the freedom vector. Error: PointRange.
#[tactic(auto, unfolding(crate::specs::Measuring::utp))]
pub fn utp(zones: &mut Zones, state: &GraphicsState, p: i32) -> Result<(), Why>
    ensures exact { Gives (λ u. zones_view zones.new) result (is.utp p (zones_view zones.old) state.now) }
    ensures kept { IfErr result (λ why. zones_view zones.new ≡ zones_view zones.old) }
{
    let q = zones.point(state.zp0, p)?;
    zones.set(state.zp0, p, Motion::of(state).marked(q, false));
    Ok(())
}
