//! Instructions that move a point along the projection vector by a control value. Apple TrueType Reference Manual,
//! "Instruction Set" (MIAP, MIRP). Coordinates are in 26.6 pixels.

ghost use Rattle.std.specs.Prelude.{◌≡◌, ◌<◌, ◌^◌, unsigned_abs, IfErr};
ghost use Rattle.tt_core.specs.Outcomes.{Gives};
ghost use Rattle.tt_points_zones.specs.Views.{zones_view};
ghost use Rattle.tt_points.specs.ControlValues as is;

use crate::distances::{Keeping, cut_in, flipped, rounded_by, single_width, spaced_by};
use crate::moving::{kept, refer};
use crate::pairs::seen;
use crate::twilight::{AlongVector, placed_in};
use crate::unrounded::Unrounded;
use tt_core::Why;
use tt_points_zones::{Distance, Motion, Zones, may_move};
use tt_state::{GraphicsState, Point};

/// The point with both coordinates 0.
const ORIGIN: Point = Point {
    units_x: 0,
    units_y: 0,
    org_x: 0,
    org_y: 0,
    x: 0,
    y: 0,
    touched_x: false,
    touched_y: false,
    on: true,
};

/// MIAP's move of a point with the coordinate `at`.
#[tactic(auto, unfolding(crate::specs::ControlValues::miap_distance))]
fn miap_distance(round: bool, state: &GraphicsState, at: Unrounded, c: Unrounded) -> i64
    ensures exact { result ≡ is.miap_distance round state.now at.distance c.distance }
    ensures bound { unsigned_abs result < 2 ^ 34 }
{
    if round {
        state.round.round(cut_in(state, at, c).distance) - at.distance
    } else {
        c.distance - at.distance
    }
}

/// MIAP[r], 0x3E and 0x3F: p, n -> moves point p of zone pointer 0 to `c`, the control value with number n. A twilight
/// point is placed there first (profile). With `round`, the point's own coordinate replaces a control value further
/// away than the cut-in, and the result is rounded. Reference points 0 and 1 become p. Errors: PointRange,
/// Perpendicular, ValueRange.
#[inline(always)]
#[tactic(auto, unfolding(crate::specs::ControlValues::miap))]
pub fn miap(
    zones: &mut Zones,
    state: &mut GraphicsState,
    round: bool,
    p: i32,
    c: i32,
) -> Result<(), Why>
    ensures exact { Gives (λ u. (zones_view zones.new, state.new)) result
        (is.miap round p c (zones_view zones.old) state.old) }
    ensures kept { IfErr result (λ why. (zones_view zones.new ≡ zones_view zones.old) × (state.new ≡ state.old)) }
{
    let q = zones.point(state.zp0, p)?;
    may_move(state)?;
    let motion = Motion::of(state);
    let c = Unrounded::given(c);
    let q = placed_in(state.zp0, q, &motion, AlongVector::Freedom, c, ORIGIN)?;
    let at = Unrounded {
        distance: i64::from(motion.cur(q)),
    };
    let q = motion.moved(q, miap_distance(round, state, at, c))?;
    zones.set(state.zp0, p, q);
    state.rp0 = p;
    state.rp1 = p;
    Ok(())
}

/// A control value after auto flip and, where MIRP rounds and both points are in one zone, the cut-in. Both go by the
/// original distance `d`.
#[inline(always)]
fn chosen(keeping: Keeping, state: &GraphicsState, d: Unrounded, c: Unrounded) -> Unrounded
    ensures { result.distance ≡ is.chosen keeping state.now d.distance c.distance }
{
    let c = flipped(state, d, c);
    if keeping.round && state.zp0 == state.zp1 {
        cut_in(state, d, c)
    } else {
        c
    }
}

/// The distance that MIRP sets, for the original distance `d` and the control value `c` after the single width.
#[inline(always)]
#[tactic(auto, unfolding(crate::specs::ControlValues::mirp_distance))]
fn mirp_distance(keeping: Keeping, state: &GraphicsState, d: Unrounded, c: Unrounded) -> Distance
    ensures exact { result.0 ≡ is.mirp_distance keeping state.now d.distance c.distance }
    ensures bound { unsigned_abs result.0 < 2 ^ 33 }
{
    let c = rounded_by(keeping, state, chosen(keeping, state, d, c));
    Distance(spaced_by(keeping, state, d.distance, c))
}

/// MIRP[abcde], 0xE0 to 0xFF: p, n -> moves point p of zone pointer 1 to a distance from reference point 0, of zone
/// pointer 0. The distance is `c`, the control value with number n, changed as `keeping` says. A twilight point is
/// placed there first (profile). With rounding, and within one zone, the original distance replaces a control value
/// that differs by more than the cut-in. Reference point 1 becomes reference point 0, and reference point 2 becomes p.
/// Errors: PointRange, Perpendicular, ValueRange.
#[inline(always)]
#[tactic(auto, unfolding(crate::specs::ControlValues::mirp))]
pub fn mirp(
    zones: &mut Zones,
    state: &mut GraphicsState,
    keeping: Keeping,
    p: i32,
    c: i32,
) -> Result<(), Why>
    ensures exact { Gives (λ u. (zones_view zones.new, state.new)) result
        (is.mirp keeping p c (zones_view zones.old) state.old) }
    ensures kept { IfErr result (λ why. (zones_view zones.new ≡ zones_view zones.old) × (state.new ≡ state.old)) }
{
    let q = zones.point(state.zp1, p)?;
    let r = zones.point(state.zp0, state.rp0)?;
    may_move(state)?;
    let motion = Motion::of(state);
    let c = single_width(state, Unrounded::given(c));
    let q = placed_in(state.zp1, q, &motion, AlongVector::Freedom, c, r)?;
    let r = seen(state, state.rp0, r, p, q);
    let original = Unrounded {
        distance: motion.original_distance(r, q).0,
    };
    let d = mirp_distance(keeping, state, original, c);
    zones.set(state.zp1, p, kept(q, &motion, d, r)?);
    refer(state, keeping.set_rp0, p);
    Ok(())
}
