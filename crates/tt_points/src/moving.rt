//! Instructions that move a point along the projection vector without a control value. Apple TrueType Reference Manual,
//! "Instruction Set" (MDAP, MSIRP, MDRP). Coordinates are in 26.6 pixels.

ghost use Rattle.std.specs.Prelude.{◌≡◌, ◌-ℤ◌, ◌<◌, ◌^◌, unsigned_abs, IfOk, IfErr};
ghost use Rattle.tt_core.specs.Outcomes.{Gives};
ghost use Rattle.tt_points_zones.specs.Motions as motion;
ghost use Rattle.tt_points_zones.specs.Views.{zones_view};
ghost use Rattle.tt_points_zones.specs.Zones.{IsPoint};
ghost use Rattle.tt_points.specs.Moving as is;

use crate::distances::{Keeping, rounded_by, single_width, spaced_by};
use crate::pairs::seen;
use crate::twilight::{AlongVector, placed_in};
use crate::unrounded::Unrounded;
use tt_core::Why;
use tt_points_zones::{Distance, Motion, Zones, may_move};
use tt_state::{GraphicsState, Point};

/// The difference between `d` and the current distance from `r` to `q`.
fn short_of(d: Distance, q: Point, r: Point, m: &Motion) -> i64
    requires q { IsPoint q }
    requires r { IsPoint r }
    requires small { unsigned_abs d.0 < 2 ^ 33 }
    ensures exact { result ≡ d.0 -ℤ motion.current_distance m.now r q }
    ensures bound { unsigned_abs result < 2 ^ 34 }
{
    d.0 - m.current_distance(r, q).0
}

/// The point `q`, moved so that its distance from `r` is `d`. Error: ValueRange.
#[tactic(auto, unfolding(crate::specs::Moving::kept))]
pub(crate) fn kept(q: Point, m: &Motion, d: Distance, r: Point) -> Result<Point, Why>
    requires q { IsPoint q }
    requires r { IsPoint r }
    requires small { unsigned_abs d.0 < 2 ^ 33 }
    ensures exact { Gives (λ p. p) result (is.kept m.now d.0 q r) }
    ensures valid { IfOk result IsPoint }
{
    m.moved(q, short_of(d, q, r, m))
}

/// Sets the reference points after MSIRP, MDRP or MIRP: 1 to the old 0, 2 to p, and with `rp0` also 0 to p.
pub fn refer(state: &mut GraphicsState, rp0: bool, p: i32)
    ensures { state.new ≡ is.referred rp0 p state.old }
{
    state.rp1 = state.rp0;
    state.rp2 = p;
    if rp0 {
        state.rp0 = p;
    }
}

/// MDAP's move of a point with the coordinate `at`: to its rounded coordinate with `round`, otherwise 0.
#[tactic(auto, unfolding(crate::specs::Moving::mdap_distance))]
fn mdap_distance(round: bool, state: &GraphicsState, at: Unrounded) -> i64
    ensures exact { result ≡ is.mdap_distance round state.now at.distance }
    ensures bound { unsigned_abs result < 2 ^ 34 }
{
    if round {
        state.round.round(at.distance) - at.distance
    } else {
        0
    }
}

/// MDAP[r], 0x2E and 0x2F: p -> touches point p of zone pointer 0. With `round`, the point first moves to its rounded
/// coordinate. Reference points 0 and 1 become p. Errors: PointRange, Perpendicular, ValueRange.
#[tactic(auto, unfolding(crate::specs::Moving::mdap))]
pub fn mdap(zones: &mut Zones, state: &mut GraphicsState, round: bool, p: i32) -> Result<(), Why>
    ensures exact { Gives (λ u. (zones_view zones.new, state.new)) result
        (is.mdap round p (zones_view zones.old) state.old) }
    ensures kept { IfErr result (λ why. (zones_view zones.new ≡ zones_view zones.old) × (state.new ≡ state.old)) }
{
    let q = zones.point(state.zp0, p)?;
    may_move(state)?;
    let motion = Motion::of(state);
    let at = Unrounded {
        distance: i64::from(motion.cur(q)),
    };
    let q = motion.moved(q, mdap_distance(round, state, at))?;
    zones.set(state.zp0, p, q);
    state.rp0 = p;
    state.rp1 = p;
    Ok(())
}

/// MSIRP[a], 0x3A and 0x3B: p, d -> moves point p of zone pointer 1 to the distance d from reference point 0, of zone
/// pointer 0. A twilight point is placed there first (profile). Reference point 1 becomes reference point 0, and
/// reference point 2 becomes p. With `set_rp0`, reference point 0 becomes p too. Errors: PointRange, Perpendicular,
/// ValueRange.
#[tactic(auto, unfolding(crate::specs::Moving::msirp))]
pub fn msirp(
    zones: &mut Zones,
    state: &mut GraphicsState,
    set_rp0: bool,
    p: i32,
    d: i32,
) -> Result<(), Why>
    ensures exact { Gives (λ u. (zones_view zones.new, state.new)) result
        (is.msirp set_rp0 p d (zones_view zones.old) state.old) }
    ensures kept { IfErr result (λ why. (zones_view zones.new ≡ zones_view zones.old) × (state.new ≡ state.old)) }
{
    let q = zones.point(state.zp1, p)?;
    let r = zones.point(state.zp0, state.rp0)?;
    may_move(state)?;
    let motion = Motion::of(state);
    let d = Unrounded::given(d);
    let q = placed_in(state.zp1, q, &motion, AlongVector::Projection, d, r)?;
    let r = seen(state, state.rp0, r, p, q);
    zones.set(state.zp1, p, kept(q, &motion, Distance(d.distance), r)?);
    refer(state, set_rp0, p);
    Ok(())
}

/// The distance that MDRP sets, for an original distance.
#[tactic(auto, unfolding(crate::specs::Moving::mdrp_distance))]
fn mdrp_distance(keeping: Keeping, state: &GraphicsState, d: Unrounded) -> Distance
    ensures exact { result.0 ≡ is.mdrp_distance keeping state.now d.distance }
    ensures bound { unsigned_abs result.0 < 2 ^ 33 }
{
    let d = single_width(state, d);
    Distance(spaced_by(keeping, state, d.distance, rounded_by(keeping, state, d)))
}

/// MDRP[abcde], 0xC0 to 0xDF: p -> moves point p of zone pointer 1 to its original distance from reference point 0, of
/// zone pointer 0. `keeping` says how the distance changes first. Reference point 1 becomes reference point 0, and
/// reference point 2 becomes p. Errors: PointRange, Perpendicular, ValueRange.
#[tactic(auto, unfolding(crate::specs::Moving::mdrp))]
pub fn mdrp(
    zones: &mut Zones,
    state: &mut GraphicsState,
    keeping: Keeping,
    p: i32,
) -> Result<(), Why>
    ensures exact { Gives (λ u. (zones_view zones.new, state.new)) result
        (is.mdrp keeping p (zones_view zones.old) state.old) }
    ensures kept { IfErr result (λ why. (zones_view zones.new ≡ zones_view zones.old) × (state.new ≡ state.old)) }
{
    let q = zones.point(state.zp1, p)?;
    let r = zones.point(state.zp0, state.rp0)?;
    may_move(state)?;
    let motion = Motion::of(state);
    let scale = zones.scale_between(state.zp0, state.zp1);
    let original = Unrounded {
        distance: motion.distance_by(scale, r, q).0,
    };
    let d = mdrp_distance(keeping, state, original);
    zones.set(state.zp1, p, kept(q, &motion, d, r)?);
    refer(state, keeping.set_rp0, p);
    Ok(())
}
