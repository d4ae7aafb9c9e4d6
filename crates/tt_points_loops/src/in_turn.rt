//! One change for each of several points in turn: ALIGNRP, IP, SHP, SHPIX, FLIPPT. Apple TrueType Reference Manual,
//! "Graphics State" (loop).

ghost use Rattle.std.specs.Prelude.{◌≡◌, IfErr};
ghost use Rattle.tt_core.specs.Outcomes.{Gives};
ghost use Rattle.tt_points_loops.specs.InTurn as is;
ghost use Rattle.tt_points_loops.specs.InTurn.{IsChange};
ghost use Rattle.tt_points_loops.specs.Series.{looped};
ghost use Rattle.tt_points_zones.specs.Views.{zones_view};

use crate::flipping::flip;
use crate::moving::{align, interpolate, push};
use crate::shifting::shift;
use tt_core::Why;
use tt_points_zones::{Distance, Zones};
use tt_state::{GraphicsState, Point, Tolerance};

/// The change that an instruction makes to one point.
#[derive(Clone, Copy)]
pub(crate) enum Change {
    /// ALIGNRP.
    Align,
    /// IP. A tolerant machine has an end in place of a missing one.
    Interpolate(Tolerance),
    /// SHP, by the reference point before the first move.
    Follow(Result<Point, Why>),
    /// SHPIX, by this distance.
    Push(Distance),
    /// FLIPPT.
    Flip,
}

/// Changes a point. Errors: PointRange, Perpendicular, ValueRange.
#[inline(always)]
fn change_one(zones: &mut Zones, state: &GraphicsState, change: Change, n: i32) -> Result<(), Why>
    requires change { IsChange change }
    ensures exact { Gives (λ u. zones_view zones.new) result (is.changed change state.now n (zones_view zones.old)) }
    ensures kept { IfErr result (λ why. zones_view zones.new ≡ zones_view zones.old) }
{
    match change {
        Change::Align => align(zones, state, n),
        Change::Interpolate(tolerance) => interpolate(zones, state, tolerance, n),
        Change::Follow(before) => shift(zones, state, before, n),
        Change::Push(by) => push(zones, state, by, n),
        Change::Flip => flip(zones, n),
    }
}

/// Changes the points with these numbers, the last one first, and resets the loop variable. A tolerant machine passes
/// over each point where something is missing. Errors: PointRange, Perpendicular, ValueRange.
#[inline(always)]
pub(crate) fn in_turn(
    zones: &mut Zones,
    state: &mut GraphicsState,
    tolerance: Tolerance,
    change: Change,
    numbers: &[i32],
) -> Result<(), Why>
    requires change { IsChange change }
    ensures exact { Gives (λ u. (zones_view zones.new, state.new)) result
        (looped tolerance (is.changed change state.old) numbers.now (zones_view zones.old) state.old) }
{
    for i in (0..numbers.len()).rev() {
        match change_one(zones, state, change, numbers[i]) {
            Err(why) if tolerance.passes_over(why) => {}
            answer => answer?,
        }
    }
    state.loops = 1;
    Ok(())
}
