//! Rules that change a distance before a point is moved to it. Apple TrueType Reference Manual, "Graphics State" (round
//! state, minimum distance, single width, auto flip, control value cut-in). Distances are in 26.6 pixels.

ghost use Rattle.std.specs.Prelude.{◌≡◌, ◌<◌, ◌≤◌, ◌^◌, pos, ◌≤ℤ◌, unsigned_abs};
ghost use Rattle.tt_points.specs.Distances as is;

use crate::unrounded::Unrounded;
use tt_state::GraphicsState;

/// The options of MDRP and MIRP. The distance type, in the opcode's two lowest bits, has no effect (profile).
#[derive(Clone, Copy)]
pub struct Keeping {
    /// The point becomes reference point 0.
    pub set_rp0: bool,
    /// The distance becomes at least the minimum distance.
    pub minimum_distance: bool,
    /// The distance is rounded. MIRP applies the control value cut-in too.
    pub round: bool,
}

fn magnitude(d: i64) -> i64
    requires { unsigned_abs d < 2 ^ 33 }
    ensures exact { result ≡ is.magnitude d }
    ensures bound { unsigned_abs result ≤ unsigned_abs d }
{
    d.abs()
}

/// The magnitude `m` with the sign of `d`. 0 counts as positive.
fn signed(d: i64, m: i64) -> i64
    requires { unsigned_abs m < 2 ^ 33 }
    ensures exact { result ≡ is.signed d m }
    ensures bound { unsigned_abs result ≤ unsigned_abs m }
{
    if d < 0 { -m } else { m }
}

/// The magnitude of the difference between two numbers.
fn apart(a: i64, b: i64) -> i64
    requires a { unsigned_abs a < 2 ^ 32 }
    requires b { unsigned_abs b < 2 ^ 32 }
    ensures { result ≡ is.apart a b }
{
    magnitude(a - b)
}

/// The single width with the sign of `d`, if their magnitudes differ by less than the single-width cut-in; otherwise
/// `d`.
#[tactic(auto, unfolding(crate::specs::Distances::single_width))]
pub(crate) fn single_width(state: &GraphicsState, d: Unrounded) -> Unrounded
    ensures { result.distance ≡ is.single_width state.now d.distance }
{
    let width = magnitude(i64::from(state.single_width));
    if apart(magnitude(d.distance), width) < i64::from(state.single_cut_in) {
        return Unrounded {
            distance: signed(d.distance, width),
        };
    }
    d
}

/// The distance `e`, at least the minimum distance from 0 on the side of `d`.
fn at_least_minimum(state: &GraphicsState, d: i64, e: i64) -> i64
    requires { unsigned_abs e < 2 ^ 33 }
    ensures exact { result ≡ is.at_least_minimum state.now d e }
    ensures bound { unsigned_abs result < 2 ^ 33 }
{
    let min = i64::from(state.min_distance);
    if d < 0 { e.min(-min) } else { e.max(min) }
}

/// The distance, rounded if `keeping` says so.
pub(crate) fn rounded_by(keeping: Keeping, state: &GraphicsState, e: Unrounded) -> i64
    ensures exact { result ≡ is.rounded_by keeping state.now e.distance }
    ensures bound { unsigned_abs result < 2 ^ 33 }
{
    if keeping.round {
        state.round.round(e.distance)
    } else {
        e.distance
    }
}

/// The distance, at least the minimum distance if `keeping` says so.
pub(crate) fn spaced_by(keeping: Keeping, state: &GraphicsState, d: i64, e: i64) -> i64
    requires { unsigned_abs e < 2 ^ 33 }
    ensures exact { result ≡ is.spaced_by keeping state.now d e }
    ensures bound { unsigned_abs result < 2 ^ 33 }
{
    if keeping.minimum_distance {
        at_least_minimum(state, d, e)
    } else {
        e
    }
}

/// Whether the two distances have opposite signs.
fn is_opposite(d: i64, c: i64) -> bool
    ensures { result ≡ is.is_opposite d c }
{
    (d < 0 && c > 0) || (d > 0 && c < 0)
}

/// The control value `c`. With auto flip it gets the sign of the measured distance `d`, if their signs are opposite.
pub(crate) fn flipped(state: &GraphicsState, d: Unrounded, c: Unrounded) -> Unrounded
    ensures { result.distance ≡ is.flipped state.now d.distance c.distance }
{
    if state.auto_flip && is_opposite(d.distance, c.distance) {
        return Unrounded {
            distance: -c.distance,
        };
    }
    c
}

/// The control value `c`, or the measured distance `d` if they differ by more than the cut-in.
pub(crate) fn cut_in(state: &GraphicsState, d: Unrounded, c: Unrounded) -> Unrounded
    ensures { result.distance ≡ is.cut_in state.now d.distance c.distance }
{
    if apart(c.distance, d.distance) > i64::from(state.cut_in) {
        d
    } else {
        c
    }
}
