//! Which crossings belong to a stub: the contour enters a gap, leaves by it, and does not reach far between.

ghost use Rattle.std.specs.Prelude.{◌≡◌, ◌+◌, ◌-◌, ◌<◌, get_or, nat_lt, length, reverse, if◌then◌else◌};
ghost use Rattle.tt_scan_gaps.specs.declared.mark.Step as step;
ghost use Rattle.tt_scan_gaps.specs.Walk.{is_of_stub, is_stub, is_tip, others, way};

use crate::crossings::centre;
use crate::mark::{Crossing, Leg, Step};

/// The number of the step `i` after the first of `count`, cyclically.
#[inline(always)]
fn round(i: usize, count: usize) -> usize
    requires { i < count + count }
    ensures { result ≡ (if nat_lt i count then i else i - count) }
{
    if i < count { i } else { i - count }
}

/// The step that comes after `m` others on the way from step `k` round a closed walk, forward or backward.
#[inline(always)]
fn other(steps: &[Step], k: usize, forward: bool, m: usize) -> Step
    requires step { k < length steps.now }
    requires within { m + 1 < length steps.now }
    ensures { (d : step.Step) → result ≡ get_or (if forward then others steps.now k else reverse (others steps.now k)) m d }
{
    let count = steps.len();
    if forward {
        steps[round(k + (m + 1), count)]
    } else {
        steps[round(k + (count - (m + 1)), count)]
    }
}

/// The way from step `k` of a closed walk to the next crossing, forward or backward; `y` is the height of its line.
fn way(steps: &[Step], k: usize, forward: bool, y: i64) -> Option<Leg>
    requires { k < length steps.now }
    ensures { result ≡ way y 0 (if forward then others steps.now k else reverse (others steps.now k)) }
{
    let mut far = 0;
    for m in 0..steps.len() - 1 {
        match other(steps, k, forward, m) {
            Step::Cross(next) => return Some(Leg { next, far }),
            Step::End(h) => far = far.max(i64::from(h).abs_diff(y)),
        }
    }
    None
}

/// Whether the contour enters a gap and leaves by it.
#[inline(always)]
fn is_tip(c: Crossing, d: Crossing) -> bool
    ensures { result ≡ is_tip c d }
{
    c.line == d.line && c.gap == d.gap && c.up != d.up
}

/// Whether a crossing and the next one are the two sides of a stub.
fn is_stub(c: Crossing, leg: Option<Leg>) -> bool
    ensures { result ≡ is_stub c leg }
{
    match leg {
        Some(leg) => {
            is_tip(c, leg.next)
                && (leg.far < 4096 || (leg.far < 8192 && c.place.abs_diff(leg.next.place) < 4096))
        }
        None => false,
    }
}

/// Whether a crossing, which is step `k` of a closed walk, belongs to a stub.
pub fn is_of_stub(steps: &[Step], k: usize, c: Crossing) -> bool
    requires { k < length steps.now }
    ensures { result ≡ is_of_stub steps.now k c }
{
    let y = centre(i64::from(c.line));
    is_stub(c, way(steps, k, true, y)) || is_stub(c, way(steps, k, false, y))
}
