//! One pass round a contour, from each touched point to the next one.

ghost use Rattle.std.specs.Prelude.{◌≡◌, ◌+◌, ◌*◌, ◌^◌, ◌<◌, ◌≤◌, length, map, take, drop, Err, IfOk, IfErr};
ghost use Rattle.tt_core.specs.Outcomes.{Gives};
ghost use Rattle.tt_points_iup.specs.Interpolation as is;
ghost use Rattle.tt_points_iup.specs.Readings.{of_contour};
ghost use Rattle.tt_points_iup.specs.Sweeps.{swept, IsRun};

use crate::counted::{Contour, PlainPoint};
use crate::place::{Neighbours, interpolated};
use crate::search::{first_touched, last_touched, untouched};
use tt_core::Why;

/// A run of points: its length, and the last touched point in it or before it.
#[derive(Clone, Copy)]
struct PointRun {
    len: usize,
    last: PlainPoint,
}

/// The touched points before and after a run. After the last run comes the first touched point of the contour.
#[derive(Clone, Copy)]
struct Around {
    before: PlainPoint,
    after: PlainPoint,
}

/// Interpolates the `len` untouched points from number `start` on, between the touched points. Error: ValueRange.
fn fill(contour: &mut Contour<'_>, start: usize, len: usize, around: Around) -> Result<(), Why>
    requires range { start + len ≤ length contour.old.points.now }
    ensures exact { Gives (λ u. take len (drop start contour.new.points.now)) result
        (is.limited contour.old.along.axis (map (is.interpolated contour.old.along around.before.point around.after.point)
        (take len (drop start contour.old.points.now)))) }
    ensures front { IfOk result (λ u. take start contour.new.points.now ≡ take start contour.old.points.now) }
    ensures back { IfOk result (λ u.
        drop len (drop start contour.new.points.now) ≡ drop len (drop start contour.old.points.now)) }
    ensures count { IfOk result (λ u. contour.new.reads ≡ contour.old.reads) }
    ensures many { IfOk result (λ u. length contour.new.points.now ≡ length contour.old.points.now) }
    ensures along { contour.new.along ≡ contour.old.along }
    ensures same_reference { contour.new.points.ghost_name ≡ contour.old.points.ghost_name }
{
    if len == 0 {
        return Ok(());
    }
    let between = Neighbours::of(contour.along(), around.before, around.after);
    for k in 0..len {
        let to = interpolated(contour.at(start + k), between)?;
        contour.put(start + k, to);
    }
    Ok(())
}

/// Interpolates the points from `start` on, up to the next touched point or the end. The run includes that touched
/// point. `around` has the touched point before `start`, and the first one of the contour. Error: ValueRange.
fn next_run(contour: &mut Contour<'_>, start: usize, around: Around) -> Result<PointRun, Why>
    requires start { start < length contour.old.points.now }
    requires room { contour.old.reads + length contour.old.points.now < 2 ^ 64 + start }
    ensures run { IfOk result (λ run. IsRun contour.old.along around.before.point around.after.point
        (drop start contour.old.points.now) (drop start contour.new.points.now) run.len run.last.point) }
    ensures front { IfOk result (λ u. take start contour.new.points.now ≡ take start contour.old.points.now) }
    ensures count { IfOk result (λ run. contour.new.reads ≡ contour.old.reads + run.len) }
    ensures fault { IfErr result (λ why.
        is.limited contour.old.along.axis (swept contour.old.along around.before.point around.after.point
        (drop start contour.old.points.now)) ≡ Err why) }
    ensures along { contour.new.along ≡ contour.old.along }
    ensures same_reference { contour.new.points.ghost_name ≡ contour.old.points.ghost_name }
{
    let len = untouched(contour, start);
    if start + len == contour.len() {
        fill(contour, start, len, around)?;
        return Ok(PointRun {
            len,
            last: around.before,
        });
    }
    let last = contour.at(start + len);
    let within = Around {
        before: around.before,
        after: last,
    };
    fill(contour, start, len, within)?;
    Ok(PointRun { len: len + 1, last })
}

/// Interpolates a contour from its first point to its end. `last` and `first` are its last and first touched point.
/// Error: ValueRange.
fn sweep(contour: &mut Contour<'_>, last: PlainPoint, first: PlainPoint) -> Result<(), Why>
    requires room { contour.old.reads + length contour.old.points.now < 2 ^ 64 }
    ensures exact { Gives (λ u. contour.new.points.now) result
        (is.limited contour.old.along.axis (swept contour.old.along last.point first.point contour.old.points.now)) }
    ensures count { IfOk result (λ u. contour.new.reads ≡ contour.old.reads + length contour.old.points.now) }
    ensures same_reference { contour.new.points.ghost_name ≡ contour.old.points.ghost_name }
{
    let mut start = 0;
    let mut before = last;
    while start < contour.len() {
        let around = Around {
            before,
            after: first,
        };
        let run = next_run(contour, start, around)?;
        start += run.len;
        before = run.last;
    }
    Ok(())
}

/// Interpolates the points of a contour. Error: ValueRange.
pub(crate) fn interpolate_contour(contour: &mut Contour<'_>) -> Result<(), Why>
    requires room { contour.old.reads + 3 * length contour.old.points.now < 2 ^ 64 }
    ensures exact { Gives (λ u. contour.new.points.now) result
        (is.limited contour.old.along.axis (is.contour contour.old.along contour.old.points.now)) }
    ensures count { IfOk result (λ u.
        contour.new.reads ≡ contour.old.reads + of_contour contour.old.along.axis contour.old.points.now) }
    ensures few { IfOk result (λ u. contour.new.reads ≤ contour.old.reads + 3 * length contour.old.points.now) }
    ensures same_reference { contour.new.points.ghost_name ≡ contour.old.points.ghost_name }
{
    let Some(first) = first_touched(contour) else {
        return Ok(());
    };
    let Some(last) = last_touched(contour) else {
        return Ok(());
    };
    sweep(contour, last, first)
}
