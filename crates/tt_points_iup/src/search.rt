//! The touched points of a contour.

ghost use Rattle.std.specs.Prelude.{◌≡◌, ◌+◌, ◌^◌, ◌<◌, ◌≤◌, length, get_or, take, drop, true, None};
ghost use Rattle.tt_state.specs.declared.point.Point.{Point as IsAPoint};
ghost use Rattle.tt_points_zones.specs.Points.{is_touched as touched};
ghost use Rattle.tt_points_iup.specs.Interpolation as is;
ghost use Rattle.tt_points_iup.specs.Positions.{point_of};
ghost use Rattle.tt_points_iup.specs.Readings.{up_to_first};

use crate::counted::{Contour, PlainPoint};

pub(crate) fn first_touched(contour: &mut Contour<'_>) -> Option<PlainPoint>
    requires room { contour.old.reads + length contour.old.points.now < 2 ^ 64 }
    ensures exact { point_of result ≡ is.first_touched contour.old.along.axis contour.old.points.now }
    ensures count { contour.new.reads ≡ contour.old.reads + up_to_first contour.old.along.axis contour.old.points.now }
    ensures few { contour.new.reads ≤ contour.old.reads + length contour.old.points.now }
    ensures along { contour.new.along ≡ contour.old.along }
    ensures unchanged { contour.new.points.now ≡ contour.old.points.now }
    ensures same_reference { contour.new.points.ghost_name ≡ contour.old.points.ghost_name }
{
    for i in 0..contour.len() {
        if contour.is_touched(i) {
            return Some(contour.at(i));
        }
    }
    None
}

pub(crate) fn last_touched(contour: &mut Contour<'_>) -> Option<PlainPoint>
    requires room { contour.old.reads + length contour.old.points.now < 2 ^ 64 }
    ensures exact { point_of result ≡ is.last_touched contour.old.along.axis None contour.old.points.now }
    ensures count { contour.new.reads ≡ contour.old.reads + length contour.old.points.now }
    ensures along { contour.new.along ≡ contour.old.along }
    ensures unchanged { contour.new.points.now ≡ contour.old.points.now }
    ensures same_reference { contour.new.points.ghost_name ≡ contour.old.points.ghost_name }
{
    let mut last = None;
    for i in 0..contour.len() {
        if contour.is_touched(i) {
            last = Some(contour.at(i));
        }
    }
    last
}

/// The count of untouched points from number `start` on, up to the next touched point or the end.
pub(crate) fn untouched(contour: &mut Contour<'_>, start: usize) -> usize
    requires start { start ≤ length contour.old.points.now }
    requires room { contour.old.reads + length contour.old.points.now < 2 ^ 64 + start }
    ensures bound { start + result ≤ length contour.old.points.now }
    ensures asked { start + result < length contour.old.points.now → contour.new.reads ≡ contour.old.reads + result + 1 }
    ensures all { start + result ≡ length contour.old.points.now → contour.new.reads ≡ contour.old.reads + result }
    ensures none { is.first_touched contour.old.along.axis (take result (drop start contour.old.points.now)) ≡ None }
    ensures end { (d : IsAPoint) → start + result < length contour.old.points.now
        → touched contour.old.along.axis (get_or (drop start contour.old.points.now) result d) ≡ true }
    ensures along { contour.new.along ≡ contour.old.along }
    ensures unchanged { contour.new.points.now ≡ contour.old.points.now }
    ensures same_reference { contour.new.points.ghost_name ≡ contour.old.points.ghost_name }
{
    let left = contour.len() - start;
    for k in 0..left {
        if contour.is_touched(start + k) {
            return k;
        }
    }
    left
}
