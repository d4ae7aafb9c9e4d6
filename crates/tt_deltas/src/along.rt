//! The deltas of a tuple along one axis, added to those of the tuples before.

ghost use Rattle.std.specs.Prelude.{◌≡◌, ◌+◌, ◌≤◌, ◌^◌, ℕ, length, vec_capacity, All, option_copied, unsigned_abs};
ghost use Rattle.tt_deltas_inference.specs.Bounds.{AreContourEnds, IsInferred};
ghost use Rattle.tt_deltas.specs.Along.{AreNumbers, IsWithin, added, moved_by, moved_points, varied_along};

use crate::naming::{name_all, name_listed};
use crate::varied::Varied;
use tt_axes::Share;
use tt_deltas_inference::{AxisPoint, infer};

/// The part of a tuple for one axis.
#[derive(Clone, Copy)]
pub(crate) struct AxisTuple<'a> {
    /// How much of the tuple holds.
    pub(crate) share: Share,
    /// The points that are named; none: all of them.
    pub(crate) numbers: Option<&'a [u16]>,
    /// A delta for each named point.
    pub(crate) deltas: &'a [i16],
}

fn moved_by(value: Varied, point: AxisPoint) -> Varied
    requires value { unsigned_abs value.delta ≤ 2 ^ 46 }
    requires point { unsigned_abs point.delta ≤ 2 ^ 34 }
    ensures { result ≡ moved_by value point }
{
    Varied {
        at: value.at,
        delta: value.delta + point.delta,
    }
}

/// Adds the deltas of points to those of their coordinates.
fn add(values: &mut [Varied], points: &[AxisPoint])
    requires count { length points.now ≡ length values.old }
    requires points { All IsInferred points.now }
    requires values { All (IsWithin (2 ^ 46)) values.old }
    ensures exact { values.new ≡ added values.old points.now }
    ensures within { (most : ℕ) → All (IsWithin most) values.old → All (IsWithin (most + 2 ^ 34)) values.new }
{
    for i in 0..values.len() {
        values[i] = moved_by(values[i], points[i]);
    }
}

/// The points along an axis as a tuple moves them, those that are inferred too. If all points are named, none is inferred.
fn move_points(room: &mut Vec<AxisPoint>, values: &[Varied], ends: &[u16], tuple: AxisTuple)
    requires contours { AreContourEnds 0 ends.now (length values.now) }
    requires numbers { AreNumbers (option_copied tuple.numbers) (length tuple.deltas.now) (length values.now) }
    requires room { length values.now ≤ vec_capacity room.old }
    ensures exact { room.new.items
        ≡ moved_points tuple.entry.share.parts (option_copied tuple.entry.numbers) tuple.entry.deltas.now ends.now values.now }
    ensures count { length room.new.items ≡ length values.now }
    ensures inferred { All IsInferred room.new.items }
    ensures capacity { vec_capacity room.new ≡ vec_capacity room.old }
{
    match tuple.numbers {
        None => name_all(room, values, tuple.deltas, tuple.share),
        Some(numbers) => {
            name_listed(room, values, numbers, tuple.deltas, tuple.share);
            infer(room, ends);
        }
    }
}

/// Adds a tuple's deltas along one axis, those that are inferred too. `room` is used for the points.
#[tactic(auto, unfolding(crate::specs::Along::varied_along))]
pub(crate) fn vary_along(
    values: &mut [Varied],
    ends: &[u16],
    tuple: AxisTuple,
    room: &mut Vec<AxisPoint>,
)
    requires contours { AreContourEnds 0 ends.now (length values.old) }
    requires numbers { AreNumbers (option_copied tuple.numbers) (length tuple.deltas.now) (length values.old) }
    requires room { length values.old ≤ vec_capacity room.old }
    requires values { All (IsWithin (2 ^ 46)) values.old }
    ensures exact { values.new
        ≡ varied_along tuple.entry.share.parts (option_copied tuple.entry.numbers) tuple.entry.deltas.now ends.now values.old }
    ensures within { (most : ℕ) → All (IsWithin most) values.old → All (IsWithin (most + 2 ^ 34)) values.new }
    ensures capacity { vec_capacity room.new ≡ vec_capacity room.old }
{
    move_points(room, values, ends, tuple);
    add(values, room);
}
