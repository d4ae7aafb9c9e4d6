//! A tuple's deltas along one axis, each with its point. OpenType, "OpenType Font Variations Common Table Formats", "Tuple
//! Variation Store".

ghost use Rattle.std.specs.Prelude.{◌≡◌, ◌+◌, ◌≤◌, None, Some, length, vec_capacity, All};
ghost use Rattle.tt_deltas_inference.specs.Bounds.{IsGiven};
ghost use Rattle.tt_deltas.specs.Along.{IsPlaceFor, Rises, axis_point, axis_points, listed_delta};

use crate::varied::Varied;
use tt_axes::Share;
use tt_deltas_inference::AxisPoint;

/// A point with its delta, if the tuple names the point: so much of the delta as holds of the tuple.
fn axis_point(value: Varied, delta: Option<i16>, share: Share) -> AxisPoint
    ensures exact { result ≡ axis_point share.parts value.at delta }
    ensures given { IsGiven result }
{
    match delta {
        None => AxisPoint {
            named: false,
            at: value.at,
            delta: 0,
        },
        Some(delta) => AxisPoint {
            named: true,
            at: value.at,
            delta: i64::from(delta) * i64::from(share.parts),
        },
    }
}

/// The points along an axis for a tuple that names them all.
pub(crate) fn name_all(room: &mut Vec<AxisPoint>, values: &[Varied], deltas: &[i16], share: Share)
    requires deltas { length deltas.now ≡ length values.now }
    requires room { length values.now ≤ vec_capacity room.old }
    ensures exact { room.new.items ≡ axis_points share.parts None deltas.now 0 values.now }
    ensures given { All IsGiven room.new.items }
    ensures capacity { vec_capacity room.new ≡ vec_capacity room.old }
{
    room.clear();
    for i in 0..values.len() {
        room.push_reserved(axis_point(values[i], Some(deltas[i]), share));
    }
}

/// The delta of a point, if it is listed, and the place in the list of the next point after.
#[derive(Clone, Copy)]
struct ListedDelta {
    delta: Option<i16>,
    next: usize,
}

/// The delta of point `i`. The numbers below `next` are those of points before.
fn listed_delta(numbers: &[u16], deltas: &[i16], next: usize, i: usize) -> ListedDelta
    requires deltas { length deltas.now ≡ length numbers.now }
    requires rising { Rises numbers.now }
    requires place { IsPlaceFor numbers.now i next }
    ensures exact { result.delta ≡ listed_delta numbers.now deltas.now i }
    ensures place { IsPlaceFor numbers.now (i + 1) result.next }
{
    if next < numbers.len() && usize::from(numbers[next]) == i {
        return ListedDelta {
            delta: Some(deltas[next]),
            next: next + 1,
        };
    }
    ListedDelta { delta: None, next }
}

/// The points along an axis for a tuple that lists points by their numbers.
pub(crate) fn name_listed(
    room: &mut Vec<AxisPoint>,
    values: &[Varied],
    numbers: &[u16],
    deltas: &[i16],
    share: Share,
)
    requires deltas { length deltas.now ≡ length numbers.now }
    requires rising { Rises numbers.now }
    requires room { length values.now ≤ vec_capacity room.old }
    ensures exact { room.new.items ≡ axis_points share.parts (Some numbers.now) deltas.now 0 values.now }
    ensures given { All IsGiven room.new.items }
    ensures capacity { vec_capacity room.new ≡ vec_capacity room.old }
{
    room.clear();
    let mut next = 0;
    for i in 0..values.len() {
        let listed = listed_delta(numbers, deltas, next, i);
        next = listed.next;
        room.push_reserved(axis_point(values[i], listed.delta, share));
    }
}
