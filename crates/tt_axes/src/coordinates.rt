//! The coordinates of an instance.

ghost use Rattle.std.specs.Prelude.{◌≡◌, ◌++◌, ◌∷◌, [], ◌<◌, ◌≤◌, length, slice_get, Some, unsigned_abs};
ghost use Rattle.tt_core.specs.Limits.{axis_limit};
ghost use Rattle.tt_axes.specs.Coordinates.{are_zero, coordinate_at};

use std::marker::Model;
use tt_core::AXIS_LIMIT;

/// The coordinates of an instance: one for each of at most 64 axes, in 1/65536, from -65536 to 65536. Clauses see a list.
#[derive(Drop)]
pub struct InstanceCoordinates {
    values: [i32; AXIS_LIMIT],
    count: usize,
}

impl Model for InstanceCoordinates {
    ghost use Rattle.std.specs.Prelude.{◌≡◌, ◌≤◌, List, ℤ, take, length, unsigned_abs};
    ghost use Rattle.std.specs.List.{All};
    ghost use Rattle.tt_core.specs.Limits.{axis_limit};

    ghost Value = { List ℤ };

    ghost view = { λ c. take c.count c.values };

    ghost invariant = { λ c. (c.count ≤ axis_limit) × (length c.values ≡ axis_limit) × All (λ v. unsigned_abs v ≤ 65536) (take c.count c.values) };
}

impl InstanceCoordinates {
    /// No coordinate.
    pub fn new() -> InstanceCoordinates
        ensures { result ≡ [] }
    {
        InstanceCoordinates {
            values: [0; AXIS_LIMIT],
            count: 0,
        }
    }

    /// Appends a coordinate.
    pub fn push(&mut self, coordinate: i32)
        requires room { length self.old < axis_limit }
        requires within { unsigned_abs coordinate ≤ 65536 }
        ensures { self.new ≡ self.old ++ coordinate ∷ [] }
    {
        self.values[self.count] = coordinate;
        self.count += 1;
    }

    /// A copy.
    pub fn copy(&self) -> InstanceCoordinates
        ensures { result ≡ self.now }
    {
        InstanceCoordinates {
            values: self.values,
            count: self.count,
        }
    }

    /// How many axes there are.
    pub fn count(&self) -> usize
        ensures exact { result ≡ length self.now }
        ensures bound { result ≤ axis_limit }
    {
        self.count
    }

    /// The coordinate of the axis with a number.
    pub fn at(&self, i: usize) -> i32
        requires { i < length self.now }
        ensures exact { result ≡ coordinate_at self.now i }
        ensures there { slice_get self.now i ≡ Some result }
        ensures within { unsigned_abs result ≤ 65536 }
    {
        let values = &self.values;
        values[i]
    }

    /// Whether all coordinates are 0, so that the instance is the default's.
    pub fn are_zero(&self) -> bool
        ensures { result ≡ are_zero self.now }
    {
        self.values[..self.count].iter().all(|v| *v == 0)
    }
}
