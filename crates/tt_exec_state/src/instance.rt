//! The instance of a variable font. OpenType, "OpenType Font Variations Overview", "Coordinate Scales and Normalization".

ghost use Rattle.std.specs.Prelude.{◌≡◌, ◌++◌, ◌∷◌, [], ◌<◌, ◌≤◌, length, unsigned_abs};
ghost use Rattle.tt_core.specs.Limits.{axis_limit};

use tt_core::AXIS_LIMIT;

/// The place of an instance on each axis of its font, in 2.14, the first axis' first. The default instance has none, and
/// so has a font without axes. No program changes the instance.
#[derive(Clone, Copy)]
pub struct Instance {
    coordinates: [i16; AXIS_LIMIT],
    axes: usize,
    ghost long: { length coordinates ≡ axis_limit },
    ghost few: { axes ≤ axis_limit },
}

impl Instance {
    ghost use Rattle.tt_exec_state.specs.Instances.{f2dot14, has_instance, instance_of};

    /// The default instance.
    pub fn none() -> Instance
        ensures { instance_of result ≡ [] }
    {
        Instance {
            coordinates: [0; AXIS_LIMIT],
            axes: 0,
        }
    }

    /// Adds the place on the next axis, a coordinate in 16.16 from -1 to 1. What 2.14 lacks is cut off, toward -1.
    pub fn push(&mut self, coordinate: i32)
        requires room { length (instance_of self.old) < axis_limit }
        requires within { unsigned_abs coordinate ≤ 65536 }
        ensures { instance_of self.new ≡ instance_of self.old ++ f2dot14 coordinate ∷ [] }
    {
        self.coordinates[self.axes] = coordinate.div_euclid(4) as i16;
        self.axes += 1;
    }

    /// The places.
    pub fn coordinates(&self) -> &[i16]
        ensures exact { result.now ≡ instance_of self.now }
        ensures few { length result.now ≤ axis_limit }
    {
        &self.coordinates[..self.axes]
    }

    /// Whether there is an instance, other than the default's.
    pub fn is_some(&self) -> bool
        ensures { result ≡ has_instance (instance_of self.now) }
    {
        self.axes > 0
    }
}
