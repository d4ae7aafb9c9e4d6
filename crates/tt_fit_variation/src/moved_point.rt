//! A point at an instance.

ghost use Rattle.tt_fit_outline.specs.Outline.{IsPoint};

use tt_glyf::RawPoint;

/// A point at an instance, in whole font units and in 26.6 pixels.
#[derive(Clone, Copy)]
pub struct InstancePoint {
    pub unit: RawPoint,
    pub place: (i32, i32, bool),
    pub ghost within: { IsPoint place },
}
