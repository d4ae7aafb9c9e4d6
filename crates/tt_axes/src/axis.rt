//! An axis, and the coordinate of a place on the axis. OpenType, "OpenType Font Variations Overview".

ghost use Rattle.std.specs.Prelude.{◌≡◌, ◌≤◌, ◌≤ℤ◌, unsigned_abs};
ghost use Rattle.tt_axes.specs.Axes.{coordinate_on, in_order};

use crate::region::portion;
use crate::share::Share;

/// An axis of a variable font. Values are in 16.16.
#[derive(Clone, Copy)]
pub struct VariationAxis {
    pub tag: [u8; 4],
    pub least: i32,
    pub default: i32,
    pub greatest: i32,
    pub flags: u16,
    /// The number of the axis' name.
    pub name: u16,
}

impl VariationAxis {
    /// The axis, or the same with the default alone where its values do not stand in order (profile).
    pub(crate) fn in_order(self) -> VariationAxis
        ensures exact { result ≡ in_order self }
        ensures low { result.least ≤ℤ result.default }
        ensures high { result.default ≤ℤ result.greatest }
    {
        if self.least <= self.default && self.default <= self.greatest {
            return self;
        }
        VariationAxis {
            least: self.default,
            greatest: self.default,
            ..self
        }
    }

    /// The coordinate of a place in 16.16: 0 at the default, 65536 at the greatest value and past it, -65536 at the
    /// least value and below it.
    #[tactic(auto, unfolding(crate::specs::Axes::coordinate_on))]
    pub fn coordinate(self, place: i32) -> i32
        ensures exact { result ≡ coordinate_on self place }
        ensures within { unsigned_abs result ≤ 65536 }
    {
        if self.default < place {
            if self.greatest <= place {
                return 65536;
            }
            let part = place.abs_diff(self.default);
            return portion(Share::whole(), part, self.greatest.abs_diff(self.default)).parts as i32;
        }
        if place < self.default {
            if place <= self.least {
                return -65536;
            }
            let part = place.abs_diff(self.default);
            return -(portion(Share::whole(), part, self.least.abs_diff(self.default)).parts as i32);
        }
        0
    }
}
