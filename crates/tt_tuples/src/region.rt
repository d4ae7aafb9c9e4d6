//! The region of a tuple. OpenType, "OpenType Font Variations Common Table Formats".

ghost use Rattle.std.specs.Prelude.{◌≡◌, ◌<◌};
ghost use Rattle.tt_tuples.specs.Regions.{ends_on, fixed_at, share_of};
ghost use Rattle.tt_tuples.specs.Views.{region_of, sides_of};

use tt_axes::{InstanceCoordinates, RegionEnds, Share, laws};
use tt_core::i16_at;

/// The ends of a region, a 2.14 for each axis.
#[derive(Clone, Copy)]
pub(crate) struct RegionSides<'a> {
    pub(crate) start: &'a [u8],
    pub(crate) end: &'a [u8],
}

/// The peak of a tuple, a 2.14 for each axis, and its ends where it has its own.
#[derive(Clone, Copy)]
pub(crate) struct Region<'a> {
    pub(crate) peak: &'a [u8],
    pub(crate) sides: Option<RegionSides<'a>>,
}

/// Number `i` of a list of 2.14, in 1/65536.
#[inline(always)]
fn fixed_at(bytes: &[u8], i: usize) -> i32
    requires { i < 64 }
    ensures { result ≡ fixed_at bytes.now i }
{
    match i16_at(bytes, 2 * i) {
        Some(number) => i32::from(number) * 4,
        None => 0,
    }
}

impl<'a> Region<'a> {
    /// The region's ends on an axis.
    #[inline(always)]
    fn ends_on(&self, i: usize) -> Option<RegionEnds>
        requires { i < 64 }
        ensures { result ≡ ends_on (sides_of self.now.sides) i }
    {
        match self.sides {
            Some(sides) => Some(RegionEnds {
                start: fixed_at(sides.start, i),
                end: fixed_at(sides.end, i),
            }),
            None => None,
        }
    }

    /// How much of the tuple holds. Where an axis leaves nothing, the others have no effect.
    #[tactic(auto, using(crate::proofs::Axes::no_axis, crate::proofs::Axes::one_more_axis))]
    pub(crate) fn share(&self, coordinates: &InstanceCoordinates) -> Share
        ensures { result.parts ≡ share_of coordinates.now (region_of self.now) }
    {
        let mut share = Share::whole();
        for i in 0..coordinates.count() {
            share = share.on_tuple_axis(coordinates.at(i), fixed_at(self.peak, i), self.ends_on(i));
            if share.parts == 0 {
                laws::shares_fall();
                return share;
            }
        }
        share
    }
}
