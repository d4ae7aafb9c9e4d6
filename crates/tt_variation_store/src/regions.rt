//! The regions of a store, and how much of their deltas holds at an instance. OpenType, "OpenType Font Variations Common
//! Table Formats".

ghost use Rattle.std.specs.Prelude.{◌≡◌, ◌+◌, ◌*◌, ◌^◌, ◌<◌, ◌≤◌, length};
ghost use Rattle.tt_core.specs.Limits.{font_limit};
ghost use Rattle.tt_variation_store.specs.Regions.{AreShares, RegionList, if_whole, axis_place, coordinate_in, share_by, most_listed, region_share};

use crate::numbers::{product, signed_word, word};
use std::marker::Model;
use tt_axes::{InstanceCoordinates, RegionEnds, Share};

/// The most regions of a list (profile).
pub(crate) const MOST_LISTED: usize = 512;

/// The most axes of all regions together (profile).
const MOST_SIDES: usize = 4096;

/// The list of regions of a store that is there. Clauses see the bytes of the store's table, and the offset in the table.
#[derive(Drop)]
pub(crate) struct RegionList<'a> {
    table: &'a [u8],
    at: usize,
    /// The count of a region's axes.
    axes: usize,
    /// The count of regions.
    count: usize,
}

impl<'a> Model for RegionList<'a> {
    ghost use Rattle.std.specs.Prelude.{◌≡◌, ◌<◌, ◌≤◌, ◌^◌, length};
    ghost use Rattle.tt_core.specs.Limits.{font_limit};
    ghost use Rattle.tt_variation_store.specs.Regions.{axis_count, most_listed, region_count};
    ghost use Rattle.tt_variation_store.specs.Regions as regions;

    ghost Value = { regions.RegionList };

    ghost view = { λ l. record { table = l.table.now; at = l.at } };

    ghost invariant = { λ l. (length l.table.now ≤ font_limit) × (l.at < 2 ^ 33) × (l.axes ≤ 64)
        × (l.axes ≡ axis_count (record { table = l.table.now; at = l.at }))
        × (l.count ≡ region_count (record { table = l.table.now; at = l.at })) × (l.count ≤ most_listed) };
}

/// The F2DOT14 at an offset, as a coordinate in 1/65536.
fn coordinate_at(table: &[u8], at: usize) -> i32
    requires { at < 2 ^ 40 }
    ensures { result ≡ coordinate_in table.now at }
{
    4 * signed_word(table, at)
}

impl<'a> RegionList<'a> {
    /// The list at an offset of a table, if all of it is there and its regions have the font's count of axes. At most 512
    /// regions are listed, with at most 4,096 axes together (profile).
    pub(crate) fn open(table: &'a [u8], at: usize, axes: usize) -> Option<RegionList<'a>>
        requires size { length table.now ≤ font_limit }
        requires place { at < 2 ^ 33 }
        requires axes { axes ≤ 64 }
        ensures { result ≡ if_whole axes (record { table = table.now; at = at }) }
    {
        let count = word(table, at + 2);
        if word(table, at) != axes
            || count > MOST_LISTED
            || product(axes, count) > MOST_SIDES
            || table.len() < at + 4 + product(6 * axes, count)
        {
            return None;
        }
        Some(RegionList {
            table,
            at,
            axes,
            count,
        })
    }

    /// A copy. The bytes are not copied.
    pub(crate) fn copy(&self) -> RegionList<'a>
        ensures { result ≡ self.now }
    {
        RegionList {
            table: self.table,
            at: self.at,
            axes: self.axes,
            count: self.count,
        }
    }

    /// The offset of a region's axis.
    fn axis_place(&self, region: usize, axis: usize) -> usize
        requires region { region < 65536 }
        requires axis { axis < 64 }
        ensures exact { result ≡ axis_place self.now region axis }
        ensures near { result < 2 ^ 40 }
    {
        self.at + 4 + 6 * (product(self.axes, region) + axis)
    }

    /// A region's share after one more axis.
    fn share_by(&self, region: usize, axis: usize, share: Share, coordinate: i32) -> Share
        requires region { region < 65536 }
        requires axis { axis < 64 }
        ensures exact { result.parts ≡ share_by self.now.table (axis_place self.now region axis) share.parts coordinate }
        ensures less { result.parts ≤ share.parts }
    {
        let at = self.axis_place(region, axis);
        let ends = RegionEnds {
            start: coordinate_at(self.table, at),
            end: coordinate_at(self.table, at + 4),
        };
        share.on_region_axis(coordinate, coordinate_at(self.table, at + 2), ends)
    }

    /// How much of a region's deltas holds at an instance. Of a region that isn't there nothing holds (profile).
    fn share(&self, region: usize, coordinates: &InstanceCoordinates) -> Share
        requires { region < 65536 }
        ensures { result.parts ≡ region_share self.now region coordinates.now }
    {
        if region >= self.count {
            return Share::none();
        }
        tt_axes::laws::shares_fall();
        let mut share = Share::whole();
        for axis in 0..coordinates.count() {
            share = self.share_by(region, axis, share, coordinates.at(axis));
            if share.parts == 0 {
                return share;
            }
        }
        share
    }

    /// How much of each region's deltas holds at an instance, in 1/65536.
    pub(crate) fn shares(&self, coordinates: &InstanceCoordinates) -> [u32; MOST_LISTED]
        ensures size { length result ≡ most_listed }
        ensures each { AreShares self.now coordinates.now result }
    {
        let mut shares = [0; MOST_LISTED];
        for region in 0..self.count {
            shares[region] = self.share(region, coordinates).parts;
        }
        shares
    }
}
