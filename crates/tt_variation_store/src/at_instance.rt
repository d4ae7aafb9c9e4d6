//! A store at an instance: the shares of its regions are found once, for all deltas. OpenType, "OpenType Font Variations
//! Common Table Formats".

ghost use Rattle.std.specs.Prelude.{◌≡◌, ◌*◌, ◌^◌, ◌<◌, ◌≤◌, length, pos, ◌*ℤ◌, unsigned_abs};
ghost use Rattle.tt_core.specs.Limits.{font_limit};
ghost use Rattle.tt_variation_store.specs.Deltas.{delta, fine_delta, scaled_delta, sum_of_first};
ghost use Rattle.tt_variation_store.specs.Gdef.{value_by_index};
ghost use Rattle.tt_variation_store.specs.Items.{index_count, most_regions};
ghost use Rattle.tt_variation_store.specs.Regions.{region_share};
ghost use Rattle.tt_variation_store.specs.Store.{region_list};

use crate::data::ItemData;
use crate::index::DeltaSetIndex;
use crate::numbers::kept_int16;
use crate::regions::MOST_LISTED;
use crate::store::VariationStore;
use std::marker::Model;
use tt_axes::{InstanceCoordinates, Share, whole_units};

/// A store, the coordinates of an instance, and how much of each region's deltas holds there, in 1/65536. Clauses see the
/// store and the coordinates.
#[derive(Drop)]
pub struct StoreAtInstance<'a> {
    store: VariationStore<'a>,
    coordinates: InstanceCoordinates,
    shares: [u32; MOST_LISTED],
}

impl<'a> Model for StoreAtInstance<'a> {
    ghost use Rattle.std.specs.Prelude.{◌≡◌, length};
    ghost use Rattle.tt_variation_store.specs.Regions.{AreShares, most_listed};
    ghost use Rattle.tt_variation_store.specs.Store.{region_list};
    ghost use Rattle.tt_variation_store.specs.Store as stores;

    ghost Value = { stores.StoreAtInstance };

    ghost view = { λ s. record { store = s.store; coordinates = s.coordinates } };

    ghost invariant = { λ s. (length s.shares ≡ most_listed) × AreShares (region_list s.store) s.coordinates s.shares };
}

/// A row's number at an instance, in 1/65536 font unit.
fn scaled(delta: i64, share: Share) -> i64
    requires { unsigned_abs delta ≤ 2 ^ 31 }
    ensures exact { result ≡ delta *ℤ pos share.parts }
    ensures bound { unsigned_abs result ≤ 2 ^ 47 }
{
    delta * i64::from(share.parts)
}

impl<'a> StoreAtInstance<'a> {
    /// The store at an instance. Each region takes a step for each axis.
    pub fn new(store: VariationStore<'a>, coordinates: &InstanceCoordinates) -> StoreAtInstance<'a>
        ensures { result ≡ record { store = store.entry; coordinates = coordinates.now } }
    {
        let shares = store.regions().shares(coordinates);
        StoreAtInstance {
            store,
            coordinates: coordinates.copy(),
            shares,
        }
    }

    /// A copy. The table's bytes are not copied.
    pub fn copy(&self) -> StoreAtInstance<'a>
        ensures { result ≡ self.now }
    {
        StoreAtInstance {
            store: self.store.copy(),
            coordinates: self.coordinates.copy(),
            shares: self.shares,
        }
    }

    /// The bytes of the store's table.
    pub(crate) fn table(&self) -> &'a [u8]
        ensures exact { result.now ≡ self.now.store.table }
        ensures size { length result.now ≤ font_limit }
    {
        self.store.table()
    }

    /// How much of a region's deltas holds. Of a region that isn't there nothing holds (profile).
    fn share(&self, region: usize) -> Share
        ensures { result.parts ≡ region_share (region_list self.now.store) region self.now.coordinates }
    {
        tt_axes::laws::shares_fall();
        let shares = &self.shares;
        if region >= MOST_LISTED {
            return Share::none();
        }
        Share {
            parts: shares[region],
        }
    }

    /// Number i of the row at an offset, at the instance, in 1/65536 font unit.
    fn scaled_delta(&self, items: &ItemData, row: usize, i: usize) -> i64
        requires row { row ≤ font_limit }
        requires i { i < 65536 }
        ensures exact { result ≡ scaled_delta (region_list self.now.store) self.now.coordinates items.now row i }
        ensures bound { unsigned_abs result ≤ 2 ^ 47 }
    {
        scaled(items.delta(row, i), self.share(items.region(i)))
    }

    /// The sum of the numbers of the row at an offset, at the instance, in 1/65536 font unit.
    fn sum(&self, items: &ItemData, row: usize) -> i64
        requires row { row ≤ font_limit }
        requires few { index_count items.now ≤ most_regions }
        ensures exact { result ≡ sum_of_first (region_list self.now.store) self.now.coordinates items.now row (index_count items.now) }
        ensures bound { unsigned_abs result ≤ 2 ^ 56 }
    {
        let mut sum = 0;
        for i in 0..items.regions() {
            sum += self.scaled_delta(items, row, i);
        }
        sum
    }

    /// The delta of a row, in 1/65536 font unit. A row that isn't there has a delta of 0 (profile).
    #[tactic(auto, unfolding(crate::specs::Deltas::fine_delta))]
    fn fine_delta(&self, index: DeltaSetIndex) -> i64
        ensures exact { result ≡ fine_delta self.now.store index self.now.coordinates }
        ensures bound { unsigned_abs result ≤ 2 ^ 56 }
    {
        let Some(data) = self.store.data(index.outer) else {
            return 0;
        };
        match data.row(index.inner) {
            Some(row) => self.sum(&data, row),
            None => 0,
        }
    }

    /// The delta of a row, in font units. A row that isn't there has a delta of 0 (profile). A row takes at most 512 steps.
    pub fn delta(&self, index: DeltaSetIndex) -> i64
        ensures exact { result ≡ delta self.now.store index self.now.coordinates }
        ensures bound { unsigned_abs result ≤ 2 ^ 40 }
    {
        whole_units(self.fine_delta(index))
    }

    /// A value of GPOS, in font units: with indexes the value and their delta, kept an int16 (profile). Without indexes
    /// the value stays.
    pub fn value(&self, value: i32, index: Option<DeltaSetIndex>) -> i32
        requires { unsigned_abs value ≤ 32768 }
        ensures exact { result ≡ value_by_index self.now.store value index self.now.coordinates }
        ensures bound { unsigned_abs result ≤ 32768 }
    {
        match index {
            Some(index) => {
                let sum = i64::from(value) + self.delta(index);
                i32::from(kept_int16(sum))
            }
            None => value,
        }
    }
}
