//! An item variation store. OpenType, "OpenType Font Variations Common Table Formats".

ghost use Rattle.std.specs.Prelude.{◌≡◌, ◌+◌, ◌*◌, ◌^◌, ◌<◌, ◌≤◌, length};
ghost use Rattle.tt_core.specs.Limits.{font_limit};
ghost use Rattle.tt_variation_store.specs.Items.{data_of};
ghost use Rattle.tt_variation_store.specs.Store.{store_at, region_list};

use crate::data::ItemData;
use crate::numbers::{long, word};
use crate::regions::RegionList;
use std::marker::Model;

/// An item variation store that is there. Clauses see the bytes of its table, and its offset in the table.
#[derive(Drop)]
pub struct VariationStore<'a> {
    table: &'a [u8],
    at: usize,
    regions: RegionList<'a>,
    /// The count of item variation data.
    count: usize,
}

impl<'a> Model for VariationStore<'a> {
    ghost use Rattle.std.specs.Prelude.{◌≡◌, ◌<◌, ◌≤◌, ◌^◌, length};
    ghost use Rattle.tt_core.specs.Limits.{font_limit};
    ghost use Rattle.tt_variation_store.specs.Store.{Store, region_list, data_count};

    ghost Value = { Store };

    ghost view = { λ s. record { table = s.table.now; at = s.at } };

    ghost invariant = { λ s. (length s.table.now ≤ font_limit) × (s.at < 2 ^ 32)
        × (s.regions ≡ region_list (record { table = s.table.now; at = s.at }))
        × (s.count ≡ data_count (record { table = s.table.now; at = s.at })) × (s.count < 65536) };
}

impl<'a> VariationStore<'a> {
    /// The store at an offset of a table, by the font's count of axes. None if the store isn't whole there: its format is
    /// 1, it has item variation data, its regions have the font's axes, there are at most 512 of them, and both lists fit (profile).
    pub fn open(table: &'a [u8], at: usize, axes: usize) -> Option<VariationStore<'a>>
        requires size { length table.now ≤ font_limit }
        requires place { at < 2 ^ 32 }
        requires axes { axes ≤ 64 }
        ensures { result ≡ store_at table.now at axes }
    {
        let count = word(table, at + 6);
        if word(table, at) != 1 || count == 0 || table.len() < at + 8 + 4 * count {
            return None;
        }
        match RegionList::open(table, at + long(table, at + 2), axes) {
            Some(regions) => Some(VariationStore {
                table,
                at,
                regions,
                count,
            }),
            None => None,
        }
    }

    /// A copy. The bytes are not copied.
    pub fn copy(&self) -> VariationStore<'a>
        ensures { result ≡ self.now }
    {
        VariationStore {
            table: self.table,
            at: self.at,
            regions: self.regions.copy(),
            count: self.count,
        }
    }

    /// The bytes of the store's table.
    pub(crate) fn table(&self) -> &'a [u8]
        ensures exact { result.now ≡ self.now.table }
        ensures size { length result.now ≤ font_limit }
    {
        self.table
    }

    /// The store's regions.
    pub(crate) fn regions(&self) -> &RegionList<'a>
        ensures { result.now ≡ region_list self.now }
    {
        &self.regions
    }

    /// The item variation data with an outer index.
    pub(crate) fn data(&self, outer: usize) -> Option<ItemData<'a>>
        ensures { result ≡ data_of self.now outer }
    {
        if outer >= self.count {
            return None;
        }
        let offset = long(self.table, self.at + 8 + 4 * outer);
        Some(ItemData::read(self.table, self.at + offset))
    }
}
