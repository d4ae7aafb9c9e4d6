//! Item variation data: rows of deltas, a delta for each of some regions. OpenType, "OpenType Font Variations Common Table
//! Formats".

ghost use Rattle.std.specs.Prelude.{◌≡◌, ◌+◌, ◌*◌, ◌^◌, ◌<◌, ◌≤◌, length, IfSome, unsigned_abs};
ghost use Rattle.tt_core.specs.Limits.{font_limit};
ghost use Rattle.tt_variation_store.specs.Items.{ItemData, index_count, region_index, unit, row_size, row_of, delta_in, most_regions};

use crate::numbers::{product, signed, word};
use std::marker::Model;

/// The most numbers of a row (profile). 76 is the most in 151 variable fonts.
const MOST_REGIONS: usize = 512;

/// Item variation data. Clauses see the bytes of the store's table, and the offset in the table.
#[derive(Drop)]
pub(crate) struct ItemData<'a> {
    table: &'a [u8],
    at: usize,
    /// The count of rows.
    items: usize,
    /// The count of a row's greater numbers, which come before the lesser.
    words: usize,
    /// Whether the greater numbers are int32 and the lesser int16, in place of int16 and int8.
    has_longs: bool,
    /// The count of a row's numbers.
    regions: usize,
}

impl<'a> Model for ItemData<'a> {
    ghost use Rattle.std.specs.Prelude.{◌≡◌, ◌<◌, ◌≤◌, ◌^◌, length};
    ghost use Rattle.tt_core.specs.Limits.{font_limit};
    ghost use Rattle.tt_variation_store.specs.Items.{item_count, word_count, has_long_words, index_count};
    ghost use Rattle.tt_variation_store.specs.Items as item_variation;

    ghost Value = { item_variation.ItemData };

    ghost view = { λ d. record { table = d.table.now; at = d.at } };

    ghost invariant = { λ d. (length d.table.now ≤ font_limit) × (d.at < 2 ^ 33)
        × (d.items ≡ item_count (record { table = d.table.now; at = d.at })) × (d.items < 65536)
        × (d.words ≡ word_count (record { table = d.table.now; at = d.at })) × (d.words < 32768)
        × (d.has_longs ≡ has_long_words (record { table = d.table.now; at = d.at }))
        × (d.regions ≡ index_count (record { table = d.table.now; at = d.at })) × (d.regions < 65536) };
}

impl<'a> ItemData<'a> {
    /// The item variation data at an offset of a table.
    pub(crate) fn read(table: &'a [u8], at: usize) -> ItemData<'a>
        requires size { length table.now ≤ font_limit }
        requires place { at < 2 ^ 33 }
        ensures { result ≡ record { table = table.now; at = at } }
    {
        let words = word(table, at + 2);
        ItemData {
            table,
            at,
            items: word(table, at),
            words: words % 32768,
            has_longs: words / 32768 == 1,
            regions: word(table, at + 4),
        }
    }

    /// Bytes of a lesser number.
    fn unit(&self) -> usize
        ensures exact { result ≡ unit self.now }
        ensures some { 0 < result }
        ensures most { result ≤ 2 }
    {
        if self.has_longs { 2 } else { 1 }
    }

    /// Bytes of a row.
    fn row_size(&self) -> usize
        ensures exact { result ≡ row_size self.now }
        ensures bound { result < 2 ^ 18 }
    {
        product(self.unit(), self.words + self.regions)
    }

    /// The offset of a row, if the row is there. A row has at most 512 numbers (profile).
    pub(crate) fn row(&self, inner: usize) -> Option<usize>
        ensures exact { result ≡ row_of self.now inner }
        ensures near { IfSome result (λ row. row ≤ font_limit) }
        ensures few { IfSome result (λ _. index_count self.now ≤ most_regions) }
    {
        if inner >= self.items || self.words > self.regions || self.regions > MOST_REGIONS {
            return None;
        }
        let size = self.row_size();
        let row = self.at + 6 + 2 * self.regions + product(size, inner);
        if self.table.len() < row + size {
            None
        } else {
            Some(row)
        }
    }

    /// The count of a row's numbers.
    pub(crate) fn regions(&self) -> usize
        ensures { result ≡ index_count self.now }
    {
        self.regions
    }

    /// Number i of the row at an offset.
    pub(crate) fn delta(&self, row: usize, i: usize) -> i64
        requires row { row ≤ font_limit }
        requires i { i < 65536 }
        ensures exact { result ≡ delta_in self.now row i }
        ensures bound { unsigned_abs result ≤ 2 ^ 31 }
    {
        let unit = self.unit();
        if i < self.words {
            signed(self.table, row + product(2 * unit, i), 2 * unit)
        } else {
            signed(self.table, row + product(unit, self.words + i), unit)
        }
    }

    /// The region of number i of each row.
    pub(crate) fn region(&self, i: usize) -> usize
        requires { i < 65536 }
        ensures exact { result ≡ region_index self.now i }
        ensures bound { result < 65536 }
    {
        word(self.table, self.at + 6 + 2 * i)
    }
}
