//! The table MVAR: heights of an instance. OpenType, "MVAR: Metrics Variations Table".

ghost use Rattle.std.specs.Prelude.{◌≡◌, ◌+◌, ◌-◌, ◌<◌, ◌≤◌, ◌^◌, length, IfSome, unsigned_abs};
ghost use Rattle.tt_core.specs.Limits.{font_limit};
ghost use Rattle.tt_core.specs.Numbers.{unsigned_at};
ghost use Rattle.tt_variation_store.specs.Mvar.{mvar_of, height_tag, record_place, record_of, record_delta, height_of};

use crate::at_instance::StoreAtInstance;
use crate::index::index_at;
use crate::numbers::{kept_int16, long, product, word};
use crate::store::VariationStore;
use std::marker::Model;
use tt_axes::InstanceCoordinates;

/// A height of hhea that a record of MVAR moves.
#[derive(Clone, Copy)]
pub enum Height {
    /// `hasc`, the ascent.
    Ascent,
    /// `hdsc`, the descent.
    Descent,
    /// `hlgp`, the line gap.
    LineGap,
}

/// The tag of the records of a height.
fn tag_of(height: Height) -> usize
    ensures { result ≡ unsigned_at (height_tag height) 0 4 }
{
    match height {
        Height::Ascent => 0x6861_7363,
        Height::Descent => 0x6864_7363,
        Height::LineGap => 0x686C_6770,
    }
}

/// A table MVAR that is there. Clauses see its store.
#[derive(Drop)]
pub struct Mvar<'a> {
    store: VariationStore<'a>,
}

impl<'a> Model for Mvar<'a> {
    ghost use Rattle.tt_variation_store.specs.Store.{Store};

    ghost Value = { Store };

    ghost view = { λ m. m.store };
}

/// The offset of a record.
fn record_place(table: &[u8], i: usize) -> usize
    requires { i < 65536 }
    ensures exact { result ≡ record_place table.now i }
    ensures near { result < 2 ^ 36 }
{
    12 + product(word(table, 6), i)
}

/// The first record of a height.
#[tactic(auto, using(tt_core::specs::Search::first_from_next, tt_core::specs::Search::first_from_here))]
fn record_of(table: &[u8], height: Height) -> Option<usize>
    ensures exact { result ≡ record_of table.now height }
    ensures bound { IfSome result (λ i. i < 65536) }
{
    let tag = tag_of(height);
    for i in 0..word(table, 8) {
        if long(table, record_place(table, i)) == tag {
            return Some(i);
        }
    }
    None
}

impl<'a> Mvar<'a> {
    /// The table, by the font's count of axes. None if the table is not there: it has 12 bytes, its major version is 1, its
    /// records have at least 8 bytes, and its store is whole (profile).
    pub fn open(table: &'a [u8], axes: usize) -> Option<Mvar<'a>>
        requires size { length table.now ≤ font_limit }
        requires axes { axes ≤ 64 }
        ensures { result ≡ mvar_of table.now axes }
    {
        if table.len() < 12 || word(table, 0) != 1 || word(table, 6) < 8 {
            return None;
        }
        match VariationStore::open(table, word(table, 10), axes) {
            Some(store) => Some(Mvar { store }),
            None => None,
        }
    }

    /// A copy. The bytes are not copied.
    pub fn copy(&self) -> Mvar<'a>
        ensures { result ≡ self.now }
    {
        Mvar {
            store: self.store.copy(),
        }
    }

    /// How much higher a height is at an instance, in font units.
    fn delta(&self, height: Height, coordinates: &InstanceCoordinates) -> i64
        ensures exact { result ≡ record_delta self.now coordinates.now (record_of self.now.table height) }
        ensures bound { unsigned_abs result ≤ 2 ^ 40 }
    {
        let table = self.store.table();
        match record_of(table, height) {
            Some(i) => {
                let index = index_at(table, record_place(table, i) + 4);
                StoreAtInstance::new(self.store.copy(), coordinates).delta(index)
            }
            None => 0,
        }
    }

    /// A height at an instance, in font units: the height that hhea has, and the delta of its first record, kept an int16
    /// (profile).
    pub fn height(&self, height: Height, units: i16, coordinates: &InstanceCoordinates) -> i16
        ensures { result ≡ height_of self.now height units coordinates.now }
    {
        kept_int16(i64::from(units) + self.delta(height, coordinates))
    }
}
