//! The table HVAR: advances of an instance. OpenType, "HVAR: Horizontal Metrics Variations Table".

ghost use Rattle.std.specs.Prelude.{◌≡◌, ◌≤◌, length};
ghost use Rattle.tt_core.specs.Limits.{font_limit};
ghost use Rattle.tt_variation_store.specs.Hvar.{hvar_of, advance_of};

use crate::at_instance::StoreAtInstance;
use crate::index_map::index_of;
use crate::numbers::{kept_uint16, long, word};
use crate::store::VariationStore;
use std::marker::Model;
use tt_axes::InstanceCoordinates;

/// A table HVAR that is there. Clauses see its store.
#[derive(Drop)]
pub struct Hvar<'a> {
    store: VariationStore<'a>,
    /// The offset of the map of advances, or 0.
    map: usize,
}

impl<'a> Model for Hvar<'a> {
    ghost use Rattle.std.specs.Prelude.{◌≡◌, ◌<◌, ◌^◌};
    ghost use Rattle.tt_variation_store.specs.Numbers.{long};
    ghost use Rattle.tt_variation_store.specs.Store.{Store};

    ghost Value = { Store };

    ghost view = { λ h. h.store };

    ghost invariant = { λ h. (h.map ≡ long h.store.table 8) × (h.map < 2 ^ 32) };
}

impl<'a> Hvar<'a> {
    /// The table, by the font's count of axes. None if the table is not there: it has 20 bytes, its major version is 1, and
    /// its store is whole (profile).
    pub fn open(table: &'a [u8], axes: usize) -> Option<Hvar<'a>>
        requires size { length table.now ≤ font_limit }
        requires axes { axes ≤ 64 }
        ensures { result ≡ hvar_of table.now axes }
    {
        if table.len() < 20 || word(table, 0) != 1 {
            return None;
        }
        match VariationStore::open(table, long(table, 4), axes) {
            Some(store) => Some(Hvar {
                store,
                map: long(table, 8),
            }),
            None => None,
        }
    }

    /// A copy. The bytes are not copied.
    pub fn copy(&self) -> Hvar<'a>
        ensures { result ≡ self.now }
    {
        Hvar {
            store: self.store.copy(),
            map: self.map,
        }
    }

    /// A glyph's advance at an instance, in font units: the advance that hmtx has, and the glyph's delta, kept within 0
    /// to 65535 (profile).
    pub fn advance(&self, glyph: u16, advance: u16, coordinates: &InstanceCoordinates) -> u16
        ensures { result ≡ advance_of self.now glyph advance coordinates.now }
    {
        let index = index_of(self.store.table(), self.map, usize::from(glyph));
        let store = StoreAtInstance::new(self.store.copy(), coordinates);
        kept_uint16(i64::from(advance) + store.delta(index))
    }
}
