//! GDEF's store, whose deltas vary the values of GPOS. OpenType, "GDEF: Glyph Definition Table", and "OpenType Layout
//! Common Table Formats", VariationIndex tables.

ghost use Rattle.std.specs.Prelude.{◌≡◌, ◌<◌, ◌≤◌, ◌^◌, length};
ghost use Rattle.tt_core.specs.Limits.{font_limit};
ghost use Rattle.tt_variation_store.specs.Gdef.{gdef_store_of, variation_index};

use crate::index::{DeltaSetIndex, index_at};
use crate::numbers::{long, word};
use crate::store::VariationStore;

/// The format of a VariationIndex table.
const VARIATION_INDEX: usize = 0x8000;

/// GDEF's store, by the font's count of axes. None if there is none: GDEF has 18 bytes, its version is 1.3 or a later one of
/// major version 1, its offset of a store is not 0, and the store is whole (profile).
pub fn gdef_store<'a>(table: &'a [u8], axes: usize) -> Option<VariationStore<'a>>
    requires size { length table.now ≤ font_limit }
    requires axes { axes ≤ 64 }
    ensures { result ≡ gdef_store_of table.now axes }
{
    if table.len() < 18 || word(table, 0) != 1 || word(table, 2) < 3 {
        return None;
    }
    let at = long(table, 14);
    if at == 0 {
        return None;
    }
    VariationStore::open(table, at, axes)
}

/// The indexes of a device table, by its offset from its parent, whose offset in the table is given. None if the offset is
/// 0, or the device table is no VariationIndex table.
pub fn variation_index(table: &[u8], parent: usize, offset: usize) -> Option<DeltaSetIndex>
    requires parent { parent < 2 ^ 60 }
    requires offset { offset < 65536 }
    ensures { result ≡ variation_index table.now parent offset }
{
    let device = parent + offset;
    if offset == 0 || word(table, device + 4) != VARIATION_INDEX {
        return None;
    }
    Some(index_at(table, device))
}
