//! The delta-set index map of HVAR. OpenType, "OpenType Font Variations Common Table Formats".

ghost use Rattle.std.specs.Prelude.{◌≡◌, ◌+◌, ◌^◌, ◌<◌, ◌≤◌};
ghost use Rattle.tt_variation_store.specs.IndexMap.{entry_count, first_entry, entry_size, inner_bits, entry_number, index_in, index_of};

use crate::index::DeltaSetIndex;
use crate::numbers::{long, number, product, word};

/// The count of a map's entries.
fn entry_count(table: &[u8], map: usize) -> usize
    requires { map < 2 ^ 32 }
    ensures { result ≡ entry_count table.now map }
{
    match number(table, map, 1) {
        0 => word(table, map + 2),
        1 => long(table, map + 2),
        _ => 0,
    }
}

/// The offset of a map's first entry.
fn first_entry(table: &[u8], map: usize) -> usize
    requires { map < 2 ^ 32 }
    ensures exact { result ≡ first_entry table.now map }
    ensures near { result ≤ map + 6 }
{
    if number(table, map, 1) == 0 {
        map + 4
    } else {
        map + 6
    }
}

/// Bytes of an entry.
fn entry_size(table: &[u8], map: usize) -> usize
    requires { map < 2 ^ 32 }
    ensures exact { result ≡ entry_size table.now map }
    ensures some { 0 < result }
    ensures most { result ≤ 4 }
{
    number(table, map + 1, 1) / 16 % 4 + 1
}

/// Bits of an entry's inner index.
fn inner_bits(table: &[u8], map: usize) -> usize
    requires { map < 2 ^ 32 }
    ensures exact { result ≡ inner_bits table.now map }
    ensures most { result ≤ 16 }
{
    number(table, map + 1, 1) % 16 + 1
}

/// The entry of a glyph. Glyphs past the entries have the last one.
fn entry_number(count: usize, glyph: usize) -> usize
    requires some { 0 < count }
    requires glyph { glyph < 65536 }
    ensures exact { result ≡ entry_number count glyph }
    ensures most { result < 65536 }
{
    if glyph < count { glyph } else { count - 1 }
}

/// The two indexes that an entry holds.
fn index_in(bits: usize, entry: usize) -> DeltaSetIndex
    requires { bits ≤ 16 }
    ensures { result ≡ index_in bits entry }
{
    let span = 1 << bits;
    DeltaSetIndex {
        outer: entry / span,
        inner: entry % span,
    }
}

/// The indexes of a glyph by the map at an offset of a table. At offset 0 there is no map, and the glyph is the inner
/// index.
pub(crate) fn index_of(table: &[u8], map: usize, glyph: usize) -> DeltaSetIndex
    requires map { map < 2 ^ 32 }
    requires glyph { glyph < 65536 }
    ensures { result ≡ index_of table.now map glyph }
{
    let count = entry_count(table, map);
    if map == 0 || count == 0 {
        return DeltaSetIndex {
            outer: 0,
            inner: glyph,
        };
    }
    let size = entry_size(table, map);
    let place = first_entry(table, map) + product(size, entry_number(count, glyph));
    index_in(inner_bits(table, map), number(table, place, size))
}
