//! The binary search for a key in a list of records.

ghost use Rattle.std.specs.Prelude.{◌≡◌, ◌+◌, ◌*◌, ◌^◌, ◌<◌, ◌≤◌, IfSome};
ghost use Rattle.tt_kern.specs.Halves.{asked, reached};
ghost use Rattle.tt_kern.specs.Reads.{found_reads};
ghost use Rattle.tt_kern.specs.Search.{key_at, is_at_least, found};

use crate::kerning::tally::Tally;
use crate::words::{Words, product};

/// The size of a key.
#[derive(Clone, Copy)]
pub(crate) enum KeySize {
    /// A uint16: a glyph.
    Word,
    /// A uint32: two glyphs.
    Long,
}

/// The keys of a list of records: their size, the offset of the first, the bytes from each to the next, and their count.
/// Their order is not tested.
#[derive(Clone, Copy)]
pub(crate) struct Keys {
    pub(crate) size: KeySize,
    pub(crate) at: usize,
    pub(crate) step: usize,
    pub(crate) count: usize,
}

fn key_at(table: &Words, size: KeySize, at: usize, reads: &mut Tally) -> usize
    requires { reads.old + 1 < 2 ^ 32 }
    ensures exact { result ≡ key_at size table.now at }
    ensures count { reads.new ≡ reads.old + 1 }
{
    match size {
        KeySize::Word => table.word(at, reads),
        KeySize::Long => table.long(at, reads),
    }
}

/// The number of the record where a binary search for a key ends, or the count of records.
pub(crate) fn reach(table: &Words, keys: Keys, key: usize, reads: &mut Tally) -> usize
    requires place { keys.at < 2 ^ 60 }
    requires step { keys.step < 65536 }
    requires count { keys.count < 65536 }
    requires room { reads.old + 16 < 2 ^ 32 }
    ensures exact { result ≡ reached keys.count (is_at_least keys.size table.now keys.at keys.step key) }
    ensures bound { result ≤ keys.count }
    ensures count { reads.new ≡ reads.old + asked keys.count (is_at_least keys.size table.now keys.at keys.step key) }
    ensures few { reads.new ≤ reads.old + 16 }
{
    let mut low = 0;
    let mut high = keys.count;
    while low < high {
        let middle = low + (high - low) / 2;
        let place = keys.at + product(keys.step, middle);
        if key_at(table, keys.size, place, reads) < key {
            low = middle + 1;
        } else {
            high = middle;
        }
    }
    low
}

/// The number of the record that a binary search finds for a key.
pub(crate) fn find(table: &Words, keys: Keys, key: usize, reads: &mut Tally) -> Option<usize>
    requires place { keys.at < 2 ^ 60 }
    requires step { keys.step < 65536 }
    requires count { keys.count < 65536 }
    requires room { reads.old + 17 < 2 ^ 32 }
    ensures exact { result ≡ found keys.size table.now keys.at keys.step keys.count key }
    ensures bound { IfSome result (λ i. i < keys.count) }
    ensures count { reads.new ≡ reads.old + found_reads keys.size table.now keys.at keys.step keys.count key }
    ensures few { reads.new ≤ reads.old + 17 }
{
    let i = reach(table, keys, key, reads);
    if i >= keys.count {
        return None;
    }
    let place = keys.at + product(keys.step, i);
    if key_at(table, keys.size, place, reads) == key {
        Some(i)
    } else {
        None
    }
}
