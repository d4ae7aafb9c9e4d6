//! The pair subtables of the feature kern. OpenType, "GPOS", lookup types 2 and 9.

ghost use Rattle.std.specs.Prelude.{◌≡◌, ◌+◌, ◌++◌, ◌^◌, ◌<◌, ◌≤◌, take, length, Some, IfSome};
ghost use Rattle.tt_kern.specs.Feature.{looked_at};
ghost use Rattle.tt_kern.specs.Listed.{pairs_in, pairs_by};
ghost use Rattle.tt_kern.specs.Pairs.{words_at, listed_by, lookup_place, subtable_count, extended, pair_place_by};
ghost use Rattle.tt_kern.specs.Reads.{extended_reads, place_reads, places_reads, pairs_reads};
ghost use Rattle.tt_kern.specs.Words.{word};

pub(crate) mod list;
mod numbers;

use crate::feature::looked_at;
use crate::kerning::tally::Tally;
use crate::words::Words;
use list::{PairList, PairSubtable};
use numbers::Numbers;

/// The numbers of lookups that a feature lists, at most 256 (profile).
fn listed_by(table: &Words, feature: usize, reads: &mut Tally) -> Numbers
    requires feature { feature < 2 ^ 20 }
    requires room { reads.old + 257 < 2 ^ 32 }
    ensures exact { result ≡ listed_by table.now feature }
    ensures count { reads.new ≡ reads.old + 1 + looked_at (word table.now (feature + 2)) }
    ensures few { reads.new ≤ reads.old + 257 }
{
    let mut numbers = Numbers::new();
    for i in 0..looked_at(table.word(feature + 2, reads)) {
        numbers.push(table.word(feature + 4 + 2 * i, reads));
    }
    numbers
}

/// The offset of a lookup by number.
fn lookup_place(table: &Words, number: usize, reads: &mut Tally) -> usize
    requires number { number < 65536 }
    requires room { reads.old + 2 < 2 ^ 32 }
    ensures exact { result ≡ lookup_place table.now number }
    ensures bound { result < 131072 }
    ensures count { reads.new ≡ reads.old + 2 }
{
    let list = table.word(8, reads);
    list + table.word(list + 2 + 2 * number, reads)
}

/// The subtable of an extension, if that is a pair subtable.
fn extended(table: &Words, at: usize, reads: &mut Tally) -> Option<usize>
    requires place { at < 2 ^ 20 }
    requires room { reads.old + 3 < 2 ^ 32 }
    ensures exact { result ≡ extended table.now at }
    ensures near { IfSome result (λ p. p < 2 ^ 33) }
    ensures count { reads.new ≡ reads.old + extended_reads table.now at }
    ensures few { reads.new ≤ reads.old + 3 }
{
    let format = table.word(at, reads);
    let lookup_type = table.word(at + 2, reads);
    if format == 1 && lookup_type == 2 {
        Some(at + table.long(at + 4, reads))
    } else {
        None
    }
}

/// By its lookup's type, the offset of a subtable as that of a pair subtable.
fn pair_place(table: &Words, lookup_type: usize, at: usize, reads: &mut Tally) -> Option<usize>
    requires place { at < 2 ^ 20 }
    requires room { reads.old + 3 < 2 ^ 32 }
    ensures exact { result ≡ pair_place_by lookup_type table.now at }
    ensures near { IfSome result (λ p. p < 2 ^ 33) }
    ensures count { reads.new ≡ reads.old + place_reads lookup_type table.now at }
    ensures few { reads.new ≤ reads.old + 3 }
{
    match lookup_type {
        2 => Some(at),
        9 => extended(table, at, reads),
        _ => None,
    }
}

/// The count of a lookup's subtables that are looked at, at most 64 (profile).
fn subtable_count(table: &Words, lookup: usize, reads: &mut Tally) -> usize
    requires lookup { lookup < 131072 }
    requires room { reads.old + 1 < 2 ^ 32 }
    ensures exact { result ≡ subtable_count table.now lookup }
    ensures bound { result ≤ 64 }
    ensures count { reads.new ≡ reads.old + 1 }
{
    let count = table.word(lookup + 4, reads);
    if count > 64 { 64 } else { count }
}

/// Notes the pair subtables of the lookup at an offset. At most 258 numbers are read: the type, the count, and 4 for each
/// of 64 subtables.
fn note_lookup(table: &Words, i: usize, lookup: usize, pairs: &mut PairList, reads: &mut Tally)
    requires number { i < 32 }
    requires lookup { lookup < 131072 }
    requires listed { length pairs.old ≤ 64 }
    requires room { reads.old + 258 < 2 ^ 32 }
    ensures exact { pairs.new ≡ take 64 (pairs.old ++ pairs_in table.now i lookup (subtable_count table.now lookup)) }
    ensures count { reads.new ≡ reads.old + 2 + places_reads table.now lookup (subtable_count table.now lookup) }
    ensures few { reads.new ≤ reads.old + 258 }
{
    let lookup_type = table.word(lookup, reads);
    for k in 0..subtable_count(table, lookup, reads) {
        let subtable = lookup + table.word(lookup + 6 + 2 * k, reads);
        if let Some(at) = pair_place(table, lookup_type, subtable, reads) {
            pairs.note(PairSubtable { lookup: i, at });
        }
    }
}

/// The pair subtables of a feature's lookups, by rising numbers of the lookups. At most 8,579 numbers are read: 257
/// numbers of lookups, the count of lookups and its offset, and 260 for each of 32 lookups.
fn pairs_by(table: &Words, feature: usize, reads: &mut Tally) -> PairList
    requires feature { feature < 2 ^ 20 }
    requires room { reads.old + 8579 < 2 ^ 32 }
    ensures exact { result ≡ pairs_by table.now (Some feature) }
    ensures count { reads.new ≡ reads.old + pairs_reads table.now (Some feature) }
    ensures few { reads.new ≤ reads.old + 8579 }
{
    let mut pairs = PairList::new();
    let numbers = listed_by(table, feature, reads);
    let list = table.word(8, reads);
    let count = table.word(list, reads);
    let mut low = 0;
    for i in 0..32 {
        let number = numbers.next(low, count);
        if number >= count {
            return pairs;
        }
        let lookup = lookup_place(table, number, reads);
        note_lookup(table, i, lookup, &mut pairs, reads);
        low = number + 1;
    }
    pairs
}

/// The pair subtables of the feature; none without a feature.
pub(crate) fn pairs_of(table: &Words, feature: Option<usize>, reads: &mut Tally) -> PairList
    requires near { IfSome feature (λ p. p < 2 ^ 20) }
    requires room { reads.old + 8579 < 2 ^ 32 }
    ensures exact { result ≡ pairs_by table.now feature }
    ensures count { reads.new ≡ reads.old + pairs_reads table.now feature }
    ensures few { reads.new ≤ reads.old + 8579 }
{
    match feature {
        Some(feature) => pairs_by(table, feature, reads),
        None => PairList::new(),
    }
}
