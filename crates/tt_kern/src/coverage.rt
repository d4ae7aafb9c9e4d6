//! The index of a glyph in a coverage, and the class of a glyph. OpenType, "OpenType Layout Common Table Formats".

ghost use Rattle.std.specs.Prelude.{◌≡◌, ◌+◌, ◌^◌, ◌<◌, ◌≤◌, IfSome};
ghost use Rattle.tt_kern.specs.Words.{word};
ghost use Rattle.tt_kern.specs.Reads.{if_some, range_reads, coverage_reads, listed_reads, class_reads};
ghost use Rattle.tt_kern.specs.Coverage.{range_of, ranged_index, coverage_index, listed_class, ranged_class, class_of};

use crate::kerning::tally::Tally;
use crate::search::{KeySize, Keys, find, reach};
use crate::words::Words;

/// The offset of a glyph's range: its first glyph, its last glyph and a number.
#[tactic(auto, unfolding(crate::specs::Reads::range_reads))]
fn range_of(table: &Words, at: usize, glyph: usize, reads: &mut Tally) -> Option<usize>
    requires place { at < 2 ^ 50 }
    requires room { reads.old + 18 < 2 ^ 32 }
    ensures exact { result ≡ range_of table.now at glyph }
    ensures near { IfSome result (λ p. p < 2 ^ 51) }
    ensures from { IfSome result (λ p. word table.now p ≤ glyph) }
    ensures count { reads.new ≡ reads.old + range_reads table.now at glyph }
    ensures few { reads.new ≤ reads.old + 18 }
{
    let keys = Keys {
        size: KeySize::Word,
        at: at + 6,
        step: 6,
        count: table.word(at + 2, reads),
    };
    let i = reach(table, keys, glyph, reads);
    if i >= keys.count {
        return None;
    }
    let range = at + 4 + 6 * i;
    if table.word(range, reads) <= glyph {
        Some(range)
    } else {
        None
    }
}

fn ranged_index(table: &Words, at: usize, glyph: usize, reads: &mut Tally) -> Option<usize>
    requires place { at < 2 ^ 50 }
    requires glyph { glyph < 65536 }
    requires room { reads.old + 20 < 2 ^ 32 }
    ensures exact { result ≡ ranged_index table.now glyph (range_of table.now at glyph) }
    ensures bound { IfSome result (λ i. i < 2 ^ 17) }
    ensures count { reads.new ≡ reads.old + range_reads table.now at glyph + if_some (range_of table.now at glyph) 2 }
    ensures few { reads.new ≤ reads.old + 20 }
{
    match range_of(table, at, glyph, reads) {
        Some(range) => {
            let number = table.word(range + 4, reads);
            Some(number + (glyph - table.word(range, reads)))
        }
        None => None,
    }
}

/// The index of a glyph in the coverage at an offset.
#[tactic(auto, unfolding(crate::specs::Reads::coverage_reads))]
pub(crate) fn coverage_index(
    table: &Words,
    at: usize,
    glyph: usize,
    reads: &mut Tally,
) -> Option<usize>
    requires place { at < 2 ^ 50 }
    requires glyph { glyph < 65536 }
    requires room { reads.old + 21 < 2 ^ 32 }
    ensures exact { result ≡ coverage_index table.now at glyph }
    ensures bound { IfSome result (λ i. i < 2 ^ 17) }
    ensures count { reads.new ≡ reads.old + coverage_reads table.now at glyph }
    ensures few { reads.new ≤ reads.old + 21 }
{
    match table.word(at, reads) {
        1 => {
            let keys = Keys {
                size: KeySize::Word,
                at: at + 4,
                step: 2,
                count: table.word(at + 2, reads),
            };
            find(table, keys, glyph, reads)
        }
        2 => ranged_index(table, at, glyph, reads),
        _ => None,
    }
}

fn listed_class(table: &Words, at: usize, glyph: usize, reads: &mut Tally) -> usize
    requires place { at < 2 ^ 50 }
    requires glyph { glyph < 65536 }
    requires room { reads.old + 3 < 2 ^ 32 }
    ensures exact { result ≡ listed_class table.now at glyph }
    ensures bound { result < 65536 }
    ensures count { reads.new ≡ reads.old + listed_reads table.now at glyph }
    ensures few { reads.new ≤ reads.old + 3 }
{
    let first = table.word(at + 2, reads);
    let count = table.word(at + 4, reads);
    if first <= glyph && glyph - first < count {
        table.word(at + 6 + 2 * (glyph - first), reads)
    } else {
        0
    }
}

fn ranged_class(table: &Words, at: usize, glyph: usize, reads: &mut Tally) -> usize
    requires place { at < 2 ^ 50 }
    requires room { reads.old + 19 < 2 ^ 32 }
    ensures exact { result ≡ ranged_class table.now (range_of table.now at glyph) }
    ensures bound { result < 65536 }
    ensures count { reads.new ≡ reads.old + range_reads table.now at glyph + if_some (range_of table.now at glyph) 1 }
    ensures few { reads.new ≤ reads.old + 19 }
{
    match range_of(table, at, glyph, reads) {
        Some(range) => table.word(range + 4, reads),
        None => 0,
    }
}

/// The class of a glyph by the class definition at an offset. A glyph of no list and no range has class 0.
#[tactic(auto, unfolding(crate::specs::Reads::class_reads))]
pub(crate) fn class_of(table: &Words, at: usize, glyph: usize, reads: &mut Tally) -> usize
    requires place { at < 2 ^ 50 }
    requires glyph { glyph < 65536 }
    requires room { reads.old + 20 < 2 ^ 32 }
    ensures exact { result ≡ class_of table.now at glyph }
    ensures bound { result < 65536 }
    ensures count { reads.new ≡ reads.old + class_reads table.now at glyph }
    ensures few { reads.new ≤ reads.old + 20 }
{
    match table.word(at, reads) {
        1 => listed_class(table, at, glyph, reads),
        2 => ranged_class(table, at, glyph, reads),
        _ => 0,
    }
}
