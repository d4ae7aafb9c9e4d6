//! The value of two glyphs in a subtable. OpenType, "GPOS", lookup type 2: pair adjustment positioning.

ghost use Rattle.std.specs.Prelude.{◌≡◌, ◌+◌, ◌^◌, ◌<◌, ◌≤◌, IfSome, unsigned_abs};
ghost use Rattle.tt_kern.specs.Pair.{bits, values_size, advance_at, value_at, value_in_set, value_by_sets, value_by_classes, pair_value};
ghost use Rattle.tt_kern.specs.Reads.{advance_reads, value_at_reads, set_reads, by_sets_reads, by_classes_reads, pair_reads};

use crate::coverage::{class_of, coverage_index};
use crate::kerning::tally::Tally;
use crate::search::{KeySize, Keys, find};
use crate::variation::VariedPair;
use crate::words::{Words, product};

/// Two neighbouring glyphs.
#[derive(Clone, Copy)]
pub(crate) struct GlyphPair {
    pub(crate) left: u16,
    pub(crate) right: u16,
}

/// The count of bits that are set in the low byte.
fn bits(format: usize) -> usize
    ensures exact { result ≡ bits format }
    ensures bound { result ≤ 8 }
{
    format % 2
        + format / 2 % 2
        + format / 4 % 2
        + format / 8 % 2
        + format / 16 % 2
        + format / 32 % 2
        + format / 64 % 2
        + format / 128 % 2
}

/// The bytes of the values of two glyphs, each value two bytes.
fn values_size(table: &Words, at: usize, reads: &mut Tally) -> usize
    requires place { at < 2 ^ 34 }
    requires room { reads.old + 2 < 2 ^ 32 }
    ensures exact { result ≡ values_size table.now at }
    ensures bound { result ≤ 32 }
    ensures count { reads.new ≡ reads.old + 2 }
{
    2 * bits(table.word(at + 4, reads)) + 2 * bits(table.word(at + 6, reads))
}

/// XAdvance of the first glyph, in the values at an offset. It comes after XPlacement and YPlacement.
fn advance_at(table: &Words, at: usize, values: usize, reads: &mut Tally) -> i32
    requires place { at < 2 ^ 34 }
    requires values { values < 2 ^ 50 }
    requires room { reads.old + 2 < 2 ^ 32 }
    ensures exact { result ≡ advance_at table.now at values }
    ensures bound { unsigned_abs result ≤ 32768 }
    ensures count { reads.new ≡ reads.old + advance_reads table.now at }
    ensures few { reads.new ≤ reads.old + 2 }
{
    let format = table.word(at + 4, reads);
    if format / 4 % 2 == 1 {
        table.signed(values + 2 * (format % 2 + format / 2 % 2), reads)
    } else {
        0
    }
}

/// The value of the first glyph in the values at an offset, at an instance by its device table, whose parent is given.
fn value_at(
    table: &Words,
    at: usize,
    parent: usize,
    values: usize,
    variation: &VariedPair,
    reads: &mut Tally,
) -> i32
    requires place { at < 2 ^ 34 }
    requires parent { parent < 2 ^ 36 }
    requires values { values < 2 ^ 50 }
    requires room { reads.old + 7 < 2 ^ 32 }
    ensures exact { result ≡ value_at variation.now table.now at parent values }
    ensures bound { unsigned_abs result ≤ 32768 }
    ensures count { reads.new ≡ reads.old + value_at_reads variation.now table.now at parent values }
    ensures few { reads.new ≤ reads.old + 7 }
{
    let advance = advance_at(table, at, values, reads);
    variation.varied(table, at, parent, values, advance, reads)
}

/// The value by a set of second glyphs, if it has the glyph.
#[tactic(auto, unfolding(crate::specs::Reads::set_reads))]
fn value_in_set(
    table: &Words,
    at: usize,
    set: usize,
    right: usize,
    variation: &VariedPair,
    reads: &mut Tally,
) -> Option<i32>
    requires place { at < 2 ^ 34 }
    requires set { set < 2 ^ 35 }
    requires room { reads.old + 27 < 2 ^ 32 }
    ensures exact { result ≡ value_in_set variation.now table.now at set right }
    ensures bound { IfSome result (λ v. unsigned_abs v ≤ 32768) }
    ensures count { reads.new ≡ reads.old + set_reads variation.now table.now at set right }
    ensures few { reads.new ≤ reads.old + 27 }
{
    let step = 2 + values_size(table, at, reads);
    let keys = Keys {
        size: KeySize::Word,
        at: set + 2,
        step,
        count: table.word(set, reads),
    };
    match find(table, keys, right, reads) {
        Some(i) => {
            let values = set + 2 + product(step, i) + 2;
            Some(value_at(table, at, set, values, variation, reads))
        }
        None => None,
    }
}

/// Format 1: the value by the set of the first glyph.
fn value_by_sets(
    table: &Words,
    at: usize,
    index: usize,
    right: usize,
    variation: &VariedPair,
    reads: &mut Tally,
) -> Option<i32>
    requires place { at < 2 ^ 34 }
    requires index { index < 2 ^ 17 }
    requires room { reads.old + 29 < 2 ^ 32 }
    ensures exact { result ≡ value_by_sets variation.now table.now at index right }
    ensures bound { IfSome result (λ v. unsigned_abs v ≤ 32768) }
    ensures count { reads.new ≡ reads.old + by_sets_reads variation.now table.now at index right }
    ensures few { reads.new ≤ reads.old + 29 }
{
    if index < table.word(at + 8, reads) {
        let set = at + table.word(at + 10 + 2 * index, reads);
        value_in_set(table, at, set, right, variation, reads)
    } else {
        None
    }
}

/// Format 2: the value by the classes of both glyphs.
#[tactic(auto, unfolding(crate::specs::Reads::by_classes_reads))]
fn value_by_classes(
    table: &Words,
    at: usize,
    glyphs: GlyphPair,
    variation: &VariedPair,
    reads: &mut Tally,
) -> Option<i32>
    requires place { at < 2 ^ 34 }
    requires room { reads.old + 53 < 2 ^ 32 }
    ensures exact { result ≡ value_by_classes variation.now table.now at glyphs.left glyphs.right }
    ensures bound { IfSome result (λ v. unsigned_abs v ≤ 32768) }
    ensures count { reads.new ≡ reads.old + by_classes_reads variation.now table.now at glyphs.left glyphs.right }
    ensures few { reads.new ≤ reads.old + 53 }
{
    let first_classes = at + table.word(at + 8, reads);
    let first = class_of(table, first_classes, usize::from(glyphs.left), reads);
    let second_classes = at + table.word(at + 10, reads);
    let second = class_of(table, second_classes, usize::from(glyphs.right), reads);
    let first_count = table.word(at + 12, reads);
    let count = table.word(at + 14, reads);
    if first < first_count && second < count {
        let record = product(first, count) + second;
        let values = at + 16 + product(values_size(table, at, reads), record);
        Some(value_at(table, at, at, values, variation, reads))
    } else {
        None
    }
}

/// The value of two glyphs by the subtable at an offset, if the subtable applies. At most 76 numbers are read.
#[tactic(auto, unfolding(crate::specs::Reads::pair_reads))]
pub(crate) fn pair_value(
    table: &Words,
    at: usize,
    glyphs: GlyphPair,
    variation: &VariedPair,
    reads: &mut Tally,
) -> Option<i32>
    requires place { at < 2 ^ 34 }
    requires room { reads.old + 76 < 2 ^ 32 }
    ensures exact { result ≡ pair_value variation.now table.now at glyphs.left glyphs.right }
    ensures bound { IfSome result (λ v. unsigned_abs v ≤ 32768) }
    ensures count { reads.new ≡ reads.old + pair_reads variation.now table.now at glyphs.left glyphs.right }
    ensures few { reads.new ≤ reads.old + 76 }
{
    let coverage = at + table.word(at + 2, reads);
    let Some(index) = coverage_index(table, coverage, usize::from(glyphs.left), reads) else {
        return None;
    };
    match table.word(at, reads) {
        1 => value_by_sets(
            table,
            at,
            index,
            usize::from(glyphs.right),
            variation,
            reads,
        ),
        2 => value_by_classes(table, at, glyphs, variation, reads),
        _ => None,
    }
}
