//! The feature kern of GPOS for Latin. OpenType, "OpenType Layout Common Table Formats".

ghost use Rattle.std.specs.Prelude.{◌≡◌, ◌+◌, ◌^◌, ◌<◌, ◌≤◌, Some, IfSome};
ghost use Rattle.tt_core.specs.Search.{first_below};
ghost use Rattle.tt_kern.specs.Words.{word, long};
ghost use Rattle.tt_kern.specs.Feature.{looked_at, offset_from, has_tag, record_offset, script_with, script_of, language_in, is_kern_of, feature_in, has_lists, feature_of};
ghost use Rattle.tt_kern.specs.Reads.{script_reads, scripts_reads, language_reads, features_reads, feature_reads};

use crate::kerning::tally::Tally;
use crate::words::Words;

const LATIN: usize = 0x6C61_746E;

const DEFAULT_SCRIPT: usize = 0x4446_4C54;

const KERN: usize = 0x6B65_726E;

/// As many of a list's entries as are looked at (profile).
pub(crate) fn looked_at(count: usize) -> usize
    ensures exact { result ≡ looked_at count }
    ensures bound { result ≤ 256 }
{
    if count > 256 { 256 } else { count }
}

/// The place of an offset from another place on. An offset of 0 has none.
fn offset_from(from: usize, offset: usize) -> Option<usize>
    requires from { from < 2 ^ 20 }
    requires offset { offset < 65536 }
    ensures exact { result ≡ offset_from from offset }
    ensures near { IfSome result (λ p. p < from + 65536) }
{
    if offset == 0 {
        None
    } else {
        Some(from + offset)
    }
}

fn has_tag(table: &Words, list: usize, tag: usize, i: usize, reads: &mut Tally) -> bool
    requires list { list < 65536 }
    requires record { i < 65536 }
    requires room { reads.old + 1 < 2 ^ 32 }
    ensures exact { result ≡ has_tag table.now list tag i }
    ensures count { reads.new ≡ reads.old + 1 }
{
    table.long(list + 2 + 6 * i, reads) == tag
}

fn record_offset(table: &Words, list: usize, i: usize, reads: &mut Tally) -> usize
    requires list { list < 65536 }
    requires record { i < 65536 }
    requires room { reads.old + 1 < 2 ^ 32 }
    ensures exact { result ≡ record_offset table.now list i }
    ensures bound { result < 65536 }
    ensures count { reads.new ≡ reads.old + 1 }
{
    table.word(list + 6 + 6 * i, reads)
}

/// The first script with the tag. At most 258 numbers are read: the count, 256 tags and an offset.
#[tactic(auto, using(tt_core::specs::Search::first_from_next, tt_core::specs::Search::first_from_here))]
fn script_with(table: &Words, list: usize, tag: usize, reads: &mut Tally) -> Option<usize>
    requires list { list < 65536 }
    requires room { reads.old + 258 < 2 ^ 32 }
    ensures exact { result ≡ script_with table.now list tag }
    ensures near { IfSome result (λ p. p < 131072) }
    ensures count { reads.new ≡ reads.old + script_reads table.now list tag }
    ensures few { reads.new ≤ reads.old + 258 }
{
    let count = looked_at(table.word(list, reads));
    for i in 0..count {
        if has_tag(table, list, tag, i, reads) {
            return offset_from(list, record_offset(table, list, i, reads));
        }
    }
    None
}

/// The script of Latin, or else the default script.
fn script_of(table: &Words, reads: &mut Tally) -> Option<usize>
    requires { reads.old + 517 < 2 ^ 32 }
    ensures exact { result ≡ script_of table.now }
    ensures near { IfSome result (λ p. p < 131072) }
    ensures count { reads.new ≡ reads.old + scripts_reads table.now }
    ensures few { reads.new ≤ reads.old + 517 }
{
    let list = table.word(4, reads);
    match script_with(table, list, LATIN, reads) {
        Some(script) => Some(script),
        None => script_with(table, list, DEFAULT_SCRIPT, reads),
    }
}

/// The default language.
fn language_of(table: &Words, reads: &mut Tally) -> Option<usize>
    requires { reads.old + 518 < 2 ^ 32 }
    ensures exact { result ≡ language_in table.now (script_of table.now) }
    ensures near { IfSome result (λ p. p < 196608) }
    ensures count { reads.new ≡ reads.old + language_reads table.now }
    ensures few { reads.new ≤ reads.old + 518 }
{
    match script_of(table, reads) {
        Some(script) => offset_from(script, table.word(script, reads)),
        None => None,
    }
}

/// Whether the feature with a number, of so many in the list, is a feature kern.
fn is_kern(table: &Words, list: usize, count: usize, number: usize, reads: &mut Tally) -> bool
    requires list { list < 65536 }
    requires number { number < 65536 }
    requires room { reads.old + 1 < 2 ^ 32 }
    ensures exact { result ≡ is_kern_of table.now list count number }
    ensures count { reads.new ≡ reads.old + 1 }
{
    let tagged = has_tag(table, list, KERN, number, reads);
    number < count && tagged
}

/// The first feature kern of a language. At most 516 numbers are read: three counts and offsets, two for each of 256
/// features, and an offset.
#[tactic(auto, using(tt_core::specs::Search::first_from_next, tt_core::specs::Search::first_from_here))]
fn feature_in(table: &Words, language: usize, reads: &mut Tally) -> Option<usize>
    requires language { language < 196608 }
    requires room { reads.old + 516 < 2 ^ 32 }
    ensures exact { result ≡ feature_in table.now (Some language) }
    ensures near { IfSome result (λ p. p < 131072) }
    ensures count { reads.new ≡ reads.old + features_reads table.now (Some language) }
    ensures few { reads.new ≤ reads.old + 516 }
{
    let list = table.word(6, reads);
    let features = looked_at(table.word(list, reads));
    let count = looked_at(table.word(language + 4, reads));
    for i in 0..count {
        let number = table.word(language + 6 + 2 * i, reads);
        if is_kern(table, list, features, number, reads) {
            return Some(list + record_offset(table, list, number, reads));
        }
    }
    None
}

/// Whether GPOS has version 1, and lists of scripts, features and lookups.
fn has_lists(table: &Words, reads: &mut Tally) -> bool
    requires { reads.old + 4 < 2 ^ 32 }
    ensures exact { result ≡ has_lists table.now }
    ensures count { reads.new ≡ reads.old + 4 }
{
    let version = table.word(0, reads);
    let scripts = table.word(4, reads);
    let features = table.word(6, reads);
    let lookups = table.word(8, reads);
    version == 1 && scripts > 0 && features > 0 && lookups > 0
}

/// The offset of the feature kern in GPOS. At most 1,038 numbers are read.
#[tactic(auto, unfolding(crate::specs::Feature::feature_of, crate::specs::Reads::feature_reads))]
pub(crate) fn feature_of(table: &Words, reads: &mut Tally) -> Option<usize>
    requires { reads.old + 1038 < 2 ^ 32 }
    ensures exact { result ≡ feature_of table.now }
    ensures near { IfSome result (λ p. p < 131072) }
    ensures count { reads.new ≡ reads.old + feature_reads table.now }
    ensures few { reads.new ≤ reads.old + 1038 }
{
    if !has_lists(table, reads) {
        return None;
    }
    match language_of(table, reads) {
        Some(language) => feature_in(table, language, reads),
        None => None,
    }
}
