//! The table kern: pairs of glyphs in subtables of format 0. OpenType, "kern: Kerning". Apple TrueType Reference Manual,
//! "The 'kern' table".

ghost use Rattle.std.specs.Prelude.{◌≡◌, ◌+◌, ◌*◌, ◌^◌, ◌<◌, ◌≤◌, length, IfSome, unsigned_abs, ◌==◌, if◌then◌else◌};
ghost use Rattle.tt_core.specs.Limits.{font_limit};
ghost use Rattle.tt_kern.specs.Reads.{overrides_reads, value_reads, subtable_reads, kern_reads};
ghost use Rattle.tt_kern.specs.Words.{word};
ghost use Rattle.tt_kern.specs.KernTable.{version_of, list_place, count_told, count_taken, header_size, length_told, is_usable, overrides, pair_count, value_in, after_subtable, kern_sum};

use crate::kerning::tally::Tally;
use crate::pair::GlyphPair;
use crate::search::{KeySize, Keys, find};
use crate::words::Words;

/// The version of a table kern. Its header and its subtables' headers depend on the version.
#[derive(Clone, Copy)]
pub(crate) enum KernVersion {
    /// Version 0, a uint16: OpenType's.
    OpenType,
    /// Version 1.0, four bytes: Apple's.
    Apple,
}

fn version_of(table: &Words, reads: &mut Tally) -> Option<KernVersion>
    requires { reads.old + 2 < 2 ^ 32 }
    ensures exact { result ≡ version_of table.now }
    ensures count { reads.new ≡ reads.old + (if word table.now 0 == 0 then 1 else 2) }
    ensures few { reads.new ≤ reads.old + 2 }
{
    if table.word(0, reads) == 0 {
        return Some(KernVersion::OpenType);
    }
    if table.long(0, reads) == 65536 {
        Some(KernVersion::Apple)
    } else {
        None
    }
}

/// The offset of the first subtable.
fn list_place(version: KernVersion) -> usize
    ensures exact { result ≡ list_place version }
    ensures bound { result ≤ 8 }
{
    match version {
        KernVersion::OpenType => 4,
        KernVersion::Apple => 8,
    }
}

/// The count of subtables in the header.
fn count_told(version: KernVersion, table: &Words, reads: &mut Tally) -> usize
    requires { reads.old + 1 < 2 ^ 32 }
    ensures exact { result ≡ count_told version table.now }
    ensures count { reads.new ≡ reads.old + 1 }
{
    match version {
        KernVersion::OpenType => table.word(2, reads),
        KernVersion::Apple => table.long(4, reads),
    }
}

/// The count of subtables, at most 32 (profile).
fn count_taken(version: KernVersion, table: &Words, reads: &mut Tally) -> usize
    requires { reads.old + 1 < 2 ^ 32 }
    ensures exact { result ≡ count_taken version table.now }
    ensures bound { result ≤ 32 }
    ensures count { reads.new ≡ reads.old + 1 }
{
    let told = count_told(version, table, reads);
    if told > 32 { 32 } else { told }
}

/// Bytes of a subtable's header.
fn header_size(version: KernVersion) -> usize
    ensures exact { result ≡ header_size version }
    ensures bound { result ≤ 8 }
{
    match version {
        KernVersion::OpenType => 6,
        KernVersion::Apple => 8,
    }
}

fn length_told(version: KernVersion, table: &Words, at: usize, reads: &mut Tally) -> usize
    requires place { at < 2 ^ 34 }
    requires room { reads.old + 1 < 2 ^ 32 }
    ensures exact { result ≡ length_told version table.now at }
    ensures bound { result < 2 ^ 32 }
    ensures count { reads.new ≡ reads.old + 1 }
{
    match version {
        KernVersion::OpenType => table.word(at + 2, reads),
        KernVersion::Apple => table.long(at, reads),
    }
}

/// Whether a subtable has horizontal pairs that are neither minimum nor cross-stream nor a variation, in format 0.
fn is_usable(version: KernVersion, table: &Words, at: usize, reads: &mut Tally) -> bool
    requires place { at < 2 ^ 34 }
    requires room { reads.old + 1 < 2 ^ 32 }
    ensures exact { result ≡ is_usable version table.now at }
    ensures count { reads.new ≡ reads.old + 1 }
{
    let coverage = table.word(at + 4, reads);
    match version {
        KernVersion::OpenType => coverage / 256 == 0 && coverage % 8 == 1,
        KernVersion::Apple => coverage / 8192 == 0 && coverage % 256 == 0,
    }
}

/// Whether a subtable's value takes the place of the sum so far.
fn overrides(version: KernVersion, table: &Words, at: usize, reads: &mut Tally) -> bool
    requires place { at < 2 ^ 34 }
    requires room { reads.old + 1 < 2 ^ 32 }
    ensures exact { result ≡ overrides version table.now at }
    ensures count { reads.new ≡ reads.old + overrides_reads version }
    ensures few { reads.new ≤ reads.old + 1 }
{
    match version {
        KernVersion::OpenType => table.word(at + 4, reads) / 8 % 2 == 1,
        KernVersion::Apple => false,
    }
}

/// The count of pairs: as many as the subtable counts, or as fit into the table.
fn pair_count(version: KernVersion, table: &Words, at: usize, reads: &mut Tally) -> usize
    requires place { at < 2 ^ 34 }
    requires room { reads.old + 1 < 2 ^ 32 }
    ensures exact { result ≡ pair_count version table.now at }
    ensures bound { result < 65536 }
    ensures count { reads.new ≡ reads.old + 1 }
{
    let told = table.word(at + header_size(version), reads);
    let fitting = table.len().saturating_sub(at + header_size(version) + 8) / 6;
    if told < fitting { told } else { fitting }
}

/// The value of two glyphs in a subtable.
fn value_in(
    version: KernVersion,
    table: &Words,
    at: usize,
    glyphs: GlyphPair,
    reads: &mut Tally,
) -> Option<i32>
    requires place { at < 2 ^ 34 }
    requires room { reads.old + 19 < 2 ^ 32 }
    ensures exact { result ≡ value_in version table.now at glyphs.left glyphs.right }
    ensures bound { IfSome result (λ v. unsigned_abs v ≤ 32768) }
    ensures count { reads.new ≡ reads.old + value_reads version table.now at glyphs.left glyphs.right }
    ensures few { reads.new ≤ reads.old + 19 }
{
    let pairs = at + header_size(version) + 8;
    let keys = Keys {
        size: KeySize::Long,
        at: pairs,
        step: 6,
        count: pair_count(version, table, at, reads),
    };
    let left = usize::from(glyphs.left);
    let right = usize::from(glyphs.right);
    match find(table, keys, 65536 * left + right, reads) {
        Some(i) => Some(table.signed(pairs + 6 * i + 4, reads)),
        None => None,
    }
}

/// The sum after a subtable. At most 21 numbers are read.
#[tactic(auto, unfolding(crate::specs::Reads::subtable_reads))]
fn after_subtable(
    version: KernVersion,
    table: &Words,
    glyphs: GlyphPair,
    total: i32,
    at: usize,
    reads: &mut Tally,
) -> i32
    requires total { unsigned_abs total ≤ 2 ^ 20 }
    requires place { at < 2 ^ 34 }
    requires room { reads.old + 21 < 2 ^ 32 }
    ensures exact { result ≡ after_subtable version table.now glyphs.left glyphs.right total at }
    ensures bound { unsigned_abs result ≤ unsigned_abs total + 32768 }
    ensures count { reads.new ≡ reads.old + subtable_reads version table.now glyphs.left glyphs.right at }
    ensures few { reads.new ≤ reads.old + 21 }
{
    if !is_usable(version, table, at, reads) {
        return total;
    }
    match value_in(version, table, at, glyphs, reads) {
        Some(value) => {
            if overrides(version, table, at, reads) {
                value
            } else {
                total + value
            }
        }
        None => total,
    }
}

/// The kerning of two glyphs by the table. At most 707 numbers are read: 3 before the subtables, and 22 for each of 32.
#[tactic(auto, unfolding(crate::specs::KernTable::kern_sum, crate::specs::Reads::kern_reads))]
pub(crate) fn kern_sum(table: &Words, glyphs: GlyphPair, reads: &mut Tally) -> i32
    requires size { length table.now ≤ font_limit }
    requires room { reads.old + 707 < 2 ^ 32 }
    ensures exact { result ≡ kern_sum table.now glyphs.left glyphs.right }
    ensures bound { unsigned_abs result ≤ 2 ^ 20 }
    ensures count { reads.new ≡ reads.old + kern_reads table.now glyphs.left glyphs.right }
    ensures few { reads.new ≤ reads.old + 707 }
{
    let Some(version) = version_of(table, reads) else {
        return 0;
    };
    let mut total = 0;
    let mut at = list_place(version);
    for i in 0..count_taken(version, table, reads) {
        if table.len() < at + 8 {
            return total;
        }
        total = after_subtable(version, table, glyphs, total, at, reads);
        let length = length_told(version, table, at, reads);
        if length < header_size(version) {
            return total;
        }
        at += length;
    }
    total
}
