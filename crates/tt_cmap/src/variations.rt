//! A subtable of variation sequences. OpenType, "cmap", format 14.

ghost use Rattle.std.specs.Prelude.{◌≡◌, ◌+◌, ◌<◌, ◌≤◌, ◌^◌, length};
ghost use Rattle.tt_core.specs.Limits.{font_limit};
ghost use Rattle.tt_cmap.specs.Variations.{is_default, other_glyph, variation};
ghost use Rattle.tt_cmap.specs.WideReads.{default_reads, other_reads, variation_reads};

use crate::entries::{Entries, EntryKind};
use crate::glyphs::or_missing;
use crate::lookup::reads::Reads;
use std::marker::Model;

/// A subtable at an offset of cmap. What of the subtable does not fit in cmap is not there (profile). Clauses see the
/// bytes of cmap and the offset.
#[derive(Drop)]
pub(crate) struct Variations<'a> {
    table: &'a [u8],
    at: usize,
}

impl<'a> Model for Variations<'a> {
    ghost use Rattle.std.specs.Prelude.{◌<◌, ◌≤◌, ◌^◌, length};
    ghost use Rattle.tt_core.specs.Limits.{font_limit};
    ghost use Rattle.tt_cmap.specs.Variations as variations;

    ghost Value = { variations.Sequences };

    ghost view = { λ s. record { table = s.table.now; at = s.at } };

    ghost invariant = { λ s. (length s.table.now ≤ font_limit) × (s.at < 2 ^ 33) };
}

impl<'a> Variations<'a> {
    /// The subtable at an offset of cmap.
    pub(crate) fn new(table: &'a [u8], at: usize) -> Variations<'a>
        requires size { length table.now ≤ font_limit }
        requires place { at < 2 ^ 33 }
        ensures exact { result ≡ record { table = table.now; at = at } }
    {
        Variations { table, at }
    }

    /// Whether the list at an offset of the subtable has a range of default glyphs with the character.
    fn is_default(&self, offset: usize, c: usize, reads: &mut Reads) -> bool
        requires place { offset < 2 ^ 32 }
        requires room { reads.old + 2 ^ 31 < 2 ^ 32 }
        ensures exact { result ≡ is_default self.now.table self.now.at offset c }
        ensures count { reads.new ≡ reads.old + default_reads self.now.table self.now.at offset c }
        ensures few { default_reads self.now.table self.now.at offset c ≤ 25 }
    {
        if offset == 0 {
            return false;
        }
        let list = Entries::open(self.table, EntryKind::Defaults, self.at + offset);
        match list.entry_for(c, reads) {
            Some(i) => list.start(i, reads) <= c,
            None => false,
        }
    }

    /// The glyph that the list at an offset of the subtable gives a character, or 0.
    fn other_glyph(&self, offset: usize, glyphs: u16, c: usize, reads: &mut Reads) -> u16
        requires place { offset < 2 ^ 32 }
        requires glyphs { 0 < glyphs }
        requires room { reads.old + 2 ^ 31 < 2 ^ 32 }
        ensures exact { result ≡ other_glyph self.now.table self.now.at offset glyphs c }
        ensures bound { result < glyphs }
        ensures count { reads.new ≡ reads.old + other_reads self.now.table self.now.at offset c }
        ensures few { other_reads self.now.table self.now.at offset c ≤ 26 }
    {
        if offset == 0 {
            return 0;
        }
        let list = Entries::open(self.table, EntryKind::Others, self.at + offset);
        let Some(i) = list.entry_for(c, reads) else {
            return 0;
        };
        if list.start(i, reads) != c {
            return 0;
        }
        or_missing(glyphs, list.glyph(i, reads))
    }

    /// The glyph of a character with a selector; 0 where the subtable has no other glyph than the character's own. At
    /// most 78 numbers are read.
    #[tactic(auto, unfolding(crate::specs::Variations::variation, crate::specs::WideReads::variation_reads))]
    pub(crate) fn glyph(&self, glyphs: u16, c: usize, selector: usize, reads: &mut Reads) -> u16
        requires glyphs { 0 < glyphs }
        requires room { reads.old + 2 ^ 31 + 128 < 2 ^ 32 }
        ensures exact { result ≡ variation self.now.table self.now.at glyphs c selector }
        ensures bound { result < glyphs }
        ensures count { reads.new ≡ reads.old + variation_reads self.now.table self.now.at c selector }
        ensures few { variation_reads self.now.table self.now.at c selector ≤ 78 }
    {
        let selectors = Entries::open(self.table, EntryKind::Selectors, self.at + 6);
        let Some(i) = selectors.entry_for(selector, reads) else {
            return 0;
        };
        if selectors.start(i, reads) != selector {
            return 0;
        }
        let (defaults, others) = selectors.offsets(i, reads);
        if self.is_default(defaults, c, reads) {
            return 0;
        }
        self.other_glyph(others, glyphs, c, reads)
    }
}
