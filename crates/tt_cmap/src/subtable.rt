//! A subtable of any format, and lookups in it by its ranges. OpenType, "cmap", formats 4 and 12.

ghost use Rattle.std.specs.Prelude.{◌≡◌, ◌+◌, ◌-◌, ◌*◌, ◌^◌, ◌<◌, ◌≤◌, length, true, None, IsTrue, IfOk, IfErr, IfSome};
ghost use Rattle.tt_core.specs.Limits.{font_limit};
ghost use Rattle.tt_core.specs.Outcomes.{Gives};
ghost use Rattle.tt_cmap.specs.Defects.{IsBadShape};
ghost use Rattle.tt_cmap.specs.Ranges.{read_as, subtable_with, subtable_view, range_count, falls, falling_range, range_of, range_reads, by_range, glyph_in, ends_read, reads_in, most_ends, IfSegments};
ghost use Rattle.tt_cmap.specs.WideReads.{reached_reads};
ghost use Rattle.tt_cmap.specs.WideSubtables.{by_reached};

use crate::ends::{RangeEnds, reach};
use crate::format4::Format4;
use crate::format12::Format12;
use crate::lookup::reads::Reads;
use crate::ranges::Ranges;
use crate::records::{Choice, Format};
use tt_core::Fault;

/// A subtable: its ranges are segments or groups.
#[derive(Drop)]
pub(crate) enum Subtable<'a> {
    Segments(Format4<'a>),
    Groups(Format12<'a>),
}

impl<'a> RangeEnds for Subtable<'a> {
    ghost use Rattle.tt_cmap.specs.Ranges.{subtable_view, range_count, range_end, most_character, most_ends};

    ghost count_of = { λ s. range_count (subtable_view s) };

    ghost end_of = { λ s. range_end (subtable_view s) };

    ghost most_end = { λ s. most_character (subtable_view s) };

    ghost most_asked = { λ s. most_ends (subtable_view s) };

    fn count(&self) -> usize {
        match self {
            Subtable::Segments(s) => s.count(),
            Subtable::Groups(g) => g.count(),
        }
    }

    fn end(&self, i: usize, reads: &mut Reads) -> usize {
        match self {
            Subtable::Segments(s) => s.end(i, reads),
            Subtable::Groups(g) => g.end(i, reads),
        }
    }
}

impl<'a> Ranges for Subtable<'a> {
    ghost use Rattle.tt_cmap.specs.Ranges.{subtable_view};

    ghost ranges_of = { subtable_view };

    fn end_place(&self, i: usize) -> u32 {
        match self {
            Subtable::Segments(s) => s.end_place(i),
            Subtable::Groups(g) => g.end_place(i),
        }
    }

    fn glyph_by(&self, glyphs: u16, c: usize, i: usize, reads: &mut Reads) -> u16 {
        match self {
            Subtable::Segments(s) => s.glyph_by(glyphs, c, i, reads),
            Subtable::Groups(g) => g.glyph_by(glyphs, c, i, reads),
        }
    }
}

impl<'a> Subtable<'a> {
    /// The chosen subtable, if it fits. Error: CmapShape.
    pub(crate) fn open(table: &'a [u8], choice: Choice) -> Result<Subtable<'a>, Fault>
        requires size { length table.now ≤ font_limit }
        requires place { choice.at ≤ length table.now }
        ensures exact { Gives subtable_view result (subtable_with choice.format table.now choice.at) }
        ensures whole { IfOk result (λ s. subtable_view s ≡ read_as choice.format table.now choice.at) }
        ensures fault { IfErr result (IsBadShape choice.format table.now choice.at) }
    {
        match choice.format {
            Format::Segments => Ok(Subtable::Segments(Format4::open(table, choice.at)?)),
            Format::Groups => Ok(Subtable::Groups(Format12::open(table, choice.at)?)),
        }
    }

    /// The first range that ends after the end of the next range.
    #[tactic(auto, using(tt_core::specs::Search::first_from_next, tt_core::specs::Search::first_from_here))]
    pub(crate) fn falling(&self, reads: &mut Reads) -> Option<usize>
        requires room { reads.old + 2 ^ 30 < 2 ^ 32 }
        ensures exact { result ≡ falling_range (subtable_view self.now) }
        ensures bound { IfSome result (λ i. i + 1 < range_count (subtable_view self.now)) }
        ensures falls { IfSome result (λ i. falls (subtable_view self.now) i ≡ true) }
    {
        for i in 0..self.count().saturating_sub(1) {
            if self.end(i + 1, reads) < self.end(i, reads) {
                return Some(i);
            }
        }
        None
    }

    /// The first range that ends at the character or after it, by binary search.
    fn search(&self, c: usize, reads: &mut Reads) -> Option<usize>
        requires rises { falling_range (subtable_view self.now) ≡ None }
        requires room { reads.old + 2 ^ 30 < 2 ^ 32 }
        ensures exact { result ≡ range_of (subtable_view self.now) c }
        ensures bound { IfSome result (λ i. i < range_count (subtable_view self.now)) }
        ensures plane { IfSome result (λ i. IfSegments (subtable_view self.now) (c ≤ 0xFFFF)) }
        ensures count { reads.new ≡ reads.old + ends_read (subtable_view self.now) c }
        ensures few { ends_read (subtable_view self.now) c ≤ most_ends (subtable_view self.now) }
    {
        let i = reach(self, c, reads);
        if i < self.count() { Some(i) } else { None }
    }

    /// The glyph by the range where a binary search ends, whatever the order of the ends.
    #[tactic(auto, unfolding(crate::specs::Ranges::ends_read))]
    pub(crate) fn glyph_by_search(&self, glyphs: u16, c: usize, reads: &mut Reads) -> u16
        requires character { c < 2 ^ 21 }
        requires glyphs { 0 < glyphs }
        requires room { reads.old + 2 ^ 31 < 2 ^ 32 }
        ensures exact { result ≡ by_reached (subtable_view self.now) (by_range (subtable_view self.now) glyphs c) c }
        ensures bound { result < glyphs }
        ensures count { reads.new ≡ reads.old + reached_reads (subtable_view self.now) (range_reads (subtable_view self.now) c) c }
        ensures few { reached_reads (subtable_view self.now) (range_reads (subtable_view self.now) c) c ≤ 27 }
    {
        let i = reach(self, c, reads);
        if i < self.count() {
            self.glyph_by(glyphs, c, i, reads)
        } else {
            0
        }
    }

    /// The glyph of a character, below `glyphs`.
    pub(crate) fn glyph(&self, glyphs: u16, c: usize, reads: &mut Reads) -> u16
        requires rises { falling_range (subtable_view self.now) ≡ None }
        requires character { c < 2 ^ 21 }
        requires glyphs { 0 < glyphs }
        requires room { reads.old + 2 ^ 31 < 2 ^ 32 }
        ensures exact { result ≡ glyph_in (subtable_view self.now) glyphs c }
        ensures beyond { IfSegments (subtable_view self.now) (0xFFFF < c → result ≡ 0) }
        ensures bound { result < glyphs }
        ensures count { reads.new ≡ reads.old + reads_in (subtable_view self.now) c }
        ensures few { reads_in (subtable_view self.now) c ≤ most_ends (subtable_view self.now) + 4 }
    {
        match self.search(c, reads) {
            Some(i) => self.glyph_by(glyphs, c, i, reads),
            None => 0,
        }
    }
}
