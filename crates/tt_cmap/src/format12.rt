//! A subtable of format 12. OpenType, "cmap", format 12: segmented coverage.

ghost use Rattle.std.specs.Prelude.{◌≡◌, ◌+◌, ◌^◌, ◌<◌, ◌≤◌, length, IfOk, IfErr};
ghost use Rattle.tt_core.specs.Limits.{font_limit};
ghost use Rattle.tt_core.specs.Outcomes.{Gives};
ghost use Rattle.tt_cmap.specs.Defects.{IsBadFormat12};
ghost use Rattle.tt_cmap.specs.Format12.{group_reads, groups_at};
ghost use Rattle.tt_cmap.specs.Ranges.{groups};
ghost use Rattle.tt_cmap.specs.WideReads.{reached_reads};
ghost use Rattle.tt_cmap.specs.WideSubtables.{by_reached, by_shared_group};

use crate::ends::{RangeEnds, reach};
use crate::glyphs::or_missing;
use crate::lookup::reads::Reads;
use crate::ranges::Ranges;
use crate::records::CMAP;
use crate::table::Table;
use std::marker::Model;
use tt_core::{Fault, Why, u32_at};

/// The offset of numGroups, a uint32, in the subtable.
const NUM_GROUPS: usize = 12;

/// The offset of the groups in the subtable.
const GROUPS: usize = 16;

/// Bytes of a group: three uint32. The first is startCharCode.
const GROUP: usize = 12;

/// The offset of endCharCode in a group.
const END_CHAR_CODE: usize = 4;

/// The offset of startGlyphID in a group.
const START_GLYPH_ID: usize = 8;

/// A subtable whose groups fit. Clauses see the bytes of cmap and the subtable's offset.
#[derive(Drop)]
pub(crate) struct Format12<'a> {
    table: Table<'a>,
    at: usize,
    count: usize,
}

impl<'a> Model for Format12<'a> {
    ghost use Rattle.std.specs.Prelude.{◌≡◌};
    ghost use Rattle.tt_cmap.specs.Format12.{IsFormat12, num_groups};
    ghost use Rattle.tt_cmap.specs.Format12 as groups;

    ghost Value = { groups.Format12 };

    ghost view = { λ m. record { table = m.table; at = m.at } };

    ghost invariant = { λ m. IsFormat12 (record { table = m.table; at = m.at })
        × (m.count ≡ num_groups (record { table = m.table; at = m.at })) };
}

impl<'a> Format12<'a> {
    /// The subtable at an offset of cmap. Error: CmapShape.
    #[tactic(auto, unfolding(crate::specs::Format12::groups_at))]
    pub(crate) fn open(table: &'a [u8], at: usize) -> Result<Format12<'a>, Fault>
        requires size { length table.now ≤ font_limit }
        requires place { at ≤ length table.now }
        ensures exact { Gives (λ m. m) result (groups_at table.now at) }
        ensures whole { IfOk result (λ m. m ≡ record { table = table.now; at = at }) }
        ensures fault { IfErr result (IsBadFormat12 (record { table = table.now; at = at })) }
    {
        let short = Fault::new(CMAP, at as u32, Why::CmapShape);
        if table.len() < at + GROUPS {
            return Err(short);
        }
        let count = u32_at(table, at + NUM_GROUPS).unwrap() as usize;
        if table.len() < at + GROUPS + GROUP * count {
            return Err(short);
        }
        let table = Table::new(table);
        Ok(Format12 { table, at, count })
    }

    /// The glyph of a character where all characters of a group have the group's glyph, as in format 13. The group is
    /// the one where a binary search ends.
    #[tactic(auto, unfolding(crate::specs::Ranges::ends_read))]
    pub(crate) fn shared_glyph(&self, glyphs: u16, c: usize, reads: &mut Reads) -> u16
        requires glyphs { 0 < glyphs }
        requires room { reads.old + 2 ^ 31 < 2 ^ 32 }
        ensures exact { result ≡ by_reached (groups self.now) (by_shared_group self.now glyphs c) c }
        ensures bound { result < glyphs }
        ensures count { reads.new ≡ reads.old + reached_reads (groups self.now) (group_reads self.now c) c }
        ensures few { reached_reads (groups self.now) (group_reads self.now c) c ≤ 27 }
    {
        let i = reach(self, c, reads);
        if i == self.count {
            return 0;
        }
        let group = self.at + GROUPS + GROUP * i;
        if c < self.table.long(group, reads) {
            return 0;
        }
        or_missing(glyphs, self.table.long(group + START_GLYPH_ID, reads))
    }
}

impl<'a> RangeEnds for Format12<'a> {
    ghost use Rattle.tt_cmap.specs.Ranges.{groups, range_count, range_end, most_character, most_ends};

    ghost count_of = { λ s. range_count (groups s) };

    ghost end_of = { λ s. range_end (groups s) };

    ghost most_end = { λ s. most_character (groups s) };

    ghost most_asked = { λ s. most_ends (groups s) };

    fn count(&self) -> usize {
        self.count
    }

    fn end(&self, i: usize, reads: &mut Reads) -> usize {
        self.table.long(self.end_place(i) as usize, reads)
    }
}

impl<'a> Ranges for Format12<'a> {
    ghost use Rattle.tt_cmap.specs.Ranges.{groups};

    ghost ranges_of = { groups };

    fn end_place(&self, i: usize) -> u32 {
        (self.at + GROUPS + GROUP * i + END_CHAR_CODE) as u32
    }

    fn glyph_by(&self, glyphs: u16, c: usize, i: usize, reads: &mut Reads) -> u16 {
        let group = self.at + GROUPS + GROUP * i;
        let start = self.table.long(group, reads);
        if c < start {
            return 0;
        }
        let first = self.table.long(group + START_GLYPH_ID, reads);
        or_missing(glyphs, first + (c - start))
    }
}
