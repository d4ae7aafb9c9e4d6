//! A subtable of format 4. OpenType, "cmap", format 4: segment mapping to delta values.

ghost use Rattle.std.specs.Prelude.{◌≡◌, ◌≤◌, length, IfOk, IfErr};
ghost use Rattle.tt_core.specs.Limits.{font_limit};
ghost use Rattle.tt_core.specs.Outcomes.{Gives};
ghost use Rattle.tt_cmap.specs.Defects.{IsBadFormat4};
ghost use Rattle.tt_cmap.specs.Format4.{segments_at};

use crate::ends::RangeEnds;
use crate::glyphs::or_missing;
use crate::lookup::reads::Reads;
use crate::ranges::Ranges;
use crate::records::CMAP;
use crate::table::Table;
use std::marker::Model;
use tt_core::{Fault, Why, u16_at};

/// The offset of segCountX2 in the subtable. segCountX2 is twice the number of segments. Each of the lists endCode,
/// startCode, idDelta and idRangeOffset has segCountX2 bytes.
const SEG_COUNT_X2: usize = 6;

/// The offset of the list endCode.
const END_CODE: usize = 14;

/// Bytes outside the four lists: the first 14, and reservedPad, a uint16 after endCode.
const HEADER: usize = 16;

/// Bytes of a uint16. Every number of the subtable is a uint16.
const WORD: usize = 2;

/// A subtable whose four lists fit. Clauses see the bytes of cmap and the subtable's offset.
#[derive(Drop)]
pub(crate) struct Format4<'a> {
    table: Table<'a>,
    at: usize,
    /// segCountX2.
    list: usize,
}

impl<'a> Model for Format4<'a> {
    ghost use Rattle.std.specs.Prelude.{◌≡◌, ◌<◌};
    ghost use Rattle.tt_cmap.specs.Format4.{IsFormat4, seg_count_x2};
    ghost use Rattle.tt_cmap.specs.Format4 as segments;

    ghost Value = { segments.Format4 };

    ghost view = { λ m. record { table = m.table; at = m.at } };

    ghost invariant = { λ m. IsFormat4 (record { table = m.table; at = m.at })
        × (m.list ≡ seg_count_x2 (record { table = m.table; at = m.at })) × (m.list < 65536) };
}

impl<'a> Format4<'a> {
    /// The subtable at an offset of cmap. Error: CmapShape.
    #[tactic(auto, unfolding(crate::specs::Format4::segments_at))]
    pub(crate) fn open(table: &'a [u8], at: usize) -> Result<Format4<'a>, Fault>
        requires size { length table.now ≤ font_limit }
        requires place { at ≤ length table.now }
        ensures exact { Gives (λ m. m) result (segments_at table.now at) }
        ensures whole { IfOk result (λ m. m ≡ record { table = table.now; at = at }) }
        ensures fault { IfErr result (IsBadFormat4 (record { table = table.now; at = at })) }
    {
        let short = Fault::new(CMAP, at as u32, Why::CmapShape);
        if table.len() < at + END_CODE {
            return Err(short);
        }
        let list = usize::from(u16_at(table, at + SEG_COUNT_X2).unwrap());
        if list % WORD != 0 {
            let place = at + SEG_COUNT_X2;
            return Err(Fault::new(CMAP, place as u32, Why::CmapShape));
        }
        if table.len() < at + HEADER + 4 * list {
            return Err(short);
        }
        let table = Table::new(table);
        Ok(Format4 { table, at, list })
    }
}

impl<'a> RangeEnds for Format4<'a> {
    ghost use Rattle.tt_cmap.specs.Ranges.{segments, range_count, range_end, most_character, most_ends};

    ghost count_of = { λ s. range_count (segments s) };

    ghost end_of = { λ s. range_end (segments s) };

    ghost most_end = { λ s. most_character (segments s) };

    ghost most_asked = { λ s. most_ends (segments s) };

    fn count(&self) -> usize {
        self.list / WORD
    }

    fn end(&self, i: usize, reads: &mut Reads) -> usize {
        self.table.word(self.end_place(i) as usize, reads)
    }
}

impl<'a> Ranges for Format4<'a> {
    ghost use Rattle.tt_cmap.specs.Ranges.{segments};

    ghost ranges_of = { segments };

    fn end_place(&self, i: usize) -> u32 {
        (self.at + END_CODE + WORD * i) as u32
    }

    fn glyph_by(&self, glyphs: u16, c: usize, i: usize, reads: &mut Reads) -> u16 {
        let start_code = self.at + HEADER + self.list + WORD * i;
        let start = self.table.word(start_code, reads);
        if c < start {
            return 0;
        }
        let id_delta = self.at + HEADER + 2 * self.list + WORD * i;
        let delta = self.table.word(id_delta, reads);
        let id_range_offset = self.at + HEADER + 3 * self.list + WORD * i;
        let range_offset = self.table.word(id_range_offset, reads);
        if range_offset == 0 {
            return or_missing(glyphs, (c + delta) % 65536);
        }
        let in_array = id_range_offset + range_offset + WORD * (c - start);
        match self.table.word_if_there(in_array, reads) {
            None | Some(0) => 0,
            Some(glyph) => or_missing(glyphs, (usize::from(glyph) + delta) % 65536),
        }
    }
}
