//! The character map of the wide reading, and lookups in it.

ghost use Rattle.std.specs.Prelude.{◌≡◌, ◌+◌, ◌<◌, ◌≤◌, ◌^◌, length, IfOk, IfErr, IfSome, OnOk};
ghost use Rattle.tt_core.specs.Directory.{HasNo};
ghost use Rattle.tt_core.specs.Limits.{font_limit};
ghost use Rattle.tt_core.specs.Outcomes.{Gives};
ghost use Rattle.tt_cmap.specs.WideDefects.{IsBadWideCmap, IsBadWideChoice};
ghost use Rattle.tt_cmap.specs.WideReads.{reads_of_variation, wide_reads_of, wide_reads_with};
ghost use Rattle.tt_cmap.specs.WideLookup.{wide_cmap_of, glyph_by_way, wide_glyph_of, variation_in, wide_glyph_with};

use crate::lookup::Lookup;
use crate::lookup::reads::Reads;
use crate::records::wide::CodeWay;
use crate::records::{CMAP, Records};
use crate::roman::roman_byte;
use crate::variations::Variations;
use crate::wide_subtable::WideSubtable;
use std::marker::Model;
use tt_core::{Fault, Why};

/// A character map of the wide reading. Clauses see the bytes of cmap, the chosen subtable and its codes, the offset of
/// the variation sequences, and the number of glyphs.
#[derive(Drop)]
pub struct WideCmap<'a> {
    table: &'a [u8],
    subtable: WideSubtable<'a>,
    way: CodeWay,
    variations: Option<usize>,
    glyphs: u16,
}

impl<'a> Model for WideCmap<'a> {
    ghost use Rattle.std.specs.Prelude.{◌+◌, ◌<◌, ◌≤◌, length, IfSome};
    ghost use Rattle.tt_core.specs.Limits.{font_limit};
    ghost use Rattle.tt_cmap.specs.WideLookup as lookup;
    ghost use Rattle.tt_cmap.specs.WideSubtables.{wide_view};

    ghost Value = { lookup.WideCmap };

    ghost view = { λ m. record {
      table = m.table.now;
      subtable = wide_view m.subtable;
      way = m.way;
      variations = m.variations;
      glyphs = m.glyphs;
    } };

    ghost invariant = { λ m. (length m.table.now ≤ font_limit) × IfSome m.variations (λ at. at + 2 ≤ length m.table.now)
        × (0 < m.glyphs) };
}

impl<'a> WideCmap<'a> {
    /// Opens cmap and chooses a subtable (profile). The order of choice:
    ///
    /// - what `Cmap::open` chooses;
    /// - platform 3, encoding 10; platform 0; platform 3, encoding 1;
    /// - platform 3, encoding 0: symbols;
    /// - platform 1, encoding 0: Macintosh Roman;
    ///
    /// with format 0, 4, 6, 10, 12 or 13. Among records of one kind the first counts. No range is read. Errors:
    /// CmapShape, NoCmap.
    #[tactic(auto, unfolding(crate::specs::WideLookup::wide_cmap_of))]
    pub fn open(table: &'a [u8], glyphs: u16) -> Result<WideCmap<'a>, Fault>
        requires size { length table.now ≤ font_limit }
        requires glyphs { 0 < glyphs }
        ensures exact { Gives (λ c. c) result (wide_cmap_of table.now glyphs) }
        ensures whole { IfOk result (λ c. c.table ≡ table.now) }
        ensures glyphs { IfOk result (λ c. c.glyphs ≡ glyphs) }
        ensures sound { OnOk result (HasNo (IsBadWideCmap table.now)) }
        ensures fault { IfErr result (IsBadWideCmap table.now) }
    {
        let records = Records::open(table)?;
        let Some(choice) = records.wide_choice() else {
            return Err(Fault::new(CMAP, 0, Why::NoCmap));
        };
        let subtable = WideSubtable::open(table, choice.format, choice.at)?;
        Ok(WideCmap {
            table,
            subtable,
            way: choice.way,
            variations: records.variations(),
            glyphs,
        })
    }

    fn glyph_by_way(&self, c: usize, reads: &mut Reads) -> u16
        requires character { c < 2 ^ 21 }
        requires room { reads.old + 2 ^ 31 + 128 < 2 ^ 32 }
        ensures exact { result ≡ wide_glyph_of self.now c }
        ensures bound { result < self.now.glyphs }
        ensures count { reads.new ≡ reads.old + wide_reads_of self.now c }
        ensures few { wide_reads_of self.now c ≤ 54 }
    {
        match self.way {
            CodeWay::Plain => self.subtable.glyph(self.glyphs, c, reads),
            CodeWay::Symbol => {
                let glyph = self.subtable.glyph(self.glyphs, c, reads);
                if glyph == 0 && c < 256 {
                    return self.subtable.glyph(self.glyphs, 0xF000 + c, reads);
                }
                glyph
            }
            CodeWay::Roman => match roman_byte(c) {
                Some(byte) => self.subtable.glyph(self.glyphs, byte, reads),
                None => 0,
            },
        }
    }

    fn variation(&self, c: usize, selector: usize, reads: &mut Reads) -> u16
        requires room { reads.old + 2 ^ 31 + 128 < 2 ^ 32 }
        ensures exact { result ≡ variation_in self.now.variations self.now.table self.now.glyphs c selector }
        ensures bound { result < self.now.glyphs }
        ensures count { reads.new ≡ reads.old + reads_of_variation self.now.variations self.now.table c selector }
        ensures few { reads_of_variation self.now.variations self.now.table c selector ≤ 78 }
    {
        match self.variations {
            Some(at) => Variations::new(self.table, at).glyph(self.glyphs, c, selector, reads),
            None => 0,
        }
    }

    /// The glyph of a character, and the count of numbers read from the subtable.
    pub fn look_up(&self, c: char) -> Lookup
        ensures exact { result.glyph ≡ wide_glyph_of self.now c }
        ensures bound { result.glyph < self.now.glyphs }
        ensures reads { result.reads ≡ wide_reads_of self.now c }
        ensures few { result.reads ≤ 54 }
    {
        let mut reads = Reads::none();
        let glyph = self.glyph_by_way(c as usize, &mut reads);
        Lookup {
            glyph,
            reads: reads.count(),
        }
    }

    /// The glyph of a character with a selector, and the count of numbers read from cmap. Where the variation sequences
    /// have no other glyph, the glyph is the character's.
    pub fn look_up_with(&self, c: char, selector: char) -> Lookup
        ensures exact { result.glyph ≡ wide_glyph_with self.now c selector }
        ensures bound { result.glyph < self.now.glyphs }
        ensures reads { result.reads ≡ wide_reads_with self.now c selector }
        ensures few { result.reads ≤ 132 }
    {
        let mut reads = Reads::none();
        let variation = self.variation(c as usize, selector as usize, &mut reads);
        let glyph = if variation == 0 {
            self.glyph_by_way(c as usize, &mut reads)
        } else {
            variation
        };
        Lookup {
            glyph,
            reads: reads.count(),
        }
    }
}
