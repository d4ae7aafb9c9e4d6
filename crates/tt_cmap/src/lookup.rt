//! The table as a whole, and a lookup in it.

ghost use Rattle.std.specs.Prelude.{◌≡◌, ◌+◌, ◌<◌, ◌≤◌, ℕ, length, Some, None, IsTrue, IfSome, IfOk, IfErr, OnOk};
ghost use Rattle.tt_core.specs.Limits.{font_limit};
ghost use Rattle.tt_core.specs.Directory.{HasNo};
ghost use Rattle.tt_core.specs.Outcomes.{Gives};
ghost use Rattle.tt_cmap.specs.declared.records.Format.{Format};
ghost use Rattle.tt_cmap.specs.Lookup.{cmap_of, cmap_by, by_subtable, glyph_of, reads_of, FollowsRanges};
ghost use Rattle.tt_cmap.specs.Ranges.{table_of, most_ends, IfSegments};
ghost use Rattle.tt_cmap.specs.Subtables.{subtable_of, choice_of, Serves, NoneServes};
ghost use Rattle.tt_cmap.specs.Defects.{IsBadCmap, IsBadChoice};

pub(crate) mod reads;
pub(crate) mod wide;

use crate::lookup::reads::Reads;
use crate::ranges::Ranges;
use crate::records::{CMAP, Choice, Records};
use crate::subtable::Subtable;
use std::marker::Model;
use tt_core::{Fault, Why};

/// The result of a lookup.
#[derive(Clone, Copy)]
pub struct Lookup {
    /// The glyph. It is 0, the missing glyph, if the map has no glyph, or gives one that the font lacks (profile).
    pub glyph: u16,
    /// The count of the subtable's numbers that the lookup read.
    pub reads: u32,
}

/// A character map. Clauses see the chosen subtable and the number of glyphs.
#[derive(Drop)]
pub struct Cmap<'a> {
    subtable: Subtable<'a>,
    glyphs: u16,
}

impl<'a> Model for Cmap<'a> {
    ghost use Rattle.std.specs.Prelude.{◌≡◌, ◌<◌, None};
    ghost use Rattle.tt_cmap.specs.Lookup as lookup;
    ghost use Rattle.tt_cmap.specs.Ranges.{falling_range, subtable_view};

    ghost Value = { lookup.Cmap };

    ghost view = { λ c. record { subtable = subtable_view c.subtable; glyphs = c.glyphs } };

    ghost invariant = { λ c. (falling_range (subtable_view c.subtable) ≡ None) × (0 < c.glyphs) };
}

impl<'a> Cmap<'a> {
    /// Opens cmap and chooses a subtable (profile). The order of choice:
    ///
    /// - platform 3, encoding 10, format 12;
    /// - platform 0, format 12;
    /// - platform 3, encoding 1, format 4;
    /// - platform 0, format 4.
    ///
    /// Among records of one kind the first counts. Errors: CmapShape, NoCmap.
    #[tactic(auto, unfolding(crate::specs::Lookup::cmap_of))]
    pub fn open(table: &'a [u8], glyphs: u16) -> Result<Cmap<'a>, Fault>
        requires size { length table.now ≤ font_limit }
        requires glyphs { 0 < glyphs }
        ensures exact { Gives (λ c. c) result (cmap_of table.now glyphs) }
        // The serving record names the subtable.
        ensures first { (format : Format) (i : ℕ) → Serves format table.now i
            → Gives (λ c. c) result (cmap_by table.now glyphs (Some (choice_of format (subtable_of table.now i)))) }
        ensures absent { NoneServes table.now → Gives (λ c. c) result (cmap_by table.now glyphs None) }
        ensures whole { IfOk result (λ c. table_of c.subtable ≡ table.now) }
        ensures glyphs { IfOk result (λ c. c.glyphs ≡ glyphs) }
        ensures sound { OnOk result (HasNo (IsBadCmap table.now)) }
        ensures fault { IfErr result (IsBadCmap table.now) }
    {
        let records = Records::open(table)?;
        Cmap::by_subtable(table, glyphs, records.chosen())
    }

    /// The map by the chosen subtable, whose ranges must end in rising order. Errors: NoCmap, CmapShape.
    fn by_subtable(table: &'a [u8], glyphs: u16, choice: Option<Choice>) -> Result<Cmap<'a>, Fault>
        requires size { length table.now ≤ font_limit }
        requires within { IfSome choice (λ p. p.at ≤ length table.now) }
        requires glyphs { 0 < glyphs }
        ensures exact { Gives (λ c. c) result (by_subtable table.now glyphs choice) }
        ensures whole { IfOk result (λ c. table_of c.subtable ≡ table.now) }
        ensures glyphs { IfOk result (λ c. c.glyphs ≡ glyphs) }
        ensures fault { IfErr result (IsBadChoice table.now choice) }
    {
        let Some(choice) = choice else {
            return Err(Fault::new(CMAP, 0, Why::NoCmap));
        };
        let subtable = Subtable::open(table, choice)?;
        match subtable.falling(&mut Reads::none()) {
            Some(i) => Err(Fault::new(CMAP, subtable.end_place(i + 1), Why::CmapShape)),
            None => Ok(Cmap { subtable, glyphs }),
        }
    }

    /// The glyph of a character, and the count of numbers read from the subtable. A binary search reads ends of
    /// ranges; then at most 4 numbers of the found range are read.
    pub fn look_up(&self, c: char) -> Lookup
        ensures exact { result.glyph ≡ glyph_of self.now c }
        ensures ranges { FollowsRanges self.now c result.glyph }
        // Segments end at U+FFFF.
        ensures beyond { IfSegments self.now.subtable (0xFFFF < c → result.glyph ≡ 0) }
        ensures bound { result.glyph < self.now.glyphs }
        ensures count { result.reads ≡ reads_of self.now c }
        ensures few { result.reads ≤ most_ends self.now.subtable + 4 }
    {
        let mut reads = Reads::none();
        let glyph = self.subtable.glyph(self.glyphs, c as usize, &mut reads);
        Lookup {
            glyph,
            reads: reads.count(),
        }
    }

    /// The glyph of a character. It is 0 if the map has no glyph, or gives one that the font lacks (profile).
    pub fn glyph(&self, c: char) -> u16
        ensures exact { result ≡ glyph_of self.now c }
        ensures ranges { FollowsRanges self.now c result }
        // Segments end at U+FFFF.
        ensures beyond { IfSegments self.now.subtable (0xFFFF < c → result ≡ 0) }
        ensures bound { result < self.now.glyphs }
    {
        self.look_up(c).glyph
    }
}
