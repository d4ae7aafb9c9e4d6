//! A subtable of format 0, 6 or 10: a list of glyphs. OpenType, "cmap", byte encoding table, trimmed table mapping and
//! trimmed array.

ghost use Rattle.std.specs.Prelude.{◌≡◌, ◌+◌, ◌<◌, ◌≤◌, ◌^◌, length, IfOk, IfErr};
ghost use Rattle.tt_core.specs.Limits.{font_limit};
ghost use Rattle.tt_core.specs.Outcomes.{Gives};
ghost use Rattle.tt_cmap.specs.Lists.{list_at, list_header, first_in, count_in, place_in, by_list};
ghost use Rattle.tt_cmap.specs.WideDefects.{IsBadList};
ghost use Rattle.tt_cmap.specs.WideReads.{list_reads};

use crate::glyphs::or_missing;
use crate::lookup::reads::Reads;
use crate::records::CMAP;
use crate::table::Table;
use std::marker::Model;
use tt_core::{Fault, Why, u16_at, u32_at};

/// The format of a list of glyphs.
#[derive(Clone, Copy)]
pub(crate) enum ListFormat {
    /// Format 0: a byte for each of 256 characters.
    ByteEncoding,
    /// Format 6: a uint16 for each character from firstCode on.
    TrimmedTable,
    /// Format 10: a uint16 for each character from startCharCode on.
    TrimmedArray,
}

/// The bytes before the list.
fn header(format: ListFormat) -> usize
    ensures exact { result ≡ list_header format }
    ensures few { result ≤ 20 }
{
    match format {
        ListFormat::ByteEncoding => 6,
        ListFormat::TrimmedTable => 10,
        ListFormat::TrimmedArray => 20,
    }
}

/// The first character and the count of characters, of a subtable whose header fits.
fn span(table: &[u8], format: ListFormat, at: usize) -> (usize, usize)
    requires size { length table.now ≤ font_limit }
    requires fits { at + list_header format ≤ length table.now }
    ensures first { result.0 ≡ first_in format table.now at }
    ensures count { result.1 ≡ count_in format table.now at }
    ensures first_fits { result.0 < 2 ^ 32 }
    ensures count_fits { result.1 < 2 ^ 32 }
{
    match format {
        ListFormat::ByteEncoding => (0, 256),
        ListFormat::TrimmedTable => {
            let first = u16_at(table, at + 6).unwrap();
            let count = u16_at(table, at + 8).unwrap();
            (usize::from(first), usize::from(count))
        }
        ListFormat::TrimmedArray => {
            let first = u32_at(table, at + 12).unwrap();
            let count = u32_at(table, at + 16).unwrap();
            (first as usize, count as usize)
        }
    }
}

/// The offset in the subtable of the glyph of character i of the list.
fn place(format: ListFormat, i: usize) -> usize
    requires { i < 2 ^ 33 }
    ensures exact { result ≡ place_in format i }
    ensures fits { result ≤ 2 ^ 35 }
{
    match format {
        ListFormat::ByteEncoding => 6 + i,
        ListFormat::TrimmedTable => 10 + 2 * i,
        ListFormat::TrimmedArray => 20 + 2 * i,
    }
}

/// A subtable whose list fits. Clauses see the format, the bytes of cmap and the subtable's offset.
#[derive(Drop)]
pub(crate) struct GlyphList<'a> {
    format: ListFormat,
    table: Table<'a>,
    at: usize,
    first: usize,
    count: usize,
}

impl<'a> Model for GlyphList<'a> {
    ghost use Rattle.std.specs.Prelude.{◌≡◌, ◌<◌, ◌^◌};
    ghost use Rattle.tt_cmap.specs.Lists.{IsGlyphList, first_character, character_count};
    ghost use Rattle.tt_cmap.specs.Lists as lists;

    ghost Value = { lists.GlyphList };

    ghost view = { λ m. record { format = m.format; table = m.table; at = m.at } };

    ghost invariant = { λ m. IsGlyphList (record { format = m.format; table = m.table; at = m.at })
        × (m.first ≡ first_character (record { format = m.format; table = m.table; at = m.at }))
        × (m.count ≡ character_count (record { format = m.format; table = m.table; at = m.at }))
        × (m.first < 2 ^ 32) × (m.count < 2 ^ 32) };
}

impl<'a> GlyphList<'a> {
    /// The subtable at an offset of cmap. Error: CmapShape.
    #[tactic(auto, unfolding(crate::specs::Lists::list_at))]
    pub(crate) fn open(
        format: ListFormat,
        table: &'a [u8],
        at: usize,
    ) -> Result<GlyphList<'a>, Fault>
        requires size { length table.now ≤ font_limit }
        requires place { at ≤ length table.now }
        ensures exact { Gives (λ m. m) result (list_at format table.now at) }
        ensures fault { IfErr result (IsBadList (record { format = format; table = table.now; at = at })) }
    {
        let short = Fault::new(CMAP, at as u32, Why::CmapShape);
        if table.len() < at + header(format) {
            return Err(short);
        }
        let (first, count) = span(table, format, at);
        if table.len() < at + place(format, count) {
            return Err(short);
        }
        let table = Table::new(table);
        Ok(GlyphList {
            format,
            table,
            at,
            first,
            count,
        })
    }

    /// The glyph of a character.
    pub(crate) fn glyph(&self, glyphs: u16, c: usize, reads: &mut Reads) -> u16
        requires character { c < 2 ^ 32 }
        requires glyphs { 0 < glyphs }
        requires room { reads.old + 1 < 2 ^ 32 }
        ensures exact { result ≡ by_list self.now glyphs c }
        ensures bound { result < glyphs }
        ensures count { reads.new ≡ reads.old + list_reads self.now c }
        ensures few { list_reads self.now c ≤ 1 }
    {
        if c < self.first || self.first + self.count <= c {
            return 0;
        }
        let at = self.at + place(self.format, c - self.first);
        let number = match self.format {
            ListFormat::ByteEncoding => self.table.byte(at, reads),
            ListFormat::TrimmedTable | ListFormat::TrimmedArray => self.table.word(at, reads),
        };
        or_missing(glyphs, number)
    }
}
