//! A subtable of the wide reading, and the glyph of a code. OpenType, "cmap", formats 0, 4, 6, 10, 12 and 13.

ghost use Rattle.std.specs.Prelude.{◌≡◌, ◌+◌, ◌^◌, ◌<◌, ◌≤◌, length, IfOk, IfErr};
ghost use Rattle.tt_core.specs.Limits.{font_limit};
ghost use Rattle.tt_core.specs.Outcomes.{Gives};
ghost use Rattle.tt_cmap.specs.WideDefects.{IsBadWideShape};
ghost use Rattle.tt_cmap.specs.WideReads.{code_reads};
ghost use Rattle.tt_cmap.specs.WideSubtables.{readable_of, wide_subtable_at, wide_view, glyph_of_code};

use crate::format12::Format12;
use crate::lists::{GlyphList, ListFormat};
use crate::lookup::reads::Reads;
use crate::records::{Choice, Format};
use crate::subtable::Subtable;
use tt_core::Fault;

/// A format that is read.
#[derive(Clone, Copy)]
pub(crate) enum Readable {
    /// Formats 0, 6 and 10.
    Listed(ListFormat),
    /// Formats 4 and 12.
    Ranged(Format),
    /// Format 13.
    Shared,
}

/// The format with a number, if it is read.
pub(crate) fn readable_of(number: u16) -> Option<Readable>
    ensures { result ≡ readable_of number }
{
    match number {
        0 => Some(Readable::Listed(ListFormat::ByteEncoding)),
        4 => Some(Readable::Ranged(Format::Segments)),
        6 => Some(Readable::Listed(ListFormat::TrimmedTable)),
        10 => Some(Readable::Listed(ListFormat::TrimmedArray)),
        12 => Some(Readable::Ranged(Format::Groups)),
        13 => Some(Readable::Shared),
        _ => None,
    }
}

/// A subtable: a list of glyphs, ranges, or groups that have one glyph each.
#[derive(Drop)]
pub(crate) enum WideSubtable<'a> {
    Listed(GlyphList<'a>),
    Ranged(Subtable<'a>),
    Shared(Format12<'a>),
}

impl<'a> WideSubtable<'a> {
    /// The subtable of a format, if it fits. No end of a range is read. Error: CmapShape.
    pub(crate) fn open(
        table: &'a [u8],
        format: Readable,
        at: usize,
    ) -> Result<WideSubtable<'a>, Fault>
        requires size { length table.now ≤ font_limit }
        requires place { at ≤ length table.now }
        ensures exact { Gives wide_view result (wide_subtable_at format table.now at) }
        ensures fault { IfErr result (IsBadWideShape format table.now at) }
    {
        match format {
            Readable::Listed(format) => Ok(WideSubtable::Listed(GlyphList::open(
                format, table, at,
            )?)),
            Readable::Ranged(format) => {
                let choice = Choice { format, at };
                Ok(WideSubtable::Ranged(Subtable::open(table, choice)?))
            }
            Readable::Shared => Ok(WideSubtable::Shared(Format12::open(table, at)?)),
        }
    }

    /// The glyph of a code, below `glyphs`. A binary search reads at most 23 ends; then at most 4 numbers are read.
    pub(crate) fn glyph(&self, glyphs: u16, c: usize, reads: &mut Reads) -> u16
        requires character { c < 2 ^ 21 }
        requires glyphs { 0 < glyphs }
        requires room { reads.old + 2 ^ 31 < 2 ^ 32 }
        ensures exact { result ≡ glyph_of_code (wide_view self.now) glyphs c }
        ensures bound { result < glyphs }
        ensures count { reads.new ≡ reads.old + code_reads (wide_view self.now) c }
        ensures few { code_reads (wide_view self.now) c ≤ 27 }
    {
        match self {
            WideSubtable::Listed(list) => list.glyph(glyphs, c, reads),
            WideSubtable::Ranged(ranges) => ranges.glyph_by_search(glyphs, c, reads),
            WideSubtable::Shared(groups) => groups.shared_glyph(glyphs, c, reads),
        }
    }
}
