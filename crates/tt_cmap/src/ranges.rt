//! The ranges of characters of a subtable. OpenType, "cmap", formats of ranges.

ghost use Rattle.std.specs.Prelude.{◌≡◌, ◌+◌, ◌^◌, ◌<◌, ◌≤◌, length};
ghost use Rattle.tt_cmap.specs.Defects.{range_end_size};
ghost use Rattle.tt_cmap.specs.Ranges.{Subtable, table_of, range_count, range_end_place, by_range, range_reads};

use crate::lookup::reads::Reads;

/// The ranges of a subtable, numbered from 0 in the order of their last characters.
pub(crate) trait Ranges {
    // The subtable of these ranges.
    ghost ranges_of: { Self → Subtable };

    /// The offset of a range's last character.
    fn end_place(&self, i: usize) -> u32
        requires { i < range_count (ranges_of self.now) }
        ensures exact { result ≡ range_end_place (ranges_of self.now) i }
        ensures fits { result + range_end_size (ranges_of self.now) ≤ length (table_of (ranges_of self.now)) };

    /// The glyph of a character by a range that ends at the character or after it.
    fn glyph_by(&self, glyphs: u16, c: usize, i: usize, reads: &mut Reads) -> u16
        requires range { i < range_count (ranges_of self.now) }
        requires character { c < 2 ^ 21 }
        requires glyphs { 0 < glyphs }
        requires room { reads.old + 4 < 2 ^ 32 }
        ensures exact { result ≡ by_range (ranges_of self.now) glyphs c i }
        ensures bound { result < glyphs }
        ensures count { reads.new ≡ reads.old + range_reads (ranges_of self.now) c i }
        ensures few { range_reads (ranges_of self.now) c i ≤ 4 };
}
