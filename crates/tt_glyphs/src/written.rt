//! The rows of a glyph's ink, by its bitmap or by its edges.

ghost use Rattle.std.specs.Prelude.{◌≡◌, ◌≤◌, ℤ, length, IfOk, IfSome};
ghost use Rattle.tt_bitmap.specs.Bitmaps.{is_black};
ghost use Rattle.tt_glyphs.specs.Bitmaps.{place_bytes};
ghost use Rattle.tt_glyphs.specs.Drawn.{IsInked, RowsFit, edged_pixel, edges_by, place_by, rows_by};
ghost use Rattle.tt_glyphs.specs.Edged.{EdgedFits, inked_by};
ghost use Rattle.tt_picture.specs.Rows.{rows};

use crate::edged::EdgedOutline;
use crate::large::LargeRows;
use crate::place::InkPlace;
use crate::small::SmallRows;
use std::alloc::{AllocError, Global};
use tt_glyph_pixels::GlyphPixels;
use tt_scan::Sweep;

/// The rows of a glyph's ink, before they are made.
#[derive(Drop)]
pub(crate) enum GlyphRows {
    Small(SmallRows),
    /// A glyph whose bitmap would take too many bytes.
    Large(LargeRows),
}

/// The rows of a glyph's ink, which stands in this place: by its bitmap where it has one, else by its edges. Error:
/// memory ran out.
pub(crate) fn rows_of(
    alloc: Global,
    place: InkPlace,
    edged: EdgedOutline,
    pixels: Option<GlyphPixels>,
) -> Result<GlyphRows, AllocError>
    requires place { IsInked place }
    requires edged { EdgedFits edged }
    requires shown { IfSome pixels (λ g. (c j : ℤ) → is_black g.bitmap c j ≡ inked_by edged c j) }
    ensures place { IfOk result (λ b. place_by b ≡ place) }
    ensures rows { IfOk result (λ b. rows_by b ≡ rows place.width (edged_pixel edged place) 0 (place_bytes place)) }
    ensures fits { IfOk result RowsFit }
{
    match pixels {
        Some(pixels) => {
            let GlyphPixels { bitmap, .. } = pixels;
            Ok(GlyphRows::Small(SmallRows { place, bitmap }))
        }
        None => Ok(GlyphRows::Large(LargeRows::of(alloc, place, edged)?)),
    }
}

impl GlyphRows {
    /// The place of the ink.
    pub(crate) fn place(&self) -> InkPlace
        ensures { result ≡ place_by self.now }
    {
        match self {
            GlyphRows::Small(small) => small.place,
            GlyphRows::Large(large) => large.place,
        }
    }

    /// The number of the edges that the rows are made of.
    pub(crate) fn edges(&self) -> usize
        ensures { result ≡ edges_by self.now }
    {
        match self {
            GlyphRows::Small(_) => 0,
            GlyphRows::Large(large) => large.edges(),
        }
    }

    /// The bytes of the bitmap; 0 where there is none.
    pub(crate) fn held(&self) -> usize {
        match self {
            GlyphRows::Small(small) => small.bitmap.bytes(),
            GlyphRows::Large(_) => 0,
        }
    }

    /// Makes all rows, the highest first, and overwrites `rows`. No memory is taken.
    pub(crate) fn write(&mut self, sweep: &mut Sweep, rows: &mut [u8])
        requires fits { RowsFit self.old }
        requires room { edges_by self.old ≤ sweep.old.room }
        requires len { length rows.old ≡ place_bytes (place_by self.old) }
        ensures rows { rows.new ≡ rows_by self.old }
        ensures room { sweep.new.room ≡ sweep.old.room }
    {
        match self {
            GlyphRows::Small(small) => small.write(rows),
            GlyphRows::Large(large) => large.write(sweep, rows),
        }
    }
}
