//! The rows of a glyph's ink by its bitmap.

ghost use Rattle.std.specs.Prelude.{◌≡◌, length};
ghost use Rattle.tt_glyphs.specs.Bitmaps.{place_bytes};
ghost use Rattle.tt_glyphs.specs.Drawn.{IsInked, small_rows};

use crate::place::InkPlace;
use crate::placing::row_bytes;
use tt_bitmap::BoxBitmap;

/// The rows of a glyph's ink by its bitmap, before they are made.
#[derive(Drop)]
pub(crate) struct SmallRows {
    pub(crate) place: InkPlace,
    /// All black pixels of the glyph at pen 0.
    pub(crate) bitmap: BoxBitmap,
}

impl SmallRows {
    /// Makes all rows, the highest first, and overwrites `rows`. No memory is taken.
    pub(crate) fn write(&self, rows: &mut [u8])
        requires place { IsInked self.now.place }
        requires len { length rows.old ≡ place_bytes self.now.place }
        ensures { rows.new ≡ small_rows self.now }
    {
        let place = self.place;
        rows.fill(0);
        self.bitmap.paint(
            -i64::from(place.left),
            i64::from(place.top) - 1,
            place.height,
            place.width,
            row_bytes(place.width),
            rows,
        );
    }
}
