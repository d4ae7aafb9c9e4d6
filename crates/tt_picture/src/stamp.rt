//! A bitmap at its place in a picture.

ghost use Rattle.std.specs.Prelude.{◌^◌, ◌<◌, unsigned_abs};

use std::rc::Rc;
use tt_strike_kept::CutGlyph;

/// The bitmap of a glyph at its place in a picture.
#[derive(Drop)]
pub(crate) struct PlacedBitmap {
    /// The glyph, with all its black pixels at pen 0. It may have other owners.
    pub(crate) cut: Rc<CutGlyph>,
    /// The picture's column at the glyph's pen.
    pub(crate) column: u32,
    /// The line of the picture's first row, counted upwards from the glyph's base line.
    pub(crate) top: i64,
    pub(crate) ghost near: { unsigned_abs top < 2 ^ 36 },
}
