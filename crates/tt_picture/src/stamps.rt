//! Bitmaps at their places in a picture: made from the glyphs of lines, and painted.

ghost use Rattle.std.specs.Prelude.{◌≡◌, ℕ, ◌+◌, ◌^◌, ◌<◌, ◌≤◌, ◌&&◌, ◌||◌, nat_lt, ◌+ℤ◌, ◌-ℤ◌, pos, unsigned_abs, All, IfOk, OnOk};
ghost use Rattle.tt_bitmap.specs.Bands.{IsBandBlackened};
ghost use Rattle.tt_bitmap.specs.Bitmaps.{is_black};
ghost use Rattle.tt_core.specs.Bits.{stride};
ghost use Rattle.tt_core.specs.Limits.{width_limit};
ghost use Rattle.tt_picture.specs.Glyphs.{numbers_of};
ghost use Rattle.tt_picture.specs.Lines.{HasGlyphsOf};
ghost use Rattle.tt_picture.specs.Pixels.{IsBandOf};
ghost use Rattle.tt_picture.specs.Placed.{in_bitmap, lines_have, number_has, place_has};
ghost use Rattle.tt_picture.specs.Stamps.{some_stamp_shows, stamp_shows};
ghost use Rattle.tt_scan_dropouts.specs.Pictures.{column_at, line_at};
ghost use Rattle.tt_scan_edges.specs.Winding.{FrameFits};

use crate::band::row_bytes;
use crate::glyph::{Glyph, GlyphBody};
use crate::glyphs::Glyphs;
use crate::lines::PlacedLine;
use crate::stamp::PlacedBitmap;
use std::alloc::{AllocError, Global};
use std::rc::Rc;
use tt_scan::Frame;
use tt_strike_kept::CutGlyph;

/// The line of a picture's first row, counted upwards from the base line.
fn top_of(frame: Frame) -> i64
    ensures exact { result ≡ (frame.rise +ℤ pos frame.margin) -ℤ pos 1 }
    ensures near { unsigned_abs result < 2 ^ 36 }
{
    i64::from(frame.rise) + i64::from(frame.margin) - 1
}

/// A glyph's bitmap at a pen of a line with this frame.
fn stamp_at(cut: Rc<CutGlyph>, frame: Frame, pen: u32) -> PlacedBitmap
    requires frame { FrameFits frame }
    requires pen { pen ≤ width_limit }
    ensures { (c r : ℕ) → stamp_shows result c r ≡ is_black cut.value.bitmap (column_at frame pen c) (line_at frame r) }
{
    PlacedBitmap {
        cut,
        column: pen + frame.margin,
        top: top_of(frame),
    }
}

/// Adds the bitmap of a glyph at a pen, if the glyph has one. Error: Memory.
fn push_stamp(
    stamps: &mut Vec<PlacedBitmap>,
    glyph: &Glyph,
    frame: Frame,
    pen: u32,
) -> Result<(), AllocError>
    requires frame { FrameFits frame }
    requires pen { pen ≤ width_limit }
    ensures { OnOk result ((c r : ℕ) → some_stamp_shows stamps.new.items c r
        ≡ (some_stamp_shows stamps.old.items c r || in_bitmap glyph.now.body (column_at frame pen c) (line_at frame r))) }
{
    match &glyph.body {
        GlyphBody::Small(cut) => {
            let stamp = stamp_at(cut.clone()?, frame, pen);
            stamps.push(stamp)?;
            Ok(())
        }
        GlyphBody::Large(_) => Ok(()),
    }
}

/// Adds the bitmaps of a line's glyphs at their pens, as far as they have bitmaps. Error: Memory.
fn push_line(
    stamps: &mut Vec<PlacedBitmap>,
    glyphs: &Glyphs,
    frame: Frame,
    line: &[(u16, u32)],
) -> Result<(), AllocError>
    requires frame { FrameFits frame }
    requires among { HasGlyphsOf (numbers_of glyphs.now.made.items) line.now }
    requires pens { All (λ g. g.1 ≤ width_limit) line.now }
    ensures { OnOk result ((c r : ℕ) → some_stamp_shows stamps.new.items c r
        ≡ (some_stamp_shows stamps.old.items c r || place_has (number_has in_bitmap glyphs.now.made.items) frame line.now c r)) }
{
    stamps.reserve(line.len())?;
    for placed in line {
        let at = glyphs.place_of(placed.0);
        push_stamp(stamps, &glyphs.made[at], frame, placed.1)?;
    }
    Ok(())
}

/// The bitmaps of some lines' glyphs at their places, in the order of the lines. No bitmap is copied. Error: Memory.
pub(crate) fn stamps_of(
    alloc: Global,
    glyphs: &Glyphs,
    lines: &[PlacedLine],
) -> Result<Vec<PlacedBitmap>, AllocError>
    requires { All (λ l. HasGlyphsOf (numbers_of glyphs.now.made.items) l.glyphs.now) lines.now }
    ensures { IfOk result (λ v. (c r : ℕ) → some_stamp_shows v.items c r ≡ lines_have (number_has in_bitmap glyphs.now.made.items) lines.now c r) }
{
    let mut stamps = Vec::new(alloc);
    for line in lines {
        push_line(&mut stamps, glyphs, line.frame, line.glyphs)?;
    }
    Ok(stamps)
}

impl PlacedBitmap {
    /// The line of a picture's row, counted upwards from the glyph's base line.
    #[inline(always)]
    fn line_of(&self, r: u32) -> i64
        ensures exact { result ≡ self.now.top -ℤ pos r }
        ensures near { unsigned_abs result < 2 ^ 40 }
    {
        self.top - i64::from(r)
    }
}

/// Blackens the pixels of `count` rows from row `from` on that bitmaps have at their places; all others are unchanged.
pub(crate) fn add_stamps(
    stamps: &[PlacedBitmap],
    frame: Frame,
    from: u32,
    count: u32,
    band: &mut [u8],
)
    requires { IsBandOf frame from count band.old }
    ensures { IsBandBlackened (stride frame.width) count (λ i c. nat_lt c frame.width && some_stamp_shows stamps.now c (from + i)) band.old band.new }
{
    let bytes = row_bytes(frame);
    for stamp in stamps {
        let line = stamp.line_of(from);
        stamp.cut.bitmap.paint(
            i64::from(stamp.column),
            line,
            count,
            frame.width,
            bytes,
            band,
        );
    }
}
