//! The bitmap of a glyph, and the least box of its black pixels.

ghost use Rattle.std.proofs.Props.{props};
ghost use Rattle.std.specs.Prelude.{◌≡◌, ℤ, ◌*◌, ◌^◌, ◌≤◌, length, All, IfNone, IfOk, IfSome, OnOk};
ghost use Rattle.tt_bitmap.specs.Bitmaps.{is_black, strips};
ghost use Rattle.tt_bitmap.specs.Inks.{IsInk, IsNear};
ghost use Rattle.tt_glyph_pixels.specs.Reach.{IsLarge, columns_by, rows_by};
ghost use Rattle.tt_glyph_pixels.specs.Shown.{AreClosed, shows};
ghost use Rattle.tt_scan.specs.Contours.{AreEnds, IsClosed, contours_at};
ghost use Rattle.tt_scan_gaps.specs.Boxes.{IsBoxOf};

use crate::filling::blacken_filled;
use crate::reach::window_within;
use crate::rows::{blacken_inked, white};
use std::alloc::{AllocError, Global};
use tt_bitmap::{BoxBitmap, LeastBox};
use tt_scan::Tape;
use tt_scan_dropouts::{BoxedRules, Extents};

/// The black pixels of a glyph at pen 0.
#[derive(Drop)]
pub struct GlyphPixels {
    pub bitmap: BoxBitmap,
    /// The least box that holds them; None where the glyph is blank.
    pub ink: Option<LeastBox>,
    pub ghost near: { IfSome ink IsNear } by { Prim.hlevel props },
}

/// All black pixels of a glyph at pen 0. The tape has the glyph's edges, and `extents` is a box that holds them. In the frame
/// of `glyph_frame` the lines are cut from the tape itself, in any other from a copy. The contours are closed. Where dropouts
/// are filled, the box is that of the rules, and each contour ends before the edge of a number in `ends`. None where the box
/// has more columns or lines than the greatest picture, or the bitmap takes more than `most` bytes. Error: memory ran out.
pub fn pixels_of(
    alloc: Global,
    tape: &mut Tape,
    ends: &[usize],
    filled: Option<BoxedRules>,
    extents: Extents,
    most: usize,
) -> Result<Option<GlyphPixels>, AllocError>
    requires few { length tape.old.edges ≤ 2 ^ 32 }
    requires fresh { tape.old.crosses ≡ 0 }
    requires boxed { IsBoxOf extents tape.old.edges × IfSome filled (λ rules. rules.extents ≡ extents) }
    requires ends { IfSome filled (λ rules. AreEnds (length tape.old.edges) ends.now) }
    requires closed { AreClosed tape.old.edges }
    requires round { IfSome filled (λ rules. All IsClosed (contours_at tape.old.edges ends.now)) }
    ensures exact { IfOk result (λ o. IfSome o (λ g. (c j : ℤ) → is_black g.bitmap c j
        ≡ shows tape.old.edges (contours_at tape.old.edges ends.now) filled c j)) }
    ensures ink { IfOk result (λ o. IfSome o (λ g. IsInk (is_black g.bitmap) g.ink)) }
    ensures held { IfOk result (λ o. IfSome o (λ g. 8 * (strips g.bitmap.width * g.bitmap.height) ≤ most)) }
    ensures large { IfOk result (λ o. IfNone o (IsLarge most (columns_by extents filled) (rows_by extents filled))) }
    ensures edges { OnOk result (tape.new.edges ≡ tape.old.edges) }
    ensures kept { IfOk result (λ o. IfNone o (tape.new ≡ tape.old)) }
{
    let Some(window) = window_within(extents, filled, most) else {
        return Ok(None);
    };
    let mut bitmap = white(alloc, window)?;
    blacken_inked(alloc, &mut bitmap, tape, window)?;
    blacken_filled(alloc, &mut bitmap, tape, ends, filled, window)?;
    let ink = bitmap.ink();
    Ok(Some(GlyphPixels { bitmap, ink }))
}
