//! The dropouts of a glyph in a window.

ghost use Rattle.std.specs.Prelude.{◌≡◌, ℤ, ◌&&◌, ◌||◌, ◌^◌, ◌≤◌, length, All, IfSome, OnOk};
ghost use Rattle.tt_bitmap.specs.Bitmaps.{has, is_black};
ghost use Rattle.tt_glyph_pixels.specs.Shown.{is_filled};
ghost use Rattle.tt_scan.specs.Contours.{AreEnds, IsClosed, contours_at};
ghost use Rattle.tt_scan_dropouts.specs.Dropouts.{is_dropout};
ghost use Rattle.tt_scan_dropouts.specs.Passes.{has_pixel};
ghost use Rattle.tt_scan_dropouts.specs.Windows as windows;
ghost use Rattle.tt_scan_dropouts.specs.Windows.{WindowFits, widened};
ghost use Rattle.tt_scan_edges.specs.Winding as winding;
ghost use Rattle.tt_scan_gaps.specs.Boxes.{IsBoxOf};
ghost use Rattle.tt_scan_gaps.specs.Crossings.{centre};

use crate::rising::passes_needed;
use std::alloc::{AllocError, Global};
use tt_bitmap::BoxBitmap;
use tt_scan::Tape;
use tt_scan_dropouts::{BoxedRules, Outlined, Pixel, Window, dropouts_beside};

/// Blackens some pixels, as far as the bitmap has them.
fn blacken_all(bitmap: &mut BoxBitmap, pixels: &[Pixel])
    ensures black { (c j : ℤ) → is_black bitmap.new c j
        ≡ (is_black bitmap.old c j || (has bitmap.old c j && has_pixel pixels.now c j)) }
    ensures place { bitmap.new ≡ record bitmap.old { words = bitmap.new.words } }
{
    for pixel in pixels {
        bitmap.blacken(pixel.column, pixel.row);
    }
}

/// Blackens the dropouts of a glyph in a window. The bitmap has the window's pixels, and those are black that the edges
/// blacken. The contours are closed. Error: memory ran out.
fn blacken_dropouts(
    alloc: Global,
    bitmap: &mut BoxBitmap,
    glyph: Outlined,
    window: Window,
) -> Result<(), AllocError>
    requires window { WindowFits (widened 2 window) }
    requires has { (c j : ℤ) → has bitmap.old c j ≡ windows.has window c j }
    requires inked { (c j : ℤ) → is_black bitmap.old c j ≡ winding.is_black glyph.tape.now.edges (centre c) (centre j) }
    requires closed { All IsClosed (contours_at glyph.tape.now.edges glyph.ends.now) }
    ensures black { OnOk result ((c j : ℤ) → is_black bitmap.new c j ≡ (is_black bitmap.old c j || (windows.has window c j
        && is_dropout glyph.entry.rules (contours_at glyph.entry.tape.now.edges glyph.entry.ends.now) c j))) }
    ensures place { OnOk result (bitmap.new ≡ record bitmap.old { words = bitmap.new.words }) }
{
    // Most glyphs have no dropouts, and the test is quick.
    let Some(some) = passes_needed(glyph, bitmap) else {
        return Ok(());
    };
    let found = dropouts_beside(alloc, glyph, window, bitmap, some)?;
    blacken_all(bitmap, &found);
    Ok(())
}

/// Blackens the dropouts of a tape's glyph in a window, if they are filled. The bitmap has the window's pixels, and those
/// are black that the edges blacken. Error: memory ran out.
pub(crate) fn blacken_filled(
    alloc: Global,
    bitmap: &mut BoxBitmap,
    tape: &Tape,
    ends: &[usize],
    filled: Option<BoxedRules>,
    window: Window,
) -> Result<(), AllocError>
    requires window { WindowFits (widened 2 window) }
    requires has { (c j : ℤ) → has bitmap.old c j ≡ windows.has window c j }
    requires inked { (c j : ℤ) → is_black bitmap.old c j ≡ winding.is_black tape.now.edges (centre c) (centre j) }
    requires few { length tape.now.edges ≤ 2 ^ 32 }
    requires boxed { IfSome filled (λ rules. IsBoxOf rules.extents tape.now.edges) }
    requires ends { IfSome filled (λ rules. AreEnds (length tape.now.edges) ends.now) }
    requires round { IfSome filled (λ rules. All IsClosed (contours_at tape.now.edges ends.now)) }
    ensures black { OnOk result ((c j : ℤ) → is_black bitmap.new c j ≡ (is_black bitmap.old c j || (windows.has window c j
        && is_filled filled (contours_at tape.now.edges ends.now) c j))) }
    ensures place { OnOk result (bitmap.new ≡ record bitmap.old { words = bitmap.new.words }) }
{
    match filled {
        Some(rules) => blacken_dropouts(alloc, bitmap, Outlined { rules, tape, ends }, window),
        None => Ok(()),
    }
}
