//! The edges of an outline, what they count of a list's work, and the box of their ink.

ghost use Rattle.std.specs.Prelude.{◌≡◌, ℤ, ◌+◌, IfOk, IfSome};
ghost use Rattle.tt_bitmap.specs.Bitmaps.{is_black};
ghost use Rattle.tt_bitmap.specs.Inks.{IsInk};
ghost use Rattle.tt_glyphs.specs.Edged.{EdgedFits, IsEdged, ink_of, inked_by};
ghost use Rattle.tt_glyphs.specs.Tried.{IsRuled};
ghost use Rattle.tt_picture.specs.Ink.{filled_ink};
ghost use Rattle.tt_picture.specs.Shapes.{filling_crossings};
ghost use Rattle.tt_scan.specs.Contours.{contours_at};
ghost use Rattle.tt_scan_dropouts.specs.Counted.{edges_counted};
ghost use Rattle.tt_scan_ink.specs.Least.{IsNear};

use crate::ruled::RuledOutline;
use std::alloc::{AllocError, Global};
use tt_arc::OutlineEdges;
use tt_bitmap::{LeastBox, joined};
use tt_core::Fault;
use tt_glyph_pixels::{GlyphPixels, glyph_frame};
use tt_picture::{box_of, edges_of, tape_crossings};
use tt_scan::Tape;
use tt_scan_dropouts::{BoxedRules, Extents};
use tt_scan_ink::{dropouts_ink, edges_ink};

/// The edges of an outline at pen 0.
#[derive(Drop)]
pub(crate) struct EdgedOutline {
    pub(crate) tape: Tape,
    /// The number of edges up to the end of each contour; empty where no dropouts are filled.
    pub(crate) ends: Vec<usize>,
    pub(crate) filled: Option<BoxedRules>,
    /// The box of its points, which holds its edges.
    pub(crate) extents: Extents,
    /// The number of its chords and straight edges.
    pub(crate) chords: usize,
    /// The pixels from its pen to the next, by its outline.
    pub(crate) step: u32,
    /// The distance of its advance's two ends, in 26.6 pixels.
    pub(crate) advance_left: i32,
    /// The fault of the program that makes it unfitted.
    pub(crate) unfitted: Option<Fault>,
}

/// The edges of an outline. The outline is dropped. Error: memory ran out.
pub(crate) fn edged(alloc: Global, ruled: RuledOutline) -> Result<EdgedOutline, AllocError>
    requires { IsRuled ruled }
    ensures exact { IfOk result (IsEdged ruled) }
    ensures fits { IfOk result EdgedFits }
    ensures fresh { IfOk result (λ e. e.tape.crosses ≡ 0) }
{
    let RuledOutline {
        outline,
        rule,
        filled,
    } = ruled;
    let extents = box_of(&outline, filled);
    let made = edges_of(alloc, &outline, rule, filled)?;
    let OutlineEdges { list, ends, chords } = made;
    let tape = Tape::of(alloc, glyph_frame(extents, filled), list)?;
    tt_arc::laws::contours_joined();
    Ok(EdgedOutline {
        tape,
        ends,
        filled,
        extents,
        chords,
        step: outline.step(),
        advance_left: outline.advance_left(),
        unfitted: outline.unfitted,
    })
}

impl EdgedOutline {
    /// The crossings of all rows of a picture that holds all of the glyph. Where dropouts are filled, the search for
    /// them counts too.
    pub(crate) fn crossings(&self) -> u64
        requires { EdgedFits self.now }
        ensures { result ≡ edges_counted self.now.tape.edges + filling_crossings self.now.filled self.now.tape.edges }
    {
        tape_crossings(&self.tape, self.filled)
    }

    /// The box of the dropouts, if they are filled. Error: memory ran out.
    fn dropouts_ink(&self, alloc: Global) -> Result<Option<LeastBox>, AllocError>
        requires { EdgedFits self.now }
        ensures { IfOk result (λ ink. ink ≡ filled_ink self.now.filled (contours_at self.now.tape.edges self.now.ends.items)) }
    {
        match self.filled {
            Some(rules) => dropouts_ink(alloc, rules, &self.tape, &self.ends),
            None => Ok(None),
        }
    }

    /// The box of all black pixels at pen 0, which are cut from the edges. Error: memory ran out.
    fn ink(&self, alloc: Global) -> Result<Option<LeastBox>, AllocError>
        requires { EdgedFits self.now }
        ensures { IfOk result (λ ink. ink ≡ ink_of self.now) }
    {
        let filled = self.dropouts_ink(alloc)?;
        let edges = edges_ink(alloc, self.tape.copied()?.into_list())?;
        Ok(joined(edges, filled))
    }
}

/// The box of all black pixels of a glyph at pen 0: that of its bitmap where it has one. Error: memory ran out.
pub(crate) fn ink_of(
    alloc: Global,
    edged: &EdgedOutline,
    pixels: &Option<GlyphPixels>,
) -> Result<Option<LeastBox>, AllocError>
    requires edged { EdgedFits edged.now }
    requires shown { IfSome pixels.now (λ g. (c j : ℤ) → is_black g.bitmap c j ≡ inked_by edged.now c j) }
    requires ink { IfSome pixels.now (λ g. IsInk (is_black g.bitmap) g.ink) }
    ensures exact { IfOk result (λ ink. ink ≡ ink_of edged.now) }
    ensures near { IfOk result (λ ink. IfSome ink IsNear) }
{
    match pixels {
        Some(pixels) => Ok(pixels.ink),
        None => edged.ink(alloc),
    }
}
