//! Makes the pixels of a glyph, and caches them.

ghost use Rattle.std.specs.Prelude.{◌≡◌, ◌+◌, ◌^◌, ◌≤◌, length, IfOk, IfSome};
ghost use Rattle.tt_fit.specs.Fitting.{Fitter};
ghost use Rattle.tt_glyph_pixels.specs.Shown.{AreClosed};
ghost use Rattle.tt_picture.specs.Cached.{IsCacheFor, IsCached, limit_of};
ghost use Rattle.tt_picture.specs.Cut.{IsKeptOf};
ghost use Rattle.tt_picture.specs.Glyphs as glyphs;
ghost use Rattle.tt_picture.specs.Glyphs.{IsBodyOf, crossings_cut};
ghost use Rattle.tt_picture.specs.Shapes.{filling_crossings};
ghost use Rattle.tt_picture.specs.Views.{body_view, facts_of};
ghost use Rattle.tt_scan.specs.Contours.{contours_at};
ghost use Rattle.tt_scan_dropouts.specs.Counted.{edges_counted};
ghost use Rattle.tt_scan_gaps.specs.Boxes.{ExtentsFit, IsBoxOf};
ghost use Rattle.tt_strike_kept.specs.Glyph.{KeptGlyph};

use crate::cache::Cache;
use crate::glyph::{Glyph, GlyphBody, LargeGlyph, UncutGlyph};
use std::alloc::{AllocError, Global};
use std::rc::Rc;
use tt_glyph_pixels::{GlyphPixels, pixels_of};
use tt_scan::Tape;
use tt_scan_dropouts::{BoxedRules, Extents, all_counted, edges_counted};
use tt_strike_kept::{CutGlyph, GlyphFacts, KeptCounts, KeptGlyph};

/// What the bitmap of a glyph may take: its bytes, and the crossings of the edges that it is cut from.
#[derive(Clone, Copy)]
pub(crate) struct CutLimits {
    pub(crate) bytes: usize,
    pub(crate) crossings: u64,
}

/// The crossings of a tape's edges at one pen, in a picture and outside. Where dropouts are filled, the search for them
/// counts too.
pub fn tape_crossings(tape: &Tape, filled: Option<BoxedRules>) -> u64
    requires few { length tape.now.edges ≤ 2 ^ 19 }
    requires boxed { IfSome filled (λ rules. ExtentsFit rules.extents) }
    ensures { result ≡ edges_counted tape.now.edges + filling_crossings filled tape.now.edges }
{
    let edges = tape.lend();
    match filled {
        Some(rules) => all_counted(rules.extents, edges),
        None => edges_counted(edges),
    }
}

impl LargeGlyph {
    /// The glyph with its facts, not cut. Error: Memory.
    fn uncut(self, alloc: Global, facts: GlyphFacts) -> Result<GlyphBody, AllocError>
        ensures body { IfOk result (λ b. body_view b ≡ glyphs.large self) }
        ensures facts { IfOk result (λ b. facts_of b ≡ facts) }
    {
        let uncut = UncutGlyph { large: self, facts };
        Ok(GlyphBody::Large(Box::new(alloc, uncut)?))
    }

    /// The glyph's pixels, in a bitmap where the bitmap takes no more than the limits. A glyph with more crossings than
    /// the limit is not cut. The box holds its edges. Error: Memory.
    pub(crate) fn into_body(
        self,
        alloc: Global,
        extents: Extents,
        facts: GlyphFacts,
        limits: CutLimits,
    ) -> Result<GlyphBody, AllocError>
        requires closed { AreClosed self.edges }
        requires boxed { IsBoxOf extents self.edges }
        requires same { IfSome self.filled (λ rules. rules.extents ≡ extents) }
        ensures body { IfOk result (λ b. IsBodyOf self.edges (contours_at self.edges self.ends) self.filled (body_view b)) }
        ensures facts { IfOk result (λ b. facts_of b ≡ facts) }
        ensures cut { IfOk result (λ b. crossings_cut facts.crossings (body_view b) ≤ limits.crossings) }
    {
        if facts.crossings > limits.crossings {
            return self.uncut(alloc, facts);
        }
        let LargeGlyph {
            mut tape,
            ends,
            filled,
        } = self;
        let made = pixels_of(alloc, &mut tape, &ends, filled, extents, limits.bytes)?;
        let Some(pixels) = made else {
            return LargeGlyph { tape, ends, filled }.uncut(alloc, facts);
        };
        let GlyphPixels { bitmap, ink } = pixels;
        let cut = CutGlyph { bitmap, ink, facts };
        Ok(GlyphBody::Small(Rc::new(alloc, cut)?))
    }
}

impl Glyph {
    /// Caches the glyph if it is to be cached, and its bitmap takes no more than a sixteenth of the cache. The glyph then
    /// has one more owner. Error: Memory.
    pub(crate) fn cache_in(
        &self,
        cache: &mut Cache,
        counts: Option<KeptCounts>,
    ) -> Result<(), AllocError>
        ensures cached { (s : Fitter) → ((k : KeptGlyph) → IsKeptOf self.now counts k → IsCached s self.now.number k)
            → IsCacheFor s cache.old → IsCacheFor s cache.new }
        ensures limit { limit_of cache.new ≡ limit_of cache.old }
    {
        let Some(counts) = counts else {
            return Ok(());
        };
        let GlyphBody::Small(cut) = &self.body else {
            return Ok(());
        };
        if cut.bitmap.bytes() > cache.bitmap_limit() {
            return Ok(());
        }
        let kept = KeptGlyph {
            cut: cut.clone()?,
            counts,
        };
        cache.put(self.number, kept);
        Ok(())
    }
}
