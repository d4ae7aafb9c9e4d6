//! Distinct glyphs, fitted in order, and their pixels.

ghost use Rattle.std.specs.Prelude.{◌≡◌, ◌⊎◌, ℕ, ◌<◌, ◌≤◌, true, All, IfOk, IfSome, IfNone, List, Ok, Err};
ghost use Rattle.tt_core.specs.Outcomes.{IfTold, font_fault};
ghost use Rattle.tt_fit.specs.Fitting.{Fitter};
ghost use Rattle.tt_fit.specs.GlyphCost.{without_work};
ghost use Rattle.tt_fit.specs.outline.Outline.{Outline};
ghost use Rattle.tt_picture.specs.Cached.{IsCacheFor, limit_of};
ghost use Rattle.tt_picture.specs.Distinct.{fitter_after, fitter_for};
ghost use Rattle.tt_picture.specs.Fitted.{AreFitted, fitted_chords, fitted_crossings, fitted_numbers};
ghost use Rattle.tt_picture.specs.Glyphs.{AreDrawn, numbers_of};
ghost use Rattle.tt_picture.specs.Steps.{outlines_by};
ghost use Rattle.tt_picture.specs.Unfitted.{all_differ};

use crate::cache::Cache;
use crate::cutting::CutLimits;
use crate::fitted::FittedGlyph;
use crate::glyph::Glyph;
use std::alloc::{AllocError, Global};
use tt_core::FontFault;
use tt_fit::Fitter;

/// The bytes that a glyph's bitmap may take.
const BITMAP_BYTES: usize = 65_536;

/// The bytes that the bitmaps of some lines' distinct glyphs may take together.
const BITMAPS_BYTES: usize = 8_388_608;

/// Some glyphs, fitted in order: from the cache where their costs are left, else made. Errors: those of the outlines,
/// Memory.
pub fn fit_glyphs(
    alloc: Global,
    fitter: &mut Fitter,
    numbers: &[u16],
    cache: &Cache,
) -> Result<Vec<FittedGlyph>, FontFault>
    requires known { All (λ n. n < fitter.old.tables.glyphs) numbers.now }
    requires differ { all_differ numbers.now ≡ true }
    requires cache { IsCacheFor fitter.old cache.now }
    ensures numbers { IfOk result (λ v. fitted_numbers v.items ≡ numbers.now) }
    ensures fitted { IfOk result (λ v. AreFitted (fitter_for fitter.old numbers.now) v.items) }
    ensures made { IfOk result (λ v. (os : List Outline) × (outlines_by (fitter_for fitter.old numbers.now) numbers.now ≡ Ok os)) }
    ensures after { IfOk result (λ v. fitter.new ≡ fitter_after fitter.old numbers.now) }
    ensures fault { IfTold font_fault result (λ f. outlines_by (fitter_for fitter.old numbers.now) numbers.now ≡ Err f) }
{
    // There is room for all, so that no push asks for memory.
    let mut made = Vec::with_capacity(alloc, numbers.len())?;
    for number in numbers {
        let glyph = FittedGlyph::of(alloc, fitter, *number, cache)?;
        made.push_reserved(glyph);
    }
    Ok(made)
}

/// Some glyphs, each fitted and drawn before the next one is fitted: from the cache where their costs are left, else made.
/// Those that may be and are small enough are cached. Errors: those of the outlines, Memory.
pub fn made_glyphs(
    alloc: Global,
    fitter: &mut Fitter,
    numbers: &[u16],
    cache: &mut Cache,
) -> Result<Vec<Glyph>, FontFault>
    requires known { All (λ n. n < fitter.old.tables.glyphs) numbers.now }
    requires differ { all_differ numbers.now ≡ true }
    requires cache { IsCacheFor fitter.old cache.old }
    ensures numbers { IfOk result (λ v. numbers_of v.items ≡ numbers.now) }
    ensures drawn { IfOk result (λ v. AreDrawn (fitter_for fitter.old numbers.now) v.items) }
    ensures after { IfOk result (λ v. fitter.new ≡ fitter_after fitter.old numbers.now) }
    ensures fault { IfTold font_fault result (λ f. outlines_by (fitter_for fitter.old numbers.now) numbers.now ≡ Err f) }
    ensures cache { IsCacheFor fitter.old cache.new }
    ensures limit { limit_of cache.new ≡ limit_of cache.old }
{
    let mut room = BITMAPS_BYTES;
    let mut made = Vec::with_capacity(alloc, numbers.len())?;
    for number in numbers {
        let fitted = FittedGlyph::of(alloc, fitter, *number, cache)?;
        let cut = CutLimits {
            bytes: room.min(BITMAP_BYTES),
            crossings: u64::MAX,
        };
        let glyph = fitted.into_glyph(alloc, cache, cut)?;
        room = room.saturating_sub(glyph.bytes());
        made.push(glyph)?;
    }
    Ok(made)
}

/// The most that a line's glyphs may have, each glyph once at one pen.
#[derive(Clone, Copy)]
pub struct LineLimits {
    pub chords: usize,
    /// Those of a picture, inside and outside.
    pub crossings: u64,
}

/// Some fitted glyphs with their pixels; None where they have more chords or crossings than the limits. As soon as they
/// have more, no further edge is made. A glyph with too many chords has no edge made, and a glyph with too many crossings
/// is not cut. Those that may be and are small enough are cached. Error: Memory.
pub fn drawn_glyphs(
    alloc: Global,
    fitted: Vec<FittedGlyph>,
    limits: LineLimits,
    cache: &mut Cache,
) -> Result<Option<Vec<Glyph>>, AllocError>
    requires made { (maker : ℕ → Fitter) × AreFitted maker fitted.items }
    ensures numbers { IfOk result (λ o. IfSome o (λ v. numbers_of v.items ≡ fitted_numbers fitted.items)) }
    ensures drawn { IfOk result (λ o. IfSome o (λ v. (maker : ℕ → Fitter) → AreFitted maker fitted.items → AreDrawn maker v.items)) }
    ensures few { IfOk result (λ o. IfSome o (λ v. fitted_chords fitted.items ≤ limits.chords)) }
    ensures crossed { IfOk result (λ o. IfSome o (λ v. fitted_crossings fitted.items ≤ limits.crossings)) }
    ensures many { IfOk result (λ o. IfNone o ((limits.chords < fitted_chords fitted.items) ⊎ (limits.crossings < fitted_crossings fitted.items))) }
    ensures cached { (maker : ℕ → Fitter) (s : Fitter) → AreFitted maker fitted.items
        → ((n : ℕ) → without_work (maker n) ≡ without_work s) → IsCacheFor s cache.old → IsCacheFor s cache.new }
    ensures limit { limit_of cache.new ≡ limit_of cache.old }
{
    let mut left = limits;
    let mut room = BITMAPS_BYTES;
    // There is room for all, so that no push asks for memory.
    let mut made = Vec::with_capacity(alloc, fitted.len())?;
    for one in fitted {
        if !one.has_chords_within(left.chords) {
            return Ok(None);
        }
        let cut = CutLimits {
            bytes: room.min(BITMAP_BYTES),
            crossings: left.crossings,
        };
        let glyph = one.into_glyph(alloc, cache, cut)?;
        let crossings = glyph.crossings();
        if crossings > left.crossings {
            return Ok(None);
        }
        left.chords -= glyph.chords();
        left.crossings -= crossings;
        room = room.saturating_sub(glyph.bytes());
        made.push_reserved(glyph);
    }
    Ok(Some(made))
}
