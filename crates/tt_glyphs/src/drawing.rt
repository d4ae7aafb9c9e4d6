//! Draws the distinct glyphs of a list: their edges, the places of their ink, and their reports.

ghost use Rattle.std.specs.Prelude.{◌≡◌, ◌⊎◌, ℕ, ℤ, ◌+◌, ◌^◌, ◌<◌, ◌≤◌, true, false, length, map, All, IfOk, IfNone, IfSome, None};
ghost use Rattle.tt_bitmap.specs.Bitmaps.{is_black};
ghost use Rattle.tt_fit.specs.Fitting.{Fitter};
ghost use Rattle.tt_glyphs.specs.Bitmaps.{IsPlace, place_of};
ghost use Rattle.tt_glyphs.specs.Drawn.{DrawnFits, IsDrawn, IsLeft, IsSourceOf, drawn_edges, drawn_rows};
ghost use Rattle.tt_glyphs.specs.Edged.{EdgedFits, IsEdgedBy, IsRuledBy, edged_crossings, inked_by, outline_crossings};
ghost use Rattle.tt_glyphs.specs.Entries.{advance_of, told_bytes};
ghost use Rattle.tt_glyphs.specs.Tried.{AreTriedBy, IsPast, IsRuled, IsRuledBody, IsWithin, ruled_chords, ruled_crossings, tried_chords, tried_crossings, tried_glyph};
ghost use Rattle.tt_metrics.specs.Metrics.{glyphs_of};
ghost use Rattle.tt_picture.specs.Ink.{glyph_ink};
ghost use Rattle.tt_picture.specs.Steps.{chords_of};

use crate::edged::{EdgedOutline, edged, ink_of};
use crate::place::InkPlace;
use crate::placing::{is_large, place_bytes, place_of};
use crate::ruled::{RuledOutline, TriedBody, TriedGlyph};
use crate::told::{MadeBitmap, Told};
use crate::written::{GlyphRows, rows_of};
use std::alloc::AllocError;
use tt_advances::units_of;
use tt_glyph_pixels::{GlyphPixels, pixels_of};
use tt_line::units_in_pixels;
use tt_picture::{LineLimits, has_chords_within};
use tt_scan::Sweep;
use tt_strike::{FitterSource, is_bounded};

/// The most bytes that the bitmaps of a list's glyphs take together. A glyph past them keeps its edges, which take less
/// than a large bitmap.
const MOST_BYTES: usize = 8 * 1024 * 1024;

/// A glyph that is drawn, or only its report.
#[derive(Drop)]
pub(crate) struct DrawnGlyph {
    pub(crate) number: u16,
    pub(crate) told: Told,
    /// None where no row has ink.
    pub(crate) bitmap: Option<GlyphRows>,
}

/// A glyph without rows.
fn rowless(number: u16, told: Told) -> DrawnGlyph
    ensures { result ≡ record { number = number; told = told; bitmap = None } }
{
    DrawnGlyph {
        number,
        told,
        bitmap: None,
    }
}

/// The rest after a glyph with some chords and crossings; None where it has more of either.
fn rest_of(left: LineLimits, chords: usize, crossings: u64) -> Option<LineLimits>
    ensures some { IfSome result (λ rest. (left.chords ≡ rest.chords + chords) × (left.crossings ≡ rest.crossings + crossings)) }
    ensures none { IfNone result ((left.chords < chords) ⊎ (left.crossings < crossings)) }
{
    Some(LineLimits {
        chords: left.chords.checked_sub(chords)?,
        crossings: left.crossings.checked_sub(crossings)?,
    })
}

/// The pixels from the pen of a glyph to the next: its own step where work is bounded, else its advance. Error: memory
/// ran out, at an instance without HVAR alone.
fn advance_of(source: &FitterSource, number: u16, step: u32) -> Result<u32, AllocError>
    requires { number < glyphs_of source.now.face.now.metrics }
    ensures { IfOk result (λ n. n ≡ advance_of source.now.face.now source.now.ppem source.now.fit number step) }
{
    if is_bounded(source.fit) {
        return Ok(step);
    }
    let units = units_of(source.alloc, source.face, number)?;
    Ok(units_in_pixels(source.face.metrics(), source.ppem, units))
}

/// The report of a glyph with this place, and its rows if it has any; the glyph may have a bitmap. Error: memory ran out.
fn placed(
    source: &FitterSource,
    number: u16,
    place: InkPlace,
    edged: EdgedOutline,
    pixels: Option<GlyphPixels>,
) -> Result<DrawnGlyph, AllocError>
    requires known { number < glyphs_of source.now.face.now.metrics }
    requires place { IsPlace place }
    requires edged { EdgedFits edged }
    requires shown { IfSome pixels (λ g. (c j : ℤ) → is_black g.bitmap c j ≡ inked_by edged c j) }
    ensures number { IfOk result (λ d. d.number ≡ number) }
    ensures drawn { IfOk result (λ d. (s : Fitter) → IsSourceOf source.now s → place ≡ place_of (glyph_ink s number) → IsEdgedBy s number edged → IsDrawn source.now.fit s d) }
    ensures fits { IfOk result DrawnFits }
{
    if is_large(place) {
        return Ok(rowless(number, Told::Large));
    }
    let told = Told::Made(MadeBitmap {
        advance: advance_of(source, number, edged.step)?,
        advance_left: edged.advance_left,
        place,
        unfitted: edged.unfitted,
    });
    if place.width == 0 {
        return Ok(rowless(number, told));
    }
    let bitmap = rows_of(source.alloc, place, edged, pixels)?;
    Ok(DrawnGlyph {
        number,
        told,
        bitmap: Some(bitmap),
    })
}

/// A glyph that is drawn by its edges: in a bitmap, where that takes at most `most` bytes. Error: memory ran out.
fn drawn(
    source: &FitterSource,
    number: u16,
    edged: EdgedOutline,
    most: usize,
) -> Result<DrawnGlyph, AllocError>
    requires known { number < glyphs_of source.now.face.now.metrics }
    requires edged { EdgedFits edged }
    requires fresh { edged.tape.crosses ≡ 0 }
    ensures number { IfOk result (λ d. d.number ≡ number) }
    ensures drawn { IfOk result (λ d. (s : Fitter) → IsSourceOf source.now s → IsEdgedBy s number edged → IsDrawn source.now.fit s d) }
    ensures fits { IfOk result DrawnFits }
{
    let mut edged = edged;
    let pixels = pixels_of(
        source.alloc,
        &mut edged.tape,
        &edged.ends,
        edged.filled,
        edged.extents,
        most,
    )?;
    let ink = ink_of(source.alloc, &edged, &pixels)?;
    placed(source, number, place_of(ink), edged, pixels)
}

/// Charges the chords and the crossings of a glyph. False where it has more of either than remains; without limits none
/// are counted.
fn charge(left: &mut Option<LineLimits>, edged: &EdgedOutline) -> bool
    requires { EdgedFits edged.now }
    ensures left { result ≡ true → IsLeft left.old edged.now.chords (edged_crossings edged.now) left.new }
    ensures past { result ≡ false → IsPast left.old edged.now.chords (edged_crossings edged.now) }
{
    let Some(limits) = *left else {
        return true;
    };
    let Some(rest) = rest_of(limits, edged.chords, edged.crossings()) else {
        return false;
    };
    *left = Some(rest);
    true
}

/// Whether an outline has more chords than the limits still allow. None of them is made. Without limits the answer is no.
fn exceeds_chords(left: Option<LineLimits>, ruled: &RuledOutline) -> bool
    requires { IsRuled ruled.now }
    ensures { result ≡ true → IsPast left (chords_of ruled.now.rule ruled.now.outline) (outline_crossings ruled.now) }
{
    match left {
        Some(limits) => !has_chords_within(&ruled.outline, ruled.rule, limits.chords),
        None => false,
    }
}

/// A glyph that is drawn by its outline; None where it has more chords or crossings than remain. Error: memory ran
/// out.
fn draw_ruled(
    source: &FitterSource,
    number: u16,
    ruled: RuledOutline,
    left: &mut Option<LineLimits>,
    most: usize,
) -> Result<Option<DrawnGlyph>, AllocError>
    requires known { number < glyphs_of source.now.face.now.metrics }
    requires ruled { IsRuled ruled }
    ensures number { IfOk result (λ o. IfSome o (λ d. d.number ≡ number)) }
    ensures drawn { IfOk result (λ o. IfSome o (λ d. (s : Fitter) → IsSourceOf source.now s → IsRuledBy s number ruled → IsDrawn source.now.fit s d)) }
    ensures fits { IfOk result (λ o. IfSome o DrawnFits) }
    ensures left { IfOk result (λ o. IfSome o (λ _. IsLeft left.old (chords_of ruled.rule ruled.outline) (outline_crossings ruled) left.new)) }
    ensures past { IfOk result (λ o. IfNone o (IsPast left.old (chords_of ruled.rule ruled.outline) (outline_crossings ruled))) }
{
    if exceeds_chords(*left, &ruled) {
        return Ok(None);
    }
    let edged = edged(source.alloc, ruled)?;
    if !charge(left, &edged) {
        return Ok(None);
    }
    Ok(Some(drawn(source, number, edged, most)?))
}

/// A glyph that is drawn or refused; None where it has more chords or crossings than remain. Error: memory ran out.
fn draw_one(
    source: &FitterSource,
    tried: TriedGlyph,
    left: &mut Option<LineLimits>,
    most: usize,
) -> Result<Option<DrawnGlyph>, AllocError>
    requires known { tried.number < glyphs_of source.now.face.now.metrics }
    requires ruled { IsRuledBody tried.body }
    ensures number { IfOk result (λ o. IfSome o (λ d. d.number ≡ tried.number)) }
    ensures drawn { IfOk result (λ o. IfSome o (λ d. (s : Fitter) → IsSourceOf source.now s → tried ≡ tried_glyph s tried.number → IsDrawn source.now.fit s d)) }
    ensures fits { IfOk result (λ o. IfSome o DrawnFits) }
    ensures left { IfOk result (λ o. IfSome o (λ _. IsLeft left.old (ruled_chords tried.body) (ruled_crossings tried.body) left.new)) }
    ensures past { IfOk result (λ o. IfNone o (IsPast left.old (ruled_chords tried.body) (ruled_crossings tried.body))) }
{
    let TriedGlyph { number, body } = tried;
    match body {
        TriedBody::Refused(fault) => Ok(Some(rowless(number, Told::Broken(fault)))),
        TriedBody::Ruled(ruled) => draw_ruled(source, number, ruled, left, most),
    }
}

/// Distinct glyphs, drawn in order; None where they have more chords or crossings than the limits. As soon as they have
/// more, no further edge is made. Error: memory ran out.
pub(crate) fn draw_glyphs(
    source: &FitterSource,
    tried: Vec<TriedGlyph>,
    limits: Option<LineLimits>,
) -> Result<Option<Vec<DrawnGlyph>>, AllocError>
    requires known { All (λ t. t.number < glyphs_of source.now.face.now.metrics) tried.items }
    requires ruled { All (λ t. IsRuledBody t.body) tried.items }
    ensures numbers { IfOk result (λ o. IfSome o (λ v. map (λ d. d.number) v.items ≡ map (λ t. t.number) tried.items)) }
    ensures drawn { IfOk result (λ o. IfSome o (λ v. (maker : ℕ → Fitter) → ((n : ℕ) → IsSourceOf source.now (maker n)) → AreTriedBy maker tried.items → All (λ d. IsDrawn source.now.fit (maker d.number) d) v.items)) }
    ensures fits { IfOk result (λ o. IfSome o (λ v. All DrawnFits v.items)) }
    ensures few { IfOk result (λ o. IfSome o (λ _. IsWithin limits (tried_chords tried.items) (tried_crossings tried.items))) }
    ensures many { IfOk result (λ o. IfNone o (IsPast limits (tried_chords tried.items) (tried_crossings tried.items))) }
{
    let mut left = limits;
    let mut most = MOST_BYTES;
    let mut made = Vec::with_capacity(source.alloc, tried.len())?;
    for one in tried {
        let Some(glyph) = draw_one(source, one, &mut left, most)? else {
            return Ok(None);
        };
        most = most.saturating_sub(glyph.held());
        made.push(glyph)?;
    }
    Ok(Some(made))
}

impl DrawnGlyph {
    /// The bytes of its rows.
    pub(crate) fn bytes(&self) -> usize
        requires { DrawnFits self.now }
        ensures exact { result ≡ told_bytes self.now.told }
        ensures small { result ≤ 2 ^ 23 }
    {
        match &self.bitmap {
            Some(bitmap) => place_bytes(bitmap.place()),
            None => 0,
        }
    }

    /// The bytes of its bitmap; 0 where it has none.
    fn held(&self) -> usize {
        match &self.bitmap {
            Some(bitmap) => bitmap.held(),
            None => 0,
        }
    }

    /// The number of the edges that its rows are made of.
    pub(crate) fn edges(&self) -> usize
        ensures { result ≡ drawn_edges self.now }
    {
        match &self.bitmap {
            Some(bitmap) => bitmap.edges(),
            None => 0,
        }
    }

    /// Makes all its rows, the highest first, and overwrites `rows`. No memory is taken.
    pub(crate) fn write(&mut self, sweep: &mut Sweep, rows: &mut [u8])
        requires fits { DrawnFits self.old }
        requires room { drawn_edges self.old ≤ sweep.old.room }
        requires len { length rows.old ≡ told_bytes self.old.told }
        ensures rows { rows.new ≡ drawn_rows self.old }
        ensures room { sweep.new.room ≡ sweep.old.room }
    {
        if let Some(bitmap) = &mut self.bitmap {
            bitmap.write(sweep, rows);
        }
    }
}
