//! The glyphs of a text's units at the instance of a job.

ghost use Rattle.std.specs.Prelude.{◌≡◌, ◌≢◌, ◌<◌, All, IfOk, length, chars, map, zip};
ghost use Rattle.tt_cmap.specs.Maps.{units_by};
ghost use Rattle.tt_core.specs.Outcomes.{FontGives, GivesUnless, IfTold, draw_font_fault, font_fault};
ghost use Rattle.tt_line.specs.Layout.{text_glyphs};
ghost use Rattle.tt_metrics.specs.Metrics.{advance_of, glyphs_of};
ghost use Rattle.tt_strike.specs.Refusals.{as_font, refusal};
ghost use Rattle.tt_c_calls.specs.Maps.{AreGlyphsTold};
ghost use Rattle.tt_c_calls.specs.Measures.{IsEntriesSmall};
ghost use Rattle.tt_c_calls.specs.Refusals.{call_font_fault, call_refusal};
ghost use Rattle.tt_c_instances.specs.Maps.{IsAdvancesDefect, IsMapDefect, MapsJob, glyph_with, map_wanted, text_mapped, units_found};

use std::alloc::{AllocError, Global};
use tt_advances::find_units;
use tt_c_calls::{
    CAnswer, CGlyph, CallFault, DONE, ROOM, TextRequest, answer_of, plain_face, selector_of, sized,
    text_of,
};
use tt_cmap::{CharacterMap, TextUnit};
use tt_core::FontFault;
use tt_strike::{DrawFault, Face, test_text};

/// The glyph of each unit of a text with the advance that the tables give, in font units. Error: memory ran out.
fn table_units(alloc: Global, face: &Face, text: &str) -> Result<Vec<(u16, u32)>, AllocError>
    ensures exact { IfOk result (λ v. v.items ≡ map (λ g. (g, advance_of face.now.metrics g)) (text_glyphs face.now.cmap text.now)) }
    ensures known { IfOk result (λ v. All (λ g. g.0 < glyphs_of face.now.metrics) v.items) }
{
    let mut glyphs = Vec::new(alloc);
    let cmap = face.cmap();
    for unit in cmap.units(text) {
        let glyph = cmap.glyph_of_unit(unit);
        glyphs.push((glyph, u32::from(face.metrics().advance(glyph))))?;
    }
    Ok(glyphs)
}

/// The glyph of each unit of a text with its advance in font units. Errors: those of `find_units`, where advances have
/// to be found.
#[tactic(auto, unfolding(tt_advances::specs::Found::advances_tested))]
fn units_found(alloc: Global, face: &Face, text: &str) -> Result<Vec<(u16, u32)>, FontFault>
    ensures exact { FontGives (λ v. v.items) result (units_found face.now (text_glyphs face.now.cmap text.now)) }
    ensures defects { IfTold font_fault result (IsAdvancesDefect face.now text.now) }
{
    tt_advances::laws::tables_give_advances();
    let mut glyphs = table_units(alloc, face, text)?;
    if face.finds_advances() {
        find_units(alloc, face, &mut glyphs)?;
    }
    Ok(glyphs)
}

/// A unit with its glyph, and the glyph's advance in font units.
fn glyph_with(unit: TextUnit, found: (u16, u32)) -> CGlyph
    ensures { result ≡ glyph_with (unit, found) }
{
    let (glyph, advance) = found;
    CGlyph {
        code_point: unit.character as u32,
        glyph: u32::from(glyph),
        advance,
        selector: selector_of(unit.selector),
    }
}

/// The units of a text, each with its glyph and the advance. Error: memory ran out.
fn all_told(
    alloc: Global,
    cmap: &CharacterMap,
    text: &str,
    found: &[(u16, u32)],
) -> Result<Vec<CGlyph>, AllocError>
    ensures { IfOk result (λ v. v.items ≡ map glyph_with (zip (units_by cmap.now (chars text.now)) found.now)) }
{
    let mut told = Vec::new(alloc);
    for (unit, glyph) in cmap.units(text).zip(found) {
        told.push(glyph_with(unit, *glyph))?;
    }
    Ok(told)
}

/// The units of a text in a face, each with its glyph and the advance. Errors: those of `find_units`.
fn text_mapped(alloc: Global, face: &Face, text: &str) -> Result<Vec<CGlyph>, DrawFault>
    ensures exact { GivesUnless refusal (λ v. v.items) result (as_font (text_mapped text.now face.now)) }
    ensures defects { IfTold draw_font_fault result (IsAdvancesDefect face.now text.now) }
{
    let found = units_found(alloc, face, text)?;
    Ok(all_told(alloc, face.cmap(), text, &found)?)
}

/// The units of a job's text. Errors, the first of: UnknownFit, AxesMany, NotUtf8; TextLong; FontLarge; those of the
/// tables that every text needs, and of the instance; those of `find_units`.
#[tactic(auto, unfolding(crate::specs::Maps::map_wanted))]
fn mapped(alloc: Global, request: &TextRequest) -> Result<Vec<CGlyph>, CallFault>
    ensures exact { GivesUnless call_refusal (λ v. v.items) result (map_wanted request.now.job.now request.now.text.now request.now.font.now) }
    ensures defects { IfTold call_font_fault result (IsMapDefect request.now.job.now request.now.text.now request.now.font.now) }
{
    let fit = request.job.tested_fit()?;
    let text = text_of(request.text)?;
    test_text(text)?;
    let face = plain_face(request.font, request.job, fit)?;
    Ok(text_mapped(alloc, &face, text)?)
}

/// Writes entries at the front of a caller's room. Answers: done; or the room is too small, and nothing is written.
fn write_all(glyphs: &[CGlyph], room: &mut [CGlyph]) -> CAnswer
    ensures done { result.status ≡ 0 → AreGlyphsTold glyphs.now room.old room.new result }
    ensures small { result.status ≢ 0 → IsEntriesSmall (length glyphs.now) (length room.old) result }
    ensures kept { result.status ≢ 0 → room.new ≡ room.old }
{
    let count = glyphs.len();
    if count > room.len() {
        return sized(ROOM, 0, count as u64);
    }
    room[..count].copy_from_slice(glyphs);
    sized(DONE, 0, count as u64)
}

/// Writes the glyph and the advance of each unit of a text, in the order of the text, by a job: its way to fit for the
/// reading, its face and its instance. Answers: done, with the number of units; the font is refused, too large, or the
/// job refused; memory was refused; the text is not UTF-8; the room is too small. Unless the answer is done, `room` is
/// unchanged.
pub fn map_job(alloc: Global, request: &TextRequest, room: &mut [CGlyph]) -> CAnswer
    ensures { MapsJob request.now.job.now request.now.text.now request.now.font.now room.old room.new result }
{
    match mapped(alloc, request) {
        Ok(glyphs) => write_all(&glyphs, room),
        Err(fault) => answer_of(fault),
    }
}
