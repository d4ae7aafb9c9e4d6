//! Writes each unit's glyph and advance as lines, by a font from a reader.

ghost use Rattle.std.specs.Prelude.{◌≡◌, ◌<◌, ◌≤◌, true, false, length, chars, option_map, IfOk, IfSome};
ghost use Rattle.tt_advances.specs.Defects.{IsAdvanceDefect};
ghost use Rattle.tt_core.specs.declared.fault.JobFault.TheVariants.{TextLong};
ghost use Rattle.tt_core.specs.Limits.{font_limit, text_limit};
ghost use Rattle.tt_core.specs.Outcomes.{FontGives, font_fault};
ghost use Rattle.tt_face.specs.Faces.{finds_advances};
ghost use Rattle.tt_face.specs.Views.{asked_view};
ghost use Rattle.tt_line.specs.Layout.{text_glyphs};
ghost use Rattle.tt_render_run.specs.Defects.{TellsDefectsOf};
ghost use Rattle.tt_render_run.specs.MapLines.{IsMapDefect, lines_in, lines_of, map_lines, map_wanted, unit_text};
ghost use Rattle.tt_render_run.specs.Outcome.{CallGives, IfJob, IfLarge};
ghost use Rattle.tt_render_streams.specs.Traffic.{traffic_of};
ghost use Rattle.tt_strike.specs.Defects.{TellsDefects};

use std::alloc::{AllocError, Global};
use tt_advances::FoundAdvances;
use tt_cmap::{KnownGlyphs, TextUnit};
use tt_core::{FontFault, Reading, Sink, Source};
use tt_face::AskedInstance;
use tt_pbm::{Ascii, write_all_of};
use tt_render_streams::{RunFault, push_name, read_font};
use tt_strike::{Face, Opening, test_text};

/// Writes a line `U+NNNN glyph advance` for each unit of the text: the code point in capital hexadecimal, the glyph's
/// number and its advance in font units, at the requested instance. With the wide reading a unit with a variation
/// selector has `U+NNNN U+NNNN glyph advance`. Nothing is written before all lines are made.
///
/// Errors, the first of: Job (TextLong), before the font is read; Read, FontLarge; Font, in the order in which the
/// bytes are read; Write. Memory may come at any allocation.
pub fn map<R: Source, W: Sink>(
    alloc: Global,
    font: &mut R,
    text: &str,
    out: &mut W,
    reading: Reading,
    instance: Option<AskedInstance>,
) -> Result<(), RunFault>
    requires font { R.has_failed font.old ≡ false }
    requires out { W.has_failed out.old ≡ false }
    ensures outcome { CallGives result (traffic_of R.left R.has_failed W.written W.has_failed font.old font.new out.old out.new) (map_wanted reading (option_map asked_view instance.entry) text.now) }
    ensures defects { TellsDefectsOf (R.left font.old) (IsMapDefect reading (option_map asked_view instance.entry) text.now) result }
    ensures text { IfJob result (λ j. (j ≡ TextLong) × (text_limit < length (chars text.now))) }
    ensures large { IfLarge result (IfSome (R.left font.old) (λ file. font_limit < length file)) }
{
    test_text(text)?;
    let file = read_font(alloc, font)?;
    let lines = lines_by(alloc, &file, text, reading, instance)?;
    write_all_of(out, &lines)?;
    Ok(())
}

/// The lines by the face that a reading of a font file gives at an instance.
#[tactic(auto, unfolding(crate::specs::MapLines::lines_of))]
fn lines_by(
    alloc: Global,
    file: &[u8],
    text: &str,
    reading: Reading,
    instance: Option<AskedInstance>,
) -> Result<Vec<u8>, FontFault>
    requires { length file.now ≤ font_limit }
    ensures exact { FontGives (λ lines. lines.items) result (lines_of reading (option_map asked_view instance.entry) file.now text.now) }
    ensures defects { TellsDefects font_fault (IsMapDefect reading (option_map asked_view instance.entry) text.now file.now) result }
{
    let face = Face::read_at(file, Opening::plain(reading), instance)?;
    if face.finds_advances() {
        return found_lines(alloc, &face, text);
    }
    Ok(lines(alloc, &face, text)?)
}

/// The lines by the advances of the tables.
fn lines(alloc: Global, face: &Face, text: &str) -> Result<Vec<u8>, AllocError>
    requires { finds_advances face.now ≡ false }
    ensures { IfOk result (λ lines. lines.items ≡ map_lines face.now text.now) }
{
    let metrics = face.metrics();
    let cmap = face.cmap();
    let mut lines = Vec::new(alloc);
    let mut known = KnownGlyphs::new(cmap);
    let mut line = Ascii::new();
    for unit in cmap.units(text) {
        let glyph = known.glyph_of_unit(unit);
        make_line(&mut line, unit, glyph, metrics.advance(glyph));
        lines.extend_from_slice(line.as_bytes())?;
    }
    Ok(lines)
}

/// The lines by the data of the glyphs; only at an instance without HVAR. Errors: those of loca and glyf; those of the
/// first glyph that has one: of reading the glyph, GlyphVariation. Memory may come at any allocation.
#[tactic(auto, unfolding(crate::specs::MapLines::lines_in))]
fn found_lines(alloc: Global, face: &Face, text: &str) -> Result<Vec<u8>, FontFault>
    requires { finds_advances face.now ≡ true }
    ensures exact { FontGives (λ lines. lines.items) result (lines_in face.now text.now) }
    ensures defects { TellsDefects font_fault (IsAdvanceDefect face.now (text_glyphs face.now.cmap text.now)) result }
{
    let cmap = face.cmap();
    let mut found = FoundAdvances::open(alloc, face)?;
    let mut lines = Vec::new(alloc);
    let mut known = KnownGlyphs::new(cmap);
    let mut line = Ascii::new();
    for unit in cmap.units(text) {
        let number = known.glyph_of_unit(unit);
        let units = found.units(number)?;
        make_line(&mut line, unit, number, units);
        lines.extend_from_slice(line.as_bytes())?;
    }
    Ok(lines)
}

/// Makes the line of a unit, from its end.
fn make_line(line: &mut Ascii, unit: TextUnit, glyph: u16, advance: u16)
    ensures { line.new ≡ unit_text unit glyph advance }
{
    line.clear();
    line.push(b'\n');
    line.push_u16(advance);
    line.push(b' ');
    line.push_u16(glyph);
    match unit.selector {
        None => push_name(line, unit.character),
        Some(selector) => {
            push_name(line, selector);
            push_name(line, unit.character);
        }
    }
}
