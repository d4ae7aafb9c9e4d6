//! The measure of a text as lines of text. A line is made from its end.

ghost use Rattle.std.specs.Prelude.{◌≡◌, ◌+◌, ◌≤◌, ◌++◌, length, IfOk};
ghost use Rattle.tt_render_settings.specs.MeasureText.{box_words, character_text, face_text, font_text, fonts_in, measure_text, picture_text};
ghost use Rattle.tt_strike.specs.Measures.{measure_view};

use std::alloc::{AllocError, Global};
use tt_core::{Reading, u32_at};
use tt_metrics::Metrics;
use tt_pbm::Ascii;
use tt_render_streams::push_name;
use tt_strike::{CharacterMeasure, Face, InkBox, Measure};

/// The first four bytes of a collection: 'ttcf'.
const COLLECTION: u32 = 0x7474_6366;

/// Bytes of memory for a line, which few lines exceed.
const LINE_BYTES: usize = 40;

/// The measure of a text by a face, line by line. First, for a face of a collection, `face`: its number and the count
/// of fonts. Then `font`: units per em, ascent, descent, the number of glyphs, the line gap; all but the fourth are in
/// font units. Then `picture`: its width and height; `baseline`, the rows above it; `ink`, the box of all ink. Then for
/// each unit `U+NNNN`: its glyph, the column of its origin, its advance in columns, the box of its ink. A box is its
/// leftmost column, highest row, rightmost column and lowest row, or `none`.
#[tactic(auto, unfolding(tt_render_settings::specs::MeasureText::measure_text))]
pub(crate) fn measure_text(
    alloc: Global,
    reading: Reading,
    file: &[u8],
    face: &Face,
    text: &str,
    measure: &Measure,
) -> Result<Vec<u8>, AllocError>
    ensures { IfOk result (λ lines. lines.items ≡ measure_text reading file.now face.now text.now (measure_view measure.now)) }
{
    let mut lines = first_lines(
        alloc,
        reading,
        file,
        face.metrics(),
        measure.characters.len(),
    )?;
    let mut line = Ascii::new();
    make_picture_line(&mut line, measure);
    lines.extend_from_slice(line.as_bytes())?;
    for (unit, character) in face.cmap().units(text).zip(&measure.characters) {
        make_character_line(&mut line, unit.character, character);
        lines.extend_from_slice(line.as_bytes())?;
    }
    Ok(lines)
}

/// The face's line and the font's, with memory for the picture's and so many more.
pub(crate) fn first_lines(
    alloc: Global,
    reading: Reading,
    file: &[u8],
    metrics: &Metrics,
    more: usize,
) -> Result<Vec<u8>, AllocError>
    ensures { IfOk result (λ lines. lines.items ≡ face_text reading file.now ++ font_text metrics.now) }
{
    let room = more.saturating_add(3).saturating_mul(LINE_BYTES);
    let mut lines = Vec::with_capacity(alloc, room)?;
    let mut line = Ascii::new();
    make_face_line(&mut line, reading, file);
    lines.extend_from_slice(line.as_bytes())?;
    make_font_line(&mut line, metrics);
    lines.extend_from_slice(line.as_bytes())?;
    Ok(lines)
}

/// How many fonts a collection has. None for any other file.
fn fonts_in(file: &[u8]) -> Option<u32>
    ensures { result ≡ fonts_in file.now }
{
    if file.len() < 12 || u32_at(file, 0).unwrap() != COLLECTION {
        return None;
    }
    Some(u32_at(file, 8).unwrap())
}

/// Makes the line of a collection's face; nothing for a font that is alone in its file.
fn make_face_line(line: &mut Ascii, reading: Reading, file: &[u8])
    ensures { line.new ≡ face_text reading file.now }
{
    line.clear();
    match reading {
        Reading::Strict => {}
        Reading::Wide { face } => match fonts_in(file) {
            None => {}
            Some(count) => {
                line.push(b'\n');
                line.push_u32(count);
                line.push(b' ');
                line.push_u32(face);
                line.push_bytes(b"face ");
            }
        },
    }
}

fn make_font_line(line: &mut Ascii, metrics: &Metrics)
    ensures { line.new ≡ font_text metrics.now }
{
    line.clear();
    line.push(b'\n');
    line.push_i64(i64::from(metrics.line_gap()));
    line.push(b' ');
    line.push_u16(metrics.glyphs());
    line.push(b' ');
    line.push_i64(i64::from(metrics.descent()));
    line.push(b' ');
    line.push_i64(i64::from(metrics.ascent()));
    line.push(b' ');
    line.push_u16(metrics.units_per_em());
    line.push_bytes(b"font ");
}

fn make_picture_line(line: &mut Ascii, measure: &Measure)
    ensures { line.new ≡ picture_text (measure_view measure.now) }
{
    line.clear();
    line.push(b'\n');
    push_box(line, measure.ink);
    line.push_bytes(b" ink ");
    line.push_i64(measure.baseline);
    line.push_bytes(b" baseline ");
    line.push_u32(measure.height);
    line.push(b' ');
    line.push_u32(measure.width);
    line.push_bytes(b"picture ");
}

fn make_character_line(line: &mut Ascii, c: char, place: &CharacterMeasure)
    ensures { line.new ≡ character_text c place.now }
{
    line.clear();
    line.push(b'\n');
    push_box(line, place.ink);
    line.push(b' ');
    line.push_u32(place.advance);
    line.push(b' ');
    line.push_i64(place.pen);
    line.push(b' ');
    line.push_u16(place.glyph);
    push_name(line, c);
}

/// Puts the box of some ink, or `none`, before a text.
fn push_box(line: &mut Ascii, ink: Option<InkBox>)
    requires room { length line.old + 83 ≤ 160 }
    ensures text { line.new ≡ box_words ink ++ line.old }
    ensures len { length line.new ≤ length line.old + 83 }
{
    match ink {
        Some(ink) => {
            line.push_i64(ink.bottom);
            line.push(b' ');
            line.push_i64(ink.right);
            line.push(b' ');
            line.push_i64(ink.top);
            line.push(b' ');
            line.push_i64(ink.left);
        }
        None => line.push_bytes(b"none"),
    }
}
