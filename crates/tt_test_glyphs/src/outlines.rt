//! The outlines of a font's glyphs at a size, fitted by the font's programs or scaled only, or the picture of one. An
//! outline is a line `GLYPH phantom X Y X Y X Y X Y ends END .. points X Y ON ..`, in 26.6 pixels, where ON is 1 for a
//! point on the curve and else 0; a glyph that is refused has the line `GLYPH TABLE+OFFSET: NUMBER NAME`. A picture is
//! a line for each row, with '#' for a black pixel and '.' for a white one, and its glyph stands with its left phantom
//! point at 0. Of a glyph that falls back the outline's line has `unfitted TABLE+OFFSET: NUMBER NAME` behind the number,
//! and a picture has the line `GLYPH unfitted TABLE+OFFSET: NUMBER NAME` before it.

ghost use Rattle.std.specs.Prelude.{◌≡◌, ◌≤◌, ◌<◌, IfSome};
ghost use Rattle.tt_core.specs.Limits.{size_limit};
ghost use Rattle.tt_scan_edges.specs.Winding.{FrameFits};

use crate::tables::{face_at, note_glyph, programs_of, tables_of};
use std::alloc::Global;
use tt_arc::{ChordRule, chords};
use tt_axes::read_axis_values;
use tt_core::{COORDINATE_LIMIT, FontFault, SIZE_LIMIT};
use tt_face::Face;
use tt_fit::{Fit, Fitter, Outline};
use tt_scan::{Frame, Tape};
use tt_test_machine::faults::put_fault;
use tt_test_pixels::pictures::{frame_in, put_picture};
use tt_test_words::Line;

/// Puts the outlines that the words request. The first two words are the size and the way to fit. Behind `at` there are
/// values of axes, and the outlines are those of the instance.
pub fn put_table(alloc: Global, line: &mut Line, font: &[u8]) {
    let size = line.natural(1, SIZE_LIMIT);
    let fit = fit_in(line);
    let word = line.word();
    if word == "at" {
        put_instance(alloc, line, font, size, fit);
        return;
    }
    let (Some((metrics, glyphs)), Some(programs)) = (tables_of(font), programs_of(font)) else {
        line.refuse("the font is refused");
        return;
    };
    if line.is_refused() {
        return;
    }
    match Fitter::new(alloc, &metrics, glyphs, programs, &None, size, fit) {
        Ok(fitter) => put_glyphs(alloc, line, &fitter, metrics.glyphs(), word),
        Err(_) => line.refuse("the font's programs are refused"),
    }
}

/// Puts the outlines at the values of axes that the next word gives.
fn put_instance(alloc: Global, line: &mut Line, font: &[u8], size: u32, fit: Fit)
    requires low { 1 ≤ size }
    requires high { size ≤ size_limit }
{
    let Ok(Some(axes)) = read_axis_values(alloc, line.word().as_bytes()) else {
        line.refuse("no such axes");
        return;
    };
    let word = line.word();
    match face_at(font, &axes) {
        Some(face) => put_face(alloc, line, &face, size, fit, word),
        None => line.refuse("the font is refused"),
    }
}

/// Puts the outlines of a face. The word is the first about its glyphs.
fn put_face(alloc: Global, line: &mut Line, face: &Face, size: u32, fit: Fit, word: &str)
    requires low { 1 ≤ size }
    requires high { size ≤ size_limit }
{
    let (Ok(glyphs), Ok(programs)) = (face.glyf(), face.programs()) else {
        line.refuse("the font is refused");
        return;
    };
    if line.is_refused() {
        return;
    }
    let metrics = face.metrics();
    match Fitter::new(alloc, metrics, glyphs, programs, face.instance(), size, fit) {
        Ok(fitter) => put_glyphs(alloc, line, &fitter, metrics.glyphs(), word),
        Err(_) => line.refuse("the font's programs are refused"),
    }
}

/// The next word, how outlines are fitted.
fn fit_in(line: &mut Line) -> Fit {
    match line.word() {
        "none" => Fit::None,
        "full" => Fit::Full,
        "fallback" => Fit::Fallback,
        "best" => Fit::Best,
        word => {
            line.note(word);
            line.refuse(" is no way to fit");
            Fit::None
        }
    }
}

/// Puts the outlines or the picture of the words; this is the first. The font has this number of glyphs.
fn put_glyphs(alloc: Global, line: &mut Line, fitter: &Fitter, glyphs: u16, word: &str)
    requires { fitter.now.tables.glyphs ≡ glyphs }
{
    match word {
        "all" => {
            line.end();
            for g in 0..glyphs {
                put_glyph(line, fitter, g);
            }
        }
        "pixels" => {
            let word = line.word();
            let glyph = glyph_of(line, word, glyphs);
            let frame = frame_in(line);
            line.end();
            if let Some(g) = glyph {
                put_pixels(alloc, line, fitter, g, frame);
            }
        }
        first => {
            let mut word = Some(first);
            for _ in 0..u64::MAX {
                let Some(digits) = word else { break };
                if let Some(g) = glyph_of(line, digits, glyphs) {
                    put_glyph(line, fitter, g);
                }
                word = line.next();
            }
        }
    }
}

/// The glyph of a number. If there is none, the line is refused.
fn glyph_of(line: &mut Line, word: &str, glyphs: u16) -> Option<u16>
    ensures { IfSome result (λ g. g < glyphs) }
{
    match word.parse::<u16>() {
        Ok(glyph) if glyph < glyphs => Some(glyph),
        _ => {
            line.refuse("there is no glyph ");
            line.note(word);
            None
        }
    }
}

fn put_glyph(line: &mut Line, fitter: &Fitter, g: u16)
    requires { g < fitter.now.tables.glyphs }
{
    match fitted_twice(line, fitter, g) {
        Ok(outline) => put_outline(line, g, &outline),
        Err(fault) => put_refusal(line, g, fault),
    }
}

/// Requests an outline, and once more where memory was refused.
fn fitted_twice(line: &mut Line, fitter: &Fitter, g: u16) -> Result<Outline, FontFault>
    requires { g < fitter.now.tables.glyphs }
{
    let first = fitter.fitted(g);
    if let Err(FontFault::Memory) = first {
        note_glyph(line, g);
        return fitter.fitted(g);
    }
    first
}

fn put_refusal(line: &mut Line, g: u16, fault: FontFault) {
    match fault {
        FontFault::Font(fault) => {
            line.put_number(i64::from(g));
            line.put(" ");
            put_fault(line, fault);
            line.put("\n");
        }
        FontFault::Memory => line.refuse("out of memory again"),
    }
}

fn put_outline(line: &mut Line, g: u16, outline: &Outline) {
    line.put_number(i64::from(g));
    if let Some(fault) = outline.unfitted {
        line.put(" unfitted ");
        put_fault(line, fault);
    }
    line.put(" phantom");
    for (x, y) in &outline.phantom {
        line.put_fields(&[i64::from(*x), i64::from(*y)]);
    }
    line.put(" ends");
    for end in &outline.ends {
        line.put_field(i64::from(*end));
    }
    line.put(" points");
    for (x, y, on) in &outline.points {
        line.put_fields(&[i64::from(*x), i64::from(*y), i64::from(*on)]);
    }
    line.put("\n");
}

fn put_pixels(alloc: Global, line: &mut Line, fitter: &Fitter, g: u16, frame: Frame)
    requires glyph { g < fitter.now.tables.glyphs }
    requires frame { FrameFits frame }
{
    match fitted_twice(line, fitter, g) {
        Ok(outline) => {
            let rule = rule_of(fitter);
            let Some(mut tape) = tape_of(alloc, line, g, &outline, rule, frame) else {
                line.refuse("no chords");
                return;
            };
            if let Some(fault) = outline.unfitted {
                line.put_number(i64::from(g));
                line.put(" unfitted ");
                put_fault(line, fault);
                line.put("\n");
            }
            put_picture(line, &mut tape, frame, b'\n');
        }
        Err(fault) => put_refusal(line, g, fault),
    }
}

/// How many chords a curve has by the way to fit: with bounded work, by its bend.
fn rule_of(fitter: &Fitter) -> ChordRule {
    match fitter.work() {
        None => ChordRule::Eight,
        Some(_) => ChordRule::ByBend,
    }
}

/// The edges of an outline whose left phantom point is moved to 0, requested once more where memory was refused.
fn tape_of(
    alloc: Global,
    line: &mut Line,
    g: u16,
    outline: &Outline,
    rule: ChordRule,
    frame: Frame,
) -> Option<Tape>
    requires { FrameFits frame }
    ensures { IfSome result (λ t. t.frame ≡ frame) }
{
    let (left, _) = outline.phantom[0];
    if left < -COORDINATE_LIMIT || COORDINATE_LIMIT < left {
        return None;
    }
    let dx = -i64::from(left);
    match chords(alloc, outline, rule, dx, 0, frame) {
        Ok(tape) => Some(tape),
        Err(_) => {
            note_glyph(line, g);
            chords(alloc, outline, rule, dx, 0, frame).ok()
        }
    }
}
