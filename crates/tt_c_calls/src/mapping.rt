//! The glyphs of a text's units.

ghost use Rattle.std.specs.Prelude.{◌≡◌, ◌≢◌, ◌≤◌, length, chars};
ghost use Rattle.tt_cmap.specs.Maps.{units_by};
ghost use Rattle.tt_core.specs.Limits.{text_limit};
ghost use Rattle.tt_c_calls.specs.Asked.{face_reading};
ghost use Rattle.tt_c_calls.specs.Maps.{AreGlyphsTold, MapsText, glyph_told, selector_told, text_told};
ghost use Rattle.tt_c_calls.specs.Measures.{IsEntriesSmall};

use crate::answer::{CAnswer, DONE, ROOM, answer_of, sized};
use crate::asked::{face_reading, text_of};
use crate::fault::CallFault;
use crate::opening::face_of;
use tt_cmap::TextUnit;
use tt_strike::{Face, test_text};

/// A unit of a text in a font: a character, perhaps with a variation selector.
#[repr(C)]
#[derive(Clone, Copy)]
pub struct CGlyph {
    /// The character's.
    pub code_point: u32,
    /// 0 where the font has none for the unit.
    pub glyph: u32,
    /// In font units.
    pub advance: u32,
    /// The unit's variation selector, 0 without one.
    pub selector: u32,
}

/// The selector of a unit, 0 without one.
pub fn selector_of(selector: Option<char>) -> u32
    ensures { result ≡ selector_told selector }
{
    match selector {
        Some(selector) => selector as u32,
        None => 0,
    }
}

fn glyph_of(face: &Face, unit: TextUnit) -> CGlyph
    ensures { result ≡ glyph_told face.now.metrics face.now.cmap unit }
{
    let glyph = face.cmap().glyph_of_unit(unit);
    CGlyph {
        code_point: unit.character as u32,
        glyph: u32::from(glyph),
        advance: u32::from(face.metrics().advance(glyph)),
        selector: selector_of(unit.selector),
    }
}

/// Writes the glyphs of a text at the front of a caller's room. Answers: done; or the room is too small, and nothing is
/// written.
fn write_glyphs(face: &Face, text: &str, room: &mut [CGlyph]) -> CAnswer
    requires { length (chars text.now) ≤ text_limit }
    ensures done { result.status ≡ 0 → AreGlyphsTold (text_told text.now face.now) room.old room.new result }
    ensures small { result.status ≢ 0 → IsEntriesSmall (length (units_by face.now.cmap (chars text.now))) (length room.old) result }
    ensures kept { result.status ≢ 0 → room.new ≡ room.old }
{
    let count = face.cmap().units(text).count();
    if count > room.len() {
        return sized(ROOM, 0, count as u64);
    }
    let mut i = 0;
    for unit in face.cmap().units(text) {
        room[i] = glyph_of(face, unit);
        i += 1;
    }
    sized(DONE, 0, count as u64)
}

/// Writes the glyph and the advance of each unit of a text, in the order of the text. The face is as in a job.
/// Answers: done, with the number of units; the font is refused, too large, or the text too long; the text is not UTF-8;
/// the room is too small. Unless the answer is done, `room` is unchanged. It takes no memory.
pub fn map(font: &[u8], face: u32, text: &[u8], room: &mut [CGlyph]) -> CAnswer
    ensures { MapsText (face_reading face) text.now font.now room.old room.new result }
{
    let text = match text_of(text) {
        Ok(text) => text,
        Err(fault) => return answer_of(fault),
    };
    if let Err(fault) = test_text(text) {
        return answer_of(CallFault::Job(fault));
    }
    match face_of(font, face_reading(face)) {
        Ok(opened) => write_glyphs(&opened, text, room),
        Err(fault) => answer_of(fault),
    }
}
