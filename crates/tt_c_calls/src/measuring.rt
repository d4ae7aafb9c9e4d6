//! A text measured.

ghost use Rattle.std.specs.Prelude.{◌≡◌, ◌≢◌, length, IfOk};
ghost use Rattle.tt_core.specs.Outcomes.{GivesUnless};
ghost use Rattle.tt_strike.specs.Defects.{TellsDefects};
ghost use Rattle.tt_strike.specs.Measures.{measure_view};
ghost use Rattle.tt_c_calls.specs.Asked.{IsAskedDefect};
ghost use Rattle.tt_c_calls.specs.Measures.{AreCharactersTold, IsEntriesSmall, IsMeasureOf, MeasuresText, PlacesCharacters, box_told, character_told, measure_told, measure_wanted};
ghost use Rattle.tt_c_calls.specs.Offsets.{offsets_asked};
ghost use Rattle.tt_c_calls.specs.Refusals.{call_font_fault, call_refusal};

use crate::answer::{CAnswer, DONE, ROOM, answer_of, sized};
use crate::asked::{TextRequest, job_of, text_of};
use crate::fault::CallFault;
use crate::offsets::offsets_of;
use crate::opening::job_face;
use std::alloc::Global;
use tt_render_lines::make_measure;
use tt_strike::{CharacterMeasure, InkBox, Measure, Strike, test_job};

/// A box of pixels; all four sides are included.
#[repr(C)]
#[derive(Clone, Copy)]
pub struct CBox {
    pub left: i64,
    pub top: i64,
    pub right: i64,
    pub bottom: i64,
}

/// A text measured, in its picture's columns and rows.
#[repr(C)]
#[derive(Clone, Copy)]
pub struct CMeasure {
    /// Columns of the picture: 1 to 16,384.
    pub width: u32,
    /// Rows of the picture: 1 to 4,096.
    pub height: u32,
    /// The number of rows above the base line. Below 0, or more than the picture has, where the base line is outside.
    pub baseline: i64,
    /// The number of distinct glyphs drawn unfitted although the job requests fitting.
    pub unfitted: u64,
    /// 0 where nothing is black; the box is then all 0.
    pub has_ink: u64,
    /// The box of all black pixels, inside and outside the picture.
    pub ink: CBox,
}

/// The place of a unit of a text in its picture.
#[repr(C)]
#[derive(Clone, Copy)]
pub struct CCharacter {
    pub glyph: u32,
    /// The columns to the next unit's origin.
    pub advance: u32,
    /// The column of the picture at the glyph's origin, the margin included.
    pub pen: i64,
    /// 0 where the glyph blackens nothing; the box is then all 0.
    pub has_ink: u64,
    /// The box of the glyph's black pixels.
    pub ink: CBox,
    /// Where the unit begins, in bytes from the start of the text.
    pub offset: u64,
}

/// The measure of a text, and the offset of each of its units.
#[derive(Drop)]
struct PlacedCharacters {
    measure: Measure,
    offsets: Vec<usize>,
}

/// The box of some ink, all 0 where there is none.
fn box_of(ink: Option<InkBox>) -> CBox
    ensures { result ≡ box_told ink }
{
    match ink {
        Some(ink) => CBox {
            left: ink.left,
            top: ink.top,
            right: ink.right,
            bottom: ink.bottom,
        },
        None => CBox {
            left: 0,
            top: 0,
            right: 0,
            bottom: 0,
        },
    }
}

fn character_of(character: &CharacterMeasure, offset: usize) -> CCharacter
    ensures { result ≡ character_told (character.now, offset) }
{
    CCharacter {
        glyph: u32::from(character.glyph),
        advance: character.advance,
        pen: character.pen,
        has_ink: u64::from(character.ink.is_some()),
        ink: box_of(character.ink),
        offset: offset as u64,
    }
}

fn measure_of(measure: &Measure) -> CMeasure
    ensures { result ≡ measure_told (measure_view measure.now) (length measure.now.report.unfitted.items) }
{
    CMeasure {
        width: measure.width,
        height: measure.height,
        baseline: measure.baseline,
        unfitted: measure.report.unfitted.len() as u64,
        has_ink: u64::from(measure.ink.is_some()),
        ink: box_of(measure.ink),
    }
}

/// The measure of a text by a font file. Errors, the first of: UnknownFit, AxesMany, NotUtf8; SizeRange, MarginRange, TextLong;
/// FontLarge; those of the tables that every text needs; those of `make_measure`.
#[tactic(auto, unfolding(crate::specs::Measures::measure_wanted))]
fn measured(alloc: Global, request: &TextRequest) -> Result<Measure, CallFault>
    ensures exact { GivesUnless call_refusal measure_view result (measure_wanted request.now.job.now request.now.text.now request.now.font.now) }
    ensures measure { IfOk result (λ m. IsMeasureOf request.now.job.now request.now.text.now request.now.font.now (measure_view m) m.report.unfitted.items) }
    ensures defects { TellsDefects call_font_fault (IsAskedDefect request.now.job.now request.now.text.now request.now.font.now) result }
{
    let asked = job_of(request.job, request.text)?;
    test_job(&asked)?;
    let face = job_face(request.font, request.job, asked.fit)?;
    let mut strike = Strike::new(alloc, &face, asked.ppem, asked.fit, 0)?;
    let measure = make_measure(&mut strike, request.job.grows(), asked.text, asked.margin)?;
    Ok(measure)
}

/// Measures a text: the size of its picture, its base line, and the box of its ink. Answers: done; the font is refused,
/// too large, or the job refused; memory was refused; the text is not UTF-8. Unless the answer is done, `told` is
/// unchanged.
pub fn measure(alloc: Global, request: &TextRequest, told: &mut CMeasure) -> CAnswer
    ensures { MeasuresText request.now.job.now request.now.text.now request.now.font.now told.old told.new result }
{
    match measured(alloc, request) {
        Ok(measure) => {
            *told = measure_of(&measure);
            sized(DONE, 0, 0)
        }
        Err(fault) => answer_of(fault),
    }
}

/// The measure of a text by a font file, and the offsets of its units. Errors: those of `measured`.
fn placed(alloc: Global, request: &TextRequest) -> Result<PlacedCharacters, CallFault>
    ensures exact { GivesUnless call_refusal (λ p. measure_view p.measure) result (measure_wanted request.now.job.now request.now.text.now request.now.font.now) }
    ensures offsets { IfOk result (λ p. p.offsets.items ≡ offsets_asked request.now.job.now request.now.text.now) }
    ensures count { IfOk result (λ p. length p.measure.characters.items ≡ length p.offsets.items) }
    ensures defects { TellsDefects call_font_fault (IsAskedDefect request.now.job.now request.now.text.now request.now.font.now) result }
{
    let measure = measured(alloc, request)?;
    let text = text_of(request.text)?;
    tt_line::laws::glyphs_are_placed();
    tt_line::laws::steps_lead();
    match offsets_of(alloc, request.job.reads_widely(), text) {
        Ok(offsets) => Ok(PlacedCharacters { measure, offsets }),
        Err(_) => Err(CallFault::Memory),
    }
}

/// Writes the units of a text with their offsets at the front of a caller's room. Answers: done; or the room is too small,
/// and nothing is written.
fn write_characters(
    measured: &[CharacterMeasure],
    offsets: &[usize],
    room: &mut [CCharacter],
) -> CAnswer
    requires { length measured.now ≡ length offsets.now }
    ensures done { result.status ≡ 0 → AreCharactersTold measured.now offsets.now room.old room.new result }
    ensures small { result.status ≢ 0 → IsEntriesSmall (length measured.now) (length room.old) result }
    ensures kept { result.status ≢ 0 → room.new ≡ room.old }
{
    let count = measured.len();
    if count > room.len() {
        return sized(ROOM, 0, count as u64);
    }
    for i in 0..count {
        room[i] = character_of(&measured[i], offsets[i]);
    }
    sized(DONE, 0, count as u64)
}

/// Writes the place of each unit of a text in its picture, in the order of the text. Answers: done, with the number of
/// units; the font is refused, too large, or the job refused; memory was refused; the text is not UTF-8;
/// the room is too small. Unless the answer is done, `room` is unchanged.
pub fn characters(alloc: Global, request: &TextRequest, room: &mut [CCharacter]) -> CAnswer
    ensures { PlacesCharacters request.now.job.now request.now.text.now request.now.font.now room.old room.new result }
{
    match placed(alloc, request) {
        Ok(placed) => write_characters(&placed.measure.characters, &placed.offsets, room),
        Err(fault) => answer_of(fault),
    }
}
