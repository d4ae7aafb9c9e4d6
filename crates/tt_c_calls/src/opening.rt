//! A font opened, and the faces of its file counted.

ghost use Rattle.std.specs.Prelude.{◌≢◌, IfErr, option_map};
ghost use Rattle.tt_core.specs.Collections.{IsOffsetDefect};
ghost use Rattle.tt_core.specs.declared.collection.Reading.TheVariants as reading;
ghost use Rattle.tt_core.specs.Outcomes.{GivesUnless};
ghost use Rattle.tt_face.specs.Files.{IsFaceDefectBy};
ghost use Rattle.tt_face.specs.Instance.{IsDefectAtInstance};
ghost use Rattle.tt_face.specs.Views.{asked_view};
ghost use Rattle.tt_strike.specs.Defects.{TellsDefects};
ghost use Rattle.tt_c_calls.specs.Asked.{IsJobFaceDefect, IsPlainFaceDefect, face_reading};
ghost use Rattle.tt_c_calls.specs.Fonts.{CountsFaces, OpensFont, count_wanted, face_wanted, job_opened, opened_wanted, plain_opened};
ghost use Rattle.tt_c_calls.specs.declared.fault.CallFault.TheVariants as call;
ghost use Rattle.tt_c_calls.specs.Refusals.{call_font_fault, call_refusal};

use crate::answer::{CAnswer, DONE, answer_of, sized};
use crate::asked::{CJob, face_reading};
use crate::fault::CallFault;
use tt_core::{FONT_LIMIT, Reading, face_count};
use tt_face::AskedInstance;
use tt_fit::Fit;
use tt_strike::{Face, Opening};

/// The figures of a font.
#[repr(C)]
#[derive(Clone, Copy)]
pub struct CFont {
    /// Font units in an em, 16 to 16,384.
    pub units_per_em: u32,
    /// Above the base line, in font units.
    pub ascent: i32,
    /// Above the base line, in font units, so mostly negative.
    pub descent: i32,
    /// The number of glyphs.
    pub glyphs: u32,
    /// Between the descent of a line and the ascent of the next, in font units.
    pub line_gap: i32,
}

/// The tables that every text needs, by a reading of a font file. Errors: FontLarge, and those of the directory and of
/// its place, of head, maxp, hhea and hmtx, and of cmap.
#[tactic(auto, unfolding(crate::specs::Fonts::face_wanted))]
pub fn face_of<'a>(font: &'a [u8], reading: Reading) -> Result<Face<'a>, CallFault>
    ensures exact { GivesUnless call_refusal (λ f. f) result (face_wanted reading font.now) }
    ensures defects { TellsDefects call_font_fault (IsFaceDefectBy font.now reading) result }
    ensures memory { IfErr result (λ f. f ≢ call.Memory) }
{
    if font.len() > FONT_LIMIT {
        return Err(CallFault::FontLarge);
    }
    match Face::read(font, reading) {
        Ok(face) => Ok(face),
        Err(fault) => Err(CallFault::Font(fault)),
    }
}

/// The tables that every text needs, at an instance if one is requested, with the rules of its lines. Errors: as
/// `face_of`, and those of the instance.
#[tactic(auto, unfolding(crate::specs::Fonts::opened_wanted))]
pub fn opened_face<'a>(
    font: &'a [u8],
    opening: Opening,
    instance: Option<AskedInstance>,
) -> Result<Face<'a>, CallFault>
    ensures exact { GivesUnless call_refusal (λ f. f) result (opened_wanted opening (option_map asked_view instance.entry) font.now) }
    ensures defects { TellsDefects call_font_fault (IsDefectAtInstance font.now opening (option_map asked_view instance.entry)) result }
    ensures memory { IfErr result (λ f. f ≢ call.Memory) }
{
    let is_large = font.len() > FONT_LIMIT;
    if is_large {
        return Err(CallFault::FontLarge);
    }
    match Face::read_at(font, opening, instance) {
        Ok(face) => Ok(face),
        Err(fault) => Err(CallFault::Font(fault)),
    }
}

/// The tables of a job with a way to fit, with the rules of its lines. Errors: as `opened_face`.
pub(crate) fn job_face<'a>(font: &'a [u8], job: &CJob, fit: Fit) -> Result<Face<'a>, CallFault>
    ensures exact { GivesUnless call_refusal (λ f. f) result (job_opened job.now fit font.now) }
    ensures defects { TellsDefects call_font_fault (IsJobFaceDefect job.now fit font.now) result }
    ensures memory { IfErr result (λ f. f ≢ call.Memory) }
{
    let instance = job.asked_instance();
    opened_face(font, job.opening(fit), instance.asked())
}

/// The tables of a job with a way to fit, with the plain rules of lines. Errors: as `opened_face`.
pub fn plain_face<'a>(font: &'a [u8], job: &CJob, fit: Fit) -> Result<Face<'a>, CallFault>
    ensures exact { GivesUnless call_refusal (λ f. f) result (plain_opened job.now fit font.now) }
    ensures defects { TellsDefects call_font_fault (IsPlainFaceDefect job.now fit font.now) result }
    ensures memory { IfErr result (λ f. f ≢ call.Memory) }
{
    let instance = job.asked_instance();
    opened_face(font, Opening::plain(job.reading(fit)), instance.asked())
}

/// Tests the tables that every text needs, and writes the font's figures. The face is as in a job. Answers: done; the font
/// is refused, or too large. It takes no memory.
pub fn open(font: &[u8], face: u32, told: &mut CFont) -> CAnswer
    ensures { OpensFont (face_reading face) font.now told.old told.new result }
{
    let opened = match face_of(font, face_reading(face)) {
        Ok(opened) => opened,
        Err(fault) => return answer_of(fault),
    };
    let metrics = opened.metrics();
    *told = CFont {
        units_per_em: u32::from(metrics.units_per_em()),
        ascent: i32::from(metrics.ascent()),
        descent: i32::from(metrics.descent()),
        glyphs: u32::from(metrics.glyphs()),
        line_gap: i32::from(metrics.line_gap()),
    };
    sized(DONE, 0, 0)
}

/// The number of faces of a font file: one, or those of a collection. Errors: FontLarge, and those of the place of the
/// first face.
#[tactic(auto, unfolding(crate::specs::Fonts::count_wanted))]
fn count_of(font: &[u8]) -> Result<u32, CallFault>
    ensures exact { GivesUnless call_refusal (λ n. n) result (count_wanted font.now) }
    ensures defects { TellsDefects call_font_fault (IsOffsetDefect font.now (reading.Wide 0)) result }
    ensures memory { IfErr result (λ f. f ≢ call.Memory) }
{
    if FONT_LIMIT < font.len() {
        return Err(CallFault::FontLarge);
    }
    match face_count(font) {
        Ok(count) => Ok(count),
        Err(fault) => Err(CallFault::Font(fault)),
    }
}

/// Counts the faces of a font file. Answers: done, with the number of faces; the file is refused, or too large. It takes
/// no memory.
pub fn faces(font: &[u8]) -> CAnswer
    ensures { CountsFaces font.now result }
{
    let count = match count_of(font) {
        Ok(count) => count,
        Err(fault) => return answer_of(fault),
    };
    sized(DONE, 0, u64::from(count))
}
