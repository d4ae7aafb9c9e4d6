//! Reads a font, and writes its file of bitmaps.

ghost use Rattle.std.specs.Prelude.{◌≡◌, ◌≤◌, All, false, length, Ok, Err, None, IfOk, IfSome};
ghost use Rattle.tt_bdf.specs.Ranges.{IsCodeRange};
ghost use Rattle.tt_bitmap_font.specs.FontFiles.{FileReadies, FontFileGives, HintsBy, IsFileDefect, TellsFile, bdf_outcome, characters_hint, hint_for, setting_of};
ghost use Rattle.tt_core.specs.Limits.{font_limit, size_limit};
ghost use Rattle.tt_render_texts.specs.Printing.{errors_of};
ghost use Rattle.tt_render_settings.specs.Settings.{strike_of};
ghost use Rattle.tt_render_settings.specs.TextsOutcome.{TextTellsDefects, TextTellsDefectsOf};
ghost use Rattle.tt_render_texts.specs.Views.{before_lines, refusal_of_run};
ghost use Rattle.tt_render_streams.specs.Traffic.{traffic_of};

use crate::answers::{ReadyFile, answer_file};
use crate::font_file::FontFile;
use std::alloc::Global;
use tt_advice::{FixedHint, Hint, axis_advice};
use tt_core::{JobFault, Sink, Source};
use tt_face::Face;
use tt_pbm::write_all_of;
use tt_render_settings::Labelled;
use tt_render_streams::{RunFault, read_font};
use tt_render_texts::{Refusal, TextsFault, print_text};

/// Which of the requested characters a font has, where these refuse the file.
fn characters_hint(job: JobFault) -> Option<Hint>
    ensures { result ≡ characters_hint job }
{
    match job {
        JobFault::TextLong => Some(Hint::Fixed(FixedHint::ManyCharacters)),
        JobFault::EmptyPicture => Some(Hint::Fixed(FixedHint::NoCharacter)),
        JobFault::SizeRange
        | JobFault::MarginRange
        | JobFault::PictureLarge
        | JobFault::WorkLarge => None,
    }
}

/// The words for a person about the font's file, where the file is refused behind the reading.
fn hint_for(refusal: Refusal, file: &[u8], asked: &FontFile) -> Option<Hint>
    requires { length file.now ≤ font_limit }
    ensures { result ≡ hint_for refusal file.now asked.now }
{
    match refusal {
        Refusal::Font(fault) => {
            let axes = asked.setting().axes();
            Some(axis_advice(fault, file, asked.face, axes))
        }
        Refusal::Job(job) => characters_hint(job),
        Refusal::Space(_)
        | Refusal::NotUtf8
        | Refusal::Missing(_)
        | Refusal::FontRead
        | Refusal::FontLarge
        | Refusal::Read
        | Refusal::Create
        | Refusal::Write { .. }
        | Refusal::Many
        | Refusal::Memory => None,
    }
}

/// A fault with the hint about the font's file.
fn hinted(fault: TextsFault, file: &[u8], asked: &FontFile) -> Labelled
    requires { length file.now ≤ font_limit }
    ensures { result ≡ record { answer = Err fault; hint = hint_for fault.refusal file.now asked.now } }
{
    let hint = hint_for(fault.refusal, file, asked);
    Labelled {
        answer: Err(fault),
        hint,
    }
}

/// The fault of a call that no byte of the font stopped.
fn unhinted(refusal: Refusal) -> Labelled
    ensures { result ≡ record { answer = Err (before_lines refusal); hint = None } }
{
    Labelled {
        answer: Err(TextsFault {
            line: None,
            refusal,
        }),
        hint: None,
    }
}

/// All was written.
fn done() -> Labelled
    ensures { result ≡ record { answer = Ok tt; hint = None } }
{
    Labelled {
        answer: Ok(()),
        hint: None,
    }
}

/// The fault of a font that could not be read.
fn unread(fault: RunFault) -> Labelled
    ensures { result ≡ record { answer = Err (before_lines (refusal_of_run fault)); hint = None } }
{
    let fault = TextsFault::from(fault);
    unhinted(fault.refusal)
}

/// The file of a font by the font's file. Errors, the first of: Font, of the tables needed for every text and of the
/// instance; those of `answer_file`. Memory may come at any allocation.
fn ready_file(alloc: Global, file: &[u8], asked: &FontFile) -> Result<ReadyFile, TextsFault>
    requires font { length file.now ≤ font_limit }
    requires ranges { All IsCodeRange asked.now.ranges.now }
    requires size { asked.now.size ≤ size_limit }
    ensures outcome { FileReadies (λ s. bdf_outcome asked.now s.face) (strike_of (setting_of asked.now) file.now) result }
    ensures defects { TextTellsDefects (IsFileDefect asked.now file.now) result }
    ensures report { IfOk result TellsFile }
{
    let face = Face::read_at(file, asked.opening(), asked.instance)?;
    match answer_file(alloc, &face, file, asked) {
        Ok(ready) => Ok(ready),
        Err(fault) => Err(TextsFault {
            line: None,
            refusal: fault.refusal,
        }),
    }
}

/// Writes a font at a size as a file of bitmaps, in BDF 2.1: the wanted characters that the font has a glyph for, in
/// order of code point. All glyphs are made before a byte is written. Then the report is printed on `error`, and behind
/// it the lines about the font. A failure of `error` does not change the answer.
///
/// Errors, the first of these, with no line: Job (SizeRange, and TextLong, of a text of more than 4,096 characters),
/// before the font is read; FontRead, FontLarge; Font, of the tables needed for every text and of the instance; Job
/// (TextLong, of more than 4,096 characters of the file, and EmptyPicture, of none); Font and Job of `BitmapList::make_sound`; Job
/// (PictureLarge); and Write. Memory may come at any allocation, and then nothing was written. A fault of the font, and
/// one of its characters, has the hint about the font's file.
pub fn write_bdf<R: Source, W: Sink, E: Sink>(
    alloc: Global,
    font: &mut R,
    out: &mut W,
    error: &mut E,
    asked: &FontFile,
) -> Labelled
    requires font { R.has_failed font.old ≡ false }
    requires out { W.has_failed out.old ≡ false }
    requires error { E.has_failed error.old ≡ false }
    requires ranges { All IsCodeRange asked.now.ranges.now }
    // Either the call stopped before the file was made, and did nothing else. Or the font was read to its end and
    // opened, and the writing and printing are as defined for the file by that font.
    ensures outcome { FontFileGives asked.now result.answer (traffic_of R.left R.has_failed W.written W.has_failed font.old font.new out.old out.new) (errors_of E.written E.has_failed error.old error.new) }
    ensures defects { TextTellsDefectsOf (R.left font.old) (IsFileDefect asked.now) result.answer }
    ensures hint { IfSome (R.left font.old) (HintsBy asked.now result) }
{
    if let Err(fault) = asked.test() {
        return unhinted(Refusal::Job(fault));
    }
    let file = match read_font(alloc, font) {
        Ok(file) => file,
        Err(fault) => return unread(fault),
    };
    let ready = match ready_file(alloc, &file, asked) {
        Ok(ready) => ready,
        Err(fault) => return hinted(fault, &file, asked),
    };
    match write_all_of(out, &ready.file) {
        Ok(()) => {
            print_text(error, &ready.report);
            done()
        }
        Err(cut) => unhinted(Refusal::Write { sent: cut.sent }),
    }
}
