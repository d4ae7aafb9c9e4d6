//! Writes the measure of one text without its ink, from a reader to a writer.

ghost use Rattle.std.specs.Prelude.{◌≡◌, ◌≤◌, false, length, Ok, IfOk};
ghost use Rattle.tt_core.specs.Limits.{font_limit};
ghost use Rattle.tt_render_lines.specs.LayoutTexts.{FontLayoutGives, IsLayoutDefect, LayoutReadies, TellsLayout, layout_answer};
ghost use Rattle.tt_render_texts.specs.Printing.{errors_of};
ghost use Rattle.tt_render_settings.specs.Settings.{job_by, strike_of};
ghost use Rattle.tt_render_settings.specs.TextsOutcome.{TextTellsDefects, TextTellsDefectsOf};
ghost use Rattle.tt_render_streams.specs.Traffic.{traffic_of};
ghost use Rattle.tt_strike.specs.Job.{tested};

use crate::layout_answers::{ReadyLayout, answer_layout};
use std::alloc::Global;
use tt_core::{Sink, Source};
use tt_pbm::write_all_of;
use tt_render_settings::Setting;
use tt_render_streams::read_font;
use tt_render_texts::{Refusal, TextsFault, print_text, texts_fault};
use tt_strike::{Face, SizedFace, test_job};

/// The answer of the one text by a font file. Errors, the first of: Font, of the tables needed for every text and of the
/// instance; those of `answer_layout`. Memory may come at any allocation.
fn lay_out(
    alloc: Global,
    file: &[u8],
    text: &str,
    setting: &Setting,
) -> Result<ReadyLayout, TextsFault>
    requires size { length file.now ≤ font_limit }
    requires tested { tested (job_by setting.now text.now) ≡ Ok tt }
    ensures outcome { LayoutReadies (λ s. layout_answer setting.now s text.now) (strike_of setting.now file.now) result }
    ensures defects { TextTellsDefects (IsLayoutDefect setting.now text.now file.now) result }
    ensures report { IfOk result TellsLayout }
{
    let face = Face::read_at(file, setting.opening, setting.instance)?;
    let mut sized = SizedFace::new(alloc, &face, setting.ppem, setting.fit)?;
    match answer_layout(alloc, &mut sized, file, setting, text) {
        Ok(ready) => Ok(ready),
        Err(fault) => Err(texts_fault(None, fault.refusal)),
    }
}

/// Writes the measure of one text by a font without its ink: where the pens stand, the size of the picture that does
/// not grow, and the distance of a next line. Then its report is printed on `error`: with `Missing::Tell` a line for
/// each character without a glyph. A failure of `error` does not change the answer. Only with `Fit::Best` are glyphs
/// made. The setting's fields `grow`, `product` and `most` are not used.
///
/// Errors, the first of these, with no line: Job (SizeRange, MarginRange, and TextLong, of more than 4,096 characters),
/// before the font is read; FontRead, FontLarge; Font, of the tables needed for every text and of the instance; Font and
/// Job of `SizedFace::pens`; Missing; and Write. Memory may come at any allocation, and then nothing was written.
pub fn write_layout<R: Source, W: Sink, E: Sink>(
    alloc: Global,
    font: &mut R,
    out: &mut W,
    error: &mut E,
    text: &str,
    setting: &Setting,
) -> Result<(), TextsFault>
    requires font { R.has_failed font.old ≡ false }
    requires out { W.has_failed out.old ≡ false }
    requires error { E.has_failed error.old ≡ false }
    // Either the call stopped before the text was laid out, and did nothing else. Or the font was read to its end and
    // opened, and the writing and printing are as defined for the text by that font.
    ensures outcome { FontLayoutGives setting.now text.now result (traffic_of R.left R.has_failed W.written W.has_failed font.old font.new out.old out.new) (errors_of E.written E.has_failed error.old error.new) }
    ensures defects { TextTellsDefectsOf (R.left font.old) (IsLayoutDefect setting.now text.now) result }
{
    test_job(&setting.job(text))?;
    let file = read_font(alloc, font)?;
    let ready = lay_out(alloc, &file, text, setting)?;
    match write_all_of(out, &ready.lines) {
        Ok(()) => {
            print_text(error, &ready.report);
            Ok(())
        }
        Err(cut) => Err(TextsFault {
            line: None,
            refusal: Refusal::Write { sent: cut.sent },
        }),
    }
}
