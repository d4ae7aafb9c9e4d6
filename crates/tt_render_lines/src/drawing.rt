//! Draws one text, or the lines of a text in order, from a reader to a writer.

ghost use Rattle.std.specs.Io.KnownBytes.{Appends};
ghost use Rattle.std.specs.Prelude.{◌≡◌, ◌≤◌, ◌++◌, true, false, codes, is_err, length, string_bytes, Ok, None, IfErr, IfOk, OnErr, OnOk, Some};
ghost use Rattle.tt_core.specs.Limits.{font_limit};
ghost use Rattle.tt_render_streams.specs.Traffic.{traffic_of};
ghost use Rattle.tt_render_texts.specs.Printing.{PrintsBehind, errors_of};
ghost use Rattle.tt_render_texts.specs.Reports.{told_of};
ghost use Rattle.tt_render_texts.specs.TextsMessages.{texts_line_of};
ghost use Rattle.tt_render_lines.specs.Outputs.{CanGoOut};
ghost use Rattle.tt_render_settings.specs.Settings.{job_by, strike_of};
ghost use Rattle.tt_render_settings.specs.Texts.{text_answer};
ghost use Rattle.tt_render_settings.specs.TextsOutcome.{FontTextGives, TextTellsDefects, TextTellsDefectsOf, FontLinesGive, IsOfText, LinesGive, StopsPassing, earlier, goes_on, lines_drawing, refusal_font_fault, told, without_line};
ghost use Rattle.tt_render_lines.specs.Outputs.{IsNotSent, ReadiesText, TellsOf, answer_view, bytes_in};
ghost use Rattle.tt_line.specs.Layout.{text_glyphs};
ghost use Rattle.tt_strike.specs.Job.{tested};
ghost use Rattle.tt_core.specs.Outcomes.{GivesUnless, IfTold};
ghost use Rattle.tt_render_settings.specs.Lines.{line_drawn};
ghost use Rattle.tt_render_texts.specs.Lines.{line_limit};
ghost use Rattle.tt_render_settings.specs.LinesDefects.{IsDefectBy, IsTextDefect, LinesTell, LinesTellDefectsOf};
ghost use Rattle.tt_render_streams.specs.Reading.{font_reader_of};

use crate::products::write_output;
use crate::text_answers::{ReadyText, answer_text};
use std::alloc::{AllocError, Global};
use std::str;
use tt_core::{Sink, Source};
use tt_render_settings::{Found, Setting, earlier, goes_on, next_line, refused_cost, test_setting};
use tt_render_streams::read_font;
use tt_render_texts::{LineReader, Refusal, TextsFault, print_text, texts_fault, texts_line};
use tt_strike::{Face, Strike, test_job};

/// The answer of the one text by a font file. Errors, the first of: Font, of the tables needed for every text and of the
/// instance; those of `answer_text`. Memory may come at any allocation.
fn draw(alloc: Global, file: &[u8], text: &str, setting: &Setting) -> Result<ReadyText, TextsFault>
    requires size { length file.now ≤ font_limit }
    requires tested { tested (job_by setting.now text.now) ≡ Ok tt }
    ensures outcome { ReadiesText (λ s. text_answer setting.now s text.now) (strike_of setting.now file.now) result }
    ensures defects { TextTellsDefects (IsTextDefect text_glyphs setting.now text.now file.now) result }
    ensures valid { IfOk result (λ r. CanGoOut r.output) }
    ensures report { IfOk result (TellsOf None) }
{
    let face = Face::read_at(file, setting.opening, setting.instance)?;
    // There is no other line, so no glyph is cached.
    let mut strike = Strike::new(alloc, &face, setting.ppem, setting.fit, 0)?;
    match answer_text(alloc, &mut strike, file, setting, None, text) {
        Ok(ready) => Ok(ready),
        Err(fault) => Err(texts_fault(None, fault.refusal)),
    }
}

/// Draws one text by a font, and writes its product: the picture, as `run` would write it; the picture enlarged so that
/// no ink is cut; or the measure of either. Then its report is printed on `error`: a line for each glyph that could not
/// be fitted. With `Missing::Tell` a line for each character without a glyph follows. A failure of `error` does not
/// change the answer.
///
/// Errors, the first of these, with no line: Job (SizeRange, MarginRange, and TextLong, of more than 4,096 characters),
/// before the font is read; FontRead, FontLarge; Font, of the tables needed for every text and of the instance; Font and
/// Job of `make_picture` or `make_measure`; Missing; and Write. Memory may come at any allocation, and then nothing was
/// written.
pub fn draw_text<R: Source, W: Sink, E: Sink>(
    alloc: Global,
    font: &mut R,
    out: &mut W,
    error: &mut E,
    text: &str,
    setting: &Setting,
) -> Result<(), TextsFault>
    requires font { R.has_failed font.old ≡ false }
    requires out { W.has_failed out.old ≡ false }
    requires error { E.has_failed error.old ≡ false }
    // Either the call stopped before the text was drawn, and did nothing else. Or the font was read to its end and
    // opened, and the writing and printing are as defined for the text by that font.
    ensures outcome { FontTextGives setting.now text.now result (traffic_of R.left R.has_failed W.written W.has_failed font.old font.new out.old out.new) (errors_of E.written E.has_failed error.old error.new) }
    ensures defects { TextTellsDefectsOf (R.left font.old) (IsTextDefect text_glyphs setting.now text.now) result }
{
    test_job(&setting.job(text))?;
    let file = read_font(alloc, font)?;
    let mut ready = draw(alloc, &file, text, setting)?;
    match write_output(out, &mut ready.output) {
        Ok(()) => {
            print_text(error, &ready.report);
            Ok(())
        }
        Err(cut) => Err(TextsFault {
            line: None,
            refusal: Refusal::Write { sent: cut.sent },
        }),
    }
}

/// The answer of the line with this number, by a strike whose face is of this file. Errors, the first of: NotUtf8; those
/// of a text. The caller puts the line into an error.
#[tactic(auto, unfolding(tt_render_settings::specs::Lines::line_drawn))]
fn draw_line(
    alloc: Global,
    strike: &mut Strike,
    file: &[u8],
    setting: &Setting,
    number: u32,
    line: &[u8],
) -> Result<ReadyText, TextsFault>
    requires short { length line.now ≤ line_limit }
    requires file { file.now ≡ strike.old.face.directory.file }
    ensures exact { GivesUnless told answer_view (without_line result) (line_drawn setting.now strike.old line.now) }
    ensures valid { IfOk result (λ r. CanGoOut r.output) }
    ensures report { IfOk result (TellsOf (Some number)) }
    ensures serves { IsOfText (without_line result) }
    ensures defects { IfTold refusal_font_fault (without_line result) (IsDefectBy text_glyphs setting.now strike.old line.now) }
    ensures same { strike.new ≡ record strike.old { kept = strike.new.kept } }
{
    let Ok(text) = str::from_utf8(line) else {
        return Err(texts_fault(None, Refusal::NotUtf8));
    };
    answer_text(alloc, strike, file, setting, Some(number), text)
}

/// Writes the output of the line with this number, and then prints its report. Error: Write.
fn send<W: Sink, E: Sink>(
    out: &mut W,
    error: &mut E,
    number: u32,
    ready: ReadyText,
) -> Result<(), TextsFault>
    requires out { W.has_failed out.old ≡ false }
    requires valid { CanGoOut ready.output }
    requires report { TellsOf (Some number) ready }
    ensures all { OnOk result (Appends (W.written out.old) (W.written out.new) (bytes_in ready.output)) }
    ensures told { OnOk result (PrintsBehind (E.has_failed error.old) (errors_of E.written E.has_failed error.old error.new) (told_of (Some number) (answer_view ready))) }
    ensures part { IfErr result (IsNotSent number (W.written out.old) (W.written out.new) (bytes_in ready.output)) }
    ensures silent { OnErr result (error.new ≡ error.old) }
    ensures failure { W.has_failed out.new ≡ is_err result }
{
    let mut ready = ready;
    match write_output(out, &mut ready.output) {
        Ok(()) => {
            print_text(error, &ready.report);
            Ok(())
        }
        Err(cut) => Err(texts_fault(Some(number), Refusal::Write { sent: cut.sent })),
    }
}

/// The line about a refused line, with its line feed. Error: memory ran out.
fn line_of(alloc: Global, fault: &TextsFault) -> Result<String, AllocError>
    ensures { IfOk result (λ text. string_bytes text ≡ texts_line_of fault.now ++ codes "\n") }
{
    let mut text = texts_line(alloc, fault)?;
    text.push_str("\n")?;
    Ok(text)
}

/// Tells a refused line, where the lines behind it are drawn. Returns the fault of the first such line. Errors: this fault,
/// where it stops the call; Memory.
fn pass<E: Sink>(
    alloc: Global,
    keep_going: bool,
    fault: TextsFault,
    first: Option<TextsFault>,
    error: &mut E,
) -> Result<Option<TextsFault>, TextsFault>
    ensures goes { OnOk result (goes_on keep_going fault.refusal ≡ true) }
    ensures told { OnOk result (PrintsBehind (E.has_failed error.old) (errors_of E.written E.has_failed error.old error.new) (texts_line_of fault ++ codes "\n")) }
    ensures first { IfOk result (λ f. f ≡ earlier first (Some fault)) }
    ensures stops { IfErr result (StopsPassing keep_going fault) }
    ensures silent { OnErr result (error.new ≡ error.old) }
{
    if !goes_on(keep_going, fault.refusal) {
        return Err(fault);
    }
    let line = line_of(alloc, &fault)?;
    print_text(error, &line);
    Ok(earlier(first, fault))
}

/// Lines that were drawn.
#[derive(Clone, Copy, Debug, PartialEq, Eq)]
pub struct LinesDrawn {
    /// The bytes of the cached glyphs.
    pub kept: usize,
    /// The fault of the first line that was refused and passed over.
    pub refused: Option<TextsFault>,
}

/// Draws the lines of a text with a strike, as `draw_lines` does. The strike's face is of this file.
fn draw_lines_by<R: Source, W: Sink, E: Sink>(
    alloc: Global,
    strike: &mut Strike,
    file: &[u8],
    lines: &mut R,
    out: &mut W,
    error: &mut E,
    setting: &Setting,
) -> Result<LinesDrawn, TextsFault>
    requires lines { R.has_failed lines.old ≡ false }
    requires out { W.has_failed out.old ≡ false }
    requires error { E.has_failed error.old ≡ false }
    requires file { file.now ≡ strike.old.face.directory.file }
    ensures outcome { LinesGive (λ drawn. drawn.refused) (lines_drawing setting.now strike.old) result (traffic_of R.left R.has_failed W.written W.has_failed lines.old lines.new out.old out.new) (errors_of E.written E.has_failed error.old error.new) }
    ensures defects { LinesTell (IsDefectBy text_glyphs setting.now strike.old) (R.left lines.old) result }
    ensures kept { IfOk result (λ drawn. drawn.kept ≤ strike.old.most) }
{
    let mut reader = LineReader::new(alloc)?;
    let mut used = 0;
    let mut first = None;
    for before in 0..u32::MAX {
        let number = before + 1;
        let place = match next_line(&mut reader, lines, before, used, setting.keep_going) {
            Ok(Found::Line(place)) => place,
            Ok(Found::End) => {
                return Ok(LinesDrawn {
                    kept: strike.kept_bytes(),
                    refused: first,
                });
            }
            Ok(Found::Refused(why)) => {
                let fault = texts_fault(Some(number), Refusal::Job(why));
                first = pass(alloc, setting.keep_going, fault, first, error)?;
                continue;
            }
            Err(why) => return Err(texts_fault(Some(number), why)),
        };
        let line = reader.line(place);
        let ready = match draw_line(alloc, strike, file, setting, number, line) {
            Ok(ready) => ready,
            Err(refused) => {
                let cost = refused_cost(refused.refusal);
                let fault = texts_fault(Some(number), refused.refusal);
                first = pass(alloc, setting.keep_going, fault, first, error)?;
                used += cost;
                continue;
            }
        };
        used += u128::from(ready.output.cost());
        send(out, error, number, ready)?;
    }
    Err(TextsFault {
        line: None,
        refusal: Refusal::Many,
    })
}

/// Draws the lines of a text in order, and writes the product of each, as `draw_text` would write it, as soon as it is
/// made. A line ends before its line feed, and before a carriage return there. The rest after the last line feed is a
/// line too, unless it is empty. Nothing of a refused line is written, and later lines are not drawn. With `keep_going`
/// they are, if the line alone is refused: its line on standard error is printed, and the first such fault is returned.
/// After a line's
/// product its report is printed on `error`: a line for each glyph that could not be fitted. With `Missing::Tell` a
/// line for each character without a glyph follows. A failure of `error` does not stop the drawing. With `Fit::Best`
/// the lines share a budget: a line is drawn only if those before it took at most 10,000,000 and 4,000,000 for each of
/// them. Returns the bytes of the glyphs that are cached at the end too, which are at most the setting's `most`.
///
/// Errors, the first of: Job (SizeRange, MarginRange), before the font is read; FontRead, FontLarge; Font, of the
/// tables needed for every text and of the instance; then, line by line, with the line's number, from 1: Read; Job (TextLong, of more than
/// 16,384 bytes; WorkLarge, where the lines before it took more than their budget); NotUtf8; Font and Job of
/// `make_picture` or `make_measure`; Missing; and Write. Many comes after 4,294,967,295 lines, and after 2^64 - 1 reads of
/// one line. Memory may come at any allocation.
#[tactic(auto, unfolding(tt_render_settings::specs::Settings::strike_of))]
pub fn draw_lines<F: Source, R: Source, W: Sink, E: Sink>(
    alloc: Global,
    font: &mut F,
    lines: &mut R,
    out: &mut W,
    error: &mut E,
    setting: &Setting,
) -> Result<LinesDrawn, TextsFault>
    requires font { F.has_failed font.old ≡ false }
    requires lines { R.has_failed lines.old ≡ false }
    requires out { W.has_failed out.old ≡ false }
    requires error { E.has_failed error.old ≡ false }
    // Either the call stopped before it read a line, and did nothing else. Or the font was read to its end and opened,
    // and the reading, writing and printing are as defined for the lines by that font.
    ensures outcome { FontLinesGive (λ drawn. drawn.refused) setting.now result (font_reader_of F.left F.has_failed font.old font.new) (traffic_of R.left R.has_failed W.written W.has_failed lines.old lines.new out.old out.new) (errors_of E.written E.has_failed error.old error.new) }
    // A font's fault in an error is a defect of the font: of the tables needed for every text, of the instance, or of the
    // data that the numbered line is drawn from.
    ensures defects { LinesTellDefectsOf text_glyphs (F.left font.old) setting.now (R.left lines.old) result }
    ensures kept { IfOk result (λ drawn. drawn.kept ≤ setting.now.most) }
{
    test_setting(setting)?;
    let file = read_font(alloc, font)?;
    let face = Face::read_at(&file, setting.opening, setting.instance)?;
    let mut strike = Strike::new(alloc, &face, setting.ppem, setting.fit, setting.most)?;
    draw_lines_by(alloc, &mut strike, &file, lines, out, error, setting)
}
