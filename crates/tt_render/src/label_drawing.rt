//! Draws one text as a label, or each line of a text in order, and puts the pictures into their places.

ghost use Rattle.std.specs.Io.KnownBytes.{Appends};
ghost use Rattle.std.specs.Prelude.{◌≡◌, ◌≤◌, true, false, length, is_err, Ok, Err, None, IfErr, IfOk, IfSome, OnErr, OnOk, Some};
ghost use Rattle.tt_core.specs.Limits.{font_limit};
ghost use Rattle.tt_core.specs.Outcomes.{GivesUnless, IfTold};
ghost use Rattle.tt_render_streams.specs.Formed.{formed_bytes};
ghost use Rattle.tt_render_streams.specs.Traffic.{traffic_of};
ghost use Rattle.tt_render_streams.specs.Reading.{font_reader_of};
ghost use Rattle.tt_render.specs.Labels.{CanGoOut, FileLabelsGive, FontLabelGives, FontLabelsGive, HintsBy, IsNotSent, LabelReadies, LabelsGive, TellsLabel, composed_glyphs, hint_for, label_answer, label_notes, label_view, line_labelled};
ghost use Rattle.tt_render.specs.LabelSpaces.{ClaimsIfSized};
ghost use Rattle.tt_render_texts.specs.Lines.{line_limit};
ghost use Rattle.tt_render_settings.specs.LinesDefects.{IsDefectBy, IsTextDefect, LinesTell, LinesTellDefects, LinesTellDefectsOf};
ghost use Rattle.tt_render_settings.specs.Help.{label_lines_of};
ghost use Rattle.tt_render_settings.specs.Lines.{places};
ghost use Rattle.tt_render_texts.specs.Printing.{PrintsBehind, errors_of};
ghost use Rattle.tt_render_texts.specs.Reports.{told_of};
ghost use Rattle.tt_render_settings.specs.Settings.{job_by, setting_tested, strike_of};
ghost use Rattle.tt_render_settings.specs.TextsOutcome.{IsOfText, StopsPassing, TextTellsDefects, TextTellsDefectsOf, earlier, goes_on, refusal_font_fault, told, without_line};
ghost use Rattle.tt_render_texts.specs.Views.{before_lines};
ghost use Rattle.tt_strike.specs.Job.{tested};

use crate::label_answers::{ReadyLabel, answer_label, face_number, notes_of};
use std::alloc::Global;
use std::str;
use tt_advice::{Hint, axis_advice};
use tt_core::{Sink, Source};
use tt_render_settings::{
    Found, Label, LabelsDrawn, earlier, goes_on, label_lines, next_line, refused_cost,
    refused_space, test_setting,
};
use tt_render_streams::{Pictures, read_font};
use tt_render_texts::{
    LineReader, Refusal, TextsFault, print_text, refusal_of_put, refusal_of_run, texts_fault,
};
use tt_strike::{Face, Strike, test_job};

/// The words for a person about the font's file, where the font is refused.
fn hint_for(refusal: Refusal, file: &[u8], asked: &Label) -> Option<Hint>
    requires { length file.now ≤ font_limit }
    ensures { result ≡ hint_for refusal file.now asked.now.setting }
{
    match refusal {
        Refusal::Font(fault) => {
            let face = face_number(asked.setting.opening.reading);
            Some(axis_advice(fault, file, face, asked.setting.axes()))
        }
        Refusal::Job(_)
        | Refusal::Space(_)
        | Refusal::NotUtf8
        | Refusal::Missing(_)
        | Refusal::FontRead
        | Refusal::FontLarge
        | Refusal::Read
        | Refusal::Create
        | Refusal::Write { .. }
        | Refusal::Many
        | Refusal::Memory => None,
    }
}

/// A fault with the hint about the font's file.
fn hinted(fault: TextsFault, file: &[u8], asked: &Label) -> LabelsDrawn
    requires { length file.now ≤ font_limit }
    ensures { result ≡ record { answer = Err fault; hint = hint_for fault.refusal file.now asked.now.setting } }
{
    let hint = hint_for(fault.refusal, file, asked);
    LabelsDrawn {
        answer: Err(fault),
        hint,
    }
}

/// The fault of a call that no line stopped, and no byte of the font.
fn unhinted(refusal: Refusal) -> LabelsDrawn
    ensures { result ≡ record { answer = Err (before_lines refusal); hint = None } }
{
    LabelsDrawn {
        answer: Err(texts_fault(None, refusal)),
        hint: None,
    }
}

/// All was drawn, but for the lines that were refused and passed over, the first for this fault.
fn done(first: Option<TextsFault>) -> LabelsDrawn
    ensures { result ≡ record { answer = Ok first; hint = None } }
{
    LabelsDrawn {
        answer: Ok(first),
        hint: None,
    }
}

/// The answer of the one text by a font file. Errors, the first of: Font, of the tables needed for every text and of the
/// instance; those of `answer_label`. Memory may come at any allocation.
fn draw<'n>(
    alloc: Global,
    file: &[u8],
    notes: &'n str,
    text: &str,
    asked: &Label,
) -> Result<ReadyLabel<'n>, TextsFault>
    requires size { length file.now ≤ font_limit }
    requires notes { notes.now ≡ label_notes asked.now file.now }
    requires tested { tested (job_by asked.now.setting text.now) ≡ Ok tt }
    ensures outcome { LabelReadies (λ s. label_answer asked.now s text.now) (strike_of asked.now.setting file.now) result }
    ensures defects { ClaimsIfSized asked.now.space (TextTellsDefects (IsTextDefect composed_glyphs asked.now.setting text.now file.now) result) }
    ensures valid { IfOk result CanGoOut }
    ensures report { IfOk result (TellsLabel None) }
{
    let face = Face::read_at(file, asked.setting.opening, asked.setting.instance)?;
    let mut strike = Strike::new(alloc, &face, asked.setting.ppem, asked.setting.fit, 0)?;
    match answer_label(alloc, &mut strike, notes, asked, None, text) {
        Ok(ready) => Ok(ready),
        Err(fault) => Err(texts_fault(None, fault.refusal)),
    }
}

/// Draws one text as a label by a font, and puts its picture into its place: that of its lines, one below the other,
/// enlarged so that no ink is cut; that of its rows in the requested width, whose report says what is cut at the sides; or
/// that of its rows in the requested box, at the greatest size that fits, which is not above that of the setting. Before
/// that the picture is whole in memory. Then its report is printed on `error`, and behind
/// that report the lines about the font. A failure of `error` does not change the answer.
///
/// Errors, the first of these, with no line: Job (SizeRange, MarginRange), Space (WidthRange, BoxRange) and Job (TextLong, of
/// more than 4,096 characters), before the font is read; FontRead, FontLarge; Font, of the tables needed for every text and of
/// the instance; Font and Job of `label`; Space (BoxSmall, of a text that fits into its box at no size); Missing; Create; and Write. Memory may come at any allocation, and then nothing was written. A fault of the font has the hint
/// about the font's file.
pub fn draw_label<R: Source, P: Pictures, E: Sink>(
    alloc: Global,
    font: &mut R,
    out: &mut P,
    error: &mut E,
    text: &str,
    asked: &Label,
) -> LabelsDrawn
    requires font { R.has_failed font.old ≡ false }
    requires out { P.has_failed out.old ≡ false }
    requires error { E.has_failed error.old ≡ false }
    // Either the call stopped before the text was drawn, and did nothing else. Or the font was read to its end and
    // opened, and the writing and printing are as defined for the label by that font.
    ensures outcome { FontLabelGives (places P.shown) asked.now text.now result.answer (traffic_of R.left R.has_failed P.written P.has_failed font.old font.new out.old out.new) (errors_of E.written E.has_failed error.old error.new) }
    ensures defects { ClaimsIfSized asked.now.space (TextTellsDefectsOf (R.left font.old) (IsTextDefect composed_glyphs asked.now.setting text.now) result.answer) }
    ensures hint { IfSome (R.left font.old) (HintsBy asked.now result) }
{
    if let Some(fault) = refused_space(asked) {
        return unhinted(Refusal::Space(fault));
    }
    if let Err(fault) = test_job(&asked.setting.job(text)) {
        return unhinted(Refusal::Job(fault));
    }
    let file = match read_font(alloc, font) {
        Ok(file) => file,
        Err(fault) => return unhinted(refusal_of_run(fault)),
    };
    let notes = match notes_of(alloc, &file, asked) {
        Ok(notes) => notes,
        Err(_) => return unhinted(Refusal::Memory),
    };
    let ReadyLabel { formed, report, .. } = match draw(alloc, &file, &notes, text, asked) {
        Ok(ready) => ready,
        Err(fault) => return hinted(fault, &file, asked),
    };
    match out.put(None, formed) {
        Ok(()) => {
            print_text(error, &report);
            done(None)
        }
        Err(fault) => unhinted(refusal_of_put(fault)),
    }
}

/// The answer of the line with this number as a label, by a strike, with the lines about the font of its face. Errors,
/// the first of: NotUtf8; those of a text. The caller puts the line into an error.
#[tactic(auto, unfolding(crate::specs::Labels::line_labelled))]
fn draw_line<'n>(
    alloc: Global,
    strike: &mut Strike,
    notes: &'n str,
    asked: &Label,
    number: u32,
    line: &[u8],
) -> Result<ReadyLabel<'n>, TextsFault>
    requires short { length line.now ≤ line_limit }
    requires notes { notes.now ≡ label_notes asked.now strike.old.face.directory.file }
    ensures exact { GivesUnless told label_view (without_line result) (line_labelled asked.now strike.old line.now) }
    ensures valid { IfOk result CanGoOut }
    ensures report { IfOk result (TellsLabel (Some number)) }
    ensures serves { IsOfText (without_line result) }
    ensures defects { ClaimsIfSized asked.now.space (IfTold refusal_font_fault (without_line result) (IsDefectBy composed_glyphs asked.now.setting strike.old line.now)) }
    ensures same { strike.new ≡ record strike.old { kept = strike.new.kept } }
{
    let Ok(text) = str::from_utf8(line) else {
        return Err(texts_fault(None, Refusal::NotUtf8));
    };
    answer_label(alloc, strike, notes, asked, Some(number), text)
}

/// Puts the label of the line with this number into its place, and then prints its report. Errors: Create, Write.
fn send<P: Pictures, E: Sink>(
    out: &mut P,
    error: &mut E,
    number: u32,
    ready: ReadyLabel,
) -> Result<(), TextsFault>
    requires out { P.has_failed out.old ≡ false }
    requires valid { CanGoOut ready }
    requires report { TellsLabel (Some number) ready }
    ensures all { OnOk result (Appends (P.written out.old) (P.written out.new) (P.shown (Some number) (formed_bytes ready.entry.formed))) }
    ensures told { OnOk result (PrintsBehind (E.has_failed error.old) (errors_of E.written E.has_failed error.old error.new) (told_of (Some number) (label_view ready.entry))) }
    ensures part { IfErr result (IsNotSent (P.shown (Some number)) number (P.written out.old) (P.written out.new) (formed_bytes ready.entry.formed)) }
    ensures silent { OnErr result (error.new ≡ error.old) }
    ensures failure { P.has_failed out.new ≡ is_err result }
{
    let ReadyLabel { formed, report, .. } = ready;
    match out.put(Some(number), formed) {
        Ok(()) => {
            print_text(error, &report);
            Ok(())
        }
        Err(fault) => Err(texts_fault(Some(number), refusal_of_put(fault))),
    }
}

/// Tells a refused line, where the lines behind it are drawn. Returns the fault of the first such line. Errors: this fault,
/// where it stops the call; Memory.
fn pass<E: Sink>(
    alloc: Global,
    asked: &Label,
    fault: TextsFault,
    first: Option<TextsFault>,
    error: &mut E,
) -> Result<Option<TextsFault>, TextsFault>
    ensures goes { OnOk result (goes_on asked.now.setting.keep_going fault.refusal ≡ true) }
    ensures told { OnOk result (PrintsBehind (E.has_failed error.old) (errors_of E.written E.has_failed error.old error.new) (label_lines_of asked.now false fault None)) }
    ensures first { IfOk result (λ f. f ≡ earlier first (Some fault)) }
    ensures stops { IfErr result (StopsPassing asked.now.setting.keep_going fault) }
    ensures silent { OnErr result (error.new ≡ error.old) }
{
    if !goes_on(asked.setting.keep_going, fault.refusal) {
        return Err(fault);
    }
    let lines = label_lines(alloc, &fault, None, asked, false)?;
    print_text(error, &lines);
    Ok(earlier(first, fault))
}

/// Draws each line of a text as a label with a strike, as `draw_labels` does, with the lines about the font of its face.
fn draw_labels_by<R: Source, P: Pictures, E: Sink>(
    alloc: Global,
    strike: &mut Strike,
    notes: &str,
    lines: &mut R,
    out: &mut P,
    error: &mut E,
    asked: &Label,
) -> Result<Option<TextsFault>, TextsFault>
    requires lines { R.has_failed lines.old ≡ false }
    requires out { P.has_failed out.old ≡ false }
    requires error { E.has_failed error.old ≡ false }
    requires notes { notes.now ≡ label_notes asked.now strike.old.face.directory.file }
    ensures outcome { LabelsGive (places P.shown) asked.now strike.old result (traffic_of R.left R.has_failed P.written P.has_failed lines.old lines.new out.old out.new) (errors_of E.written E.has_failed error.old error.new) }
    ensures defects { ClaimsIfSized asked.now.space (LinesTell (IsDefectBy composed_glyphs asked.now.setting strike.old) (R.left lines.old) result) }
{
    let mut reader = LineReader::new(alloc)?;
    let mut used = 0;
    let mut first = None;
    for before in 0..u32::MAX {
        let number = before + 1;
        let place = match next_line(&mut reader, lines, before, used, asked.setting.keep_going) {
            Ok(Found::Line(place)) => place,
            Ok(Found::End) => return Ok(first),
            Ok(Found::Refused(why)) => {
                let fault = texts_fault(Some(number), Refusal::Job(why));
                first = pass(alloc, asked, fault, first, error)?;
                continue;
            }
            Err(why) => return Err(texts_fault(Some(number), why)),
        };
        let line = reader.line(place);
        let ready = match draw_line(alloc, strike, notes, asked, number, line) {
            Ok(ready) => ready,
            Err(refused) => {
                let cost = refused_cost(refused.refusal);
                let fault = texts_fault(Some(number), refused.refusal);
                first = pass(alloc, asked, fault, first, error)?;
                used += cost;
                continue;
            }
        };
        used += u128::from(ready.formed.picture().cost());
        send(out, error, number, ready)?;
    }
    Err(TextsFault {
        line: None,
        refusal: Refusal::Many,
    })
}

/// Draws each line of a text as a label by a font file. Errors: those of `draw_labels` behind the reading of the font.
#[tactic(auto, unfolding(tt_render_settings::specs::Settings::strike_of))]
fn draw_labels_of<R: Source, P: Pictures, E: Sink>(
    alloc: Global,
    file: &[u8],
    lines: &mut R,
    out: &mut P,
    error: &mut E,
    asked: &Label,
) -> Result<Option<TextsFault>, TextsFault>
    requires lines { R.has_failed lines.old ≡ false }
    requires out { P.has_failed out.old ≡ false }
    requires error { E.has_failed error.old ≡ false }
    requires size { length file.now ≤ font_limit }
    requires tested { setting_tested asked.now.setting ≡ Ok tt }
    ensures outcome { FileLabelsGive (places P.shown) asked.now file.now result (traffic_of R.left R.has_failed P.written P.has_failed lines.old lines.new out.old out.new) (errors_of E.written E.has_failed error.old error.new) }
    ensures defects { ClaimsIfSized asked.now.space (LinesTellDefects composed_glyphs asked.now.setting (R.left lines.old) result file.now) }
{
    let face = Face::read_at(file, asked.setting.opening, asked.setting.instance)?;
    let setting = asked.setting;
    let mut strike = Strike::new(alloc, &face, setting.ppem, setting.fit, setting.most)?;
    let notes = notes_of(alloc, file, asked)?;
    draw_labels_by(alloc, &mut strike, &notes, lines, out, error, asked)
}

/// Draws each line of a text as a label of its own, in order, and puts its picture into its place as soon as it is made.
/// Nothing of a refused line is written, and later lines are not drawn. With `keep_going` they are, if the line alone is
/// refused: both lines of standard error about that line are printed, and the answer has the first such fault. Between lines at most the setting's `most` bytes of glyphs are
/// cached. After a line's picture its report is printed on `error`;
/// behind the first one come the lines about the font. A failure of `error` does not stop the drawing. With `Fit::Best`
/// the lines share the budget of `draw_lines`.
///
/// Errors, the first of: Job (SizeRange, MarginRange) and Space (WidthRange, BoxRange), before the font is read; FontRead, FontLarge;
/// Font, of the tables needed for every text and of the instance; then, line by line, with the line's number, from 1: Read; Job (TextLong, of more than
/// 16,384 bytes; WorkLarge, where the lines before it took more than their budget); NotUtf8; Font and Job of `label`;
/// Space (BoxSmall); Missing; Create, where no place is made for its picture; and Write. Many comes after 4,294,967,295 lines, and after
/// 2^64 - 1 reads of one line. Memory may come at any allocation. A fault of the font has the hint about the font's file.
pub fn draw_labels<F: Source, R: Source, P: Pictures, E: Sink>(
    alloc: Global,
    font: &mut F,
    lines: &mut R,
    out: &mut P,
    error: &mut E,
    asked: &Label,
) -> LabelsDrawn
    requires font { F.has_failed font.old ≡ false }
    requires lines { R.has_failed lines.old ≡ false }
    requires out { P.has_failed out.old ≡ false }
    requires error { E.has_failed error.old ≡ false }
    ensures outcome { FontLabelsGive (places P.shown) asked.now result.answer (font_reader_of F.left F.has_failed font.old font.new) (traffic_of R.left R.has_failed P.written P.has_failed lines.old lines.new out.old out.new) (errors_of E.written E.has_failed error.old error.new) }
    // A font's fault in an answer is a defect of the font: of the tables needed for every text, of the instance, or of
    // the data that the numbered line is drawn from.
    ensures defects { ClaimsIfSized asked.now.space (LinesTellDefectsOf composed_glyphs (F.left font.old) asked.now.setting (R.left lines.old) result.answer) }
    ensures hint { IfSome (F.left font.old) (HintsBy asked.now result) }
{
    if let Some(why) = refused_space(asked) {
        return unhinted(Refusal::Space(why));
    }
    if let Err(fault) = test_setting(&asked.setting) {
        return unhinted(Refusal::Job(fault));
    }
    let file = match read_font(alloc, font) {
        Ok(file) => file,
        Err(fault) => return unhinted(refusal_of_run(fault)),
    };
    match draw_labels_of(alloc, &file, lines, out, error, asked) {
        Ok(first) => done(first),
        Err(fault) => hinted(fault, &file, asked),
    }
}
