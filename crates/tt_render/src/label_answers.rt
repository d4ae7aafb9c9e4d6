//! The answer of a text that is drawn as a label: its picture, and its report.

ghost use Rattle.std.specs.Prelude.{◌≡◌, ◌≤◌, length, string_bytes, IfOk};
ghost use Rattle.tt_core.specs.Limits.{font_limit};
ghost use Rattle.tt_core.specs.Outcomes.{GivesUnless};
ghost use Rattle.tt_render.specs.Labels.{CanGoOut, TellsLabel, composed_answer, composed_glyphs, face_number, label_answer, label_notes, label_view};
ghost use Rattle.tt_render.specs.LabelSpaces.{ClaimsIfSized};
ghost use Rattle.tt_render_settings.specs.LinesDefects.{IsDefectBy};
ghost use Rattle.tt_label.specs.Label.{label_glyphs};
ghost use Rattle.tt_render_settings.specs.TextsOutcome.{IsOfText, refusal_font_fault, told, without_line};
ghost use Rattle.tt_strike.specs.Defects.{TellsDefects};

use crate::label_spaces::{CutLabel, label_picture};
use crate::label_texts::missing_in;
use crate::signs::signs_of;
use std::alloc::{AllocError, Global};
use tt_advice::font_notes;
use tt_core::Reading;
use tt_render_settings::Label;
use tt_render_streams::{Formed, form};
use tt_render_texts::{LabelTold, Messages, TextsFault};
use tt_rows::composed;
use tt_strike::{Strike, test_job};

/// A label, ready to be written: its picture, whole in memory, the reported characters without a glyph,
/// what else is reported, and the report as it is printed.
#[derive(Drop)]
pub(crate) struct ReadyLabel<'n> {
    pub(crate) formed: Formed,
    pub(crate) lacking: Vec<char>,
    pub(crate) told: LabelTold<'n>,
    pub(crate) report: String,
}

/// The number of the face that a reading gives.
pub(crate) fn face_number(reading: Reading) -> u32
    ensures { result ≡ face_number reading }
{
    match reading {
        Reading::Strict => 0,
        Reading::Wide { face } => face,
    }
}

/// The lines about a label's font, by the font's file, which are the same for all labels of a call. Error: memory ran
/// out.
pub(crate) fn notes_of(alloc: Global, file: &[u8], asked: &Label) -> Result<String, AllocError>
    requires { length file.now ≤ font_limit }
    ensures { IfOk result (λ text. string_bytes text ≡ label_notes asked.now file.now) }
{
    let face = face_number(asked.setting.opening.reading);
    let instance = asked.setting.instance.is_some();
    font_notes(alloc, asked.path, file, face, asked.face_given, instance)
}

/// The answer of a text whose letters are composed. Errors, the first of: those of `label_picture`; Missing.
#[tactic(auto, unfolding(crate::specs::Labels::composed_answer))]
fn answer_composed<'n>(
    alloc: Global,
    strike: &mut Strike,
    notes: &'n str,
    asked: &Label,
    number: Option<u32>,
    text: &str,
) -> Result<ReadyLabel<'n>, TextsFault>
    requires notes { notes.now ≡ label_notes asked.now strike.old.face.directory.file }
    ensures exact { GivesUnless told label_view (without_line result) (composed_answer asked.now strike.old text.now) }
    ensures valid { IfOk result CanGoOut }
    ensures report { IfOk result (TellsLabel number) }
    ensures serves { IsOfText (without_line result) }
    ensures defects { ClaimsIfSized asked.now.space (TellsDefects refusal_font_fault (IsDefectBy label_glyphs asked.now.setting strike.old text.now) (without_line result)) }
    ensures same { strike.new ≡ record strike.old { kept = strike.new.kept } }
{
    let drawn = label_picture(strike, asked, text)?;
    let CutLabel { picture, cut } = drawn;
    let formed = form(alloc, picture, asked.format)?;
    let lacking = missing_in(alloc, strike, asked.setting.missing, text)?;
    let told = LabelTold {
        fit: asked.setting.fit,
        cut,
        signs: signs_of(text),
        font: notes,
    };
    let about = Messages { alloc, number };
    let report = about.label_report(&told, formed.picture().unfitted().len(), &lacking)?;
    Ok(ReadyLabel {
        formed,
        lacking,
        told,
        report,
    })
}

/// The answer of a text as a label by a strike, with the lines about the font of its face; `number` is that of a line. Two
/// characters beside each other that are the composition of one that the font has are drawn, and reported, as that one.
/// Errors, the first of: Job of the size, the margin and the characters before they are composed; those of
/// `label_picture`; Missing. The caller puts the line into an error.
#[tactic(auto, unfolding(crate::specs::Labels::label_answer, crate::specs::Labels::composed_text))]
pub(crate) fn answer_label<'n>(
    alloc: Global,
    strike: &mut Strike,
    notes: &'n str,
    asked: &Label,
    number: Option<u32>,
    text: &str,
) -> Result<ReadyLabel<'n>, TextsFault>
    requires notes { notes.now ≡ label_notes asked.now strike.old.face.directory.file }
    ensures exact { GivesUnless told label_view (without_line result) (label_answer asked.now strike.old text.now) }
    ensures valid { IfOk result CanGoOut }
    ensures report { IfOk result (TellsLabel number) }
    ensures serves { IsOfText (without_line result) }
    ensures defects { ClaimsIfSized asked.now.space (TellsDefects refusal_font_fault (IsDefectBy composed_glyphs asked.now.setting strike.old text.now) (without_line result)) }
    ensures same { strike.new ≡ record strike.old { kept = strike.new.kept } }
{
    test_job(&asked.setting.job(text))?;
    let text = composed(alloc, strike.face().cmap(), text)?;
    answer_composed(alloc, strike, notes, asked, number, &text)
}
