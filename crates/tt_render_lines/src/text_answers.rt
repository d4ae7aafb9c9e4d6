//! The answer of a text: its output and its report.

ghost use Rattle.std.specs.Prelude.{◌≡◌, IfOk};
ghost use Rattle.tt_core.specs.Outcomes.{GivesUnless, IfTold};
ghost use Rattle.tt_line.specs.Layout.{text_glyphs};
ghost use Rattle.tt_render_lines.specs.Outputs.{CanGoOut};
ghost use Rattle.tt_render_settings.specs.Texts.{missing_tested, text_answer};
ghost use Rattle.tt_render_settings.specs.TextsOutcome.{IsOfText, refusal_font_fault, told, without_line};
ghost use Rattle.tt_render_lines.specs.Outputs.{TellsOf, answer_view};
ghost use Rattle.tt_strike.specs.Defects.{IsLineDefect, TellsDefects};
ghost use Rattle.tt_strike.specs.Strikes.{job_of};

use crate::products::{Output, make_output};
use std::alloc::Global;
use tt_render_settings::{Missing, Setting, none_missing};
use tt_render_texts::{Messages, TextsFault};
use tt_strike::Strike;

/// The output of a text, ready to be written; the reported characters without a glyph; and the report as it is printed.
#[derive(Drop)]
pub(crate) struct ReadyText {
    pub(crate) output: Output,
    pub(crate) lacking: Vec<char>,
    pub(crate) report: String,
}

/// The characters of a text without a glyph that are reported. Error: Missing, the first, where they are refused. The
/// caller knows the line.
#[tactic(auto, unfolding(tt_render_settings::specs::Texts::missing_tested))]
fn missing_of(
    alloc: Global,
    strike: &mut Strike,
    how: Missing,
    text: &str,
) -> Result<Vec<char>, TextsFault>
    ensures exact { GivesUnless told (λ v. v.items) (without_line result) (missing_tested strike.old.face.cmap how text.now) }
    ensures font { IfTold refusal_font_fault (without_line result) (λ _. ⊥) }
    ensures serves { IsOfText (without_line result) }
    ensures same { strike.new ≡ strike.old }
{
    match how {
        Missing::Draw => Ok(Vec::new(alloc)),
        Missing::Tell => Ok(strike.lacking(text)?),
        Missing::Refuse => none_missing(strike.lacking(text)?),
    }
}

/// The answer of a text by a strike whose face is of this file; `number` is that of a line. Errors, the first of: those
/// of `make_output`; Missing. The caller puts the line into an error.
#[tactic(auto, unfolding(tt_render_settings::specs::Texts::text_answer))]
pub(crate) fn answer_text(
    alloc: Global,
    strike: &mut Strike,
    file: &[u8],
    setting: &Setting,
    number: Option<u32>,
    text: &str,
) -> Result<ReadyText, TextsFault>
    requires file { file.now ≡ strike.old.face.directory.file }
    ensures exact { GivesUnless told answer_view (without_line result) (text_answer setting.now strike.old text.now) }
    ensures valid { IfOk result (λ r. CanGoOut r.output) }
    ensures report { IfOk result (TellsOf number) }
    ensures serves { IsOfText (without_line result) }
    ensures defects { TellsDefects refusal_font_fault (IsLineDefect strike.old.face (job_of strike.old text.now setting.now.margin) (text_glyphs strike.old.face.cmap text.now)) (without_line result) }
    ensures same { strike.new ≡ record strike.old { kept = strike.new.kept } }
{
    let output = make_output(alloc, strike, file, setting, text)?;
    let lacking = missing_of(alloc, strike, setting.missing, text)?;
    let report = Messages { alloc, number }.report(output.unfitted(), &lacking)?;
    Ok(ReadyText {
        output,
        lacking,
        report,
    })
}
