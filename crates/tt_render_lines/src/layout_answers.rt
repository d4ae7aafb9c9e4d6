//! The answer of a text without its ink: its lines and its report.

ghost use Rattle.std.specs.Prelude.{◌≡◌, IfOk};
ghost use Rattle.tt_core.specs.Outcomes.{GivesUnless, IfTold};
ghost use Rattle.tt_render_lines.specs.LayoutTexts.{IsLaidDefect, TellsLayout, layout_answer, layout_view};
ghost use Rattle.tt_render_settings.specs.Settings.{strike_in};
ghost use Rattle.tt_render_settings.specs.Texts.{missing_tested};
ghost use Rattle.tt_render_settings.specs.TextsOutcome.{IsOfText, refusal_font_fault, told, without_line};
ghost use Rattle.tt_strike.specs.Defects.{TellsDefects};
ghost use Rattle.tt_strike.specs.Strikes.{job_of};

use crate::layout_texts::layout_text;
use std::alloc::Global;
use tt_cmap::{CharacterMap, lacking};
use tt_render_settings::{Missing, Setting, none_missing};
use tt_render_texts::{Messages, TextsFault};
use tt_strike::SizedFace;

/// The lines of a text, ready to be written; the reported characters without a glyph; and the report as it is printed.
#[derive(Drop)]
pub(crate) struct ReadyLayout {
    pub(crate) lines: Vec<u8>,
    pub(crate) lacking: Vec<char>,
    pub(crate) report: String,
}

/// The characters of a text without a glyph that are reported. Error: Missing, the first, where they are refused.
#[tactic(auto, unfolding(tt_render_settings::specs::Texts::missing_tested))]
fn missing_of(
    alloc: Global,
    cmap: &CharacterMap,
    how: Missing,
    text: &str,
) -> Result<Vec<char>, TextsFault>
    ensures exact { GivesUnless told (λ v. v.items) (without_line result) (missing_tested cmap.now how text.now) }
    ensures font { IfTold refusal_font_fault (without_line result) (λ _. ⊥) }
    ensures serves { IsOfText (without_line result) }
{
    match how {
        Missing::Draw => Ok(Vec::new(alloc)),
        Missing::Tell => Ok(lacking(alloc, cmap, text)?),
        Missing::Refuse => none_missing(lacking(alloc, cmap, text)?),
    }
}

/// The answer of a text by a face at a size, which is of this file. Errors, the first of: those of `SizedFace::pens`;
/// Missing.
#[tactic(auto, unfolding(crate::specs::LayoutTexts::layout_answer, crate::specs::LayoutTexts::laid_text))]
pub(crate) fn answer_layout(
    alloc: Global,
    sized: &mut SizedFace,
    file: &[u8],
    setting: &Setting,
    text: &str,
) -> Result<ReadyLayout, TextsFault>
    requires file { file.now ≡ sized.old.face.directory.file }
    ensures exact { GivesUnless told layout_view (without_line result) (layout_answer setting.now (strike_in setting.now sized.old) text.now) }
    ensures report { IfOk result TellsLayout }
    ensures serves { IsOfText (without_line result) }
    ensures defects { TellsDefects refusal_font_fault (IsLaidDefect sized.old.face (job_of (strike_in setting.now sized.old) text.now setting.now.margin)) (without_line result) }
{
    let face = sized.face();
    let placed = sized.pens(text, setting.margin)?;
    let lines = layout_text(
        alloc,
        setting.opening.reading,
        file,
        face,
        &placed.layout,
        &placed.pens,
    )?;
    let lacking = missing_of(alloc, face.cmap(), setting.missing, text)?;
    let report = Messages {
        alloc,
        number: None,
    }
    .report(&[], &lacking)?;
    Ok(ReadyLayout {
        lines,
        lacking,
        report,
    })
}
