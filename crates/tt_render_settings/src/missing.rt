//! Refuses a text for a character without a glyph.

ghost use Rattle.tt_core.specs.Outcomes.{GivesUnless, IfTold};
ghost use Rattle.tt_render_settings.specs.Texts.{none_missing};
ghost use Rattle.tt_render_settings.specs.TextsOutcome.{IsOfText, refusal_font_fault, told, without_line};

use tt_render_texts::{Refusal, TextsFault, texts_fault};

/// The characters without a glyph, where there is none. Error: Missing, the first. The caller knows the line.
pub fn none_missing(lacking: Vec<char>) -> Result<Vec<char>, TextsFault>
    ensures exact { GivesUnless told (λ v. v.items) (without_line result) (none_missing lacking.items) }
    ensures font { IfTold refusal_font_fault (without_line result) (λ _. ⊥) }
    ensures serves { IsOfText (without_line result) }
{
    match lacking.first() {
        Some(c) => Err(texts_fault(None, Refusal::Missing(*c))),
        None => Ok(lacking),
    }
}
