//! The characters of a label's text that the font lacks.

ghost use Rattle.std.specs.Prelude.{◌≡◌, IfOk, OnOk};
ghost use Rattle.tt_cmap.specs.Lacking.{distinct_after, with_character};
ghost use Rattle.tt_core.specs.Outcomes.{GivesUnless, IfTold};
ghost use Rattle.tt_render.specs.Labels.{lines_lacking};
ghost use Rattle.tt_line.specs.Labels.{label_lines};
ghost use Rattle.tt_render_settings.specs.Texts.{missing_among};
ghost use Rattle.tt_render_settings.specs.TextsOutcome.{IsOfText, refusal_font_fault, told, without_line};

use std::alloc::{AllocError, Global};
use tt_line::unmarked;
use tt_render_settings::{Missing, none_missing};
use tt_render_texts::TextsFault;
use tt_strike::Strike;

/// Lists a character, unless the character is listed already. Error: memory ran out.
fn list(listed: &mut Vec<char>, c: char) -> Result<(), AllocError>
    ensures { OnOk result (listed.new.items ≡ with_character listed.old.items c) }
{
    if !listed.contains(&c) {
        listed.push(c)?;
    }
    Ok(())
}

/// Lists those characters that are not listed yet. Error: memory ran out.
fn list_all(listed: &mut Vec<char>, more: &[char]) -> Result<(), AllocError>
    ensures { OnOk result (listed.new.items ≡ distinct_after listed.old.items more.now) }
{
    for c in more {
        list(listed, *c)?;
    }
    Ok(())
}

/// The distinct characters of a label's lines without a glyph, in order of first appearance. Error: memory ran out.
pub fn lines_lacking(
    alloc: Global,
    strike: &mut Strike,
    text: &str,
) -> Result<Vec<char>, AllocError>
    ensures exact { IfOk result (λ v. v.items ≡ lines_lacking strike.old.face.cmap (label_lines text.now)) }
    ensures same { strike.new ≡ strike.old }
{
    let mut listed = Vec::new(alloc);
    // An empty line, which stands in place of none, lacks no glyph.
    for line in unmarked(text).lines() {
        let lacking = strike.lacking(line)?;
        list_all(&mut listed, &lacking)?;
    }
    Ok(listed)
}

/// The characters of a label's text without a glyph that are reported. Error: Missing, the first, where they are
/// refused. The caller knows the line.
pub(crate) fn missing_in(
    alloc: Global,
    strike: &mut Strike,
    how: Missing,
    text: &str,
) -> Result<Vec<char>, TextsFault>
    ensures exact { GivesUnless told (λ v. v.items) (without_line result) (missing_among how (lines_lacking strike.old.face.cmap (label_lines text.now))) }
    ensures font { IfTold refusal_font_fault (without_line result) (λ _. ⊥) }
    ensures serves { IsOfText (without_line result) }
    ensures same { strike.new ≡ strike.old }
{
    match how {
        Missing::Draw => Ok(Vec::new(alloc)),
        Missing::Tell => Ok(lines_lacking(alloc, strike, text)?),
        Missing::Refuse => none_missing(lines_lacking(alloc, strike, text)?),
    }
}
