//! What is reported of a file that was written.

ghost use Rattle.std.specs.Prelude.{◌≡◌, string_bytes, IfOk, None};
ghost use Rattle.tt_bitmap_font.specs.FontFiles.{told_by};
ghost use Rattle.tt_render_texts.specs.Reports.{label_report_of};

use std::alloc::{AllocError, Global};
use tt_fit::Fit;
use tt_render_texts::Messages;

/// The report of a file. A line, with its line feed: for its unfitted glyphs; for each character of the text that the
/// font lacks. Behind them come the lines about the font. Error: memory ran out.
#[tactic(auto, unfolding(tt_render_texts::specs::Reports::label_report_of))]
pub(crate) fn file_report(
    alloc: Global,
    fit: Fit,
    unfitted: usize,
    lacking: &[char],
    notes: &str,
) -> Result<String, AllocError>
    ensures { IfOk result (λ text. string_bytes text ≡ label_report_of None (told_by fit notes.now) unfitted lacking.now) }
{
    let about = Messages {
        alloc,
        number: None,
    };
    let mut text = String::new(alloc);
    about.push_count(&mut text, fit, unfitted)?;
    about.push_lacking(&mut text, lacking)?;
    text.push_str(notes)?;
    Ok(text)
}
