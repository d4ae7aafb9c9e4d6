//! The file of a font by its face, ready to be written, and its report.

ghost use Rattle.std.specs.Prelude.{◌≡◌, ◌≤◌, All, length, string_bytes, IfOk};
ghost use Rattle.tt_bdf.specs.Ranges.{IsCodeRange};
ghost use Rattle.tt_bitmap_font.specs.FontFiles.{IsGlyphsDefect, TellsFile, bdf_outcome, file_notes, file_view};
ghost use Rattle.tt_core.specs.Limits.{font_limit, size_limit};
ghost use Rattle.tt_core.specs.Outcomes.{GivesUnless};
ghost use Rattle.tt_render_settings.specs.TextsOutcome.{IsOfText, refusal_font_fault, told, without_line};
ghost use Rattle.tt_strike.specs.Defects.{TellsDefects};

use crate::bitmaps::file_bitmaps;
use crate::font_file::FontFile;
use crate::lacking::text_lacking;
use crate::made::{MadeFile, make_file};
use crate::report::file_report;
use std::alloc::{AllocError, Global};
use tt_advice::font_notes;
use tt_face::Face;
use tt_fit::Fit;
use tt_render_texts::TextsFault;
use tt_strike::Unfitted;

/// A file, ready to be written: its text, its unfitted glyphs, the characters of the text that the font lacks, the
/// lines about the font, and the report as it is printed.
#[derive(Drop)]
pub(crate) struct ReadyFile {
    pub(crate) file: Vec<u8>,
    pub(crate) unfitted: Vec<Unfitted>,
    pub(crate) lacking: Vec<char>,
    pub(crate) fit: Fit,
    pub(crate) notes: String,
    pub(crate) report: String,
}

/// The lines about a file's font, by the font's file. Error: memory ran out.
fn notes_of(alloc: Global, file: &[u8], asked: &FontFile) -> Result<String, AllocError>
    requires { length file.now ≤ font_limit }
    ensures { IfOk result (λ text. string_bytes text ≡ file_notes asked.now file.now) }
{
    let instance = asked.instance.is_some();
    font_notes(
        alloc,
        asked.path,
        file,
        asked.face,
        asked.face_given,
        instance,
    )
}

/// The file of a font by a face of this font file. Errors: those of `file_bitmaps`. No error has a line.
#[tactic(auto, unfolding(crate::specs::FontFiles::bdf_outcome))]
pub(crate) fn answer_file(
    alloc: Global,
    face: &Face,
    file: &[u8],
    asked: &FontFile,
) -> Result<ReadyFile, TextsFault>
    requires font { length file.now ≤ font_limit }
    requires file { file.now ≡ face.now.directory.file }
    requires ranges { All IsCodeRange asked.now.ranges.now }
    requires size { asked.now.size ≤ size_limit }
    ensures exact { GivesUnless told file_view (without_line result) (bdf_outcome asked.now face.now) }
    ensures report { IfOk result TellsFile }
    ensures serves { IsOfText (without_line result) }
    ensures defects { TellsDefects refusal_font_fault (IsGlyphsDefect asked.now face.now) (without_line result) }
{
    let bitmaps = file_bitmaps(alloc, face, asked)?;
    let (characters, list) = bitmaps;
    let made = make_file(alloc, face, asked.size, &characters, list)?;
    let MadeFile { text, unfitted } = made;
    let lacking = text_lacking(alloc, face.cmap(), asked.text)?;
    let notes = notes_of(alloc, file, asked)?;
    let report = file_report(alloc, asked.fit, unfitted.len(), &lacking, &notes)?;
    Ok(ReadyFile {
        file: text,
        unfitted,
        lacking,
        fit: asked.fit,
        notes,
        report,
    })
}
