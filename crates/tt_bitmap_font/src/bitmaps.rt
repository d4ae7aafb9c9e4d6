//! The characters of a file and their bitmaps.

ghost use Rattle.std.specs.Prelude.{◌≡◌, ◌≤◌, All, length, IfOk, OnOk};
ghost use Rattle.tt_bdf.specs.Ranges.{IsCodeRange};
ghost use Rattle.tt_bitmap_font.specs.Bitmaps.{has_large, is_too_large, rows_limit, size_of_rows_tested};
ghost use Rattle.tt_bitmap_font.specs.FontFiles.{IsGlyphsDefect, file_bitmaps};
ghost use Rattle.tt_core.specs.Limits.{text_limit};
ghost use Rattle.tt_core.specs.Outcomes.{Gives, GivesUnless, draw_font_fault};
ghost use Rattle.tt_glyphs.specs.Defects.{EntryFits};
ghost use Rattle.tt_strike.specs.Defects.{TellsDefects};
ghost use Rattle.tt_strike.specs.Refusals.{refusal};

use crate::characters::{all_ranges, glyphs_for};
use crate::font_file::FontFile;
use std::alloc::Global;
use tt_bdf::file_characters;
use tt_core::{DrawFault, JobFault};
use tt_face::Face;
use tt_glyphs::{BitmapList, GlyphEntry, Told};

/// The most bytes of all rows.
const ROWS_LIMIT: u64 = 67_108_864;

fn is_too_large(told: Told) -> bool
    ensures { result ≡ is_too_large told }
{
    match told {
        Told::Large => true,
        Told::Unknown | Told::Broken(_) | Told::Made(_) => false,
    }
}

/// Whether the ink of a glyph is too large.
fn has_large(entries: &[GlyphEntry]) -> bool
    ensures { result ≡ has_large entries.now }
{
    for entry in entries {
        if is_too_large(entry.told) {
            return true;
        }
    }
    false
}

/// Tests the bitmaps of a file. Error: PictureLarge.
#[tactic(auto, unfolding(crate::specs::Bitmaps::size_of_rows_tested))]
fn test_size(list: &BitmapList) -> Result<(), JobFault>
    ensures exact { Gives (λ u. u) result (size_of_rows_tested list.now) }
    ensures small { OnOk result (list.now.wanted ≤ rows_limit) }
{
    if has_large(list.entries()) || list.wanted() > ROWS_LIMIT {
        return Err(JobFault::PictureLarge);
    }
    Ok(())
}

/// The characters of a file and their bitmaps. Errors, the first of: TextLong and EmptyPicture, of the characters;
/// those of `BitmapList::make_sound`; PictureLarge. Memory may come at any allocation.
#[tactic(auto, unfolding(crate::specs::FontFiles::file_bitmaps))]
pub(crate) fn file_bitmaps(
    alloc: Global,
    face: &Face,
    asked: &FontFile,
) -> Result<(Vec<char>, BitmapList), DrawFault>
    requires { All IsCodeRange asked.now.ranges.now }
    ensures exact { GivesUnless refusal (λ p. (p.0.items, p.1)) result (file_bitmaps asked.now face.now) }
    ensures defects { TellsDefects draw_font_fault (IsGlyphsDefect asked.now face.now) result }
    ensures some { IfOk result (λ p. 1 ≤ length p.0.items) }
    ensures few { IfOk result (λ p. length p.0.items ≤ text_limit) }
    ensures count { IfOk result (λ p. length p.1.entries ≡ length p.0.items) }
    ensures fits { IfOk result (λ p. All (EntryFits p.1.wanted) p.1.entries) }
    ensures small { IfOk result (λ p. p.1.wanted ≤ rows_limit) }
{
    let ranges = all_ranges(alloc, asked)?;
    let characters = file_characters(alloc, face.cmap(), &ranges)?;
    let glyphs = glyphs_for(alloc, face.cmap(), &characters)?;
    let list = BitmapList::make_sound(alloc, face, &glyphs, asked.size, asked.fit)?;
    test_size(&list)?;
    Ok((characters, list))
}
