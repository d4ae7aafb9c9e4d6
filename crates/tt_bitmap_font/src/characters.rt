//! The ranges of a request, and the glyphs of a file's characters.

ghost use Rattle.std.specs.Prelude.{◌≡◌, ◌<◌, All, IfOk};
ghost use Rattle.tt_bdf.specs.Ranges.{IsCodeRange};
ghost use Rattle.tt_bitmap_font.specs.Characters.{asked_ranges, glyph_for, glyphs_for};
ghost use Rattle.tt_cmap.specs.Maps.{glyph_count};

use crate::font_file::FontFile;
use std::alloc::{AllocError, Global};
use tt_bdf::{CodeRange, push_text};
use tt_cmap::{CharacterMap, TextUnit};

/// The ranges of a request, and then each character of the text as a range. Error: memory ran out.
pub(crate) fn all_ranges(alloc: Global, asked: &FontFile) -> Result<Vec<CodeRange>, AllocError>
    requires { All IsCodeRange asked.now.ranges.now }
    ensures exact { IfOk result (λ rs. rs.items ≡ asked_ranges asked.now.ranges.now asked.now.text.now) }
    ensures codes { IfOk result (λ rs. All IsCodeRange rs.items) }
{
    let mut ranges = Vec::new(alloc);
    ranges.extend_from_slice(asked.ranges)?;
    push_text(&mut ranges, asked.text)?;
    Ok(ranges)
}

/// The glyph of a character.
pub(crate) fn glyph_for(cmap: &CharacterMap, c: char) -> u16
    ensures exact { result ≡ glyph_for cmap.now c }
    ensures known { result < glyph_count cmap.now }
{
    let unit = TextUnit {
        character: c,
        selector: None,
    };
    cmap.glyph_of_unit(unit)
}

/// The glyphs of some characters. Error: memory ran out.
pub(crate) fn glyphs_for(
    alloc: Global,
    cmap: &CharacterMap,
    characters: &[char],
) -> Result<Vec<u32>, AllocError>
    ensures exact { IfOk result (λ v. v.items ≡ glyphs_for cmap.now characters.now) }
    ensures known { IfOk result (λ v. All (λ g. g < glyph_count cmap.now) v.items) }
{
    let mut glyphs = Vec::new(alloc);
    for c in characters {
        glyphs.push(u32::from(glyph_for(cmap, *c)))?;
    }
    Ok(glyphs)
}
