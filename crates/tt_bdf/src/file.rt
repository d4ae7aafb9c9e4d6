//! A font at a size as a file.

ghost use Rattle.std.specs.Prelude.{◌≡◌, ◌+◌, ◌≤◌, All, length, IfOk};
ghost use Rattle.tt_bdf.specs.Bitmap.{bitmap_bytes};
ghost use Rattle.tt_bdf.specs.Extent.{IsLimited};
ghost use Rattle.tt_bdf.specs.Facts.{facts_of};
ghost use Rattle.tt_bdf.specs.File.{bdf_text};
ghost use Rattle.tt_core.specs.Limits.{size_limit, text_limit};

use crate::bitmap::push_character;
use crate::character::BdfCharacter;
use crate::font::BdfFont;
use crate::head::head_text;
use std::alloc::{AllocError, Global};

/// The text of a font at a size, with its characters in their order. `rows` has the rows of all bitmaps. Error: memory
/// ran out.
#[tactic(auto, unfolding(crate::specs::File::bdf_text))]
pub fn bdf_file(
    alloc: Global,
    font: &BdfFont,
    characters: &[BdfCharacter],
    rows: &[u8],
) -> Result<Vec<u8>, AllocError>
    requires size { font.now.size ≤ size_limit }
    requires units { 16 ≤ font.now.em }
    requires some { 1 ≤ length characters.now }
    requires few { length characters.now ≤ text_limit }
    requires limits { All IsLimited characters.now }
    requires within { All (λ c. c.at + bitmap_bytes c ≤ length rows.now) characters.now }
    ensures { IfOk result (λ text. text.items ≡ bdf_text (facts_of font.now) characters.now rows.now) }
{
    let mut text = Vec::new(alloc);
    let head = head_text(alloc, font, characters)?;
    text.extend_from_slice(head.as_bytes())?;
    for c in characters {
        push_character(alloc, &mut text, font.em, rows, *c)?;
    }
    text.extend_from_slice(b"ENDFONT\n")?;
    Ok(text)
}
