//! The boxes of glyphs' black pixels, before a pen is known.

ghost use Rattle.std.specs.Prelude.{◌≡◌, All, IfOk, IfSome};
ghost use Rattle.tt_bitmap.specs.Inks.{IsNear};
ghost use Rattle.tt_picture.specs.Glyphs.{inks_of};

use crate::glyph::Glyph;
use std::alloc::{AllocError, Global};
use tt_bitmap::LeastBox;

/// The boxes of some glyphs' black pixels at pen 0. Error: Memory.
pub fn glyph_inks(alloc: Global, glyphs: &[Glyph]) -> Result<Vec<Option<LeastBox>>, AllocError>
    ensures exact { IfOk result (λ v. v.items ≡ inks_of glyphs.now) }
    ensures near { IfOk result (λ v. All (λ ink. IfSome ink IsNear) v.items) }
{
    let mut inks = Vec::with_capacity(alloc, glyphs.len())?;
    for glyph in glyphs {
        inks.push(glyph.ink(alloc)?)?;
    }
    Ok(inks)
}
