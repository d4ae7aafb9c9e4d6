//! The numbers of a list that are glyphs of the font.

ghost use Rattle.std.specs.Prelude.{◌≡◌, ◌<◌, ◌≤◌, length, map, All, IfOk};
ghost use Rattle.tt_glyphs.specs.Listed.{known_number, known_of};

use std::alloc::{AllocError, Global};

/// The number of a glyph among the first `count`; None where the number is not below the count.
fn known_number(count: u16, glyph: u32) -> Option<u16>
    ensures { result ≡ known_number count glyph }
{
    if glyph < u32::from(count) {
        Some(glyph as u16)
    } else {
        None
    }
}

/// The numbers of a list that are below the count of the font's glyphs, as a line whose glyphs all stand at pen 0. Error:
/// memory ran out.
pub(crate) fn known_line(
    alloc: Global,
    count: u16,
    glyphs: &[u32],
) -> Result<Vec<(u16, u32)>, AllocError>
    ensures numbers { IfOk result (λ line. map (λ g. g.0) line.items ≡ known_of count glyphs.now) }
    ensures known { IfOk result (λ line. All (λ g. g.0 < count) line.items) }
    ensures few { IfOk result (λ line. length line.items ≤ length glyphs.now) }
{
    let mut line = Vec::new(alloc);
    for glyph in glyphs {
        if let Some(number) = known_number(count, *glyph) {
            line.push((number, 0))?;
        }
    }
    Ok(line)
}
