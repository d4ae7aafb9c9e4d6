//! Glyph numbers, for subtables of all formats.

ghost use Rattle.std.specs.Prelude.{◌≡◌, ◌<◌};
ghost use Rattle.tt_cmap.specs.Glyphs.{or_missing};

/// The glyph number, if the font has the glyph; else 0, the missing glyph (profile). A font has `glyphs` glyphs.
pub(crate) fn or_missing(glyphs: u16, g: usize) -> u16
    requires { 0 < glyphs }
    ensures exact { result ≡ or_missing glyphs g }
    ensures bound { result < glyphs }
{
    if g < usize::from(glyphs) { g as u16 } else { 0 }
}
