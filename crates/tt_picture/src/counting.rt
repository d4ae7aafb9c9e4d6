//! Counts the crossings of glyphs at their pens.

ghost use Rattle.std.specs.Prelude.{◌≡◌, ℕ, ◌-◌, ◌^◌, min, List, Ok};
ghost use Rattle.tt_core.specs.Outcomes.{each};
ghost use Rattle.tt_fit.specs.Fitting.{Fitter};
ghost use Rattle.tt_picture.specs.Glyphs.{AreDrawn, numbers_of};
ghost use Rattle.tt_picture.specs.Lines.{HasGlyphsOf};
ghost use Rattle.tt_picture.specs.Pixels.{Shape};
ghost use Rattle.tt_picture.specs.Shapes.{crossings_in, glyph_shape};

use crate::glyphs::Glyphs;

/// The crossings of a line's glyphs, each at its pen, in a picture and outside, or 2 ^ 64 - 1 if there are more. Where
/// dropouts are filled, the search for them counts too.
pub fn crossings(glyphs: &Glyphs, line: &[(u16, u32)]) -> u64
    requires { HasGlyphsOf (numbers_of glyphs.now.made.items) line.now }
    ensures { (maker : ℕ → Fitter) (shapes : List Shape) → AreDrawn maker glyphs.now.made.items
        → each (glyph_shape maker) line.now ≡ Ok shapes → result ≡ min (crossings_in shapes) (2 ^ 64 - 1) }
{
    let mut all: u64 = 0;
    for placed in line {
        let at = glyphs.place_of(placed.0);
        let glyph = &glyphs.made[at];
        all = all.saturating_add(glyph.crossings());
    }
    all
}
