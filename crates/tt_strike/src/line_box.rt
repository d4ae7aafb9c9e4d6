//! The box of a line's ink.

ghost use Rattle.std.specs.Prelude.{◌≡◌, ℕ, map, Option};
ghost use Rattle.tt_bitmap.specs.declared.ink.LeastBox.{LeastBox};
ghost use Rattle.tt_picture.specs.Glyphs.{numbers_of};
ghost use Rattle.tt_picture.specs.Lines.{HasGlyphsOf};
ghost use Rattle.tt_strike.specs.Measures.{box_in};

use crate::inked::InkedGlyphs;
use tt_picture::{InkBox, PlacedLine, ink_at, joined};

/// The least box of the ink of a line, whose glyphs are among these.
pub fn line_ink(line: PlacedLine, inked: &InkedGlyphs) -> Option<InkBox>
    requires { HasGlyphsOf (numbers_of inked.now.glyphs.made.items) line.glyphs.now }
    ensures { (ink : ℕ → Option LeastBox) → inked.now.inks.items ≡ map ink (numbers_of inked.now.glyphs.made.items)
        → result ≡ box_in ink line.entry.frame line.entry.glyphs.now }
{
    let mut all = None;
    for placed in line.glyphs {
        let (number, pen) = *placed;
        let at = inked.glyphs.place_of(number);
        all = joined(all, ink_at(line.frame, pen, inked.inks[at]));
    }
    all
}
