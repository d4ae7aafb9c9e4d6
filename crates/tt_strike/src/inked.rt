//! The glyphs of a line with their inks.

ghost use Rattle.std.proofs.Props.{props};
ghost use Rattle.std.specs.Prelude.{◌≡◌, All, IfSome};
ghost use Rattle.tt_bitmap.specs.Inks.{IsNear};
ghost use Rattle.tt_picture.specs.Glyphs.{inks_of};

use tt_bitmap::LeastBox;
use tt_picture::Glyphs;

/// The distinct glyphs of a line, each with the box of its black pixels at pen 0, if there are any.
#[derive(Drop)]
pub struct InkedGlyphs {
    pub glyphs: Glyphs,
    pub inks: Vec<Option<LeastBox>>,
    pub ghost inked: { inks.items ≡ inks_of glyphs.made.items },
    pub ghost near: { All (λ ink. IfSome ink IsNear) inks.items } by { Prim.hlevel props },
}
