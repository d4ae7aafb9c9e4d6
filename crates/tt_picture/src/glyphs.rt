//! The distinct glyphs of some lines, and the table that finds them.

ghost use Rattle.std.specs.Prelude.{◌≡◌, ◌≢◌, true, ◌<◌, length, slice_index, All, IfSome, IfNone};
ghost use Rattle.tt_picture.specs.Distinct.{is_among};
ghost use Rattle.tt_picture.specs.Glyphs.{ArePlaces, numbers_of};

use crate::glyph::Glyph;

/// Distinct glyphs, in order of first appearance.
#[derive(Drop)]
pub struct Glyphs {
    /// For each glyph of the font 0, or one more than its place in `made`.
    pub places: Vec<u16>,
    pub made: Vec<Glyph>,
    /// What the lines take of the budget of a call of many lines.
    pub cost: u64,
    pub ghost seated: { ArePlaces places.items (numbers_of made.items) },
}

impl Glyphs {
    /// The place in `made` of a glyph that is there.
    pub fn place_of(&self, number: u16) -> usize
        requires { is_among number (numbers_of self.now.made.items) ≡ true }
        ensures within { result < length self.now.made.items }
        ensures number { slice_index (numbers_of self.now.made.items) result ≡ number }
    {
        usize::from(self.places[usize::from(number)]) - 1
    }
}
