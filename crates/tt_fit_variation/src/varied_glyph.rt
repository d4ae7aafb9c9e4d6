//! The points of a glyph with their deltas.

ghost use Rattle.std.specs.Prelude.{◌≡◌, ◌+◌, ◌^◌, length, All};
ghost use Rattle.tt_deltas.specs.Along.{IsWithin};

use tt_deltas::Varied;

/// The coordinates of a glyph's points, or of its components, with their deltas; then those of four phantom points.
#[derive(Drop)]
pub struct GlyphDeltas {
    pub xs: Vec<Varied>,
    pub ys: Vec<Varied>,
    /// How many come before the phantom points.
    pub points: usize,
    pub ghost x_count: { length xs.items ≡ points + 4 },
    pub ghost y_count: { length ys.items ≡ points + 4 },
    pub ghost x_near: { All (IsWithin (2 ^ 46)) xs.items },
    pub ghost y_near: { All (IsWithin (2 ^ 46)) ys.items },
}
