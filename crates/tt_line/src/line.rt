//! A line of text after layout.

ghost use Rattle.std.specs.Prelude.{◌+◌, ◌≤◌, All, length, unsigned_abs};
ghost use Rattle.tt_core.specs.Limits.{width_limit, height_limit, text_limit};

/// A line of text after layout. Whoever makes one keeps its limits.
#[derive(Drop)]
pub struct Line {
    /// Pixels in a row of the picture, margins included: 1 to 16,384.
    pub width: u32,
    /// Rows of the picture, margins included: 1 to 4,096.
    pub height: u32,
    /// Pixels from the base line up to the upper margin.
    pub rise: i32,
    /// The glyph of each unit, and the pixels from the left margin to the glyph's origin.
    pub glyphs: Vec<(u16, u32)>,
    pub ghost wide: { (1 ≤ width) × (width ≤ width_limit) },
    pub ghost high: { (1 ≤ height) × (height ≤ height_limit) },
    // Rows added at the top count in both, so a line that is enlarged keeps this one.
    pub ghost risen: { unsigned_abs rise ≤ 614400 + height },
    pub ghost few: { length glyphs.items ≤ text_limit },
    pub ghost pens: { All (λ p. p.1 ≤ width) glyphs.items },
}
