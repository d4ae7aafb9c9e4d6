//! A line of a picture.

ghost use Rattle.std.specs.Prelude.{◌≤◌, All};
ghost use Rattle.tt_core.specs.Limits.{width_limit};
ghost use Rattle.tt_picture.specs.Pictures.{IsPictureFrame};

use tt_scan::Frame;

/// A line of a picture. Several lines of one picture differ in their base lines.
#[derive(Clone, Copy)]
pub struct PlacedLine<'l> {
    /// The size of the picture, its margin, and the base line of this line.
    pub frame: Frame,
    /// The glyphs by their numbers, each with its pen in pixels from the left end of the line.
    pub glyphs: &'l [(u16, u32)],
    pub ghost fits: { IsPictureFrame frame },
    pub ghost pens: { All (λ g. g.1 ≤ width_limit) glyphs.now },
}
