//! The report of each number of a list.

use crate::place::InkPlace;
use tt_core::Fault;

/// A glyph whose rows are made.
#[derive(Clone, Copy, Debug, PartialEq, Eq)]
pub struct MadeBitmap {
    /// Columns to the next pen.
    pub advance: u32,
    /// The distance of the advance's two ends as the outline has them, in 26.6 pixels.
    pub advance_left: i32,
    pub place: InkPlace,
    /// The fault of the program that makes the glyph unfitted.
    pub unfitted: Option<Fault>,
}

/// The report of a number.
#[derive(Clone, Copy, Debug, PartialEq, Eq)]
pub enum Told {
    /// The font has no glyph with this number.
    Unknown,
    /// The outline is refused for this fault; with `Fit::Full` the fault may be one of the glyph's program.
    Broken(Fault),
    /// The ink is wider than 16,384 columns or higher than 4,096 rows.
    Large,
    Made(MadeBitmap),
}

/// A number of a list, its report, and the place of its first row among all rows.
#[derive(Clone, Copy, Debug, PartialEq, Eq)]
pub struct GlyphEntry {
    pub glyph: u32,
    pub told: Told,
    pub at: u64,
}
