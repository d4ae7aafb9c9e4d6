//! A glyph that is ready for its program. Apple TrueType Reference Manual, "Instructing TrueType Glyphs" (phantom points).

ghost use Rattle.tt_fit_outline.specs.Outline.{phantom_of, ArePhantom};

use tt_fit_outline::{Outline, Units};

/// A glyph that is ready for its program.
#[derive(Clone, Copy)]
pub(crate) struct ReadyGlyph<'g> {
    pub(crate) outline: &'g Outline,
    /// Its phantom points on the grid.
    pub(crate) grid: [(i32, i32); 4],
    /// Its places in font units; None where originals are measured in 26.6.
    pub(crate) units: Option<Units<'g>>,
    pub(crate) ghost on_grid: { ArePhantom (phantom_of grid) },
}
