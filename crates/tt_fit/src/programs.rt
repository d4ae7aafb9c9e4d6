//! How a font's programs are run.

ghost use Rattle.std.specs.Prelude.{◌≤◌, length};
ghost use Rattle.tt_core.specs.Limits.{font_limit, size_limit};

use tt_face::{FaceInstance, Programs};
use tt_metrics::Metrics;

/// How outlines are fitted to the grid.
#[derive(Clone, Copy, Debug, PartialEq, Eq)]
pub enum Fit {
    /// By the font's programs.
    Full,
    /// No program is run, and points are only scaled.
    None,
    /// By the font's programs; points are only scaled where a program is refused.
    Fallback,
    /// As `Fallback`, with the whole instruction set, tolerance of missing things, and deeper nesting of components. No
    /// program is run where the font program and the control value program are both empty. Distances are rounded to
    /// whole pixels where hinting is on.
    Best,
}

/// A font's programs at a size, at an instance of the font.
#[derive(Clone, Copy)]
pub(crate) struct ProgramsAtSize<'m, 'a> {
    pub(crate) metrics: &'m Metrics<'a>,
    pub(crate) programs: Programs<'a>,
    /// Pixels per em.
    pub(crate) ppem: u32,
    pub(crate) fit: Fit,
    /// The font's instance, if that is not the default.
    pub(crate) instance: &'m Option<FaceInstance<'a>>,
    pub(crate) ghost limit: { ppem ≤ size_limit },
    pub(crate) ghost fpgm: { length programs.fpgm.now ≤ font_limit },
    pub(crate) ghost prep: { length programs.prep.now ≤ font_limit },
}
