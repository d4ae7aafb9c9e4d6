//! What a fitter is made of.

ghost use Rattle.std.specs.Prelude.{◌≤◌};
ghost use Rattle.tt_core.specs.Limits.{size_limit};

use std::alloc::Global;
use tt_face::Face;
use tt_fit::Fit;

/// What a fitter is made of: a face, a size in pixels per em, and a fit.
#[derive(Clone, Copy)]
pub struct FitterSource<'f, 'a> {
    pub alloc: Global,
    pub face: &'f Face<'a>,
    pub ppem: u32,
    pub fit: Fit,
    pub ghost low: { 1 ≤ ppem },
    pub ghost high: { ppem ≤ size_limit },
}
