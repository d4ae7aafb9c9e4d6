//! The unfitted glyphs of a line, whose points are only scaled.

ghost use Rattle.std.specs.Prelude.{◌≡◌, IfOk};
ghost use Rattle.tt_picture.specs.Unfitted.{unfitted_standing};

use crate::glyph::Glyph;
use std::alloc::{AllocError, Global};
use tt_core::Fault;

/// A glyph whose points are only scaled, and the fault of a program that makes it unfitted.
#[derive(Clone, Copy)]
pub struct Unfitted {
    pub glyph: u16,
    pub fault: Fault,
}

/// The facts of a picture besides its pixels.
#[derive(Drop)]
pub struct Report {
    /// With `Fit::Fallback` and `Fit::Best` the distinct unfitted glyphs of the text, in order of first appearance.
    /// Empty with any other fit.
    pub unfitted: Vec<Unfitted>,
    /// What the text takes of the budget of a call of many lines: with `Fit::Best` the work of its points and programs,
    /// and 4 for each crossing. 0 with any other fit.
    pub cost: u64,
}

/// The report of some glyphs with this cost.
pub fn report_on(alloc: Global, glyphs: &[Glyph], cost: u64) -> Result<Report, AllocError>
    ensures unfitted { IfOk result (λ r. r.unfitted.items ≡ unfitted_standing glyphs.now) }
    ensures cost { IfOk result (λ r. r.cost ≡ cost) }
{
    let mut unfitted = Vec::new(alloc);
    for glyph in glyphs {
        if let Some(entry) = glyph.unfitted() {
            unfitted.push(entry)?;
        }
    }
    Ok(Report { unfitted, cost })
}
