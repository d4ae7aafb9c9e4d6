//! A glyph's outline, or why the glyph has none.

ghost use Rattle.std.specs.Prelude.{◌≡◌, IfOk, Some};
ghost use Rattle.tt_core.specs.Outcomes.{font_fault};
ghost use Rattle.tt_fit.specs.Tried.{IsRefusedBy};

use std::alloc::AllocError;
use tt_core::{Fault, FontFault};
use tt_fit_outline::Outline;

/// A glyph's outline, or the fault that refuses the outline.
#[derive(Drop)]
pub enum TriedOutline {
    Made(Outline),
    Refused(Fault),
}

impl TriedOutline {
    /// The refusal of an outline for a fault of the font. Error: out of memory.
    pub(crate) fn refused_by(fault: FontFault) -> Result<TriedOutline, AllocError>
        ensures { IfOk result (IsRefusedBy fault) }
    {
        match fault {
            FontFault::Font(fault) => Ok(TriedOutline::Refused(fault)),
            FontFault::Memory => Err(AllocError),
        }
    }
}
