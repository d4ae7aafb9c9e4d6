//! Outlines of a font's glyphs at a size, by a way of fitting: runs the font's programs first, then makes each glyph.
#![tactic(auto)]

mod beginning;
mod begun;
mod borrowing;
mod control_values;
mod counting;
mod delta_counting;
mod dropouts;
mod fallback;
mod fitting;
mod font;
pub mod laws;
mod outlines;
mod paying;
mod preparation;
mod programs;
mod rules;
mod tried;
mod variation;

pub use delta_counting::DELTA_LIMIT;
pub use dropouts::{DropoutRules, DropoutsBy};
pub use fitting::Fitter;
pub use paying::OutlineAtCost;
pub use programs::Fit;
/// The refusals of an outline, by this crate's name for them.
pub use tried::TriedOutline;
pub use tt_core::FontFault as FitFault;
pub use tt_face::Programs;
pub use tt_fit_outline::{Outline, pixels_of};
