//! The positions of a text line's glyphs, in pixels, and the size of its picture.
#![tactic(auto)]

mod align;
mod extent;
mod known;
mod label_extent;
pub mod laws;
mod layout;
mod line;
mod lines;
mod measured;
mod pixels;
mod steps;
mod sums;

pub use align::Align;
pub use extent::PictureExtent;
pub use known::KnownAdvances;
pub use layout::lay;
pub use line::Line;
pub use lines::{label_steps, lay_lines, unmarked};
pub use measured::{LineSize, size_by_advances, size_by_steps};
pub use pixels::{advance, depth, rise, step, step_of_units, units_in_pixels};
pub use steps::{advance_steps, kerning_at, lay_steps, put_unit_steps, unit_advances};
pub use tt_core::DrawFault as LineFault;
