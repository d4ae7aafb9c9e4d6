//! A glyph at an instance: its points, its components and its phantom points. OpenType, "gvar".
#![tactic(auto)]

mod advance;
mod coordinate;
mod end;
mod ends;
mod fine;
mod glyph;
mod moved_point;
mod points;
mod records;
mod varied_glyph;

pub use end::EndDeltas;
pub use fine::varied_control_value;
pub use glyph::GlyphVariation;
pub use moved_point::InstancePoint;
pub use points::{instance_places, instance_points, instance_units};
pub use records::moved_records;
pub use varied_glyph::GlyphDeltas;
