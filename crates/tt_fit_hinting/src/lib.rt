//! Runs a glyph's program on its outline: the parts of a machine, the zone of a glyph's points, and what a run leaves.
#![tactic(auto)]

mod glyph_program;
mod glyph_zone;
mod hinting;
pub mod laws;
mod outline_fault;
mod parts;
mod places;
mod ready_glyph;

pub use glyph_program::GlyphProgram;
pub use glyph_zone::ends_on_grid;
pub use hinting::{GlyphMachine, Hinting, Runner, run};
pub use outline_fault::{OutlineFault, unbounded};
pub use parts::{begun_parts, left_to_glyphs};
pub use tt_exec::{Code, Instance, Parts, Work};
