//! The cache of a font at a size: glyphs within a limit in bytes, the oldest dropped first.
#![tactic(auto)]

mod cut;
mod glyph;
mod kept;
pub mod laws;

pub use cut::{CutGlyph, GlyphFacts};
pub use glyph::{KeptCounts, KeptGlyph};
pub use kept::KeptGlyphs;
