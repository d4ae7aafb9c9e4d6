//! The kerning of two neighbouring glyphs. OpenType, "GPOS: Glyph Positioning Table" and "kern: Kerning".
#![tactic(auto)]

mod coverage;
mod feature;
mod kern_table;
mod kerning;
pub mod laws;
mod pair;
mod pairs;
mod search;
mod sum;
mod variation;
mod words;

pub use kerning::{Kerning, PairKerning};
pub use variation::PairVariation;
