//! The advances of a face's glyphs in font units, and lines by them. At an instance of a font without HVAR the glyphs'
//! own data give the advances.
#![tactic(auto)]

mod found;
pub mod laws;
mod units;

pub use found::{FoundAdvances, find_units};
pub use units::{face_units, units_of};
