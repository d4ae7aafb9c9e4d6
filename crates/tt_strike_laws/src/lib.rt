//! Laws of a font at a size: of the pictures, measures and layouts of its lines.
#![tactic(auto)]

pub mod laws;
