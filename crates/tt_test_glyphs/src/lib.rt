//! What tt_test_answers prints about a font's glyphs: their points, their fitted outlines and pictures. The module of each
//! word states the form of its lines.
#![tactic(auto)]

pub mod glyphs;
pub mod outlines;
mod tables;
