//! Laws of files of bitmaps: their order, and the lines that a reader of a file composes.
#![tactic(auto)]

pub mod laws;
