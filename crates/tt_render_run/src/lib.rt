//! Draws a line of text, and maps characters to glyphs, by a font, from a reader to a writer.
#![tactic(auto)]

mod drawing;
mod mapping;
mod running;

pub use mapping::map;
pub use running::run;
