//! Bitmaps of glyphs by their numbers.
//!
//! ```text
//! request.rt   the count of a list, and the work that its glyphs may take
//! known.rt     the numbers that are glyphs of the font
//! ruled.rt     an outline with its rules, or the fault that refuses it
//! outlines.rt  the outlines of the distinct glyphs
//! edged.rt     the edges of an outline, their crossings and the box of their ink
//! placing.rt   the place of a glyph by that box, and the bytes of its rows
//! small.rt     the rows of a glyph by its bitmap
//! large.rt     the rows of a large glyph by its edges and its dropouts
//! written.rt   the rows of a glyph, which is small or large
//! drawing.rt   the distinct glyphs, drawn within the limits of a request
//! tried.rt     a list whose distinct glyphs are tried
//! entries.rt   an entry for each place of the list
//! list.rt      the bitmaps of a list
//! laws.rt      lemmas about the definitions, for all glyphs
//! ```
#![tactic(auto)]

mod drawing;
mod edged;
mod entries;
mod known;
mod large;
pub mod laws;
mod list;
mod outlines;
mod place;
mod placing;
mod request;
mod ruled;
mod small;
mod told;
mod tried;
mod written;

pub use list::BitmapList;
pub use place::InkPlace;
pub use request::test_count;
pub use told::{GlyphEntry, MadeBitmap, Told};
pub use tt_core::DrawFault;
pub use tt_face::Face;
