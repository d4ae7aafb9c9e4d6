//! The picture of lines of glyphs, made band by band. Glyphs come from a fitter, or from a cache.
//!
//! ```text
//! cache.rt      the cache of glyphs, which may be absent
//! outlined.rt   the outline of a glyph that is made, before its edges are
//! cutting.rt    the pixels of a glyph, which are cached
//! fitted.rt     a glyph that is fitted: by its outline, or from the cache
//! fitting.rt    distinct glyphs, fitted in order, and their pixels
//! glyph.rt      a distinct glyph: its pixels at pen 0, in a bitmap or by edges
//! glyphs.rt     the distinct glyphs of some lines, and the table that finds them
//! lines.rt      a line of a picture
//! counting.rt   the crossings of glyphs at their pens
//! report.rt     the unfitted glyphs
//! inks.rt       the boxes of glyphs' black pixels
//! ink_box.rt    such a box in a picture
//! stamp.rt      a bitmap at its place in a picture
//! stamps.rt     the bitmaps of lines, made and painted
//! large.rt      glyphs without a bitmap, painted
//! band.rt       the bytes of a picture's rows
//! picture.rt    the picture
//! laws.rt       the cache of a fitter is that of every fitter that differs in its remaining work alone
//! ```
#![tactic(auto)]

mod band;
mod cache;
mod columns;
mod counting;
mod cutting;
mod fitted;
mod fitting;
mod glyph;
mod glyphs;
mod ink_box;
mod inks;
mod large;
pub mod laws;
mod lines;
mod outlined;
mod picture;
mod report;
mod stamp;
mod stamps;

pub use cache::Cache;
pub use counting::crossings;
pub use cutting::tape_crossings;
pub use fitted::FittedGlyph;
pub use fitting::{LineLimits, drawn_glyphs, fit_glyphs, made_glyphs};
pub use glyph::Glyph;
pub use glyphs::Glyphs;
pub use ink_box::{InkBox, ink_at, joined};
pub use inks::glyph_inks;
pub use lines::PlacedLine;
pub use outlined::{box_of, edges_of, has_chords_within, rule_by, rules_for};
pub use picture::Picture;
pub use report::{Report, Unfitted, report_on};
