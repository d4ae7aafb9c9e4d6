//! The least box that holds the black pixels of one glyph, inside and outside any picture.
//!
//! ```text
//! edges.rt      the box of the pixels that edges blacken by rules 1 and 2, line by line
//! dropouts.rt   the box of the dropouts, window by window
//! lines.rt      the number of columns or lines of a box
//! laws.rt       a box holds all black pixels of the plane
//! ```
#![tactic(auto)]

mod dropouts;
mod edges;
pub mod laws;
mod lines;

pub use dropouts::dropouts_ink;
pub use edges::edges_ink;
