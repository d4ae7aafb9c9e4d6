//! Chords: the outline of a glyph as straight edges.
#![tactic(auto)]

mod bounds;
mod contour;
mod counting;
mod exact;
mod joining;
pub mod laws;
mod outline;
mod point;
mod quadratic;
mod rule;

pub use bounds::points_box;
pub use counting::has_chords_within;
pub use outline::{OutlineEdges, chords, edges};
pub use rule::ChordRule;
