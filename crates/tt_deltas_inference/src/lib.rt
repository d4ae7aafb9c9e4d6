//! Inferred deltas: in a glyph's variations, points without a delta move with their neighbours. OpenType, "gvar",
//! "Inferred deltas for un-referenced point numbers".
#![tactic(auto)]

mod contour;
mod contours;
pub mod laws;
mod point;
mod search;

pub use contours::infer;
pub use point::AxisPoint;
