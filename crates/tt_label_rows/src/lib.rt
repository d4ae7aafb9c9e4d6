//! The rows of a label's text, and their places in a picture of a given width or in a box.
//!
//! ```text
//! units.rt    the units of a text, line by line
//! glyphs.rt   the glyphs of some lines, one after the other
//! steps.rt    the steps of the units
//! rows.rt     the rows of the lines
//! heights.rt  the heights of rows at a size
//! picture.rt  the picture of rows: its size, and where rows stand in it
//! laying.rt   the rows, laid out in the picture
//! ```
#![tactic(auto)]

mod glyphs;
mod heights;
mod laying;
mod picture;
mod rows;
mod steps;
mod units;

pub use glyphs::{all_glyphs, glyph_line};
pub use heights::{RowHeights, row_heights};
pub use laying::lay_rows;
pub use picture::{RowsPicture, box_picture, first_rise, is_low, width_picture};
pub use rows::{TextRows, text_rows, widest};
pub use steps::{stepped_lines, unit_row};
pub use units::text_units;
