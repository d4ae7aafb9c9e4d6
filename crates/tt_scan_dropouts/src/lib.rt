//! Dropout control: which pixels are black besides those of the scan converter's rules 1 and 2, so that no stroke is
//! lost at small sizes. OpenType, "TrueType Fundamentals", rules 3 and 4, and the smart ones beside them. tt_scan_gaps
//! has gaps one by one: the crossings in them, and which pixel a gap needs.
//!
//! Here are the passes over all rows and columns of a glyph, with worked pictures and lemmas, and the code:
//!
//! ```text
//! boxed.rt      the rules for the dropouts of a glyph, with its box
//! contours.rt   the contours of an outline, and a glyph whose dropouts are filled
//! closed.rt     which contours are closed
//! may_have.rt   whether a glyph may have dropouts
//! window.rt     a window of pixels; pixel.rt has a pixel
//! bitmap.rt     the black pixels of a window
//! marks.rt      the marks of an outline's contours in free gaps
//! pass.rt       the pixels that a pass over the gaps of all rows adds, and which gap gives way
//! dots.rt       the dots of a glyph in a window
//! filling.rt    the dropouts of a glyph in a window
//! counting.rt   what the edges of a glyph count where work is bounded
//! picture.rt    the dropouts of a picture, as a list that is painted row by row
//! laws.rt       dropouts are white without them, and move with their glyph; nothing is lost; free gaps are crossed both
//!               ways; what is needed is counted
//! ```
//!
//! The text speaks of rows. Columns are the rows of the outline with x and y exchanged.
#![tactic(auto)]

mod bitmap;
mod boxed;
mod closed;
mod contours;
mod counting;
mod dots;
mod filling;
pub mod laws;
mod marks;
mod may_have;
mod pass;
mod picture;
mod pixel;
mod window;

pub use boxed::BoxedRules;
pub use contours::Outlined;
pub use counting::{BAND_ROWS, all_counted, edges_counted};
pub use filling::{dropouts, dropouts_beside};
pub use may_have::{may_have_dots, may_have_dropouts};
pub use picture::{Dropout, blacken_dropouts, push_dropouts, sort_by_rows};
pub use pixel::Pixel;
pub use tt_scan_gaps::{Columns, Extent, Extents, Rules, box_of, pixels_in, pixels_reached};
pub use window::Window;
