//! Gaps one by one. A gap lies between the centres of two pixels that are side by side in a row. Where edges cross a gap
//! and both its pixels are white, dropout control blackens one of them. OpenType, "TrueType Fundamentals", the scan
//! converter's rules 3 and 4, and the smart ones beside them.
//!
//! ```text
//! mark.rt       a crossing, a step of a contour, a mark in a gap, and the rules for filling dropouts
//! crossings.rt  where edges cross the centre lines of rows, and between which pixels
//! seen.rt       an edge as a pass over rows or columns sees it
//! steps.rt      the walk along a contour, step by step
//! stub.rt       which crossings belong to a stub
//! point.rt      how often edges wind round a point, by each edge
//! looks.rt      whether a gap may be free, by each edge, and for how many gaps of a glyph that is asked
//! both_ways.rt  whether some free gap is crossed both rising and falling
//! extent.rt     a glyph's box
//! columns.rt    the columns and the rows of a box
//! gaps.rt       which pixel a gap needs
//! dots.rt       small contours that need no pixel of a gap
//! laws.rt       edges that are joined cross and touch the same lines
//! ```
//!
//! tt_scan_dropouts passes over the gaps of all rows, and over those of all columns. The text speaks of rows. Columns
//! are the rows of the outline with x and y exchanged.
#![tactic(auto)]

mod both_ways;
mod columns;
mod crossings;
mod dots;
mod extent;
mod gaps;
pub mod laws;
mod looks;
mod mark;
mod point;
mod seen;
mod steps;
mod stub;

pub use columns::{box_of, pixels_in, pixels_reached};
pub use crossings::{crossing, gap_crossed, has_end_on_line, line_crossed, lines_crossed, touch};
pub use dots::{Dot, dot_pixel, has_dot_box};
pub use extent::{Extent, Extents};
pub use gaps::{group_end, pixel_of, some_asks, sort_marks};
pub use looks::may_cross_both_ways;
pub use mark::{Columns, Crossing, Mark, Rules, Step};
pub use seen::{Over, all_turned_round, meets, seen_by, turned_round};
pub use steps::walk;
pub use stub::is_of_stub;
