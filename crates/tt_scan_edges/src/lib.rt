//! Edges one by one: how an edge crosses the centre line of a row, its walk from row to row, and which columns the
//! crossings of a row blacken. OpenType, "TrueType Fundamentals", the scan converter's rules 1 and 2.
//!
//! ```text
//! edge.rt        an edge, the frame of a picture, and a crossing
//! row_at.rt      a row of a frame, and the height of its centres
//! rising.rt      an edge that rises
//! quotient.rt    floor division
//! crossing.rt    an edge at the height of a row: the columns that it touches, and its turn
//! walk.rt        an edge from row to row, by sums alone
//! counted.rt     the edges of a glyph; each crossing is counted
//! pixel.rt       one pixel by all edges
//! entry.rt       an edge by its number, with its rows
//! left.rt        what crossings leave in a row: black spans, where edges touch centres (rule 2), and marks of turns
//! mark.rt        a mark, and a span
//! stretch.rt     the marks in order of their columns, and black spans where their sum isn't 0 (rule 1)
//! insertion.rt   sorting marks and walks, which are nearly in order
//! last.rt        the last edge of a contour so far, and whether the next is joined to it
//! laws.rt        joined edges blacken what the edges do
//! ```
//!
//! tt_scan_order sorts entries. tt_scan has all edges of a glyph together, and its rows.
#![tactic(auto)]

mod counted;
mod crossing;
mod edge;
mod entry;
mod insertion;
mod last;
pub mod laws;
mod left;
mod mark;
mod pixel;
mod quotient;
mod rising;
mod row_at;
mod stretch;
mod walk;

pub use counted::CountedEdges;
pub use edge::{Cross, Edge, Frame};
pub use entry::Entry;
pub use last::Last;
pub use left::RowLeft;
pub use mark::Span;
pub use row_at::RowAt;
pub use walk::{Walk, add_walk, settle_walks};
