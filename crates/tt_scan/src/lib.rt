//! Scan conversion: the edges of a glyph together, and which pixels they blacken in a row. OpenType, "TrueType
//! Fundamentals", the scan converter's rules 1 and 2. tt_scan_edges has edges one by one: their crossings and walks.
//!
//! The way of a row, from edges to black pixels:
//!
//! ```text
//! edge_list.rt    the edges while they are made; `Tape::of` then finds the rows of all at once
//! edge_table.rt   the edges that meet the row: those walked from the row above, and those that begin there
//! collect.rt      crosses each of them: touched columns are black spans (rule 2), turns are marks
//! sweep.rt        black spans between the marks (rule 1)
//! paint.rt        paints the spans in a row of bytes; stamp.rt paints a narrow glyph by one word
//! ```
//!
//! rows.rt has the rows that an edge meets.
#![tactic(auto)]

mod bytes;
mod collect;
mod edge_list;
mod edge_table;
pub mod laws;
mod paint;
mod rows;
mod stamp;
mod sweep;
mod tape;
mod word;

pub use bytes::blacken;
pub use edge_list::EdgeList;
pub use stamp::paint_columns;
pub use sweep::Sweep;
pub use tape::Tape;
pub use tt_scan_edges::{Cross, Edge, Frame, Last, Span};
pub use word::Stamp;
