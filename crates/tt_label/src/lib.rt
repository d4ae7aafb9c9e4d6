//! The picture of a label: a text of several lines in one picture.
//!
//! ```text
//! joining.rt  the glyphs of several lines as those of one line
//! finding.rt  the steps of lines by advances, which the glyphs' data give at an instance without HVAR
//! fitting.rt  the lines of a text, whose glyphs are fitted, and their steps
//! gathering.rt  the units of a text that is broken into rows, with the steps of their glyphs
//! begun.rt    these units and glyphs, made once for all rows
//! made.rt     the lines of a label, laid out, and their glyphs
//! growing.rt  the columns and rows that the ink of all lines needs
//! placing.rt  the lines, each with its base line in the picture
//! labelling.rt  the picture
//! widths.rt   the picture of a given width
//! laws.rt     laws of the definitions
//! ```
#![tactic(auto)]

mod begun;
mod finding;
mod fitting;
mod gathering;
mod growing;
mod joining;
mod labelling;
pub mod laws;
mod made;
mod placing;
mod widths;

pub use begun::{BegunLabel, Stage, begin_label, finish_label};
pub use growing::label_ink;
pub use labelling::label;
pub use made::with_margin;
pub use placing::placed_lines;
pub use tt_core::DrawFault;
pub use tt_line::{Align, unmarked};
pub use tt_strike::{Face, Picture, Strike, Unfitted};
pub use widths::{WidthLabel, label_in_width};
