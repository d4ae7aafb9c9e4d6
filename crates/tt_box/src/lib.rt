//! The picture of a label that fills a box, at the greatest size that its text fits.
//!
//! ```text
//! place.rt    a box, with its margin and its alignment
//! rows.rt     the rows of a text in a box, if they fit
//! trying.rt   a text at a size
//! boxing.rt   the sizes, from the greatest down
//! laws.rt     laws of the definitions
//! ```
#![tactic(auto)]

mod boxing;
pub mod laws;
mod place;
mod rows;
mod trying;

pub use boxing::{BoxLabel, label_in_box};
pub use place::LabelBox;
