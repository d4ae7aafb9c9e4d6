//! Labels of the C library: texts of several lines, drawn for people, with requests and answers in C's types. The crate
//! tt_c exports the call.
//!
//! ```text
//! request.rt    the request of a label, tested
//! drawing.rt    the label of a text, by a font
//! labelling.rt  the label in a caller's room
//! laws.rt       laws of the definitions
//! ```
#![tactic(auto)]

mod drawing;
mod labelling;
pub mod laws;
mod request;

pub use labelling::{CLabel, label};
pub use request::{CLabelJob, LabelRequest};
