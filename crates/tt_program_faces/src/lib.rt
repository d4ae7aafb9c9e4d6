//! The output of `faces`: a file's faces, and the axes and named instances of each.
//!
//! ```text
//! listing.rt    the number of a file's faces, and a line for each
//! variations.rt the lines of a face's axes and named instances
//! ```
#![tactic(auto)]

mod listing;
mod variations;

pub use listing::faces;
