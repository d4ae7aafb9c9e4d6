//! The black pixels of a box, row by row, as words of 56 columns: made once, and painted at any place of many pictures.
//!
//! ```text
//! bitmap.rt   the bitmap of a box: pixels and spans made black, painting, ink, some of its lines
//! run.rt      pixels of words by their numbers
//! ink.rt      the least box that holds black pixels
//! shared.rt   the rows that a bitmap and a band have in common
//! place.rt    where rows of words go in rows of bytes; clip.rt finds the place of a word
//! eight.rt    a word at its place in the bytes of a row
//! strip.rt    the words of all rows at their places
//! laws.rt     painting is OR; the ink of two is joined, and moves
//! ```
#![tactic(auto)]

mod bitmap;
mod clip;
mod eight;
mod ink;
pub mod laws;
mod place;
mod run;
mod shared;
mod strip;

pub use bitmap::{BoxBitmap, bytes_of};
pub use ink::{LeastBox, joined};
