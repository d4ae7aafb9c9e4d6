//! IUP: untouched points move with the nearest touched points. Apple TrueType Reference Manual, "Instruction set".
#![tactic(auto)]

mod contour;
mod counted;
mod interpolation;
pub mod laws;
mod place;
mod search;

pub use interpolation::{interpolate, iup};
