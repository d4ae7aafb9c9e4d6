//! Laws of the ways of fitting: of falling back, of hinting, rounding, dropouts and counts.
#![tactic(auto)]

pub mod laws;
