//! Laws of ink: labels and grown pictures hold all of it.
#![tactic(auto)]

pub mod laws;
