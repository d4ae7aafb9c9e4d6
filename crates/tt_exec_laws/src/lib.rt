//! Laws of the whole instruction set and of the tolerant machine.
#![tactic(auto)]

pub mod laws;
