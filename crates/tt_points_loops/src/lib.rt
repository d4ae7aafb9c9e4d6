//! Instructions that work on several points: they align, interpolate, shift, flip, or move them at single sizes.
#![tactic(auto)]

pub mod deltas;
pub mod flipping;
mod in_turn;
pub mod laws;
pub mod moving;
pub mod shifting;
