//! Instructions on one point, and on lines through points. Those that set a distance or a coordinate share the rules of
//! distances and of the twilight zone. Instructions on several points don't use these rules.
//!
//! The zones are in tt_points_zones, below this crate. Beside this crate are tt_points_loops, with the instructions on
//! several points, and tt_points_iup, with IUP. Their proofs don't wait for each other.
#![tactic(auto)]

pub mod control_values;
mod distances;
pub mod laws;
mod line_points;
pub mod lines;
pub mod measuring;
pub mod moving;
mod pairs;
mod twilight;
mod unrounded;

pub use distances::Keeping;
pub use tt_points_zones::{Originals, Zones};
