//! The zones of the TrueType interpreter: points by their numbers, and how a point is measured and moved.
#![tactic(auto)]

mod distances;
pub mod laws;
mod meeting;
mod motion;
mod points;
mod straight_line;
mod way;
mod zone_numbers;
mod zones;

pub use distances::{Distance, distance_between, product};
pub use meeting::{Place, met};
pub use motion::{Motion, may_move};
pub use points::{cur, is_coordinate, is_touched, org};
pub use straight_line::StraightLine;
pub use zone_numbers::zone_of;
pub use zones::{Originals, Zones};
