//! The state of the TrueType interpreter: graphics state, rounding, unit vectors, and points as programs see them.
#![tactic(auto)]

mod fine_period;
mod graphics_state;
pub mod laws;
mod magnitude;
mod point;
mod reach;
mod rounding;
mod sround;
mod steps;
mod tolerance;
mod unit;
mod vector;

pub use graphics_state::{Axis, GraphicsState, ScanControl, Zone};
pub use point::Point;
pub use rounding::Round;
pub use sround::Super;
pub use steps::Steps;
pub use tolerance::Tolerance;
pub use vector::{Slope, Vector, dot};
