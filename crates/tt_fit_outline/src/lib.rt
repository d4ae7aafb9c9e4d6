//! The outline of one glyph at a size: scales points and joins components.
#![tactic(auto)]

mod component;
mod grid;
mod joining;
pub mod laws;
mod outline;
mod rules;
mod scaling;
mod shift;
mod size;
mod steps;
mod units;

pub use grid::{Grid, GridRule};
pub use joining::placed;
pub use outline::Outline;
pub use rules::{OutlineRules, Scaling};
pub use scaling::{
    Phantom, blank, coordinate, glyf_fault, outline_in_place, phantom_points, phantom_units,
    scaled_outline, scaled_phantom,
};
pub use size::FontSize;
pub use steps::pixels_of;
pub use units::{PhantomUnits, Units};
