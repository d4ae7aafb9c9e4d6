//! A face of a font: its directory, and the tables that the directory names. Each of these tables is opened here.
#![tactic(auto)]

mod face;
mod instance;
pub mod laws;
mod names;
mod programs;
mod rules;
mod style;

pub use face::Face;
pub use instance::{AskedInstance, FaceInstance, LISTED_INSTANCES, NamedBy};
pub use programs::Programs;
pub use rules::{LineRules, Opening};
pub use tt_metrics::Heights;
