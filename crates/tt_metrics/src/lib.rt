//! The numbers of head, maxp, hhea and hmtx, and how a line is laid out by them.
#![tactic(auto)]

mod advances;
mod head;
mod heights;
mod hhea;
pub mod laws;
mod maxp;
mod metrics;
mod table;

pub use head::LocaFormat;
pub use heights::Heights;
pub use metrics::Metrics;
