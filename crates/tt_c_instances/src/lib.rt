//! What the C library tells of variable fonts: the axes and the named instances of a face, and the map of a text at an
//! instance. The crate tt_c exports each.
//!
//! ```text
//! variation_lists.rt  axes and named instances in a caller's room
//! mapping.rt          the glyphs of a text's units by a job
//! ```
#![tactic(auto)]

mod mapping;
mod variation_lists;

pub use mapping::map_job;
pub use variation_lists::{CAxisRange, CInstance, axes, instances};
