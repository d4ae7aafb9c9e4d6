//! The basis of every reader of a TrueType font: numbers, the table directory, faults and devices.
#![tactic(auto)]

mod collection;
mod cutting;
mod device;
mod directory;
mod draw_fault;
mod fault;
mod font_fault;
mod halves;
pub mod laws;
mod limits;
mod number;
mod scaling;

pub use collection::{Reading, face_count};
pub use cutting::cut;
pub use device::{Device, IoFailed, Sink, Source};
pub use directory::Dir;
pub use draw_fault::DrawFault;
pub use fault::{Fault, JobFault, Why};
pub use font_fault::FontFault;
pub use halves::{Halves, quotient};
pub use limits::{
    AXIS_LIMIT, BEST_LEVEL_LIMIT, CALL_LIMIT, COMPONENT_LIMIT, COORDINATE_LIMIT, CROSSING_LIMIT,
    FONT_LIMIT, HEIGHT_LIMIT, LEVEL_LIMIT, MARGIN_LIMIT, POINT_LIMIT, POINT_WORK_LIMIT, SIZE_LIMIT,
    STACK_LIMIT, STEP_LIMIT, TEXT_LIMIT, WIDTH_LIMIT, WORK_LIMIT,
};
pub use number::{i16_at, i32_at, rq, u16_at, u24_at, u32_at};
pub use scaling::Scale;
