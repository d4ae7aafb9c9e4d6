//! The outcome of an instruction.

use tt_core::Why;

/// The outcome of an instruction, in two bytes, so that it fits in registers. A run that halts makes a fault of it.
#[derive(Clone, Copy)]
pub enum Outcome {
    Done,
    /// The instruction is refused.
    Refused(Why),
    /// Its skip is refused, at the frame's place.
    SkipRefused(Why),
    /// Memory ran out.
    NoMemory,
}
