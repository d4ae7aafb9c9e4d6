//! The instruction stream of TrueType programs: decoding an instruction, and finding the end of a skip.
#![tactic(auto)]

mod decoding;
mod skips;

pub use decoding::{Halt, Instr, decode, plain_opcode};
pub use skips::{skip_def, skip_else, skip_if};
