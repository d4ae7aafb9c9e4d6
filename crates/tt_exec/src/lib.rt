//! The bytecode machine: it runs the programs of a font. Apple TrueType Reference Manual, "Instructing TrueType Glyphs"
//! and "Instruction set". The machine's state and its steps are in tt_exec_step.
#![tactic(auto)]

mod copies;
mod fault;
pub mod laws;
mod machine;
mod parts;
mod paying;
mod running;
mod work;

pub use copies::Copies;
pub use fault::ExecFault;
pub use machine::Machine;
pub use parts::Parts;
pub use tt_exec_step::{Body, Code, Functions, Instance, Originals, Zones};
pub use work::{Work, WorkFault};
