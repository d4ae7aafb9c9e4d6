//! One step of the bytecode machine: its state, the flow of control, functions, and the instruction of each opcode. Apple
//! TrueType Reference Manual, "Instructing TrueType Glyphs" and "Instruction set".
//!
//! ```text
//! program.rt         programs, the functions that they define, and frames
//! function_table.rt  functions by number
//! callers.rt         the frames that wait
//! machine_state.rt   the state of a machine during a run
//! outcome.rt         the outcome of an instruction
//! families.rt        the instructions of each family: on the stack, on the settings, on points
//! flow.rt            those that change the place of the next instruction
//! functions.rt       those that define and call functions
//! opcode.rt          the instruction of each opcode
//! table.rt           what each opcode takes, and its work
//! stepping.rt        one step
//! laws.rt            laws of steps one after another
//! ```
#![tactic(auto)]

mod callers;
mod families;
mod flow;
mod function_table;
mod functions;
pub mod laws;
mod machine_state;
mod opcode;
mod outcome;
mod program;
mod stepping;
mod table;

pub use callers::Callers;
pub use function_table::Functions;
pub use machine_state::{Kind, MachineState};
pub use outcome::Outcome;
pub use program::{Body, CallFrame, Code, Definition};
pub use table::fixed_work;
pub use tt_exec_points::{Originals, Points, Zones};
pub use tt_exec_stack::Stack;
pub use tt_exec_state::{Instance, Size};
