//! The interpreter's stack, and the instructions that change it alone: pushing, managing the stack, arithmetic and
//! logic. Apple TrueType Reference Manual, "Instruction set".
#![tactic(auto)]

mod arithmetic;
mod instruction;
pub mod laws;
mod logic;
mod managing;
mod pushing;
mod stack;

pub use arithmetic::compute;
pub use instruction::{Arithmetic, Logic, Managing};
pub use logic::evaluate;
pub use managing::manage;
pub use pushing::{push_bytes, push_words};
pub use stack::Stack;
