//! A question to a program for tests: a line of words, and the answer to it.
#![tactic(auto)]

mod line;
mod words;

pub use line::Line;
pub use words::MOST;
