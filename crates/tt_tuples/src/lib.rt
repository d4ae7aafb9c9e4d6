//! Tuple variations, as gvar and cvar store them: packed point numbers, packed deltas, and how much of each tuple holds.
#![tactic(auto)]

mod bytes;
mod deltas;
mod header;
pub mod laws;
mod point_numbers;
mod region;
mod source;
mod tuple;
mod tuple_store;
mod tuples;

pub use header::tuple_count;
pub use point_numbers::TuplePoints;
pub use source::{TupleSource, TupleTable};
pub use tuple::Tuple;
pub use tuple_store::TupleStore;
pub use tuples::Tuples;
