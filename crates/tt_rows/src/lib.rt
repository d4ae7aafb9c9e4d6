//! The rows into which a label's line is broken, their places in a box, and composed letters.
#![tactic(auto)]

mod breaking;
mod breaks;
mod classes;
mod composing;
mod fitting;
pub mod laws;
mod places;
mod row;
mod row_line;
mod unit;
mod units;

pub use breaking::{row_from, rows};
pub use composing::{composed, has_pair};
pub use places::{base_line, first_base_line, left_of, rows_height};
pub use row::LineRow;
pub use row_line::row_steps;
pub use unit::RowUnit;
pub use units::row_units;
