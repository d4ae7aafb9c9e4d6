//! What tt_test_answers prints about edges, pixels and dropouts. The module of each word states the form of its lines.
#![tactic(auto)]

pub mod dropouts;
pub mod pictures;
pub mod pixels;
