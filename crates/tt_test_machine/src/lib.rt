//! What tt_test_answers prints about runs of the bytecode machine, and about faults.
#![tactic(auto)]

pub mod faults;
pub mod machine;
