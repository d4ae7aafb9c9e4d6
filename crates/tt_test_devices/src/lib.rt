//! Tests of `Device` beyond its contract: calls that are interrupted, fail or move nothing. Scripts in the folder
//! tests/ run other cases.
#![tactic(auto)]

#[cfg(test)]
mod device_tests;
#[cfg(test)]
mod devices;
