//! A black and white picture as a file in PNG. RFC 2083, "PNG Specification"; RFC 1950 and RFC 1951 for its data.
#![tactic(auto)]

mod adler;
mod blocks;
mod chunks;
mod crc;
mod file;
pub mod laws;

pub use file::png;
