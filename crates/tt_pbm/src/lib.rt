//! A black and white picture in Netpbm's format P4, short texts of ASCII, and writing all bytes.
#![tactic(auto)]

mod ascii;
mod header;
mod writing;

pub use ascii::Ascii;
pub use header::{HEADER_ROOM, Header, p4_header};
pub use writing::{Cut, write_all_of};
