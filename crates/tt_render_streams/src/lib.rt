//! Reads a font to its end, forms and writes pictures, and has the messages about a call that fails.
#![tactic(auto)]

mod code_points;
mod drawn;
mod fault;
mod formed;
mod messages;
mod pictures;
mod reading;
mod writing;

pub use code_points::push_name;
pub use drawn::{Drawn, piece_for};
pub use fault::RunFault;
pub use formed::{Formed, PictureFormat, PngFile, form, write_formed};
pub use messages::{line, status, unfitted_line};
pub use pictures::{NotPut, Pictures};
pub use reading::{read_after, read_font};
pub use tt_picture::Unfitted;
pub use writing::write_picture;
