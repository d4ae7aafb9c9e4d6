//! Bitmap fonts as text: Adobe's Glyph Bitmap Distribution Format, version 2.1.
#![tactic(auto)]

mod asked;
mod bitmap;
mod character;
mod default_character;
mod extent;
mod file;
mod font;
mod head;
pub mod laws;
mod range;
mod spacing;
mod style;

pub use asked::{file_characters, push_text};
pub use character::BdfCharacter;
pub use file::bdf_file;
pub use font::BdfFont;
pub use range::{CodeRange, read_ranges};
pub use style::{family_name, is_bold, is_italic};
