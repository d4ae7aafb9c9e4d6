//! A font at a size as a file of bitmaps, from a reader to a writer.
//!
//! ```text
//! font_file.rt    a request
//! characters.rt   the ranges and the glyphs of a file
//! lacking.rt      the characters of a text that a font lacks
//! facts.rt        the facts of a font in its file
//! bitmaps.rt      the bitmaps of a file's characters
//! made.rt         the text of a file
//! report.rt       what is reported of a file
//! answers.rt      the file by a face, and its report
//! writing.rt      reads a font and writes its file
//! help.rt         the second line about a refused file
//! ```
#![tactic(auto)]

mod answers;
mod bitmaps;
mod characters;
mod facts;
mod font_file;
mod help;
mod lacking;
mod made;
mod report;
mod writing;

pub use font_file::FontFile;
pub use help::bdf_help;
pub use tt_bdf::CodeRange;
pub use tt_render_settings::Labelled;
pub use writing::write_bdf;
