//! Draws texts as labels by a font, from a reader to a writer. The calls that draw one text, or lines, are those of
//! tt_render_lines; `run` and `map` are those of tt_render_run.
#![tactic(auto)]

mod label_answers;
mod label_drawing;
mod label_spaces;
mod label_texts;
mod signs;

pub use label_drawing::{draw_label, draw_labels};
pub use label_texts::lines_lacking;
