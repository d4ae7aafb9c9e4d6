//! Draws texts and lines by a font, from a reader to a writer.
//!
//! ```text
//! measure_text.rt    a measure as lines of text
//! products.rt        the output of a text, and how it is written
//! text_answers.rt    the answer of a text: its output and its report
//! drawing.rt         draws one text, or the lines of a text
//! layout_texts.rt    a measure without ink as lines of text
//! layout_answers.rt  the answer of a text without its ink
//! layout_drawing.rt  writes that measure
//! ```
#![tactic(auto)]

mod drawing;
mod layout_answers;
mod layout_drawing;
mod layout_texts;
mod measure_text;
mod products;
mod text_answers;

pub use drawing::{LinesDrawn, draw_lines, draw_text};
pub use layout_drawing::write_layout;
pub use products::{make_measure, make_picture};
