//! Reads the lines of a text, and has the messages and reports about texts, lines and labels.
//!
//! ```text
//! lines.rt           reads the lines of a text
//! readings.rt        the reading that a request asks for
//! refusal.rt         why texts are not drawn
//! space_fault.rt     why a label does not stand in a width or a box
//! texts_messages.rt  messages about texts
//! label_reports.rt   what is reported of a label
//! printing.rt        prints messages
//! ```
#![tactic(auto)]

mod label_reports;
mod lines;
mod printing;
mod readings;
mod refusal;
mod space_fault;
mod texts_messages;

pub use label_reports::{CutInk, LabelTold, Signs};
pub use lines::{LINE_LIMIT, LinePlace, LineReader, NextLine};
pub use printing::print_text;
pub use readings::{fit_reading, reading_asked};
pub use refusal::{Refusal, TextsFault, refusal_of_put, refusal_of_run, texts_fault};
pub use space_fault::SpaceFault;
pub use texts_messages::{Messages, named_line, texts_line, texts_status};
pub use tt_render_streams::PictureFormat;
