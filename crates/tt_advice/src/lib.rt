//! The words for people about a refused font or job, and about a picture.
#![tactic(auto)]

mod advising;
mod hint;
mod kinds;
pub mod laws;
mod notes;
mod shown;
mod signs;

pub use advising::{advice, axis_advice, has_record};
pub use hint::{FixedHint, Hint, hint_line};
pub use notes::font_notes;
pub use shown::shown_words;
pub use signs::{Sign, is_plain};
