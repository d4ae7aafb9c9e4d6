//! How texts, lines and labels are drawn, and their definitions.
//!
//! ```text
//! setting.rt  how texts are drawn
//! label.rt    how labels are drawn, and why they are not
//! space.rt    the space that a label has to have
//! sides.rt    the sides of a box, in words
//! given.rt    that space, tested
//! help.rt     the second line about a refused label
//! budget.rt   the next line, and what the lines of a call may take
//! missing.rt  refuses a text for a character without a glyph
//! ```
#![tactic(auto)]

mod budget;
mod given;
mod help;
mod label;
mod missing;
mod setting;
mod sides;
mod space;

pub use budget::{Found, earlier, goes_on, lines_budget, next_line, refused_cost};
pub use given::{GivenBox, GivenSpace, GivenWidth};
pub use help::{label_help, label_lines};
pub use label::{Label, Labelled, LabelsDrawn};
pub use missing::none_missing;
pub use setting::{Missing, Product, Setting, test_setting};
pub use sides::BoxSides;
pub use space::{Space, refused_space, test_space};
pub use tt_line::Align;
