//! A font at a size, and the pictures of its lines.
#![tactic(auto)]

mod distinct_glyphs;
mod drawing;
mod enlarging;
mod finding;
mod fitting;
mod growing;
mod having;
mod inked;
mod job;
mod laid;
mod laying;
mod layouts;
mod line_box;
mod maker;
mod making;
mod measuring;
mod place_table;
mod programs;
mod sized;
mod source;
mod stepping;
mod steps;
mod strike;
mod work;

pub use distinct_glyphs::{DistinctGlyphs, distinct};
pub use fitting::FittedUnits;
pub use growing::{Sides, grown};
pub use inked::InkedGlyphs;
pub use job::{Job, test_job, test_margin, test_text};
pub use laid::Laid;
pub use layouts::{Layout, Pen, TextPens};
pub use line_box::line_ink;
pub use maker::Maker;
pub use measuring::{CharacterMeasure, Measure};
pub use place_table::PlaceTable;
pub use sized::SizedFace;
pub use source::FitterSource;
pub use steps::put_steps;
pub use strike::Strike;
pub use tt_core::DrawFault;
pub use tt_face::{Face, Heights, LineRules, Opening};
pub use tt_picture::{InkBox, Picture, Report, Unfitted};
pub use work::{CHORD_LIMIT, charge_asked, crossings_allowed, is_bounded};
