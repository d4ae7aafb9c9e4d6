//! The calls of the C library, with fonts, texts and answers in C's types. The crate tt_c exports each. Labels are in
//! tt_c_labels, lists of axes and instances in tt_c_instances, which use what this crate has for all calls.
#![tactic(auto)]

mod answer;
mod asked;
mod drawing;
mod fault;
mod glyph_bitmaps;
pub mod laws;
mod laying_out;
mod line_drawing;
mod mapping;
mod measuring;
mod messages;
mod offsets;
mod opening;
mod pictures;
mod room_asking;
mod strikes;
mod variation;

pub use answer::{CAnswer, DONE, ROOM, answer_of, sized};
pub use asked::{CJob, TextRequest, face_reading, fit_of, heights_asked, text_of};
pub use drawing::draw_band;
pub use fault::CallFault;
pub use glyph_bitmaps::{CBitmap, draw_glyphs};
pub use laying_out::{CLayout, CPen, layout, pens};
pub use line_drawing::{CLine, Texts, draw_lines};
pub use mapping::{CGlyph, map, selector_of};
pub use measuring::{CBox, CCharacter, CMeasure, characters, measure};
pub use messages::message;
pub use opening::{CFont, face_of, faces, open, opened_face, plain_face};
pub use pictures::{Band, CPicture, told_of, write_band};
pub use room_asking::lines_room;
pub use strikes::{CStrike, CUnderline, strike};
pub use variation::{AXES_MOST, CAxis, JobInstance, test_axes};
