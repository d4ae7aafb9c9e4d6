//! A label drawn into a caller's room.

ghost use Rattle.std.specs.Prelude.{◌≡◌, ◌≢◌};
ghost use Rattle.tt_picture.specs.Pictures.{IsReady};
ghost use Rattle.tt_c_calls.specs.Pictures.{IsBandSmall};
ghost use Rattle.tt_c_labels.specs.Labels.{DrawsLabel, IsLabelWritten};

use crate::drawing::{DrawnLabel, label_of};
use crate::request::LabelRequest;
use std::alloc::Global;
use tt_c_calls::{CAnswer, CPicture, answer_of, told_of, write_band};

/// A label without its pixels.
#[repr(C)]
#[derive(Clone, Copy)]
pub struct CLabel {
    pub picture: CPicture,
    /// The size that was drawn, in pixels per em.
    pub size: u64,
    /// The columns of ink that were cut at the left.
    pub cut_left: u64,
    /// The columns of ink that were cut at the right.
    pub cut_right: u64,
    /// The number of distinct characters without a glyph, after letters were composed.
    pub missing: u64,
}

/// Writes a label at the front of a caller's room, and describes it. Answers: done; or the room is too small, and nothing
/// is written.
fn write_label(label: DrawnLabel, room: &mut [u8], told: &mut CLabel) -> CAnswer
    requires { IsReady label.picture }
    ensures done { result.status ≡ 0 → IsLabelWritten label room.old room.new told.new result }
    ensures small { result.status ≢ 0 → IsBandSmall label.picture 0 4096 room.old result }
    ensures kept { result.status ≢ 0 → room.new ≡ room.old }
    ensures told_kept { result.status ≢ 0 → told.new ≡ told.old }
{
    let DrawnLabel {
        mut picture,
        size,
        left,
        right,
        missing,
    } = label;
    let mut known = told_of(&picture);
    // A picture has at most 4,096 rows.
    let answer = write_band(&mut picture, 0, 4096, room, &mut known);
    if answer.status == 0 {
        *told = CLabel {
            picture: known,
            size: u64::from(size),
            cut_left: left,
            cut_right: right,
            missing,
        };
    }
    answer
}

/// Draws the label of a text, whose lines end at line feeds. `rows` gets the rows of its picture one after the other at its
/// front, the highest first, the leftmost pixel in the highest bit, 1 for black. The label is described too. Without
/// a width this is the picture that the command `label` writes for the font, text and job.
///
/// Answers: done, with the bytes and rows of the picture; the font is refused, too large, or the job refused; memory was
/// refused; the text is not UTF-8; the room is too small, with the bytes and rows needed. Unless the answer is done,
/// nothing is written.
pub fn label(alloc: Global, request: &LabelRequest, rows: &mut [u8], told: &mut CLabel) -> CAnswer
    ensures { DrawsLabel request.now.job.now request.now.text.now request.now.font.now rows.old rows.new told.old told.new result }
{
    let drawn = match label_of(alloc, request) {
        Ok(drawn) => drawn,
        Err(fault) => return answer_of(fault),
    };
    write_label(drawn, rows, told)
}
