//! A text drawn into a caller's room.

ghost use Rattle.tt_c_calls.specs.Pictures.{DrawsBand};

use crate::answer::{CAnswer, answer_of};
use crate::asked::TextRequest;
use crate::pictures::{Band, CPicture, picture_of, write_band};
use std::alloc::Global;

/// Draws a band of the picture of a text. `rows` gets the rows one after the other at its front, the highest first, the
/// leftmost pixel in the highest bit, 1 for black. `told` describes the whole picture. This is the picture that `run`
/// writes for the font, text and job, or, with `grow`, that picture enlarged so that no ink is cut. The rows before the
/// band are passed over.
///
/// Answers: done, with the bytes and rows of the band; the font is refused, too large, or the job refused; memory was
/// refused; the text is not UTF-8; the room is too small, with the bytes and rows needed. Unless the answer is done,
/// `rows` and `told` are unchanged.
pub fn draw_band(
    alloc: Global,
    request: &TextRequest,
    band: Band,
    rows: &mut [u8],
    told: &mut CPicture,
) -> CAnswer
    ensures { DrawsBand request.now.job.now request.now.text.now request.now.font.now band.first band.count rows.old rows.new told.old told.new result }
{
    let mut picture = match picture_of(alloc, request) {
        Ok(picture) => picture,
        Err(fault) => return answer_of(fault),
    };
    write_band(&mut picture, band.first, band.count, rows, told)
}
