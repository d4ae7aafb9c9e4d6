//! The picture of a text, and its rows in a caller's room.

ghost use Rattle.std.specs.Prelude.{◌≡◌, ◌≢◌, ◌*◌, ◌+◌, ◌-◌, ◌<◌, ◌≤◌, min, length, take, drop, Ok, IfOk};
ghost use Rattle.tt_core.specs.Bits.{stride};
ghost use Rattle.tt_core.specs.Outcomes.{GivesUnless};
ghost use Rattle.tt_strike.specs.Defects.{TellsDefects};
ghost use Rattle.tt_picture.specs.Pictures.{IsReady, image_of};
ghost use Rattle.tt_c_calls.specs.Asked.{IsAskedDefect};
ghost use Rattle.tt_c_calls.specs.Pictures.{IsBandSmall, IsBandWritten, IsPictureOf, band_of, band_rows, picture_told, picture_wanted};
ghost use Rattle.tt_c_calls.specs.Answers.{room_answer};
ghost use Rattle.tt_c_calls.specs.Refusals.{call_font_fault, call_refusal};

use crate::answer::{CAnswer, DONE, ROOM, sized};
use crate::asked::{TextRequest, job_of};
use crate::fault::CallFault;
use crate::opening::job_face;
use std::alloc::Global;
use tt_render_lines::make_picture;
use tt_strike::{Picture, Strike, test_job};

/// A picture without its pixels.
#[repr(C)]
#[derive(Clone, Copy)]
pub struct CPicture {
    /// Pixels in a row: 1 to 16,384.
    pub width: u32,
    /// Rows: 1 to 4,096.
    pub height: u32,
    /// The bytes of a row: a bit for each pixel, and up to seven bits more, which are 0.
    pub row_bytes: u64,
    /// The number of rows above the base line. Below 0, or more than the picture has, where the base line is outside.
    pub baseline: i64,
    /// The number of distinct glyphs drawn unfitted although the job requests fitting.
    pub unfitted: u64,
}

/// The rows of a picture that a caller wants: at most `count` from row `first` on.
#[derive(Clone, Copy)]
pub struct Band {
    pub first: u32,
    pub count: u32,
}

/// A picture's description for C.
pub fn told_of(picture: &Picture) -> CPicture
    ensures { result ≡ picture_told picture.now }
{
    CPicture {
        width: picture.width(),
        height: picture.height(),
        row_bytes: picture.row_bytes() as u64,
        baseline: picture.baseline(),
        unfitted: picture.unfitted().len() as u64,
    }
}

/// The picture of a text by a font file. Errors, the first of: UnknownFit, AxesMany, NotUtf8; SizeRange, MarginRange, TextLong;
/// FontLarge; those of the tables that every text needs; those of `make_picture`.
#[tactic(auto, unfolding(crate::specs::Pictures::picture_wanted))]
pub(crate) fn picture_of(alloc: Global, request: &TextRequest) -> Result<Picture, CallFault>
    ensures exact { GivesUnless call_refusal image_of result (picture_wanted request.now.job.now request.now.text.now request.now.font.now) }
    ensures picture { IfOk result (IsPictureOf request.now.job.now request.now.text.now request.now.font.now) }
    ensures defects { TellsDefects call_font_fault (IsAskedDefect request.now.job.now request.now.text.now request.now.font.now) result }
{
    let asked = job_of(request.job, request.text)?;
    test_job(&asked)?;
    let face = job_face(request.font, request.job, asked.fit)?;
    let mut strike = Strike::new(alloc, &face, asked.ppem, asked.fit, 0)?;
    let picture = make_picture(&mut strike, request.job.grows(), asked.text, asked.margin)?;
    Ok(picture)
}

/// Writes a band of a picture at the front of a caller's room: at most `count` rows from row `first` on. Describes the
/// picture in `told`. Answers: done; or the room is too small, and `room` and `told` are unchanged.
pub fn write_band(
    picture: &mut Picture,
    first: u32,
    count: u32,
    room: &mut [u8],
    told: &mut CPicture,
) -> CAnswer
    requires { IsReady picture.old }
    ensures done { result.status ≡ 0 → IsBandWritten picture.old first count room.old room.new told.new result }
    ensures small { result.status ≢ 0 → IsBandSmall picture.old first count room.old result }
    ensures kept { result.status ≢ 0 → room.new ≡ room.old }
    ensures told_kept { result.status ≢ 0 → told.new ≡ told.old }
{
    let count = count.min(picture.height().saturating_sub(first));
    let wanted = picture.row_bytes() * count as usize;
    if wanted > room.len() {
        return sized(ROOM, wanted as u64, u64::from(count));
    }
    *told = told_of(picture);
    if count > 0 {
        picture.skip_rows(first);
        picture.next_rows(count, &mut room[..wanted]);
    }
    sized(DONE, wanted as u64, u64::from(count))
}
