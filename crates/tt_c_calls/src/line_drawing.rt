//! Lines drawn one after the other by one font.

ghost use Rattle.std.specs.Prelude.{◌≡◌, ◌≢◌, ◌+◌, ◌<◌, ◌≤◌, ℕ, List, length};
ghost use Rattle.tt_c_calls.specs.Answers.{DefectStands};
ghost use Rattle.tt_c_calls.specs.Asked.{IsAskedDefect};
ghost use Rattle.tt_c_calls.specs.Lines.{DrawsLines, DrawsTexts, EndsWith, IsCachedAtEnd, IsLineWritten, IsLinesDefect, IsStrikeFor, IsTextStopped, LineDefectStands, blank_line, is_blank, stopped_answer};

use crate::answer::{CAnswer, DONE, ROOM, answer_of, sized};
use crate::asked::{CJob, text_of};
use crate::fault::CallFault;
use crate::opening::job_face;
use crate::pictures::{CPicture, told_of, write_band};
use std::alloc::Global;
use tt_core::JobFault;
use tt_render_lines::make_picture;
use tt_render_settings::{Setting, lines_budget};
use tt_strike::{Strike, test_job};

/// A line that was drawn.
#[repr(C)]
#[derive(Clone, Copy)]
pub struct CLine {
    pub picture: CPicture,
    /// Where its rows begin, in bytes from the start of the caller's room.
    pub at: u64,
}

/// Lines of text one after the other in some bytes. Line i begins where the line before it ends, and ends before byte
/// `ends[i]`.
#[derive(Clone, Copy)]
pub struct Texts<'a> {
    pub bytes: &'a [u8],
    pub ends: &'a [u64],
}

/// Whether a line is blank: the job says so, and the line has no byte.
pub(crate) fn is_blank(job: &CJob, line: &[u8]) -> bool
    ensures { result ≡ is_blank job.now line.now }
{
    job.blank != 0 && line.is_empty()
}

/// The entry of a blank line, whose picture has no column and no row.
fn blank_line(at: usize) -> CLine
    ensures { result ≡ blank_line at }
{
    let picture = CPicture {
        width: 0,
        height: 0,
        row_bytes: 0,
        baseline: 0,
        unfitted: 0,
    };
    CLine {
        picture,
        at: at as u64,
    }
}

/// The answer of a call that a line stopped, by the line's own answer. The `count` lines before it were drawn in `used`
/// bytes.
pub(crate) fn stopped(answer: CAnswer, used: usize, count: usize) -> CAnswer
    requires { used + answer.bytes < 18446744073709551616 }
    ensures { result ≡ stopped_answer answer used count }
{
    CAnswer {
        bytes: used as u64 + answer.bytes,
        count: count as u64,
        ..answer
    }
}

/// Draws a line at the front of a room, which is at place `at` of the caller's room. Answers as `draw_band`, for the
/// whole picture; a blank line is done at once. Beside the answer it returns what the line takes of the budget of the call.
fn draw_line(
    strike: &mut Strike,
    job: &CJob,
    line: &[u8],
    at: usize,
    room: &mut [u8],
    told: &mut CLine,
) -> (CAnswer, u64)
    ghost font: { List ℕ }
    requires { IsStrikeFor job.now font strike.old }
    ensures done { result.0.status ≡ 0 → IsLineWritten job.now font line.now at room.old room.new told.new result.0 result.1 }
    ensures stopped { result.0.status ≢ 0 → IsTextStopped job.now font line.now (length room.old) result.0 }
    ensures bytes { result.0.bytes ≤ 8388608 }
    ensures kept { result.0.status ≢ 0 → room.new ≡ room.old }
    ensures told_kept { result.0.status ≢ 0 → told.new ≡ told.old }
    ensures strike { strike.new ≡ record strike.old { kept = strike.new.kept } }
    ensures stands { DefectStands (IsAskedDefect job.now line.now font) result.0 }
{
    if is_blank(job, line) {
        *told = blank_line(at);
        return (sized(DONE, 0, 0), 0);
    }
    let text = match text_of(line) {
        Ok(text) => text,
        Err(fault) => return (answer_of(fault), 0),
    };
    let mut picture = match make_picture(strike, job.grows(), text, job.margin) {
        Ok(picture) => picture,
        Err(fault) => return (answer_of(CallFault::from(fault)), 0),
    };
    let cost = picture.cost();
    let height = picture.height();
    let mut known = told_of(&picture);
    let answer = write_band(&mut picture, 0, height, room, &mut known);
    if answer.status == 0 {
        *told = CLine {
            picture: known,
            at: at as u64,
        };
    }
    (answer, cost)
}

/// Draws lines by a strike, as `draw_lines` says.
fn draw_by(
    strike: &mut Strike,
    job: &CJob,
    texts: &[u8],
    ends: &[u64],
    rows: &mut [u8],
    lines: &mut [CLine],
) -> CAnswer
    ghost font: { List ℕ }
    requires strike { IsStrikeFor job.now font strike.old }
    requires lines { length ends.now ≤ length lines.old }
    ensures drawn { (used : ℕ) × DrawsLines job.now font texts.now ends.now rows.old rows.new lines.old lines.new used result.count × EndsWith job.now font texts.now ends.now (length rows.old) used result }
    ensures stands { LineDefectStands (IsLinesDefect job.now font texts.now ends.now result.count) result }
    ensures strike { strike.new ≡ record strike.old { kept = strike.new.kept } }
{
    let mut from = 0;
    let mut used = 0;
    let mut taken = 0;
    for i in 0..ends.len() {
        let end = ends[i];
        if end < from as u64 || end > texts.len() as u64 {
            return stopped(answer_of(CallFault::LineEnds), used, i);
        }
        let budget = lines_budget(i as u64);
        if taken > budget {
            let spent = CallFault::Job(JobFault::WorkLarge);
            return stopped(answer_of(spent), used, i);
        }
        let line = &texts[from..end as usize];
        let (answer, cost) = draw_line(strike, job, line, used, &mut rows[used..], &mut lines[i]);
        if answer.status != 0 {
            return stopped(answer, used, i);
        }
        used += answer.bytes as usize;
        taken += u128::from(cost);
        from = end as usize;
    }
    sized(DONE, used as u64, ends.len() as u64)
}

/// Draws lines one after the other, each as `draw_band` draws its whole picture. The font is opened once and its
/// programs run once. `rows` gets the rows of all lines one after the other, and `lines[i]` describes line i. Between
/// lines at most `keep` bytes of glyphs are cached. Beside the answer the call returns the bytes of the glyphs that are
/// cached at its end.
///
/// Answers, the first of these, where all bytes and entries after the drawn lines are unchanged:
/// - the way to fit, the number of values of axes, the size or the margin is refused, or the font is too large or refused; no line is drawn;
/// - the room for `lines` is too small; no line is drawn, and `count` is the number of all lines;
/// - memory was refused; no line is drawn;
/// - the answer of the line that stopped the call, with the number of the lines before it and the bytes of their rows.
///   Where the room is too small for the line, the bytes include those of its own rows. A line stops the call if it is
///   refused, is not UTF-8, or ends before it begins or past the texts. It also stops the call if it needs more room
///   than remains, or if memory was refused for it. With `best` it is refused where the lines before it took more than
///   10,000,000 and 4,000,000 for each of them;
/// - done, with the bytes and the number of all lines.
pub fn draw_lines(
    alloc: Global,
    font: &[u8],
    texts: &Texts<'_>,
    job: &CJob,
    keep: usize,
    rows: &mut [u8],
    lines: &mut [CLine],
) -> (CAnswer, usize)
    ensures draws { DrawsTexts job.now font.now texts.now.bytes.now texts.now.ends.now rows.old rows.new lines.old lines.new result.0 }
    ensures cached { IsCachedAtEnd job.now font.now keep result.1 }
    ensures most { result.1 ≤ keep }
{
    let ends = texts.ends;
    let fit = match job.tested_fit() {
        Ok(fit) => fit,
        Err(fault) => return (answer_of(fault), 0),
    };
    // A text of no characters is never too long.
    let setting = Setting::plain(job.size, job.margin, fit, job.opening(fit));
    if let Err(fault) = test_job(&setting.job("")) {
        return (answer_of(CallFault::Job(fault)), 0);
    }
    let face = match job_face(font, job, fit) {
        Ok(face) => face,
        Err(fault) => return (answer_of(fault), 0),
    };
    if lines.len() < ends.len() {
        return (sized(ROOM, 0, ends.len() as u64), 0);
    }
    let mut strike = match Strike::new(alloc, &face, job.size, fit, keep) {
        Ok(strike) => strike,
        Err(fault) => return (answer_of(CallFault::from(fault)), 0),
    };
    let answer = draw_by(&mut strike, job, texts.bytes, ends, rows, lines);
    (answer, strike.kept_bytes())
}
