//! The room that the rows of lines need, before there is any.

ghost use Rattle.std.specs.Prelude.{◌≡◌, ℕ, List, IfOk};
ghost use Rattle.tt_core.specs.Outcomes.{GivesUnless, IfTold};
ghost use Rattle.tt_c_calls.specs.Asked.{IsAskedDefect};
ghost use Rattle.tt_c_calls.specs.LineRooms.{TellsRoom, line_room};
ghost use Rattle.tt_c_calls.specs.Lines.{IsStrikeFor, line_taken};
ghost use Rattle.tt_c_calls.specs.Refusals.{call_font_fault, call_refusal};

use crate::answer::{CAnswer, DONE, answer_of, sized};
use crate::asked::{CJob, text_of};
use crate::fault::CallFault;
use crate::line_drawing::{Texts, is_blank, stopped};
use crate::opening::job_face;
use std::alloc::Global;
use tt_core::JobFault;
use tt_render_lines::make_picture;
use tt_render_settings::{Setting, lines_budget};
use tt_strike::{Strike, test_job};

/// The need of a line: the bytes of its rows, and its cost, which the budget of the call pays.
#[derive(Clone, Copy)]
struct LineNeed {
    bytes: usize,
    cost: u64,
}

/// The need of a line, whose rows are not made. A blank line needs nothing. Errors: those of `text_of` and
/// `make_picture`.
fn line_need(strike: &mut Strike, job: &CJob, line: &[u8]) -> Result<LineNeed, CallFault>
    ghost font: { List ℕ }
    requires { IsStrikeFor job.now font strike.old }
    ensures exact { GivesUnless call_refusal (λ n. n.bytes) result (line_room job.now font line.now) }
    ensures cost { IfOk result (λ n. line_taken job.now font line.now ≡ n.cost) }
    ensures defects { IfTold call_font_fault result (IsAskedDefect job.now line.now font) }
    ensures strike { strike.new ≡ record strike.old { kept = strike.new.kept } }
{
    if is_blank(job, line) {
        return Ok(LineNeed { bytes: 0, cost: 0 });
    }
    let text = text_of(line)?;
    let picture = make_picture(strike, job.grows(), text, job.margin)?;
    Ok(LineNeed {
        bytes: picture.row_bytes() * picture.height() as usize,
        cost: picture.cost(),
    })
}

/// The room for lines by a strike, as `lines_room` says.
fn room_by(strike: &mut Strike, job: &CJob, texts: &[u8], ends: &[u64]) -> CAnswer
    ghost font: { List ℕ }
    requires { IsStrikeFor job.now font strike.old }
    ensures { TellsRoom job.now font texts.now ends.now result }
{
    let mut from = 0;
    let mut used: usize = 0;
    let mut taken = 0;
    for i in 0..ends.len() {
        let end = ends[i];
        if end < from as u64 || end > texts.len() as u64 {
            return stopped(answer_of(CallFault::LineEnds), used, i);
        }
        let budget = lines_budget(i as u64);
        if taken > budget {
            let spent = CallFault::Job(JobFault::WorkLarge);
            return stopped(answer_of(spent), used, i);
        }
        let line = &texts[from..end as usize];
        let need = match line_need(strike, job, line) {
            Ok(need) => need,
            Err(fault) => return stopped(answer_of(fault), used, i),
        };
        used = used.saturating_add(need.bytes);
        taken += u128::from(need.cost);
        from = end as usize;
    }
    sized(DONE, used as u64, ends.len() as u64)
}

/// The room that `draw_lines` needs for the rows of all lines: the bytes, and the number of lines. Each glyph is made as
/// by `draw_lines`, and no row is. Between lines at most `keep` bytes of glyphs are cached.
///
/// Answers, the first of these:
/// - the way to fit, the number of values of axes, the size or the margin is refused, or the font is too large or refused;
/// - memory was refused;
/// - the answer of the first line that `draw_lines` refuses, with the number of the lines before it and the bytes of
///   their rows;
/// - done. Bytes past 2 ^ 64 - 1, which no room has, are answered as 2 ^ 64 - 1.
pub fn lines_room(alloc: Global, font: &[u8], texts: &Texts<'_>, job: &CJob, keep: usize) -> CAnswer
    ensures { TellsRoom job.now font.now texts.now.bytes.now texts.now.ends.now result }
{
    let fit = match job.tested_fit() {
        Ok(fit) => fit,
        Err(fault) => return answer_of(fault),
    };
    // A text of no characters is never too long.
    let setting = Setting::plain(job.size, job.margin, fit, job.opening(fit));
    if let Err(fault) = test_job(&setting.job("")) {
        return answer_of(CallFault::Job(fault));
    }
    let face = match job_face(font, job, fit) {
        Ok(face) => face,
        Err(fault) => return answer_of(fault),
    };
    let mut strike = match Strike::new(alloc, &face, job.size, fit, keep) {
        Ok(strike) => strike,
        Err(fault) => return answer_of(CallFault::from(fault)),
    };
    room_by(&mut strike, job, texts.bytes, texts.ends)
}
