//! A font at a size without a text: the rows of its lines and of its underline.

ghost use Rattle.std.specs.Prelude.{◌≡◌, ◌≢◌, ◌*◌, ◌≤◌, ◌^◌, ◌*ℤ◌, pos, unsigned_abs, IfErr, length};
ghost use Rattle.tt_core.specs.Limits.{font_limit, size_limit};
ghost use Rattle.tt_core.specs.Numbers.{rounded_quotient};
ghost use Rattle.tt_core.specs.Outcomes.{GivesUnless, IfTold};
ghost use Rattle.tt_line.specs.Steps.{at_least};
ghost use Rattle.tt_metrics.specs.Head.{smallest_em};
ghost use Rattle.tt_c_calls.specs.Asked.{IsAskedFaceDefect};
ghost use Rattle.tt_c_calls.specs.declared.fault.CallFault.TheVariants as call;
ghost use Rattle.tt_c_calls.specs.Refusals.{call_font_fault, call_refusal};
ghost use Rattle.tt_c_calls.specs.Strikes.{TellsStrike, no_underline, post_number, strike_told, strike_wanted, underline_by, underline_told};

use crate::answer::{CAnswer, DONE, answer_of, sized};
use crate::asked::CJob;
use crate::fault::CallFault;
use crate::opening::job_face;
use tt_core::{Dir, Reading, i16_at, rq};
use tt_line::{LineSize, size_by_steps};
use tt_render_settings::Setting;
use tt_strike::test_job;

/// The underline of a font at a size. All is 0 where the font has none.
#[repr(C)]
#[derive(Clone, Copy)]
pub struct CUnderline {
    /// 0 where the font has no underline.
    pub exists: u64,
    /// Rows from the base line up to the upper edge, so mostly negative.
    pub top: i64,
    /// Rows of the underline, at least 1.
    pub thickness: u64,
}

/// A font at a size, without a text.
#[repr(C)]
#[derive(Clone, Copy)]
pub struct CStrike {
    /// Rows of a line above its base line, without a margin.
    pub rise: i64,
    /// Rows of a line below its base line, without a margin.
    pub depth: i64,
    /// Rows between the descent of a line and the ascent of the next.
    pub gap: u64,
    /// Rows from one base line to the next, at least 1.
    pub step: u64,
    pub underline: CUnderline,
}

/// Font units at a size, before they are divided by the units of an em.
fn units_at(units: i16, ppem: u32) -> i64
    requires { ppem ≤ size_limit }
    ensures exact { result ≡ units *ℤ pos ppem }
    ensures bound { unsigned_abs result ≤ size_limit * 2 ^ 15 }
{
    i64::from(i32::from(units) * ppem as i32)
}

/// Font units as rows, rounded to the nearest, a half up.
fn rows_at(units: i16, ppem: u32, em: u16) -> i64
    requires size { ppem ≤ size_limit }
    requires em { smallest_em ≤ em }
    ensures { result ≡ rounded_quotient (units *ℤ pos ppem) (pos em) }
{
    rq(units_at(units, ppem), i64::from(em))
}

/// A number of rows, or 1 where that is more.
fn at_least_one(rows: i64) -> u64
    ensures { result ≡ at_least 1 rows }
{
    if rows < 1 {
        return 1;
    }
    rows.unsigned_abs()
}

/// The underline of a font that has none.
fn no_underline() -> CUnderline
    ensures { result ≡ no_underline }
{
    CUnderline {
        exists: 0,
        top: 0,
        thickness: 0,
    }
}

/// The underline of this place and this thickness in font units, if both exist and the thickness is above 0.
fn underline_told(top: Option<i16>, thickness: Option<i16>, ppem: u32, em: u16) -> CUnderline
    requires size { ppem ≤ size_limit }
    requires em { smallest_em ≤ em }
    ensures { result ≡ underline_told top thickness ppem em }
{
    let Some(top) = top else {
        return no_underline();
    };
    let Some(thickness) = thickness else {
        return no_underline();
    };
    if thickness <= 0 {
        return no_underline();
    }
    CUnderline {
        exists: 1,
        top: rows_at(top, ppem, em),
        thickness: at_least_one(rows_at(thickness, ppem, em)),
    }
}

/// The signed number at an offset of the table post. None where the font has no such table, or the table or the number
/// passes an end.
#[tactic(auto, unfolding(crate::specs::Strikes::post_number))]
fn post_number(dir: &Dir, at: usize) -> Option<i16>
    ensures { result ≡ post_number dir.now at }
{
    let Ok(Some(post)) = dir.table(*b"post") else {
        return None;
    };
    i16_at(post, at)
}

/// The underline of the face that a reading names.
fn underline_by(font: &[u8], reading: Reading, ppem: u32, em: u16) -> CUnderline
    requires file { length font.now ≤ font_limit }
    requires size { ppem ≤ size_limit }
    requires em { smallest_em ≤ em }
    ensures { result ≡ underline_by font.now reading ppem em }
{
    let Ok(dir) = Dir::read(font, reading) else {
        return no_underline();
    };
    underline_told(post_number(&dir, 8), post_number(&dir, 10), ppem, em)
}

/// A strike for C, by the size of a line.
fn strike_of(size: LineSize, underline: CUnderline) -> CStrike
    ensures { result ≡ strike_told size underline }
{
    CStrike {
        rise: i64::from(size.rise),
        depth: i64::from(size.depth),
        gap: u64::from(size.gap),
        step: u64::from(size.step),
        underline,
    }
}

/// The strike of a job without a text: that of a line of one column. Errors, the first of: UnknownFit, AxesMany; SizeRange,
/// MarginRange; FontLarge; those of the tables that every text needs; EmptyPicture, PictureLarge.
#[tactic(auto, unfolding(crate::specs::Strikes::strike_wanted))]
fn strike_for(font: &[u8], job: &CJob) -> Result<CStrike, CallFault>
    ensures exact { GivesUnless call_refusal (λ s. s) result (strike_wanted job.now font.now) }
    ensures memory { IfErr result (λ f. f ≢ call.Memory) }
    ensures defects { IfTold call_font_fault result (IsAskedFaceDefect job.now font.now) }
{
    let fit = job.tested_fit()?;
    // A text of no characters is never too long.
    test_job(&Setting::plain(job.size, job.margin, fit, job.opening(fit)).job(""))?;
    let face = job_face(font, job, fit)?;
    let metrics = face.metrics();
    let size = size_by_steps(metrics, &[(0, 1)], job.size, job.margin)?;
    let em = metrics.units_per_em();
    Ok(strike_of(size, underline_by(font, job.reading(fit), job.size, em)))
}

/// Writes a font at a size, without a text: the rows of its lines, and its underline. Answers: done; the font is refused,
/// too large, or the job refused. It takes no memory. Unless the answer is done, `told` is unchanged.
pub fn strike(font: &[u8], job: &CJob, told: &mut CStrike) -> CAnswer
    ensures { TellsStrike job.now font.now told.old told.new result }
{
    match strike_for(font, job) {
        Ok(strike) => {
            *told = strike;
            sized(DONE, 0, 0)
        }
        Err(fault) => answer_of(fault),
    }
}
