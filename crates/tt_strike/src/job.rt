//! The job of `run`, and the tests of a job and a text before the font is read.

ghost use Rattle.std.specs.Prelude.{◌≡◌, ◌<◌, ◌≤◌, false, nat_lt, length, chars, IfErr, OnOk};
ghost use Rattle.tt_core.specs.declared.fault.JobFault.TheVariants.{MarginRange, TextLong};
ghost use Rattle.tt_core.specs.Limits.{margin_limit, size_limit, text_limit};
ghost use Rattle.tt_core.specs.Outcomes.{Gives};
ghost use Rattle.tt_strike.specs.Job.{job_view, margin_tested, size_tested, tested, text_tested, IsJob, IsSizeRefusal, IsTestRefusal};
ghost use Rattle.tt_strike.specs.Refusals.{needs_font};

use tt_core::{JobFault, MARGIN_LIMIT, SIZE_LIMIT, TEXT_LIMIT};
use tt_face::Opening;
use tt_fit::Fit;

/// A line of text to be drawn.
#[derive(Clone, Copy)]
pub struct Job<'a> {
    pub text: &'a str,
    /// Pixels per em, 1 to 300.
    pub ppem: u32,
    /// Pixels round the line, 0 to 64.
    pub margin: u32,
    pub fit: Fit,
    /// Which face draws, how the font's file is read, and how lines are laid out. Clauses name this beside the job.
    pub opening: Opening,
}

/// Tests a size. Error: SizeRange.
#[tactic(auto, unfolding(crate::specs::Job::size_tested))]
pub(crate) fn test_size(ppem: u32) -> Result<(), JobFault>
    ensures exact { Gives (λ u. u) result (size_tested ppem) }
    ensures valid { OnOk result ((1 ≤ ppem) × (ppem ≤ size_limit)) }
    ensures refused { IfErr result (IsSizeRefusal ppem) }
{
    if ppem < 1 || ppem > SIZE_LIMIT {
        return Err(JobFault::SizeRange);
    }
    Ok(())
}

/// Tests a margin. Error: MarginRange.
#[tactic(auto, unfolding(crate::specs::Job::margin_tested))]
pub fn test_margin(margin: u32) -> Result<(), JobFault>
    ensures exact { Gives (λ u. u) result (margin_tested margin) }
    ensures valid { OnOk result (margin ≤ margin_limit) }
    ensures refused { IfErr result (λ j. (j ≡ MarginRange) × (margin_limit < margin)) }
{
    if margin > MARGIN_LIMIT {
        return Err(JobFault::MarginRange);
    }
    Ok(())
}

/// Tests a job. Errors, the first of: SizeRange, MarginRange, TextLong.
#[tactic(auto, unfolding(crate::specs::Job::tested))]
pub fn test_job(job: &Job) -> Result<(), JobFault>
    ensures exact { Gives (λ u. u) result (tested (job_view job.now)) }
    ensures valid { OnOk result (IsJob (job_view job.now)) }
    ensures first { IfErr result (λ j. needs_font j ≡ false) }
    ensures refused { IfErr result (IsTestRefusal (job_view job.now)) }
{
    test_size(job.ppem)?;
    test_margin(job.margin)?;
    test_text(job.text)
}

/// Tests a text. Error: TextLong.
#[tactic(auto, unfolding(crate::specs::Job::text_tested))]
pub fn test_text(text: &str) -> Result<(), JobFault>
    ensures exact { Gives (λ u. u) result (text_tested text.now) }
    ensures few { OnOk result (length (chars text.now) ≤ text_limit) }
    ensures first { IfErr result (λ j. needs_font j ≡ false) }
    ensures refused { IfErr result (λ j. (j ≡ TextLong) × (text_limit < length (chars text.now))) }
{
    if is_long(text) {
        return Err(JobFault::TextLong);
    }
    Ok(())
}

/// Whether a text has more characters than the limit.
fn is_long(text: &str) -> bool
    ensures { result ≡ nat_lt text_limit (length (chars text.now)) }
{
    // A character has at least one byte, so a short text need not be counted.
    text.len() > TEXT_LIMIT && text.chars().count() > TEXT_LIMIT
}
