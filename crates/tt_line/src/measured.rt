//! The size of a line's picture, and its distance from the next line, without the pens of its glyphs.

ghost use Rattle.std.specs.Prelude.{◌≡◌, ◌<◌, ◌≤◌, ◌^◌, length, map, chars, sum, IfErr, IfOk};
ghost use Rattle.tt_core.specs.Limits.{height_limit, margin_limit, size_limit, text_limit, width_limit};
ghost use Rattle.tt_core.specs.Outcomes.{Gives};
ghost use Rattle.tt_line.specs.Layout.{text_glyphs};
ghost use Rattle.tt_line.specs.Sizes.{line_size};
ghost use Rattle.tt_line.specs.Steps.{linear_steps};

use crate::extent::{test_limits, with_margins};
use crate::known::KnownAdvances;
use crate::label_extent::{gap, line_step};
use crate::pixels::{depth, rise};
use crate::steps::sum_of_steps;
use crate::sums::sum_of_text;
use tt_core::JobFault;
use tt_metrics::Metrics;

/// The size of a line's picture with its margins, and its distance from the next line, in pixels.
#[derive(Clone, Copy, Debug, PartialEq, Eq)]
pub struct LineSize {
    pub width: u32,
    pub height: u32,
    /// From the base line up to the ascent.
    pub rise: i32,
    /// From the base line down to the descent.
    pub depth: i32,
    /// Between the descent of a line and the ascent of the next.
    pub gap: u32,
    /// From one base line to the next.
    pub step: u32,
}

/// The size of a line whose steps have this sum. Errors: EmptyPicture, PictureLarge.
#[tactic(auto, unfolding(crate::specs::Layout::within_limits))]
fn size_by_sum(metrics: &Metrics, ppem: u32, margin: u32, steps: u64) -> Result<LineSize, JobFault>
    requires size { ppem ≤ size_limit }
    requires margin { margin ≤ margin_limit }
    requires steps { steps < 2 ^ 45 }
    ensures exact { Gives (λ z. z) result (line_size metrics.now ppem margin steps) }
    ensures width { IfOk result (λ z. z.width ≤ width_limit) }
    ensures height { IfOk result (λ z. z.height ≤ height_limit) }
{
    let rise = rise(metrics, ppem);
    let depth = depth(metrics, ppem);
    let gap = gap(metrics, ppem);
    let extent = test_limits(with_margins(steps, rise, depth, margin))?;
    Ok(LineSize {
        width: extent.width as u32,
        height: extent.height as u32,
        rise,
        depth,
        gap,
        step: line_step(rise, depth, gap),
    })
}

/// The size of a line by the steps of its glyphs. Errors, the first of: EmptyPicture, PictureLarge.
pub fn size_by_steps(
    metrics: &Metrics,
    steps: &[(u16, u32)],
    ppem: u32,
    margin: u32,
) -> Result<LineSize, JobFault>
    requires size { ppem ≤ size_limit }
    requires margin { margin ≤ margin_limit }
    requires few { length steps.now ≤ text_limit }
    ensures exact { Gives (λ z. z) result (line_size metrics.now ppem margin (sum (map (λ p. p.1) steps.now))) }
    ensures width { IfOk result (λ z. z.width ≤ width_limit) }
    ensures height { IfOk result (λ z. z.height ≤ height_limit) }
{
    size_by_sum(metrics, ppem, margin, sum_of_steps(steps))
}

/// The size of a text's line by its advances and their kerning. No memory is taken. Errors, the first of: EmptyPicture, PictureLarge.
pub fn size_by_advances(
    known: &mut KnownAdvances,
    text: &str,
    margin: u32,
) -> Result<LineSize, JobFault>
    requires margin { margin ≤ margin_limit }
    requires text { length (chars text.now) ≤ text_limit }
    ensures exact { Gives (λ z. z) result (line_size known.old.metrics known.old.ppem margin (sum (linear_steps known.old.metrics known.old.ppem (text_glyphs known.old.cmap text.now)))) }
    ensures width { IfOk result (λ z. z.width ≤ width_limit) }
    ensures height { IfOk result (λ z. z.height ≤ height_limit) }
    ensures same { known.new ≡ known.old }
{
    let sum = sum_of_text(known, text);
    size_by_sum(known.metrics(), known.ppem(), margin, sum)
}
