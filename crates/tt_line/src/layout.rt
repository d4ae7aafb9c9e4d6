//! Lays out a line of text.

ghost use Rattle.std.specs.Prelude.{◌≡◌, ◌<◌, ◌≤◌, length, map, chars, All, IsOk, IfOk, IfErr, IfNone};
ghost use Rattle.tt_core.specs.Limits.{margin_limit, text_limit};
ghost use Rattle.tt_core.specs.Outcomes.{IfTold, JobGives, draw_job_fault};
ghost use Rattle.tt_line.specs.Layout.{text_glyphs, extent_of, placement, IsRefusal};
ghost use Rattle.tt_line.specs.Outcome.{placement_of};
ghost use Rattle.tt_metrics.specs.Metrics.{glyphs_of};

use crate::extent::{test_limits, with_margins};
use crate::known::KnownAdvances;
use crate::line::Line;
use crate::pixels::{depth, rise};
use crate::steps::{advance_steps, line_of};
use crate::sums::sum_of_text;
use std::alloc::Global;
use tt_core::DrawFault;

/// Lays out a text at the size of its units' advances, with margins of `margin` pixels. The sum of an advance and of its
/// kerning, where pairs are kerned, is rounded to the nearest pixel. A refused line takes no memory.
///
/// The first of these errors is returned:
///
/// - Job (EmptyPicture) if the width or the height is below 1;
/// - Job (PictureLarge) if the width is above 16,384 or the height above 4,096;
/// - Memory if an allocation fails.
#[tactic(auto, unfolding(crate::specs::Layout::placement))]
pub fn lay(
    alloc: Global,
    known: &mut KnownAdvances,
    text: &str,
    margin: u32,
) -> Result<Line, DrawFault>
    requires margin { margin ≤ margin_limit }
    requires text { length (chars text.now) ≤ text_limit }
    ensures exact { JobGives placement_of result (placement known.old.metrics known.old.cmap text.now known.old.ppem margin) }
    ensures glyphs { IfOk result (λ l. map (λ p. p.0) l.glyphs.items ≡ text_glyphs known.old.cmap text.now) }
    ensures known { IfOk result (λ l. All (λ p. p.0 < glyphs_of known.old.metrics) l.glyphs.items) }
    // Only the glyphs of an accepted line take memory.
    ensures memory { IfErr result (λ e. IfNone (draw_job_fault e)
        (IsOk (placement known.old.metrics known.old.cmap text.now known.old.ppem margin) × (0 < length (chars text.now)))) }
    ensures fault { IfTold draw_job_fault result (IsRefusal (extent_of known.old.metrics known.old.ppem margin (text_glyphs known.old.cmap text.now))) }
    ensures same { known.new ≡ known.old }
{
    let metrics = known.metrics();
    let ppem = known.ppem();
    let rise = rise(metrics, ppem);
    // A first walk over the text finds its width, so that a refused line takes no memory.
    let sum = sum_of_text(known, text);
    let extent = test_limits(with_margins(sum, rise, depth(metrics, ppem), margin))?;
    let steps = advance_steps(alloc, known, text)?;
    Ok(line_of(extent, rise, steps))
}
