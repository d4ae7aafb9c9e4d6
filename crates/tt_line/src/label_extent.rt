//! The size of a label's picture, and the distance of its lines.

ghost use Rattle.std.specs.Prelude.{◌≡◌, ℕ, ◌+◌, ◌*◌, ◌<◌, ◌≤◌, ◌^◌, ◌+ℤ◌, ◌*ℤ◌, ◌≤ℤ◌, pos, unsigned_abs, IfOk};
ghost use Rattle.tt_core.specs.Limits.{height_limit, margin_limit, size_limit, text_limit, width_limit};
ghost use Rattle.tt_core.specs.Outcomes.{Gives};
ghost use Rattle.tt_line.specs.Labels.{gap_of, greater, indent, label_extent, label_limited, line_step, rows_of};

use crate::align::Align;
use crate::pixels::{at_least, rounded};
use tt_core::{HEIGHT_LIMIT, JobFault, WIDTH_LIMIT};
use tt_metrics::Metrics;

/// Width and height of a label's picture, in pixels, before the limits are tested.
#[derive(Clone, Copy)]
pub struct LabelExtent {
    pub width: u64,
    pub height: u64,
}

/// The greater of two numbers.
pub(crate) fn greater(a: u64, b: u64) -> u64
    ensures exact { result ≡ greater a b }
    ensures first { a ≤ result }
    ensures second { b ≤ result }
    ensures least { (n : ℕ) → a ≤ n → b ≤ n → result ≤ n }
{
    if a < b { b } else { a }
}

/// Font units at a size, before they are divided by the units of an em.
fn units_at(units: i32, ppem: u32) -> i64
    requires units { unsigned_abs units ≤ 2 ^ 15 }
    requires size { ppem ≤ size_limit }
    ensures exact { result ≡ units *ℤ pos ppem }
    ensures bound { unsigned_abs result ≤ size_limit * 2 ^ 15 }
{
    i64::from(units * ppem as i32)
}

/// Pixels between the depth of a line and the rise of the next, rounded to the nearest; 0 where the font has a negative
/// gap.
pub(crate) fn gap(metrics: &Metrics, ppem: u32) -> u32
    requires { ppem ≤ size_limit }
    ensures exact { result ≡ gap_of metrics.now ppem }
    ensures bound { result ≤ 614400 }
{
    rounded(
        units_at(i32::from(metrics.line_gap()), ppem),
        metrics.units_per_em(),
    )
}

/// The rise and the depth of a line, and so many pixels.
fn rows_of(more: u64, rise: i32, depth: i32) -> i64
    requires more { more ≤ 2 ^ 34 }
    requires rise { unsigned_abs rise ≤ 614400 }
    requires depth { unsigned_abs depth ≤ 614400 }
    ensures exact { result ≡ rows_of more rise depth }
    ensures bound { unsigned_abs result ≤ more + 1228800 }
{
    more as i64 + i64::from(rise) + i64::from(depth)
}

/// Pixels from a base line down to the next: at least 1.
pub(crate) fn line_step(rise: i32, depth: i32, gap: u32) -> u32
    requires rise { unsigned_abs rise ≤ 614400 }
    requires depth { unsigned_abs depth ≤ 614400 }
    requires gap { gap ≤ 614400 }
    ensures exact { result ≡ line_step rise depth gap }
    ensures bound { result < 2 ^ 21 }
{
    at_least(1, rows_of(u64::from(gap), rise, depth)) as u32
}

/// Pixels from the base line of the first line to that of the last, which is `more` lines below it.
fn descent(more: usize, step: u32) -> u64
    requires more { more ≤ text_limit }
    requires step { step < 2 ^ 21 }
    ensures exact { result ≡ more * step }
    ensures bound { result ≤ 2 ^ 33 }
{
    more as u64 * u64::from(step)
}

/// The size of the picture of a line and `more` lines, of which the widest has `inner` columns.
pub(crate) fn label_extent(
    inner: u64,
    margin: u32,
    rise: i32,
    depth: i32,
    step: u32,
    more: usize,
) -> LabelExtent
    requires inner { inner < 2 ^ 45 }
    requires margin { margin ≤ margin_limit }
    requires rise { unsigned_abs rise ≤ 614400 }
    requires depth { unsigned_abs depth ≤ 614400 }
    requires step { step < 2 ^ 21 }
    requires more { more ≤ text_limit }
    ensures exact { result ≡ label_extent inner margin rise depth step more }
    ensures column { 1 ≤ result.width }
    ensures row { 1 ≤ result.height }
    ensures wide { inner ≤ result.width }
    ensures high { (pos (more * step) +ℤ rise) ≤ℤ pos (614400 + result.height) }
{
    let margins = u64::from(2 * margin);
    let rows = rows_of(descent(more, step) + margins, rise, depth);
    LabelExtent {
        width: greater(1, inner + margins),
        height: at_least(1, rows),
    }
}

/// Refuses a label's picture that is too large. Error: PictureLarge.
#[tactic(auto, unfolding(crate::specs::Labels::label_limited))]
pub(crate) fn limited(extent: LabelExtent) -> Result<LabelExtent, JobFault>
    ensures exact { Gives (λ e. e) result (label_limited extent) }
    ensures same { IfOk result (λ e. e ≡ extent) }
    ensures width { IfOk result (λ e. e.width ≤ width_limit) }
    ensures height { IfOk result (λ e. e.height ≤ height_limit) }
{
    if extent.width > u64::from(WIDTH_LIMIT) || extent.height > u64::from(HEIGHT_LIMIT) {
        return Err(JobFault::PictureLarge);
    }
    Ok(extent)
}

/// The pixels before a line that is `width` columns wide, beside lines of at most `inner` columns.
pub(crate) fn indent(align: Align, inner: u64, width: u64) -> u64
    requires { width ≤ inner }
    ensures exact { result ≡ indent align inner width }
    ensures within { result + width ≤ inner }
{
    let rest = inner - width;
    match align {
        Align::Left => 0,
        Align::Centre => rest / 2,
        Align::Right => rest,
    }
}
