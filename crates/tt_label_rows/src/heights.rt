//! The heights of rows at a size.

ghost use Rattle.std.specs.Prelude.{◌≡◌, ℕ, ◌+◌, ◌*◌, ◌<◌, ◌≤◌, ◌^◌, ◌*ℤ◌, ◌≤ℤ◌, pos, unsigned_abs};
ghost use Rattle.tt_core.specs.Limits.{size_limit};
ghost use Rattle.tt_core.specs.Numbers.{rounded_quotient};
ghost use Rattle.tt_label_rows.specs.Heights.{row_heights};
ghost use Rattle.tt_label_rows.specs.Pictures.{AreHeights};
ghost use Rattle.tt_line.specs.Labels.{gap_of, line_step, rows_of};
ghost use Rattle.tt_line.specs.Steps.{at_least};

use tt_core::rq;
use tt_line::{depth, rise};
use tt_metrics::Metrics;

/// The heights of rows, in pixels.
#[derive(Clone, Copy)]
pub struct RowHeights {
    /// From a base line up to the top of its row.
    pub rise: i32,
    /// From a base line down to the bottom of its row.
    pub depth: i32,
    /// From a base line down to the next.
    pub step: u32,
}

/// A number, or `low` where that is more.
pub(crate) fn at_least(low: u32, n: i64) -> u64
    ensures exact { result ≡ at_least low n }
    ensures low { low ≤ result }
    ensures least { n ≤ℤ pos result }
    ensures high { result ≤ low + unsigned_abs n }
{
    if n < i64::from(low) {
        return u64::from(low);
    }
    n.unsigned_abs()
}

/// Font units at a size, before they are divided by the units of an em.
fn units_at(units: i16, ppem: u32) -> i64
    requires size { ppem ≤ size_limit }
    ensures exact { result ≡ units *ℤ pos ppem }
    ensures bound { unsigned_abs result ≤ size_limit * 2 ^ 15 }
{
    i64::from(i32::from(units) * ppem as i32)
}

/// Pixels between the depth of a row and the rise of the next, rounded to the nearest; 0 where the font has a negative
/// gap.
fn gap(metrics: &Metrics, ppem: u32) -> u64
    requires { ppem ≤ size_limit }
    ensures exact { result ≡ gap_of metrics.now ppem }
    ensures bound { result ≤ 614400 }
{
    let em = i64::from(metrics.units_per_em());
    at_least(0, rq(units_at(metrics.line_gap(), ppem), em))
}

/// Some pixels with the rise and the depth of a row.
pub(crate) fn rows_of(more: u64, rise: i32, depth: i32) -> i64
    requires more { more ≤ 2 ^ 34 }
    requires rise { unsigned_abs rise ≤ 614400 }
    requires depth { unsigned_abs depth ≤ 614400 }
    ensures exact { result ≡ rows_of more rise depth }
    ensures bound { unsigned_abs result ≤ more + 1228800 }
{
    more as i64 + i64::from(rise) + i64::from(depth)
}

/// Pixels from a base line down to the next: at least 1.
fn line_step(rise: i32, depth: i32, gap: u64) -> u32
    requires rise { unsigned_abs rise ≤ 614400 }
    requires depth { unsigned_abs depth ≤ 614400 }
    requires gap { gap ≤ 614400 }
    ensures exact { result ≡ line_step rise depth gap }
    ensures bound { result < 2 ^ 21 }
{
    at_least(1, rows_of(gap, rise, depth)) as u32
}

/// The heights of rows at a size in pixels per em.
pub fn row_heights(metrics: &Metrics, ppem: u32) -> RowHeights
    requires { ppem ≤ size_limit }
    ensures exact { result ≡ row_heights metrics.now ppem }
    ensures within { AreHeights result }
{
    let rise = rise(metrics, ppem);
    let depth = depth(metrics, ppem);
    RowHeights {
        rise,
        depth,
        step: line_step(rise, depth, gap(metrics, ppem)),
    }
}
