//! The width of a text's line, without memory.

ghost use Rattle.std.specs.Prelude.{◌≡◌, ◌+◌, ◌<◌, ◌≤◌, ◌^◌, length, map, chars, sum, Some, None, IfSome};
ghost use Rattle.tt_core.specs.Limits.{size_limit, text_limit};
ghost use Rattle.tt_line.specs.Layout.{advance_in_pixels, text_glyphs};
ghost use Rattle.tt_line.specs.Steps.{linear_steps};
ghost use Rattle.tt_line.specs.Sums.{step_after};
ghost use Rattle.tt_metrics.specs.Metrics.{glyphs_of};

use crate::known::KnownAdvances;
use crate::pixels::step;
use tt_metrics::Metrics;

/// The sum of the advances of a text's units, in pixels. For 4,096 characters the sum can exceed 32 bits.
fn sum_of_advances(known: &mut KnownAdvances, text: &str) -> u64
    requires text { length (chars text.now) ≤ text_limit }
    ensures exact { result ≡ sum (map (advance_in_pixels known.old.metrics known.old.ppem) (text_glyphs known.old.cmap text.now)) }
    ensures bound { result < 2 ^ 40 }
    ensures same { known.new ≡ known.old }
{
    let mut sum = 0;
    for unit in known.cmap().units(text) {
        sum += u64::from(known.step(unit).advance);
    }
    sum
}

/// The step of a glyph before a next glyph, or at the end of a line; 0 where there is no glyph.
fn step_after(metrics: &Metrics, ppem: u32, last: Option<u16>, next: Option<u16>) -> u32
    requires size { ppem ≤ size_limit }
    requires known { IfSome last (λ g. g < glyphs_of metrics.now) }
    ensures exact { result ≡ step_after metrics.now ppem last next }
    ensures bound { result < 2 ^ 25 }
{
    let Some(glyph) = last else {
        return 0;
    };
    let kerning = match next {
        Some(next) => metrics.kerning(glyph, next),
        None => 0,
    };
    step(metrics, ppem, glyph, kerning)
}

/// The sum of the kerned steps of a text's units.
fn kerned_sum(known: &mut KnownAdvances, text: &str) -> u64
    requires text { length (chars text.now) ≤ text_limit }
    ensures exact { result ≡ sum (linear_steps known.old.metrics known.old.ppem (text_glyphs known.old.cmap text.now)) }
    ensures bound { result < 2 ^ 40 }
    ensures same { known.new ≡ known.old }
{
    let metrics = known.metrics();
    let ppem = known.ppem();
    let mut sum = 0;
    let mut last = None;
    for unit in known.cmap().units(text) {
        let glyph = known.step(unit).glyph;
        sum += u64::from(step_after(metrics, ppem, last, Some(glyph)));
        last = Some(glyph);
    }
    sum + u64::from(step_after(metrics, ppem, last, None))
}

/// The sum of the steps of a text's units.
pub(crate) fn sum_of_text(known: &mut KnownAdvances, text: &str) -> u64
    requires text { length (chars text.now) ≤ text_limit }
    ensures exact { result ≡ sum (linear_steps known.old.metrics known.old.ppem (text_glyphs known.old.cmap text.now)) }
    ensures bound { result < 2 ^ 40 }
    ensures same { known.new ≡ known.old }
{
    if known.metrics().has_kerning() {
        return kerned_sum(known, text);
    }
    sum_of_advances(known, text)
}
