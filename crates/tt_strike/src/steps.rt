//! The steps of a line's fitted glyphs.

ghost use Rattle.std.specs.Prelude.{◌≡◌, ℕ, ℤ, ◌<◌, ◌≤◌, ◌^◌, true, length, map, All, unsigned_abs};
ghost use Rattle.tt_core.specs.Limits.{size_limit};
ghost use Rattle.tt_line.specs.Steps.{stepped};
ghost use Rattle.tt_picture.specs.Distinct.{is_among};
ghost use Rattle.tt_picture.specs.Fitted.{AreAdvances, fitted_numbers};
ghost use Rattle.tt_picture.specs.Glyphs.{ArePlaces};
ghost use Rattle.tt_picture.specs.Steps.{kerned_step, step_by};

use tt_core::Scale;
use tt_fit::pixels_of;
use tt_line::kerning_at;
use tt_metrics::Metrics;
use tt_picture::FittedGlyph;

/// The pixels from the pen of a glyph to the next, by the distance of its advance's two ends in 26.6 pixels and by the
/// kerning in font units, which is scaled as points are. The sum is rounded once. No step is negative.
pub(crate) fn kerned_step(metrics: &Metrics, ppem: u32, advance_left: i32, kerning: i32) -> u32
    requires size { ppem ≤ size_limit }
    requires kerning { unsigned_abs kerning ≤ 2 ^ 20 }
    ensures { result ≡ kerned_step metrics.now ppem advance_left kerning }
{
    // Nearly every pair is of this kind. Its step needs no scale, and so no division.
    if kerning == 0 {
        return pixels_of(i64::from(advance_left));
    }
    let scale = Scale::rounded(ppem, metrics.units_per_em());
    pixels_of(i64::from(advance_left) + scale.scaled(kerning))
}

/// Puts the step of each character's glyph beside the glyph, with its kerning. The glyphs are among these, whose places
/// the table has.
pub fn put_steps(
    metrics: &Metrics,
    ppem: u32,
    places: &[u16],
    fitted: &[FittedGlyph],
    line: &mut [(u16, u32)],
)
    requires size { ppem ≤ size_limit }
    requires places { ArePlaces places.now (fitted_numbers fitted.now) }
    requires known { All (λ g. g.0 < length places.now) line.old }
    requires among { All (λ g. is_among g.0 (fitted_numbers fitted.now) ≡ true) line.old }
    ensures { (advance : ℕ → ℤ) → AreAdvances advance fitted.now → line.new ≡ stepped metrics.now (step_by metrics.now ppem advance) (map (λ g. g.0) line.old) }
{
    for i in 0..line.len() {
        let kerning = kerning_at(metrics, line, i);
        let place = usize::from(places[usize::from(line[i].0)]) - 1;
        line[i].1 = kerned_step(metrics, ppem, fitted[place].advance_left(), kerning);
    }
}
