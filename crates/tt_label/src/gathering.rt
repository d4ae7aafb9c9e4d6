//! The units of a text that is broken into rows, with the steps of their glyphs, which are fitted.

ghost use Rattle.std.specs.Prelude.{◌≡◌, ℕ, ℤ, ◌<◌, ◌≤◌, true, length, map, All, Ok, Err, IfOk, List, pos};
ghost use Rattle.tt_core.specs.Limits.{point_work_limit, size_limit, text_limit};
ghost use Rattle.tt_core.specs.Outcomes.{IfTold};
ghost use Rattle.tt_fit.specs.outline.Outline.{Outline};
ghost use Rattle.tt_label_rows.specs.Units.{stepped_lines, stepped_units, unit_glyphs};
ghost use Rattle.tt_line.specs.Steps.{stepped};
ghost use Rattle.tt_metrics.specs.Metrics.{glyphs_of};
ghost use Rattle.tt_picture.specs.Cached.{IsCacheFor};
ghost use Rattle.tt_picture.specs.Distinct.{distinct, fitter_after, is_among};
ghost use Rattle.tt_picture.specs.Fitted.{AreAdvances, AreFitted, fitted_numbers};
ghost use Rattle.tt_picture.specs.Glyphs.{ArePlaces};
ghost use Rattle.tt_picture.specs.Steps.{step_by};
ghost use Rattle.tt_strike.specs.Picture.{outlines_in, outlines_tested};
ghost use Rattle.tt_strike.specs.Refusals.{refusal};
ghost use Rattle.tt_strike.specs.Work.{is_bounded, line_fitter, points_in, started, work_tested};

use std::alloc::AllocError;
use tt_label_rows::glyph_line;
use tt_metrics::Metrics;
use tt_picture::FittedGlyph;
use tt_rows::RowUnit;
use tt_strike::{FittedUnits, FitterSource, put_steps};

/// The step of a glyph at the end of a row.
fn plain_step(
    metrics: &Metrics,
    ppem: u32,
    places: &[u16],
    fitted: &[FittedGlyph],
    glyph: u16,
) -> u32
    requires size { ppem ≤ size_limit }
    requires places { ArePlaces places.now (fitted_numbers fitted.now) }
    requires known { glyph < length places.now }
    requires among { is_among glyph (fitted_numbers fitted.now) ≡ true }
    ensures { (advance : ℕ → ℤ) → AreAdvances advance fitted.now → result ≡ step_by metrics.now ppem advance glyph (pos 0) }
{
    let mut line = [(glyph, 0)];
    put_steps(metrics, ppem, places, fitted, &mut line);
    line[0].1
}

/// The units of a line with the steps of their glyphs, which are fitted; kerned steps stand in `line`. Error: Memory.
fn put_units(
    source: &FitterSource,
    glyphs: &FittedUnits,
    units: &[RowUnit],
    line: &[(u16, u32)],
) -> Result<Vec<RowUnit>, AllocError>
    requires places { ArePlaces glyphs.now.places.items (fitted_numbers glyphs.now.fitted.items) }
    requires known { All (λ u. u.glyph < length glyphs.now.places.items) units.now }
    requires among { All (λ u. is_among u.glyph (fitted_numbers glyphs.now.fitted.items) ≡ true) units.now }
    requires line { length line.now ≡ length units.now }
    ensures { IfOk result (λ v. (advance : ℕ → ℤ) → AreAdvances advance glyphs.now.fitted.items
        → line.now ≡ stepped source.now.face.now.metrics (step_by source.now.face.now.metrics source.now.ppem advance) (unit_glyphs units.now)
        → v.items ≡ stepped_units source.now.face.now.metrics (step_by source.now.face.now.metrics source.now.ppem advance) units.now) }
{
    let metrics = source.face.metrics();
    let FittedUnits { places, fitted, .. } = glyphs;
    let mut made = Vec::with_capacity(source.alloc, units.len())?;
    for i in 0..units.len() {
        let unit = units[i];
        made.push(RowUnit {
            character: unit.character,
            glyph: unit.glyph,
            step: plain_step(metrics, source.ppem, places, fitted, unit.glyph),
            kerned: line[i].1,
        })?;
    }
    Ok(made)
}

/// The units of a line with the steps of their glyphs, which are fitted. Error: Memory.
fn stepped_line(
    source: &FitterSource,
    glyphs: &FittedUnits,
    units: &[RowUnit],
) -> Result<Vec<RowUnit>, AllocError>
    requires places { ArePlaces glyphs.now.places.items (fitted_numbers glyphs.now.fitted.items) }
    requires known { All (λ u. u.glyph < length glyphs.now.places.items) units.now }
    requires among { All (λ u. is_among u.glyph (fitted_numbers glyphs.now.fitted.items) ≡ true) units.now }
    ensures { IfOk result (λ v. (advance : ℕ → ℤ) → AreAdvances advance glyphs.now.fitted.items
        → v.items ≡ stepped_units source.now.face.now.metrics (step_by source.now.face.now.metrics source.now.ppem advance) units.now) }
{
    let metrics = source.face.metrics();
    let FittedUnits { places, fitted, .. } = glyphs;
    let mut line = glyph_line(source.alloc, units)?;
    put_steps(metrics, source.ppem, places, fitted, &mut line);
    put_units(source, glyphs, units, &line)
}

/// The units of some lines with the steps of their glyphs, which are fitted. Error: Memory.
pub(crate) fn fitted_lines(
    source: &FitterSource,
    glyphs: &FittedUnits,
    lines: &[Vec<RowUnit>],
) -> Result<Vec<Vec<RowUnit>>, AllocError>
    requires places { ArePlaces glyphs.now.places.items (fitted_numbers glyphs.now.fitted.items) }
    requires known { All (λ l. All (λ u. u.glyph < length glyphs.now.places.items) l.items) lines.now }
    requires among { All (λ l. All (λ u. is_among u.glyph (fitted_numbers glyphs.now.fitted.items) ≡ true) l.items) lines.now }
    ensures { IfOk result (λ v. (advance : ℕ → ℤ) → AreAdvances advance glyphs.now.fitted.items
        → map (λ l. l.items) v.items ≡ stepped_lines source.now.face.now.metrics (step_by source.now.face.now.metrics source.now.ppem advance) (map (λ l. l.items) lines.now)) }
{
    let mut made = Vec::with_capacity(source.alloc, lines.len())?;
    for line in lines {
        made.push(stepped_line(source, glyphs, line)?)?;
    }
    Ok(made)
}
