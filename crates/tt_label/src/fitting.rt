//! The lines of a text, whose glyphs are fitted, and their steps.

ghost use Rattle.std.specs.List.{flat_map};
ghost use Rattle.std.specs.Prelude.{◌≡◌, ℕ, ℤ, ◌<◌, ◌≤◌, true, length, map, chars, All, Ok, Err, IfOk};
ghost use Rattle.tt_core.specs.Limits.{size_limit, text_limit};
ghost use Rattle.tt_core.specs.Outcomes.{IfTold, draw_font_fault};
ghost use Rattle.tt_fit.specs.Fitting.{Fitter};
ghost use Rattle.tt_label.specs.Fitted.{glyphs_in, with_steps};
ghost use Rattle.tt_label.specs.Label.{label_glyphs, stepped_lines};
ghost use Rattle.tt_line.specs.Steps.{step_in_pixels, stepped};
ghost use Rattle.tt_metrics.specs.Metrics.{glyphs_of};
ghost use Rattle.tt_picture.specs.Distinct.{is_among};
ghost use Rattle.tt_picture.specs.Fitted.{AreAdvances, fitted_numbers};
ghost use Rattle.tt_picture.specs.Glyphs.{ArePlaces};
ghost use Rattle.tt_picture.specs.Steps.{step_by};
ghost use Rattle.tt_strike.specs.Defects.{IsMadeDefect, TellsDefects};
ghost use Rattle.tt_strike.specs.Fitted.{AreFittedUnits, HasFittedUnits, outlines_made};
ghost use Rattle.tt_strike.specs.Makers.{job_at};
ghost use Rattle.tt_strike.specs.Picture.{advance_with};
ghost use Rattle.tt_strike.specs.Refusals.{refusal};
ghost use Rattle.tt_strike.specs.Strikes.{IsCacheOf};
ghost use Rattle.tt_strike.specs.Work.{is_bounded};

use crate::joining::joined_steps;
use std::alloc::{AllocError, Global};
use tt_core::DrawFault;
use tt_line::label_steps;
use tt_metrics::Metrics;
use tt_picture::{Cache, FittedGlyph};
use tt_strike::{FittedUnits, SizedFace, put_steps};

/// The lines of a text, whose glyphs are fitted.
#[derive(Drop)]
pub(crate) struct FittedLabel {
    /// For each line the glyphs of its units, with their steps.
    pub(crate) steps: Vec<Vec<(u16, u32)>>,
    /// The glyphs of all lines.
    pub(crate) units: FittedUnits,
}

/// For each line of a text the glyphs of its units, with their advances. Error: Memory.
/// Callers are apart (for the prover): they have no field of the strike.
pub(crate) fn label_advances(
    sized: &mut SizedFace,
    text: &str,
) -> Result<Vec<Vec<(u16, u32)>>, AllocError>
    requires text { length (chars text.now) ≤ text_limit }
    ensures exact { IfOk result (λ v. map (λ l. l.items) v.items ≡ stepped_lines sized.old.face.metrics (step_in_pixels sized.old.face.metrics sized.old.ppem) sized.old.face.cmap text.now) }
    ensures known { IfOk result (λ v. All (λ l. All (λ g. g.0 < glyphs_of sized.old.face.metrics) l.items) v.items) }
    ensures few { IfOk result (λ v. length (flat_map (λ l. l.items) v.items) ≤ text_limit) }
    ensures some { IfOk result (λ v. 1 ≤ length v.items) }
    ensures count { IfOk result (λ v. length v.items ≤ text_limit) }
    ensures same { sized.new ≡ sized.old }
{
    let alloc = sized.source.alloc;
    label_steps(alloc, &mut sized.known, text)
}

/// A line whose glyphs have their steps beside them.
fn step_line(
    metrics: &Metrics,
    ppem: u32,
    places: &[u16],
    fitted: &[FittedGlyph],
    line: Vec<(u16, u32)>,
) -> Vec<(u16, u32)>
    requires size { ppem ≤ size_limit }
    requires places { ArePlaces places.now (fitted_numbers fitted.now) }
    requires known { All (λ g. g.0 < length places.now) line.items }
    requires among { All (λ g. is_among g.0 (fitted_numbers fitted.now) ≡ true) line.items }
    ensures { (advance : ℕ → ℤ) → AreAdvances advance fitted.now → result.items ≡ stepped metrics.now (step_by metrics.now ppem advance) (map (λ g. g.0) line.items) }
{
    let mut line = line;
    put_steps(metrics, ppem, places, fitted, &mut line);
    line
}

/// Some lines whose glyphs have their steps beside them. Error: Memory.
fn step_lines(
    alloc: Global,
    metrics: &Metrics,
    ppem: u32,
    places: &[u16],
    fitted: &[FittedGlyph],
    lines: Vec<Vec<(u16, u32)>>,
) -> Result<Vec<Vec<(u16, u32)>>, AllocError>
    requires size { ppem ≤ size_limit }
    requires places { ArePlaces places.now (fitted_numbers fitted.now) }
    requires known { All (λ l. All (λ g. g.0 < length places.now) l.items) lines.items }
    requires among { All (λ l. All (λ g. is_among g.0 (fitted_numbers fitted.now) ≡ true) l.items) lines.items }
    ensures { IfOk result (λ v. (advance : ℕ → ℤ) → AreAdvances advance fitted.now → map (λ l. l.items) v.items ≡ with_steps metrics.now (step_by metrics.now ppem advance) (map (λ l. l.items) lines.items)) }
{
    let mut made = Vec::with_capacity(alloc, lines.len())?;
    for line in lines {
        made.push(step_line(metrics, ppem, places, fitted, line))?;
    }
    Ok(made)
}

/// The distinct glyphs of some lines, fitted; only where work is bounded. One line is not copied. Errors: those of
/// `SizedFace::fit_units`.
fn fit_lines(
    sized: &mut SizedFace,
    lines: &[Vec<(u16, u32)>],
    cache: &Cache,
) -> Result<FittedUnits, DrawFault>
    requires known { All (λ l. All (λ g. g.0 < glyphs_of sized.old.face.metrics) l.items) lines.now }
    requires few { length (flat_map (λ l. l.items) lines.now) ≤ text_limit }
    requires bounded { is_bounded sized.old.fit ≡ true }
    requires cache { IsCacheOf sized.old cache.now }
    ensures fitted { IfOk result (HasFittedUnits sized.old.face sized.old.ppem sized.old.fit (glyphs_in (map (λ l. l.items) lines.now))) }
    ensures room { IfOk result (λ t. length t.places.items ≡ glyphs_of sized.old.face.metrics) }
    ensures stops { IfTold refusal result (λ r. outlines_made sized.old.face sized.old.ppem sized.old.fit (glyphs_in (map (λ l. l.items) lines.now)) ≡ Err r) }
    ensures defects { TellsDefects draw_font_fault (IsMadeDefect sized.old.face (job_at sized.old.ppem sized.old.fit) (glyphs_in (map (λ l. l.items) lines.now))) result }
    ensures same { sized.new ≡ sized.old }
{
    if lines.len() == 1 {
        return sized.fit_units(&lines[0], cache);
    }
    let all = joined_steps(sized.alloc(), lines)?;
    sized.fit_units(&all, cache)
}

/// The lines of a text, whose glyphs are fitted; only where work is bounded. Errors: those of `SizedFace::fit_units`.
pub(crate) fn fitted_label(
    sized: &mut SizedFace,
    text: &str,
    cache: &Cache,
) -> Result<FittedLabel, DrawFault>
    requires text { length (chars text.now) ≤ text_limit }
    requires bounded { is_bounded sized.old.fit ≡ true }
    requires cache { IsCacheOf sized.old cache.now }
    ensures fitted { IfOk result (λ t. (s : Fitter) × AreFittedUnits sized.old.face sized.old.ppem sized.old.fit (label_glyphs sized.old.face.cmap text.now) t.units s
        × (map (λ l. l.items) t.steps.items ≡ stepped_lines sized.old.face.metrics (step_by sized.old.face.metrics sized.old.ppem (advance_with s (label_glyphs sized.old.face.cmap text.now))) sized.old.face.cmap text.now)) }
    ensures known { IfOk result (λ t. All (λ g. g.0 < glyphs_of sized.old.face.metrics) (flat_map (λ l. l.items) t.steps.items)) }
    ensures few { IfOk result (λ t. length (flat_map (λ l. l.items) t.steps.items) ≤ text_limit) }
    ensures some { IfOk result (λ t. 1 ≤ length t.steps.items) }
    ensures count { IfOk result (λ t. length t.steps.items ≤ text_limit) }
    ensures stops { IfTold refusal result (λ r. outlines_made sized.old.face sized.old.ppem sized.old.fit (label_glyphs sized.old.face.cmap text.now) ≡ Err r) }
    ensures defects { TellsDefects draw_font_fault (IsMadeDefect sized.old.face (job_at sized.old.ppem sized.old.fit) (label_glyphs sized.old.face.cmap text.now)) result }
    ensures same { sized.new ≡ sized.old }
{
    let alloc = sized.alloc();
    let face = sized.face();
    let ppem = sized.ppem();
    let lines = label_advances(sized, text)?;
    let units = fit_lines(sized, &lines, cache)?;
    let FittedUnits { places, fitted, .. } = &units;
    let steps = step_lines(alloc, face.metrics(), ppem, places, fitted, lines)?;
    Ok(FittedLabel { steps, units })
}
