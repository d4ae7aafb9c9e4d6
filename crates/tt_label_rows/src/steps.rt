//! The steps of the units of some lines, by advances.

ghost use Rattle.std.specs.Prelude.{◌≡◌, ℕ, ◌<◌, ◌≤◌, ◌^◌, length, map, All, IfOk};
ghost use Rattle.tt_core.specs.Limits.{size_limit};
ghost use Rattle.tt_label_rows.specs.Units.{stepped_lines, stepped_units, unit_glyphs};
ghost use Rattle.tt_line.specs.Steps.{step_by_units, step_in_pixels};
ghost use Rattle.tt_metrics.specs.Metrics.{glyphs_of};

use crate::glyphs::glyph_line;
use std::alloc::{AllocError, Global};
use tt_line::{kerning_at, step, step_of_units};
use tt_metrics::Metrics;
use tt_rows::RowUnit;

/// The units of a line with their steps. Error: Memory.
fn stepped_line(
    alloc: Global,
    metrics: &Metrics,
    ppem: u32,
    units: &[RowUnit],
) -> Result<Vec<RowUnit>, AllocError>
    requires size { ppem ≤ size_limit }
    requires known { All (λ u. u.glyph < glyphs_of metrics.now) units.now }
    ensures { IfOk result (λ v. v.items ≡ stepped_units metrics.now (step_in_pixels metrics.now ppem) units.now) }
{
    let line = glyph_line(alloc, units)?;
    let mut made = Vec::with_capacity(alloc, units.len())?;
    for i in 0..units.len() {
        let unit = units[i];
        let kerning = kerning_at(metrics, &line, i);
        made.push(RowUnit {
            character: unit.character,
            glyph: unit.glyph,
            step: step(metrics, ppem, unit.glyph, 0),
            kerned: step(metrics, ppem, unit.glyph, kerning),
        })?;
    }
    Ok(made)
}

/// The units of a line with their steps, by the advances in font units that stand beside their glyphs. Error: Memory.
pub fn unit_row(
    alloc: Global,
    metrics: &Metrics,
    ppem: u32,
    units: &[RowUnit],
    line: &[(u16, u32)],
) -> Result<Vec<RowUnit>, AllocError>
    requires size { ppem ≤ size_limit }
    requires line { map (λ g. g.0) line.now ≡ unit_glyphs units.now }
    requires bound { All (λ g. g.1 < 2 ^ 16) line.now }
    ensures { IfOk result (λ v. (advance : ℕ → ℕ) → line.now ≡ map (λ g. (g, advance g)) (unit_glyphs units.now)
        → v.items ≡ stepped_units metrics.now (step_by_units metrics.now ppem advance) units.now) }
{
    let mut made = Vec::with_capacity(alloc, units.len())?;
    for i in 0..units.len() {
        let unit = units[i];
        let kerning = kerning_at(metrics, line, i);
        let own = line[i].1 as u16;
        made.push(RowUnit {
            character: unit.character,
            glyph: unit.glyph,
            step: step_of_units(metrics, ppem, own, 0),
            kerned: step_of_units(metrics, ppem, own, kerning),
        })?;
    }
    Ok(made)
}

/// The units of some lines with their steps by advances. Error: Memory.
pub fn stepped_lines(
    alloc: Global,
    metrics: &Metrics,
    ppem: u32,
    lines: &[Vec<RowUnit>],
) -> Result<Vec<Vec<RowUnit>>, AllocError>
    requires size { ppem ≤ size_limit }
    requires known { All (λ l. All (λ u. u.glyph < glyphs_of metrics.now) l.items) lines.now }
    ensures { IfOk result (λ v. map (λ l. l.items) v.items ≡ stepped_lines metrics.now (step_in_pixels metrics.now ppem) (map (λ l. l.items) lines.now)) }
{
    let mut made = Vec::with_capacity(alloc, lines.len())?;
    for line in lines {
        made.push(stepped_line(alloc, metrics, ppem, line)?)?;
    }
    Ok(made)
}
