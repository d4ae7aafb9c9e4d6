//! The steps of lines by their advances. At an instance without HVAR the data of the glyphs give these.

ghost use Rattle.std.specs.List.{flat_map};
ghost use Rattle.std.specs.Prelude.{◌≡◌, ◌<◌, ◌≤◌, true, length, map, chars, All, IfOk};
ghost use Rattle.tt_advances.specs.Defects.{IsAdvanceDefect};
ghost use Rattle.tt_core.specs.Limits.{size_limit, text_limit};
ghost use Rattle.tt_core.specs.Outcomes.{FontGives, font_fault};
ghost use Rattle.tt_face.specs.Faces.{finds_advances};
ghost use Rattle.tt_label.specs.Finding.{found_line, found_lines, found_row, found_rows, found_text};
ghost use Rattle.tt_label.specs.Fitted.{glyphs_in};
ghost use Rattle.tt_label.specs.Label.{label_glyphs};
ghost use Rattle.tt_label_rows.specs.Units.{all_glyphs};
ghost use Rattle.tt_metrics.specs.Metrics.{glyphs_of};
ghost use Rattle.tt_strike.specs.Defects.{TellsDefects};

use crate::fitting::label_advances;
use std::alloc::Global;
use tt_advances::FoundAdvances;
use tt_core::FontFault;
use tt_face::Face;
use tt_label_rows::{glyph_line, stepped_lines, unit_row};
use tt_line::put_unit_steps;
use tt_metrics::Metrics;
use tt_rows::RowUnit;
use tt_strike::{FitterSource, SizedFace};

/// A line whose glyphs have their steps beside them, by advances that are found. Errors: as `FoundAdvances::put`.
fn found_line(
    found: &mut FoundAdvances,
    metrics: &Metrics,
    ppem: u32,
    line: Vec<(u16, u32)>,
) -> Result<Vec<(u16, u32)>, FontFault>
    requires size { ppem ≤ size_limit }
    requires metrics { metrics.now ≡ found.old.face.metrics }
    requires known { All (λ g. g.0 < glyphs_of metrics.now) line.items }
    ensures exact { FontGives (λ v. v.items) result (found_line found.old ppem (map (λ g. g.0) line.items)) }
    ensures same { found.new ≡ found.old }
{
    let mut line = line;
    found.put(&mut line)?;
    put_unit_steps(metrics, ppem, &mut line);
    Ok(line)
}

/// Some lines whose glyphs have their steps beside them, by advances that are found; only at an instance without HVAR.
/// Errors: those of loca and glyf; those of the first glyph that has one: of reading the glyph, GlyphVariation; Memory.
fn found_lines(
    alloc: Global,
    face: &Face,
    ppem: u32,
    lines: Vec<Vec<(u16, u32)>>,
) -> Result<Vec<Vec<(u16, u32)>>, FontFault>
    requires size { ppem ≤ size_limit }
    requires finds { finds_advances face.now ≡ true }
    requires known { All (λ l. All (λ g. g.0 < glyphs_of face.now.metrics) l.items) lines.items }
    ensures exact { FontGives (λ v. map (λ l. l.items) v.items) result (found_lines face.now ppem (map (λ l. l.items) lines.items)) }
    ensures defects { TellsDefects font_fault (IsAdvanceDefect face.now (glyphs_in (map (λ l. l.items) lines.items))) result }
{
    let mut found = FoundAdvances::open(alloc, face)?;
    let mut made = Vec::with_capacity(alloc, lines.len())?;
    for line in lines {
        made.push(found_line(&mut found, face.metrics(), ppem, line)?)?;
    }
    Ok(made)
}

/// For each line of a text the glyphs of its units, with their steps by advances. Errors: those of `found_lines`, at an
/// instance without HVAR alone; Memory.
pub(crate) fn label_units(
    sized: &mut SizedFace,
    text: &str,
) -> Result<Vec<Vec<(u16, u32)>>, FontFault>
    requires text { length (chars text.now) ≤ text_limit }
    ensures exact { FontGives (λ v. map (λ l. l.items) v.items) result (found_text sized.old.face sized.old.ppem text.now) }
    ensures known { IfOk result (λ v. All (λ l. All (λ g. g.0 < glyphs_of sized.old.face.metrics) l.items) v.items) }
    ensures few { IfOk result (λ v. length (flat_map (λ l. l.items) v.items) ≤ text_limit) }
    ensures some { IfOk result (λ v. 1 ≤ length v.items) }
    ensures count { IfOk result (λ v. length v.items ≤ text_limit) }
    ensures defects { TellsDefects font_fault (IsAdvanceDefect sized.old.face (label_glyphs sized.old.face.cmap text.now)) result }
    ensures same { sized.new ≡ sized.old }
{
    let alloc = sized.alloc();
    let face = sized.face();
    let ppem = sized.ppem();
    let lines = label_advances(sized, text)?;
    if face.finds_advances() {
        return found_lines(alloc, face, ppem, lines);
    }
    Ok(lines)
}

/// The units of a line with their steps, by advances that are found. Errors: as `FoundAdvances::put`.
fn found_row(
    alloc: Global,
    found: &mut FoundAdvances,
    metrics: &Metrics,
    ppem: u32,
    units: &[RowUnit],
) -> Result<Vec<RowUnit>, FontFault>
    requires size { ppem ≤ size_limit }
    requires metrics { metrics.now ≡ found.old.face.metrics }
    requires known { All (λ u. u.glyph < glyphs_of metrics.now) units.now }
    ensures exact { FontGives (λ v. v.items) result (found_row found.old ppem units.now) }
    ensures same { found.new ≡ found.old }
{
    let mut line = glyph_line(alloc, units)?;
    found.put(&mut line)?;
    Ok(unit_row(alloc, metrics, ppem, units, &line)?)
}

/// The units of some lines with their steps, by advances that are found; only at an instance without HVAR. Errors: as
/// `found_lines`.
fn found_rows(
    alloc: Global,
    face: &Face,
    ppem: u32,
    lines: &[Vec<RowUnit>],
) -> Result<Vec<Vec<RowUnit>>, FontFault>
    requires size { ppem ≤ size_limit }
    requires finds { finds_advances face.now ≡ true }
    requires known { All (λ l. All (λ u. u.glyph < glyphs_of face.now.metrics) l.items) lines.now }
    ensures exact { FontGives (λ v. map (λ l. l.items) v.items) result (found_rows face.now ppem (map (λ l. l.items) lines.now)) }
    ensures defects { TellsDefects font_fault (IsAdvanceDefect face.now (all_glyphs (map (λ l. l.items) lines.now))) result }
{
    let mut found = FoundAdvances::open(alloc, face)?;
    let mut made = Vec::with_capacity(alloc, lines.len())?;
    for line in lines {
        made.push(found_row(alloc, &mut found, face.metrics(), ppem, line)?)?;
    }
    Ok(made)
}

/// The units of some lines with their steps by advances. Errors: those of `found_rows`, at an instance without HVAR
/// alone; Memory.
pub(crate) fn row_units(
    source: &FitterSource,
    lines: &[Vec<RowUnit>],
) -> Result<Vec<Vec<RowUnit>>, FontFault>
    requires known { All (λ l. All (λ u. u.glyph < glyphs_of source.now.face.now.metrics) l.items) lines.now }
    ensures exact { FontGives (λ v. map (λ l. l.items) v.items) result (found_rows source.now.face.now source.now.ppem (map (λ l. l.items) lines.now)) }
    ensures defects { TellsDefects font_fault (IsAdvanceDefect source.now.face.now (all_glyphs (map (λ l. l.items) lines.now))) result }
{
    let face = source.face;
    if face.finds_advances() {
        return found_rows(source.alloc, face, source.ppem, lines);
    }
    Ok(stepped_lines(source.alloc, face.metrics(), source.ppem, lines)?)
}
