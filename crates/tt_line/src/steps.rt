//! Lays out a line by the steps of its glyphs.

ghost use Rattle.std.specs.Prelude.{◌≡◌, ℕ, ◌+◌, ◌<◌, ◌≤◌, ◌^◌, length, map, drop, get_or, chars, sum, All, IfOk, IfErr, unsigned_abs};
ghost use Rattle.tt_core.specs.Limits.{size_limit, margin_limit, text_limit, width_limit};
ghost use Rattle.tt_core.specs.Outcomes.{Gives};
ghost use Rattle.tt_line.specs.Layout.{advance_in_pixels, depth_of, extent_by, glyphs_at_pens, laid_at, placed_in, rise_of, text_glyphs, IsRefusal, IsWithinLimits};
ghost use Rattle.tt_line.specs.Outcome.{placement_of};
ghost use Rattle.tt_line.specs.Steps.{kerning_before, linear_line, step_by_units, stepped};
ghost use Rattle.tt_metrics.specs.Metrics.{glyphs_of};

use crate::extent::{PictureExtent, test_limits, with_margins};
use crate::known::KnownAdvances;
use crate::line::Line;
use crate::pixels::{depth, rise, step, step_of_units};
use std::alloc::{AllocError, Global};
use tt_core::JobFault;
use tt_metrics::Metrics;

/// The glyph of each unit of a text with its advance in pixels, without kerning. Error: Memory.
pub fn unit_advances(
    alloc: Global,
    known: &mut KnownAdvances,
    text: &str,
) -> Result<Vec<(u16, u32)>, AllocError>
    requires text { length (chars text.now) ≤ text_limit }
    ensures exact { IfOk result (λ v. v.items ≡ map (λ g. (g, advance_in_pixels known.old.metrics known.old.ppem g)) (text_glyphs known.old.cmap text.now)) }
    ensures glyphs { IfOk result (λ v. map (λ p. p.0) v.items ≡ text_glyphs known.old.cmap text.now) }
    ensures known { IfOk result (λ v. All (λ p. p.0 < glyphs_of known.old.metrics) v.items) }
    ensures few { IfOk result (λ v. length v.items ≤ text_limit) }
    ensures memory { IfErr result (λ e. 0 < length (chars text.now)) }
    ensures same { known.new ≡ known.old }
{
    let mut glyphs = Vec::new(alloc);
    // A unit has at least a byte.
    glyphs.reserve(text.len())?;
    for unit in known.cmap().units(text) {
        let step = known.step(unit);
        glyphs.push((step.glyph, step.advance))?;
    }
    Ok(glyphs)
}

/// The kerning of a glyph of a line with the next one, in font units; the last glyph has none.
pub fn kerning_at(metrics: &Metrics, line: &[(u16, u32)], i: usize) -> i32
    requires { i < length line.now }
    ensures exact { result ≡ kerning_before metrics.now (get_or line.now i (0, 0)).0 (map (λ p. p.0) (drop (i + 1) line.now)) }
    ensures bound { unsigned_abs result ≤ 2 ^ 20 }
{
    // Where no pair is kerned, the glyphs need not be read.
    if !metrics.has_kerning() {
        return 0;
    }
    if i + 1 < line.len() {
        metrics.kerning(line[i].0, line[i + 1].0)
    } else {
        0
    }
}

/// Puts the kerned step of each glyph in the place of its advance.
fn kern(metrics: &Metrics, ppem: u32, line: &mut [(u16, u32)])
    requires size { ppem ≤ size_limit }
    requires known { All (λ p. p.0 < glyphs_of metrics.now) line.old }
    ensures { line.new ≡ linear_line metrics.now ppem (map (λ p. p.0) line.old) }
{
    for i in 0..line.len() {
        let kerning = kerning_at(metrics, line, i);
        let glyph = line[i].0;
        line[i].1 = step(metrics, ppem, glyph, kerning);
    }
}

/// Puts the step of each glyph in the place of its advance in font units, with its kerning.
pub fn put_unit_steps(metrics: &Metrics, ppem: u32, line: &mut [(u16, u32)])
    requires size { ppem ≤ size_limit }
    requires units { All (λ p. p.1 < 2 ^ 16) line.old }
    ensures { (units : ℕ → ℕ) → line.old ≡ map (λ g. (g, units g)) (map (λ p. p.0) line.old)
        → line.new ≡ stepped metrics.now (step_by_units metrics.now ppem units) (map (λ p. p.0) line.old) }
{
    for i in 0..line.len() {
        let kerning = kerning_at(metrics, line, i);
        let units = line[i].1 as u16;
        line[i].1 = step_of_units(metrics, ppem, units, kerning);
    }
}

/// The glyph of each unit of a text, with its step: its advance, with its kerning where pairs are kerned. Error: Memory.
pub fn advance_steps(
    alloc: Global,
    known: &mut KnownAdvances,
    text: &str,
) -> Result<Vec<(u16, u32)>, AllocError>
    requires text { length (chars text.now) ≤ text_limit }
    ensures exact { IfOk result (λ v. v.items ≡ linear_line known.old.metrics known.old.ppem (text_glyphs known.old.cmap text.now)) }
    ensures glyphs { IfOk result (λ v. map (λ p. p.0) v.items ≡ text_glyphs known.old.cmap text.now) }
    ensures known { IfOk result (λ v. All (λ p. p.0 < glyphs_of known.old.metrics) v.items) }
    ensures few { IfOk result (λ v. length v.items ≤ text_limit) }
    ensures memory { IfErr result (λ e. 0 < length (chars text.now)) }
    ensures same { known.new ≡ known.old }
{
    let mut line = unit_advances(alloc, known, text)?;
    let metrics = known.metrics();
    if metrics.has_kerning() {
        kern(metrics, known.ppem(), &mut line);
    }
    Ok(line)
}

/// The line of glyphs with their steps, in a picture of this extent.
pub(crate) fn line_of(extent: PictureExtent, rise: i32, steps: Vec<(u16, u32)>) -> Line
    requires within { IsWithinLimits extent }
    requires rise { unsigned_abs rise ≤ 614400 }
    requires few { length steps.items ≤ text_limit }
    requires width { sum (map (λ p. p.1) steps.items) ≤ extent.width }
    ensures exact { placement_of result ≡ placed_in (map (λ p. p.0) steps.items) (map (λ p. p.1) steps.items) rise extent }
    ensures glyphs { map (λ p. p.0) result.glyphs.items ≡ map (λ p. p.0) steps.items }
{
    let mut glyphs = steps;
    place(&mut glyphs);
    Line {
        width: extent.width as u32,
        height: extent.height as u32,
        rise,
        glyphs,
    }
}

/// Lays out glyphs by their steps, with margins of `margin` pixels. It takes no memory.
///
/// Errors, the first of: EmptyPicture if the width or the height is below 1; PictureLarge if the width is above 16,384
/// or the height above 4,096.
pub fn lay_steps(
    metrics: &Metrics,
    steps: Vec<(u16, u32)>,
    ppem: u32,
    margin: u32,
) -> Result<Line, JobFault>
    requires size { ppem ≤ size_limit }
    requires margin { margin ≤ margin_limit }
    requires few { length steps.items ≤ text_limit }
    ensures exact { Gives placement_of result (laid_at metrics.now ppem margin (map (λ p. p.0) steps.items) (map (λ p. p.1) steps.items)) }
    ensures glyphs { IfOk result (λ l. map (λ p. p.0) l.glyphs.items ≡ map (λ p. p.0) steps.items) }
    ensures fault { IfErr result (IsRefusal (extent_by (map (λ p. p.1) steps.items) margin (rise_of metrics.now ppem) (depth_of metrics.now ppem))) }
{
    let rise = rise(metrics, ppem);
    let all = sum_of_steps(&steps);
    let extent = test_limits(with_margins(all, rise, depth(metrics, ppem), margin))?;
    Ok(line_of(extent, rise, steps))
}

/// The sum of the steps of some glyphs, which can exceed 32 bits.
pub(crate) fn sum_of_steps(glyphs: &[(u16, u32)]) -> u64
    requires few { length glyphs.now ≤ text_limit }
    ensures exact { result ≡ sum (map (λ p. p.1) glyphs.now) }
    ensures bound { result < 2 ^ 45 }
{
    let mut sum = 0;
    for glyph in glyphs {
        sum += u64::from(glyph.1);
    }
    sum
}

/// Puts the pen of each glyph in the place of its step.
pub(crate) fn place(glyphs: &mut [(u16, u32)])
    requires fits { sum (map (λ p. p.1) glyphs.old) ≤ width_limit }
    ensures { glyphs.new ≡ glyphs_at_pens (map (λ p. p.0) glyphs.old) (map (λ p. p.1) glyphs.old) }
{
    let mut pen = 0;
    for i in 0..glyphs.len() {
        let step = glyphs[i].1;
        glyphs[i].1 = pen;
        pen += step;
    }
}
