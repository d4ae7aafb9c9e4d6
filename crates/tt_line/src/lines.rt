//! Lays out the lines of a label in one picture.

ghost use Rattle.std.specs.List.{flat_map};
ghost use Rattle.std.specs.Prelude.{◌≡◌, ◌+◌, ◌-◌, ◌*◌, ◌<◌, ◌≤◌, ◌^◌, ◌+ℤ◌, ◌≤ℤ◌, pos, unsigned_abs, length, map, sum, chars, All, IfOk};
ghost use Rattle.tt_core.specs.Limits.{height_limit, margin_limit, size_limit, text_limit, width_limit};
ghost use Rattle.tt_core.specs.Outcomes.{JobGives};
ghost use Rattle.tt_line.specs.Labels.{label_lines, label_placement, line_placed, lines_placed, unmarked, widest, width_of};
ghost use Rattle.tt_line.specs.Layout.{glyphs_at_pens, text_glyphs};
ghost use Rattle.tt_line.specs.Outcome.{placement_of};
ghost use Rattle.tt_line.specs.Steps.{linear_line};
ghost use Rattle.tt_metrics.specs.Metrics.{glyphs_of};

use crate::align::Align;
use crate::known::KnownAdvances;
use crate::label_extent::{LabelExtent, gap, greater, indent, label_extent, limited, line_step};
use crate::line::Line;
use crate::pixels::{depth, rise};
use crate::steps::{advance_steps, place, sum_of_steps};
use std::alloc::{AllocError, Global};
use tt_core::DrawFault;
use tt_metrics::Metrics;

/// A text without U+FEFF at its start.
pub fn unmarked(text: &str) -> &str
    ensures { result.now ≡ unmarked text.now }
{
    match text.strip_prefix('\u{feff}') {
        Some(rest) => rest,
        None => text,
    }
}

/// The lines of a label's text: for each the glyphs of its units, with their steps by advances; pairs are kerned
/// within a line. Error: Memory.
pub fn label_steps(
    alloc: Global,
    known: &mut KnownAdvances,
    text: &str,
) -> Result<Vec<Vec<(u16, u32)>>, AllocError>
    requires text { length (chars text.now) ≤ text_limit }
    ensures exact { IfOk result (λ v. map (λ l. l.items) v.items ≡ map (λ l. linear_line known.old.metrics known.old.ppem (text_glyphs known.old.cmap l)) (label_lines text.now)) }
    ensures known { IfOk result (λ v. All (λ l. All (λ p. p.0 < glyphs_of known.old.metrics) l.items) v.items) }
    ensures few { IfOk result (λ v. length (flat_map (λ l. l.items) v.items) ≤ text_limit) }
    ensures some { IfOk result (λ v. 1 ≤ length v.items) }
    ensures count { IfOk result (λ v. length v.items ≤ text_limit) }
    ensures same { known.new ≡ known.old }
{
    let mut lines = Vec::new(alloc);
    for line in unmarked(text).lines() {
        let steps = advance_steps(alloc, known, line)?;
        lines.push(steps)?;
    }
    if lines.is_empty() {
        lines.push(Vec::new(alloc))?;
    }
    Ok(lines)
}

/// The width of the widest of some lines.
fn widest(lines: &[Vec<(u16, u32)>]) -> u64
    requires few { All (λ l. length l.items ≤ text_limit) lines.now }
    ensures exact { result ≡ widest (map (λ l. l.items) lines.now) }
    ensures bound { result < 2 ^ 45 }
    ensures least { All (λ l. width_of l.items ≤ result) lines.now }
{
    let mut most = 0;
    for line in lines {
        most = greater(most, sum_of_steps(line));
    }
    most
}

/// Moves each pen to the right.
fn move_pens(glyphs: &mut [(u16, u32)], right: u32)
    requires { All (λ g. g.1 + right < 2 ^ 32) glyphs.old }
    ensures { glyphs.new ≡ map (λ g. (g.0, g.1 + right)) glyphs.old }
{
    for i in 0..glyphs.len() {
        glyphs[i].1 += right;
    }
}

/// Puts the pen of each glyph in the place of its step, the first at `start`.
fn stand(glyphs: &mut [(u16, u32)], start: u32)
    requires { start + sum (map (λ p. p.1) glyphs.old) ≤ width_limit }
    ensures { glyphs.new ≡ map (λ g. (g.0, g.1 + start)) (glyphs_at_pens (map (λ p. p.0) glyphs.old) (map (λ p. p.1) glyphs.old)) }
{
    place(glyphs);
    move_pens(glyphs, start);
}

/// A line of a label in its picture, at this distance of its base line below the upper margin.
fn lay_line(
    extent: LabelExtent,
    align: Align,
    inner: u64,
    rise: i32,
    steps: Vec<(u16, u32)>,
) -> Line
    requires wide { (1 ≤ extent.width) × (extent.width ≤ width_limit) }
    requires high { (1 ≤ extent.height) × (extent.height ≤ height_limit) }
    requires inner { inner ≤ extent.width }
    requires rise { unsigned_abs rise ≤ 614400 + extent.height }
    requires few { length steps.items ≤ text_limit }
    requires width { width_of steps.items ≤ inner }
    ensures { placement_of result ≡ line_placed extent align inner rise steps.items }
{
    let before = indent(align, inner, sum_of_steps(&steps));
    let mut glyphs = steps;
    stand(&mut glyphs, before as u32);
    Line {
        width: extent.width as u32,
        height: extent.height as u32,
        rise,
        glyphs,
    }
}

/// The lines of a label in its picture, one below the other. Error: Memory.
fn lay_below(
    alloc: Global,
    lines: Vec<Vec<(u16, u32)>>,
    extent: LabelExtent,
    align: Align,
    inner: u64,
    rise: i32,
    step: u32,
) -> Result<Vec<Line>, AllocError>
    requires wide { (1 ≤ extent.width) × (extent.width ≤ width_limit) }
    requires high { (1 ≤ extent.height) × (extent.height ≤ height_limit) }
    requires inner { inner ≤ extent.width }
    requires step { step < 2 ^ 21 }
    requires first { unsigned_abs rise ≤ 614400 }
    requires last { (pos ((length lines.items - 1) * step) +ℤ rise) ≤ℤ pos (614400 + extent.height) }
    requires count { length lines.items ≤ text_limit }
    requires lines { All (λ l. (length l.items ≤ text_limit) × (width_of l.items ≤ inner)) lines.items }
    ensures { IfOk result (λ v. map placement_of v.items ≡ lines_placed extent align inner step rise (map (λ l. l.items) lines.items)) }
{
    let mut made = Vec::with_capacity(alloc, lines.len())?;
    let mut below = i64::from(rise);
    for steps in lines {
        made.push(lay_line(extent, align, inner, below as i32, steps))?;
        below += i64::from(step);
    }
    Ok(made)
}

/// Lays out the lines of a label, each its glyphs with their steps, with margins of `margin` pixels. Errors:
/// PictureLarge if the width is above 16,384 or the height above 4,096; Memory.
#[tactic(auto, unfolding(crate::specs::Labels::label_placement))]
pub fn lay_lines(
    alloc: Global,
    metrics: &Metrics,
    lines: Vec<Vec<(u16, u32)>>,
    ppem: u32,
    margin: u32,
    align: Align,
) -> Result<Vec<Line>, DrawFault>
    requires size { ppem ≤ size_limit }
    requires margin { margin ≤ margin_limit }
    requires count { length lines.items ≤ text_limit }
    requires few { All (λ l. length l.items ≤ text_limit) lines.items }
    ensures { JobGives (λ v. map placement_of v.items) result (label_placement metrics.now ppem margin align (map (λ l. l.items) lines.items)) }
{
    let rise = rise(metrics, ppem);
    let depth = depth(metrics, ppem);
    let step = line_step(rise, depth, gap(metrics, ppem));
    let inner = widest(&lines);
    let more = lines.len().saturating_sub(1);
    let extent = limited(label_extent(inner, margin, rise, depth, step, more))?;
    Ok(lay_below(alloc, lines, extent, align, inner, rise, step)?)
}
