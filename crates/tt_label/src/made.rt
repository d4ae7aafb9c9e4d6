//! The lines of a label with their glyphs, which are made once for all lines.

ghost use Rattle.std.specs.Prelude.{◌≡◌, ◌≤◌, true, false, length, map, chars, All, Ok, Err, IfOk};
ghost use Rattle.tt_advances.specs.Defects.{IsAdvanceDefect};
ghost use Rattle.tt_core.specs.Limits.{margin_limit, text_limit};
ghost use Rattle.tt_core.specs.Outcomes.{GivesUnless, IfTold, draw_font_fault};
ghost use Rattle.tt_label.specs.Label.{label_glyphs, label_placed};
ghost use Rattle.tt_label.specs.Made.{AreLaid, IsMadeLabel, label_shapes};
ghost use Rattle.tt_label.specs.Views.{placements_of};
ghost use Rattle.tt_line.specs.Outcome.{placement_of};
ghost use Rattle.tt_picture.specs.Cached.{limit_of};
ghost use Rattle.tt_strike.specs.Defects.{IsLineDefect, TellsDefects};
ghost use Rattle.tt_strike.specs.Job.{tested};
ghost use Rattle.tt_strike.specs.Refusals.{refusal};
ghost use Rattle.tt_strike.specs.Strikes.{IsCacheOf, job_by};
ghost use Rattle.tt_strike.specs.Work.{is_bounded};

use crate::finding::label_units;
use crate::fitting::{FittedLabel, fitted_label};
use crate::joining::{joint_line, joint_of};
use std::alloc::{AllocError, Global};
use tt_core::DrawFault;
use tt_line::{Align, Line, lay_lines};
use tt_picture::{Cache, Glyphs};
use tt_strike::{Laid, SizedFace, is_bounded, test_margin, test_text};

/// The lines of a label in its picture, and their distinct glyphs.
#[derive(Drop)]
pub(crate) struct MadeLabel {
    pub(crate) lines: Vec<Laid>,
    pub(crate) glyphs: Glyphs,
}

/// Some lines with their margin. Error: Memory.
pub fn with_margin(alloc: Global, lines: Vec<Line>, margin: u32) -> Result<Vec<Laid>, AllocError>
    requires { margin ≤ margin_limit }
    ensures lines { IfOk result (λ v. placements_of v.items ≡ map placement_of lines.items) }
    ensures margin { IfOk result (λ v. All (λ l. l.margin ≡ margin) v.items) }
{
    let mut made = Vec::with_capacity(alloc, lines.len())?;
    for line in lines {
        made.push(Laid { line, margin })?;
    }
    Ok(made)
}

/// The lines of a text, laid out by the steps of their glyphs, which are made first; only where work is bounded. Errors,
/// the first of: those of loca and glyf, of the programs; WorkLarge of the points, and of the deltas; those of the
/// glyphs in the order of the text; PictureLarge; WorkLarge of the chords, and of the crossings. Memory may come at any
/// allocation.
fn make_by_steps(
    sized: &mut SizedFace,
    text: &str,
    margin: u32,
    align: Align,
    cache: &mut Cache,
) -> Result<MadeLabel, DrawFault>
    requires cache { IsCacheOf sized.old cache.old }
    requires bounded { is_bounded sized.old.fit ≡ true }
    requires tested { tested (job_by sized.old text.now margin) ≡ Ok tt }
    requires margin { margin ≤ margin_limit }
    requires text { length (chars text.now) ≤ text_limit }
    ensures made { IfOk result (λ m. IsMadeLabel sized.old.face (job_by sized.old text.now margin) align m.lines.items m.glyphs.made.items m.glyphs.cost) }
    ensures stops { IfTold refusal result (λ r. label_shapes sized.old.face (job_by sized.old text.now margin) align ≡ Err r) }
    ensures defects { TellsDefects draw_font_fault (IsLineDefect sized.old.face (job_by sized.old text.now margin) (label_glyphs sized.old.face.cmap text.now)) result }
    ensures cache { IsCacheOf sized.old cache.new }
    ensures limit { limit_of cache.new ≡ limit_of cache.old }
    ensures same { sized.new ≡ sized.old }
{
    let alloc = sized.alloc();
    let face = sized.face();
    let ppem = sized.ppem();
    let label = fitted_label(sized, text, cache)?;
    let FittedLabel { steps, units } = label;
    let laid = lay_lines(alloc, face.metrics(), steps, ppem, margin, align)?;
    let lines = with_margin(alloc, laid, margin)?;
    let joined = joint_line(alloc, &lines, margin)?;
    let glyphs = sized.drawn_units(units, joint_of(&lines, &joined), cache)?;
    Ok(MadeLabel { lines, glyphs })
}

/// The lines of a text, laid out by advances; only where work is not bounded. Errors, the first of: those of the
/// advances, at an instance without HVAR alone; PictureLarge. Memory may come at any allocation.
fn lay_label(
    sized: &mut SizedFace,
    text: &str,
    margin: u32,
    align: Align,
) -> Result<Vec<Laid>, DrawFault>
    requires unbounded { is_bounded sized.old.fit ≡ false }
    requires tested { tested (job_by sized.old text.now margin) ≡ Ok tt }
    requires margin { margin ≤ margin_limit }
    requires text { length (chars text.now) ≤ text_limit }
    ensures exact { GivesUnless refusal (λ v. placements_of v.items) result (label_placed sized.old.face (job_by sized.old text.now margin) align) }
    ensures laid { IfOk result (λ v. AreLaid sized.old.face margin v.items) }
    ensures defects { TellsDefects draw_font_fault (IsAdvanceDefect sized.old.face (label_glyphs sized.old.face.cmap text.now)) result }
    ensures same { sized.new ≡ sized.old }
{
    let alloc = sized.alloc();
    let face = sized.face();
    let ppem = sized.ppem();
    let steps = label_units(sized, text)?;
    let laid = lay_lines(alloc, face.metrics(), steps, ppem, margin, align)?;
    Ok(with_margin(alloc, laid, margin)?)
}

/// The lines of a text, laid out by advances, and then their glyphs; only where work is not bounded. Errors, the first
/// of: those of the advances, at an instance without HVAR alone; PictureLarge; those of loca and glyf, of the programs;
/// those of the glyphs in the order of the text. Memory may come at any allocation.
fn make_by_advances(
    sized: &mut SizedFace,
    text: &str,
    margin: u32,
    align: Align,
    cache: &mut Cache,
) -> Result<MadeLabel, DrawFault>
    requires cache { IsCacheOf sized.old cache.old }
    requires unbounded { is_bounded sized.old.fit ≡ false }
    requires tested { tested (job_by sized.old text.now margin) ≡ Ok tt }
    requires margin { margin ≤ margin_limit }
    requires text { length (chars text.now) ≤ text_limit }
    ensures made { IfOk result (λ m. IsMadeLabel sized.old.face (job_by sized.old text.now margin) align m.lines.items m.glyphs.made.items m.glyphs.cost) }
    ensures stops { IfTold refusal result (λ r. label_shapes sized.old.face (job_by sized.old text.now margin) align ≡ Err r) }
    ensures defects { TellsDefects draw_font_fault (IsLineDefect sized.old.face (job_by sized.old text.now margin) (label_glyphs sized.old.face.cmap text.now)) result }
    ensures cache { IsCacheOf sized.old cache.new }
    ensures limit { limit_of cache.new ≡ limit_of cache.old }
    ensures same { sized.new ≡ sized.old }
{
    let lines = lay_label(sized, text, margin, align)?;
    let joined = joint_line(sized.alloc(), &lines, margin)?;
    let glyphs = sized.tested_glyphs(joint_of(&lines, &joined), cache)?;
    Ok(MadeLabel { lines, glyphs })
}

/// The lines of a text, with their glyphs. Errors, the first of: MarginRange, TextLong; those of the fit.
pub(crate) fn make_label(
    sized: &mut SizedFace,
    text: &str,
    margin: u32,
    align: Align,
    cache: &mut Cache,
) -> Result<MadeLabel, DrawFault>
    requires cache { IsCacheOf sized.old cache.old }
    ensures made { IfOk result (λ m. IsMadeLabel sized.old.face (job_by sized.old text.now margin) align m.lines.items m.glyphs.made.items m.glyphs.cost) }
    ensures stops { IfTold refusal result (λ r. label_shapes sized.old.face (job_by sized.old text.now margin) align ≡ Err r) }
    ensures defects { TellsDefects draw_font_fault (IsLineDefect sized.old.face (job_by sized.old text.now margin) (label_glyphs sized.old.face.cmap text.now)) result }
    ensures cache { IsCacheOf sized.old cache.new }
    ensures limit { limit_of cache.new ≡ limit_of cache.old }
    ensures same { sized.new ≡ sized.old }
{
    let by_steps = is_bounded(sized.source.fit);
    test_margin(margin)?;
    test_text(text)?;
    if by_steps {
        return make_by_steps(sized, text, margin, align, cache);
    }
    make_by_advances(sized, text, margin, align, cache)
}
